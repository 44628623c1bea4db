//! The text of a summary.
ghost use Rattle.std.specs.Prelude.{◌≡◌, ◌++◌, ◌<◌, ◌≤◌, ◌^◌, length, codes, decimal, IfOk, OnOk, string_bytes};
ghost use Rattle.std.specs.Fmt.{signed_decimal};
ghost use Rattle.sto_report_spec.specs.Report.{rows_of};
ghost use Rattle.sto_bench.specs.Summary.{rows_named, total_of, line_of, summary_of};

use std::alloc::{AllocError, Global};
use std::fmt::Write;
use sto_gen::{ACCT, LOG, OWNER};
use sto_journal::Journal;
use sto_lang::Text;
use sto_model::State;
use sto_part::NoMemory;

/// The sum of the values of rows.
fn total(rows: &[(i64, i64)]) -> i128
    requires { length rows.now < 2 ^ 32 }
    ensures { result ≡ total_of rows.now }
{
    let mut total = 0;
    for row in rows {
        total += i128::from(row.1);
    }
    total
}

#[tactic(auto, using(crate::proofs::Rows::rows_are))]
/// The sum of the values of the accounts.
fn balance(state: &State) -> i128
    requires { 4 ≤ length state.now.items }
    ensures { result ≡ total_of (rows_named state.now.items (codes "acct")) }
{
    total(state.get(ACCT).as_slice())
}

#[tactic(auto, using(crate::proofs::Rows::rows_are))]
/// How many pairs an object has.
fn pair_count(state: &State, object: u32) -> u32
    requires { object < length state.now.items }
    ensures { result ≡ length (rows_of state.now.items object) }
{
    state.get(object).len()
}

fn push_count(out: &mut String, word: &str, count: u64) -> Result<(), AllocError>
    ensures { OnOk result (string_bytes out.new ≡ string_bytes out.old ++ line_of word.now (decimal count)) }
{
    write!(out, "{word} {count}\n")
}

fn push_balance(out: &mut String, balance: i128) -> Result<(), AllocError>
    ensures { OnOk result (string_bytes out.new ≡ string_bytes out.old ++ line_of (codes "acct") (signed_decimal balance)) }
{
    write!(out, "acct {balance}\n")
}

fn push_summary(out: &mut String, number: u64, journal: &Journal) -> Result<(), AllocError>
    requires { 4 ≤ length journal.now.state.items }
    ensures { OnOk result (string_bytes out.new ≡ string_bytes out.old
        ++ summary_of number (length journal.now.lines.items) journal.now.state.items) }
{
    let Journal { lines, state, .. } = journal;
    push_count(out, "bench", number)?;
    push_count(out, "transactions", u64::from(lines.len()))?;
    push_balance(out, balance(state))?;
    push_count(out, "log", u64::from(pair_count(state, LOG)))?;
    push_count(out, "owner", u64::from(pair_count(state, OWNER)))?;
    Ok(())
}

/// The summary of a run of the file that a number generates, in five lines of a word and a number each:
///
/// | Word | Number |
/// |---|---|
/// | `bench` | the number that the file comes from |
/// | `transactions` | how many transactions the journal tells of |
/// | `acct` | the sum of all balances that the run left |
/// | `log` | how many pairs the log has |
/// | `owner` | how many pairs the table of owners has |
pub fn summary(alloc: Global, number: u64, journal: &Journal) -> Result<Text, NoMemory>
    requires { 4 ≤ length journal.now.state.items }
    ensures { IfOk result (λ text. text.items ≡ summary_of number (length journal.now.lines.items) journal.now.state.items) }
{
    let mut out = String::new(alloc);
    match push_summary(&mut out, number, journal) {
        Ok(()) => Text::of_string(out),
        Err(AllocError) => Err(NoMemory),
    }
}
