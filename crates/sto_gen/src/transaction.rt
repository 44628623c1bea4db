//! One transaction of the generated file.
ghost use Rattle.std.specs.Prelude.{◌≡◌, ◌<◌, ◌≤◌, IfOk, OnOk, None};
ghost use Rattle.sto_lang.specs.declared.arg.Arg.TheVariants.{Num};
ghost use Rattle.sto_lang.specs.declared.stmt.Stmt.TheVariants.{Ask};
ghost use Rattle.sto_lang.specs.Statements.{◌then◌};
ghost use Rattle.sto_lang.specs.Views.{script};
ghost use Rattle.sto_gen.specs.Generated.{moves, log_note, owner_note, statements, note_weight, transaction};

use crate::draws::Transfer;
use std::alloc::Global;
use sto_lang::{Arg, Names, Script, Stmt, Stmts, Text};
use sto_model::Operation;
use sto_part::{List, NoMemory, Test};

/// The number of the counter of transfers among the objects of a generated file.
pub const DONE: u32 = 0;

/// The number of the accounts among the objects of a generated file.
pub const ACCT: u32 = 1;

/// The number of the table of owners among the objects of a generated file.
pub const OWNER: u32 = 2;

/// The number of the log among the objects of a generated file.
pub const LOG: u32 = 3;

/// A call with two numbers, whose answer no variable takes.
fn call(object: u32, operation: Operation, a: i64, b: i64) -> Stmt
    ensures { result ≡ Ask None object operation (Num a) (Num b) }
{
    Stmt::Ask {
        to: None,
        object,
        operation,
        a: Arg::Num(a),
        b: Arg::Num(b),
    }
}

/// The moves of a transfer: out of an account, into another, and one more that is done.
fn moves(alloc: Global, transfer: &Transfer) -> Result<Stmts, NoMemory>
    requires accounts { (transfer.now.from < 64) × (transfer.now.to < 64) }
    requires amount { transfer.now.amount ≤ 100 }
    ensures { IfOk result (λ s. s ≡ moves transfer.now) }
{
    let amount = transfer.amount as i64;
    let mut moves = Stmts::new(alloc);
    moves.push(call(ACCT, Operation::Add, transfer.from as i64, -amount))?;
    moves.push(call(ACCT, Operation::Add, transfer.to as i64, amount))?;
    moves.push(call(DONE, Operation::Add, 1, 0))?;
    Ok(moves)
}

/// Adds a line to the log, in each 20th transaction.
#[tactic(auto, using(crate::proofs::Steps::then_nothing))]
fn push_log_note(body: &mut Stmts, thread: u64, position: u64, amount: u8) -> Result<(), NoMemory>
    requires thread { thread < 16 }
    requires position { position ≤ 200 }
    requires amount { amount ≤ 100 }
    ensures { OnOk result (body.new ≡ body.old then log_note thread position amount) }
{
    if position % 20 == 0 {
        let key = 1000 * thread + position;
        body.push(call(LOG, Operation::Put, key as i64, amount as i64))?;
    }
    Ok(())
}

/// Adds an owner, in each 25th transaction.
#[tactic(auto, using(crate::proofs::Steps::then_nothing))]
fn push_owner_note(body: &mut Stmts, thread: u64, position: u64) -> Result<(), NoMemory>
    requires thread { thread < 16 }
    requires position { position ≤ 200 }
    ensures { OnOk result (body.new ≡ body.old then owner_note thread position) }
{
    if position % 25 == 0 {
        let key = 8 * thread + position / 25;
        body.push(call(OWNER, Operation::Put, key as i64, thread as i64))?;
    }
    Ok(())
}

/// The statements of a transaction: the moves where the balance is large enough, and the notes.
fn statements(
    alloc: Global,
    thread: u64,
    position: u64,
    transfer: &Transfer,
) -> Result<Stmts, NoMemory>
    requires thread { thread < 16 }
    requires position { position ≤ 200 }
    requires accounts { (transfer.now.from < 64) × (transfer.now.to < 64) }
    requires amount { transfer.now.amount ≤ 100 }
    ensures { IfOk result (λ s. s ≡ statements thread position transfer.now) }
{
    let mut body = Stmts::new(alloc);
    body.push(Stmt::Ask {
        to: Some(0),
        object: ACCT,
        operation: Operation::Get,
        a: Arg::Num(transfer.from as i64),
        b: Arg::Num(0),
    })?;
    let least = Arg::Num(transfer.amount as i64);
    let moved = moves(alloc, transfer)?;
    body.push_choice(Arg::Var(0), Test::Ge, least, &moved, &Stmts::new(alloc))?;
    push_log_note(&mut body, thread, position, transfer.amount)?;
    push_owner_note(&mut body, thread, position)?;
    Ok(body)
}

/// The weight of the notes of a transaction.
fn note_weight(position: u64) -> u32
    ensures { result ≡ note_weight position }
{
    u32::from(position % 20 == 0) + u32::from(position % 25 == 0)
}

/// The transaction with this position, from 1, in its thread.
pub(crate) fn transaction(
    alloc: Global,
    thread: u64,
    position: u64,
    transfer: &Transfer,
) -> Result<Script, NoMemory>
    requires thread { thread < 16 }
    requires position { position ≤ 200 }
    requires accounts { (transfer.now.from < 64) × (transfer.now.to < 64) }
    requires amount { transfer.now.amount ≤ 100 }
    ensures { IfOk result (λ s. script s ≡ transaction thread position transfer.now) }
{
    let mut names = List::new(alloc);
    names.push(Text::of(alloc, "x")?)?;
    Ok(Script {
        vars: Names::of(alloc, names)?,
        body: statements(alloc, thread, position, transfer)?,
        weight: 6 + note_weight(position),
    })
}
