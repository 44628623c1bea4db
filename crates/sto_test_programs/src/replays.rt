//! The replay of a report of the generated script, in the order of its own journal.
//!
//! What the transactions of that script do is written down here once more, over plain maps. It shares nothing with the program.
use std::alloc::{AllocError, Global};
use std::collections::BTreeMap;
use std::fmt::Write;
use std::mem;

// The threads of the generated script, and the transactions of each.
const THREADS: usize = 16;

const TRANSACTIONS: usize = 200;

/// A transaction of the generated script.
#[derive(Drop)]
pub struct Transfer {
    // The account that it reads, and how much is to be there.
    account: i64,
    least: i64,
    // What it then adds to accounts.
    additions: Vec<(i64, i64)>,
    // The pair that it puts into the log.
    logged: Option<(i64, i64)>,
    // The pair that it puts into the table of owners.
    owned: Option<(i64, i64)>,
}

// The number after these words.
fn number_after(line: &str, words: &str) -> Option<i64> {
    line.strip_prefix(words)?.parse().ok()
}

// The two numbers after these words.
fn pair_after(line: &str, words: &str) -> Option<(i64, i64)> {
    let (first, second) = line.strip_prefix(words)?.split_once(' ')?;
    Some((first.parse().ok()?, second.parse().ok()?))
}

impl Transfer {
    fn new(alloc: Global) -> Self {
        Transfer {
            account: 0,
            least: 0,
            additions: Vec::new(alloc),
            logged: None,
            owned: None,
        }
    }

    // Takes a line of its text.
    fn take(&mut self, line: &str) -> Result<(), AllocError> {
        if let Some(account) = number_after(line, "x = get acct ") {
            self.account = account;
        } else if let Some(least) = number_after(line, "if x ge ") {
            self.least = least;
        } else if let Some(addition) = pair_after(line, "add acct ") {
            self.additions.push(addition)?;
        } else if let Some(pair) = pair_after(line, "put log ") {
            self.logged = Some(pair);
        } else if let Some(pair) = pair_after(line, "put owner ") {
            self.owned = Some(pair);
        }
        Ok(())
    }
}

/// The transactions of the generated script, thread by thread.
pub fn transfers_of(alloc: Global, script: &str) -> Result<Vec<Transfer>, AllocError> {
    let mut transfers = Vec::new(alloc);
    let mut next = Transfer::new(alloc);
    for line in script.lines() {
        next.take(line)?;
        if line == "commit" {
            transfers.push(mem::replace(&mut next, Transfer::new(alloc)))?;
        }
    }
    Ok(transfers)
}

// The objects of the generated script.
#[derive(Drop)]
struct Ledger {
    accounts: BTreeMap<i64, i64>,
    done: i64,
    owners: BTreeMap<i64, i64>,
    log: BTreeMap<i64, i64>,
}

impl Ledger {
    fn new(alloc: Global) -> Result<Self, AllocError> {
        let mut accounts = BTreeMap::new(alloc);
        for account in 0..64 {
            accounts.insert(account, 1000)?;
        }
        Ok(Ledger {
            accounts,
            done: 0,
            owners: BTreeMap::new(alloc),
            log: BTreeMap::new(alloc),
        })
    }

    fn balance(&self, account: i64) -> i64 {
        self.accounts.get(&account).copied().unwrap_or(0)
    }

    // Runs a transaction, and adds its replies to a text. It answers whether it wrote something.
    fn run(&mut self, transfer: &Transfer, replies: &mut String) -> Result<bool, AllocError> {
        let found = self.balance(transfer.account);
        write!(replies, " {found}")?;
        if found >= transfer.least {
            self.add(transfer.additions.as_slice(), replies)?;
        }
        if let Some((key, value)) = transfer.logged {
            self.log.insert(key, value)?;
            replies.push_str(" ok")?;
        }
        if let Some((key, value)) = transfer.owned {
            self.owners.insert(key, value)?;
            replies.push_str(" ok")?;
        }
        Ok(found >= transfer.least || transfer.logged.is_some() || transfer.owned.is_some())
    }

    // Adds to accounts, and counts the transfer.
    fn add(&mut self, additions: &[(i64, i64)], replies: &mut String) -> Result<(), AllocError> {
        for (account, change) in additions {
            let sum = self.balance(*account).wrapping_add(*change);
            self.accounts.insert(*account, sum)?;
            replies.push_str(" ok")?;
        }
        self.done = self.done.wrapping_add(1);
        replies.push_str(" ok")
    }

    fn push_state(&self, text: &mut String) -> Result<(), AllocError> {
        text.push_str("state\nacct = [")?;
        push_values(text, &self.accounts)?;
        write!(text, "]\ndone = {}\nowner = [", self.done)?;
        push_pairs(text, &self.owners)?;
        text.push_str("]\nlog = [")?;
        push_pairs(text, &self.log)?;
        text.push_str("]\n")
    }
}

fn push_values(text: &mut String, map: &BTreeMap<i64, i64>) -> Result<(), AllocError> {
    let mut is_later = false;
    for (_, value) in map.iter() {
        if is_later {
            text.push_str(",")?;
        }
        write!(text, "{value}")?;
        is_later = true;
    }
    Ok(())
}

fn push_pairs(text: &mut String, map: &BTreeMap<i64, i64>) -> Result<(), AllocError> {
    let mut is_later = false;
    for (key, value) in map.iter() {
        if is_later {
            text.push_str(",")?;
        }
        write!(text, "{key}:{value}")?;
        is_later = true;
    }
    Ok(())
}

// Transactions that were run one after the other, and the text of a report of them.
#[derive(Drop)]
struct Replay {
    ledger: Ledger,
    // How many of each thread.
    ended: Vec<usize>,
    writers: u32,
    text: String,
}

impl Replay {
    fn new(alloc: Global) -> Result<Self, AllocError> {
        Ok(Replay {
            ledger: Ledger::new(alloc)?,
            ended: vec![in alloc; 0; THREADS]?,
            writers: 0,
            text: String::new(alloc),
        })
    }

    // Whether the transaction is the next one of its thread. If so, it is now among those that have ended.
    fn is_next(&mut self, thread: usize, position: usize) -> bool {
        let Some(ended) = self.ended.get_mut(thread) else {
            return false;
        };
        let is_next = *ended < TRANSACTIONS && position == ended.saturating_add(1);
        if is_next {
            *ended = position;
        }
        is_next
    }

    // Runs the transaction at a place, and adds its line.
    fn run(
        &mut self,
        alloc: Global,
        transfer: &Transfer,
        thread: usize,
        position: usize,
    ) -> Result<(), AllocError> {
        let mut replies = String::new(alloc);
        let has_written = self.ledger.run(transfer, &mut replies)?;
        let end = if has_written { "commit" } else { "read" };
        self.writers = self.writers.saturating_add(u32::from(has_written));
        writeln!(
            self.text,
            "{} t{thread}.{position} {end}{replies}",
            self.writers
        )
    }

    fn has_run_all(&self) -> bool {
        self.ended.iter().all(|ended| *ended == TRANSACTIONS)
    }
}

// The thread and the position of a journal line; none where it is another line.
fn place_of(line: &str) -> Option<(usize, usize)> {
    let mut words = line.split(' ');
    let _writers: u32 = words.next()?.parse().ok()?;
    let (thread, position) = words.next()?.strip_prefix("t")?.split_once('.')?;
    Some((thread.parse().ok()?, position.parse().ok()?))
}

fn without_aborts(alloc: Global, report: &str) -> Result<String, AllocError> {
    let mut text = String::new(alloc);
    for line in report.lines() {
        if !line.starts_with("abort ") {
            text.push_str(line)?;
            text.push_str("\n")?;
        }
    }
    Ok(text)
}

/// Whether a report of the generated script tells every transaction once, in rising position along each thread, and tells of them, and of
/// the state, what they do one after the other in the order of its lines. Lines of aborted attempts are passed over.
pub fn is_replay(alloc: Global, transfers: &[Transfer], report: &str) -> Result<bool, AllocError> {
    let mut replay = Replay::new(alloc)?;
    for line in report.lines() {
        let Some((thread, position)) = place_of(line) else {
            break;
        };
        if !replay.is_next(thread, position) {
            return Ok(false);
        }
        let place = thread
            .saturating_mul(TRANSACTIONS)
            .saturating_add(position)
            .saturating_sub(1);
        let Some(transfer) = transfers.get(place) else {
            return Ok(false);
        };
        replay.run(alloc, transfer, thread, position)?;
    }
    let Replay { ledger, text, .. } = &mut replay;
    ledger.push_state(text)?;
    Ok(replay.has_run_all() && without_aborts(alloc, report)?.as_str() == replay.text.as_str())
}
