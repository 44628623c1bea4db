//! Passes that count on threads of their own, call by call. A call that is left out or changed is refused by what a later one
//! asks.
ghost use Rattle.std.specs.Prelude.{◌≡◌, ◌≤◌, ◌<◌, ◌+◌, ◌-◌, [], ◌∷◌, ◌++◌, IfOk};
ghost use Rattle.sto_test_layers.specs.Counter.{always, one_more, Counts, IsCounter, Rests};
ghost use Rattle.sto_table.specs.Rests.{IsOf};

use std::alloc::Global;
use std::io;
use std::thread::{Threads, join};
use sto_core::Cells;
use sto_item::Updates;
use sto_part::{Change, Contents, Naming, NoMemory, Parts, Update, wrapping_sum};
use sto_table::{Opened, Rest, Rests, Shared, close, open};

// A type at which all contents are valid.
#[derive(Drop)]
struct Always;

impl Naming for Always {
    ghost sizes = { λ _. [] };

    ghost valid = { always };
}

// One transaction adds 1 to the word, where it finds the part free. It answers its ticket.
fn add<C: Cells<Always>>(pass: &mut C, updates: &Updates, none: &Parts) -> Option<u64>
    requires pass { Rests 1 (C.view pass.old) }
    requires updates { (updates.now.items ≡ one_more) × (none.now.items ≡ []) }
    ensures same { C.same pass.old pass.new }
    ensures rests { Rests ((C.view pass.old).draws - 1) (C.view pass.new) }
{
    pass.start();
    let found = pass.lock(0);
    if found.is_locked() {
        return None;
    }
    let value = pass.word(0, 0);
    let ticket = pass.draw(updates, none, none);
    pass.decide(true);
    pass.put(0, 0, wrapping_sum(value, 1));
    pass.release(0);
    Some(ticket)
}

// How many transactions committed, and the ticket of the last one.
type Added = (u32, u64);

// A hundred transactions of one pass, each with at most 64 tries.
fn add_hundred(
    shared: &Shared<Always>,
    rest: Rest<Always>,
    updates: &Updates,
    none: &Parts,
) -> (Added, Rest<Always>)
    requires of { IsOf shared.now rest.seat }
    requires pass { Rests 6400 rest.seat.me.0.view }
    requires updates { (updates.now.items ≡ one_more) × (none.now.items ≡ []) }
    ensures of { IsOf shared.now result.1.seat }
    ensures pass { Rests 0 result.1.seat.me.0.view }
    ensures same { result.1.seat.me.0.view.gathered ≡ rest.seat.me.0.view.gathered }
{
    let mut pass = shared.pass(rest);
    let mut done = 0;
    let mut last = 0;
    let mut tries = 64_u32;
    for _ in 0..6400_u32 {
        if done < 100 && tries > 0 {
            if let Some(ticket) = add(&mut pass, updates, none) {
                done += 1;
                last = ticket;
                tries = 64;
            } else {
                tries -= 1;
            }
        }
    }
    ((done, last), pass.rest())
}

// The update that adds 1.
fn one_update(alloc: Global) -> Result<Updates, NoMemory>
    ensures { IfOk result (λ u. u.items ≡ one_more) }
{
    let mut update = Update::keep(alloc, 1)?;
    update.set_change(0, Change::Add(1));
    let mut updates = Updates::new(alloc);
    updates.push((0, update))?;
    Ok(updates)
}

// What two threads added, and what they left.
#[derive(Drop)]
struct Left {
    first: Added,
    other: Added,
    word: i64,
    ticket: u64,
    clock: u64,
}

// The last two of passes.
fn two_of(rests: &mut Rests<Always>) -> Result<(Rest<Always>, Rest<Always>), NoMemory>
    ensures { IfOk result (λ r. rests.old.items ≡ (rests.new.items ++ r.1 ∷ []) ++ r.0 ∷ []) }
{
    match (rests.pop(), rests.pop()) {
        (Some(first), Some(other)) => Ok((first, other)),
        _ => Err(NoMemory),
    }
}

// A word that two passes may count in.
fn open_two(alloc: Global) -> Result<(Shared<Always>, Rest<Always>, Rest<Always>), NoMemory>
    ensures counter { IfOk result (λ o. IsCounter o.0.table.shared.key.opening.value.items) }
    ensures passes { IfOk result (λ o. o.0.table.shared.key.passes ≡ 2) }
    ensures first { IfOk result (λ o. Counts 6400 o.0 o.1.seat) }
    ensures other { IfOk result (λ o. Counts 6400 o.0 o.2.seat) }
{
    let contents = Contents::new(alloc, &[1])?;
    let Opened { shared, rests } = open(alloc, &Always, &contents, 2)?;
    let mut rests = rests;
    let (first, other) = two_of(&mut rests)?;
    Ok((shared, first, other))
}

// Two threads add at a time, each with its pass.
fn add_both<R: Threads + Sync>(
    rt: &R,
    words: &Shared<Always>,
    first: Rest<Always>,
    other: Rest<Always>,
    updates: &Updates,
    none: &Parts,
) -> ((Added, Rest<Always>), (Added, Rest<Always>))
    requires first { Counts 6400 words.now first.seat }
    requires other { Counts 6400 words.now other.seat }
    requires updates { (updates.now.items ≡ one_more) × (none.now.items ≡ []) }
    ensures first { Counts 0 words.now result.0.1.seat }
    ensures other { Counts 0 words.now result.1.1.seat }
{
    join(
        rt,
        move || -> (Added, Rest<Always>)
            requires own { Counts 6400 words.now first.seat }
            requires updates { (updates.now.items ≡ one_more) × (none.now.items ≡ []) }
            ensures { Counts 0 words.entry.now result.1.seat }
        { add_hundred(words, first, updates, none) },
        move || -> (Added, Rest<Always>)
            requires own { Counts 6400 words.now other.seat }
            requires updates { (updates.now.items ≡ one_more) × (none.now.items ≡ []) }
            ensures { Counts 0 words.entry.now result.1.seat }
        { add_hundred(words, other, updates, none) },
    )
}

// What is left of the words.
fn left_by(
    alloc: Global,
    shared: Shared<Always>,
    rest: Rest<Always>,
    first: Added,
    other: Added,
) -> Result<Left, NoMemory>
    requires of { IsOf shared rest.seat }
    requires all { rest.seat.me.0.view.gathered ≡ shared.table.shared.key.passes }
    requires counter { IsCounter shared.table.shared.key.opening.value.items }
{
    let closed = close(alloc, shared, rest)?;
    Ok(Left {
        first,
        other,
        word: closed.word(0, 0),
        ticket: closed.version(0).ticket(),
        clock: closed.clock(),
    })
}

// Two threads count in one word.
fn both_add<R: Threads + Sync>(rt: &R, alloc: Global) -> Result<Left, NoMemory> {
    let updates = one_update(alloc)?;
    let none = Parts::new(alloc);
    let (shared, first, other) = open_two(alloc)?;
    let ((a, first), (b, other)) = add_both(rt, &shared, first, other, &updates, &none);
    let rest = shared.gather(first, other);
    left_by(alloc, shared, rest, a, b)
}

// How many transactions of both threads committed.
fn commits(left: &Left) -> u64 {
    u64::from(left.first.0) + u64::from(left.other.0)
}

// Whether the word is the number of commits.
fn is_counted(left: &Left) -> bool {
    left.word >= 0 && left.word.cast_unsigned() == commits(left)
}

// Whether the version of the part has the ticket of the last commit.
fn has_last_ticket(left: &Left) -> bool {
    left.ticket == left.first.1.max(left.other.1)
}

/// Two threads that count in one word, each by a pass of its own: no count is lost, whatever the schedule.
pub(crate) fn count<R: Threads + Sync>(rt: &HostRuntime, threads: &R) -> io::Result<()> {
    match both_add(threads, rt.alloc()) {
        Ok(left) => println!(rt;
            "at most 100 commits of each: {}, counted: {}, a ticket for each: {}, the last one's in the version: {}",
            left.first.0 <= 100 && left.other.0 <= 100,
            is_counted(&left),
            commits(&left) <= left.clock,
            has_last_ticket(&left)
        ),
        Err(NoMemory) => println!(rt; "out of memory"),
    }
}
