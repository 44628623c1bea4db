//! A type with bodies of its own for the callbacks: how often an attempt asks it, alone and as a member of others.
ghost use Rattle.std.specs.Prelude.{◌<◌, ◌^◌, length};
ghost use Rattle.sto_counter.specs.Counted.{counter_meaning};
ghost use Rattle.sto_counter.specs.CountedLaw.{counter_lawful};

use crate::alone::calls::Calls;
use crate::alone::{NotRun, are_taken, boxes, get, set, side_by_side};
use std::alloc::Global;
use std::cell::Cell;
use sto_counter::TCounter;
use sto_item::Item;
use sto_model::{Call, End, Operation, State};
use sto_part::{Change, Contents, Naming, NoMemory, Pred, apply_word, holds};
use sto_plain::Plain;
use sto_test_alone::run_transaction_alone;
use sto_type::{Answer, AnswerPool, Home, KnownParts, Many, TxType};

// How often callbacks were called.
#[derive(Drop)]
struct Tally {
    guards: Cell<u32>,
    checks: Cell<u32>,
    installs: Cell<u32>,
}

impl Tally {
    fn new() -> Tally {
        Tally {
            guards: Cell::new(0),
            checks: Cell::new(0),
            installs: Cell::new(0),
        }
    }

    fn counts(&self) -> Counts {
        Counts {
            guards: self.guards.get(),
            checks: self.checks.get(),
            installs: self.installs.get() > 0,
        }
    }
}

// What is told of them. What has changed a word is also applied where an attempt learns it anew, so it counts only that there was one.
#[derive(Clone, Copy, PartialEq, Eq, Debug)]
struct Counts {
    guards: u32,
    checks: u32,
    installs: bool,
}

fn note(count: &Cell<u32>) {
    count.set(count.get().saturating_add(1));
}

// A counter that notes each call of its callbacks.
#[derive(Drop)]
struct Noting<'t> {
    counter: TCounter,
    tally: &'t Tally,
}

impl<'t> Noting<'t> {
    fn new(first: i64, tally: &'t Tally) -> Noting<'t> {
        Noting {
            counter: TCounter::new(first),
            tally,
        }
    }
}

impl Naming for Noting<'_> {
    ghost sizes = { λ x. ⟦<TCounter as Naming>⟧.sizes x.counter };

    ghost valid = { ⟦<TCounter as Naming>⟧.valid };
}

impl TxType for Noting<'_> {
    ghost meaning = { λ x. counter_meaning x.counter.first };

    ghost valid_is = { λ _ c. (λ h. h, λ h. h) };

    ghost lawful = { λ x. counter_lawful x.counter.first x.counter.fits };

    fn objects(&self) -> u32 {
        self.counter.objects()
    }

    fn parts(&self) -> u32 {
        self.counter.parts()
    }

    fn width(&self, part: u32) -> u32 {
        self.counter.width(part)
    }

    fn home(&self, part: u32) -> Home {
        self.counter.home(part)
    }

    fn takes(&self, call: &Call) -> bool {
        self.counter.takes(call)
    }

    fn opening(&self, alloc: Global) -> Result<Contents, NoMemory> {
        self.counter.opening(alloc)
    }

    fn rows_at(&self, alloc: Global, contents: &Contents, first: u32) -> Result<State, NoMemory> {
        self.counter.rows_at(alloc, contents, first)
    }

    fn plan(
        &self,
        alloc: Global,
        pool: &mut AnswerPool,
        call: &Call,
        cache: &KnownParts<'_>,
    ) -> Result<Answer, NoMemory> {
        self.counter.plan(alloc, pool, call, cache)
    }

    fn guard(&self, item: &Item) -> u32 {
        note(&self.tally.guards);
        item.part()
    }

    fn check(&self, pred: &Pred, value: i64) -> bool {
        note(&self.tally.checks);
        holds(pred, value)
    }

    fn install(&self, change: Change, old: i64) -> i64 {
        if !matches!(change, Change::Keep) {
            note(&self.tally.installs);
        }
        apply_word(change, old)
    }
}

// Runs calls as one transaction beside nothing, which commits.
fn commit<T: TxType>(alloc: Global, ty: &T, calls: &[Call]) -> Result<(), NotRun>
    requires { length calls.now < 2 ^ 32 }
{
    if !are_taken(ty, calls) {
        return Err(NotRun::NotTaken);
    }
    let contents = ty.opening(alloc)?;
    let words = Plain::open(alloc, ty, &contents, 1)?;
    let body = Calls::new(alloc, calls, End::Commit)?;
    let (_words, ran) = run_transaction_alone(alloc, ty, words, body);
    let _record = ran?;
    Ok(())
}

fn take(object: u32, amount: i64) -> Call {
    Call::new(object, Operation::Take, amount, 0)
}

// How often the callbacks of a counter of 10 are called where these calls commit.
fn counts_of(alloc: Global, calls: &[Call]) -> Result<Counts, NotRun>
    requires { length calls.now < 2 ^ 32 }
{
    let tally = Tally::new();
    commit(alloc, &Noting::new(10, &tally), calls)?;
    Ok(tally.counts())
}

fn two_counters<'t>(
    alloc: Global,
    one: &'t Tally,
    other: &'t Tally,
) -> Result<Many<Noting<'t>>, NoMemory> {
    let mut counters = Many::new(alloc);
    counters.push(Noting::new(10, one))?;
    counters.push(Noting::new(20, other))?;
    Ok(counters)
}

// The same of two counters that stand behind a box, whose predicates an attempt tests.
fn counts_of_two(alloc: Global) -> Result<[Counts; 2], NotRun> {
    let (one, other) = (Tally::new(), Tally::new());
    let mixture = side_by_side(boxes(alloc, &[0])?, two_counters(alloc, &one, &other)?)?;
    let calls = [set(0, 1, 0), take(1, 5), take(2, 5), take(2, 3)];
    commit(alloc, &mixture, &calls)?;
    Ok([one.counts(), other.counts()])
}

fn asked(guards: u32, checks: u32, installs: bool) -> Counts {
    Counts {
        guards,
        checks,
        installs,
    }
}

// Each take observes a predicate: the attempt asks once for its part, and once whether it is true.
#[test]
fn attempts_ask_a_type(rt: HostRuntime) {
    let alloc = rt.alloc();
    let (taken, refused) = ([take(0, 5), take(0, 3)], [take(0, 11)]);
    assert_eq!(rt; counts_of(alloc, &taken), Ok(asked(2, 2, true)));
    assert_eq!(rt; counts_of(alloc, &refused), Ok(asked(0, 0, false)));
}

// A part that is seen is tested by its version alone.
#[test]
fn attempts_test_no_predicate_of_a_part_that_is_seen(rt: HostRuntime) {
    let counts = counts_of(rt.alloc(), &[get(0), take(0, 5)]);
    assert_eq!(rt; counts, Ok(asked(2, 0, true)));
}

// Members are asked in the place of a mixture. What a change makes of a word the mixture says itself, since it is told no part.
#[test]
fn attempts_ask_the_members_of_a_mixture(rt: HostRuntime) {
    let counts = counts_of_two(rt.alloc());
    assert_eq!(rt; counts, Ok([asked(1, 1, false), asked(2, 2, false)]));
}
