//! Scenes of several passes, event by event, and what they leave.
ghost use Rattle.std.specs.Prelude.{◌≡◌, ◌≤◌, ◌<◌, ◌^◌, [], ◌∷◌, pos, length, false, IfOk};
ghost use Rattle.sto_core.specs.Event.{Start, Open, Word, Close};
ghost use Rattle.sto_core.specs.Opened.{opened_core};
ghost use Rattle.sto_plain.specs.Passes.{Can, stepped};
ghost use Rattle.sto_test_scenes.specs.Scenes.{always, one_put, one_add, three_passes, first_reads, second_reads, third_reads, fourth_reads, first_gave_up, other_committed, first_failed, other_written, went_on, other_added};
ghost use Rattle.sto_item.specs.Pending.{is_keep};

use std::alloc::Global;
use std::process::Abort;
use sto_core::Cells;
use sto_item::Updates;
use sto_part::{Change, Contents, NoMemory, Parts, Update};
use sto_plain::Plain;
use sto_test_scenes::{
    Always, both_draw, close_both, commits_further, draws_further, first_fails, first_gives_up,
    first_loads, first_reads, first_takes, first_tries_again, goes_on, other_adds, other_commits,
    other_draws, other_draws_sum, other_reads, other_writes, reads_later, rests_on_read,
    second_commits,
};
use sto_version::{FREE0, Version};

// Passes over two parts of one word each.
fn open_words(
    alloc: Global,
    passes: u32,
    first: i64,
    second: i64,
) -> Result<Plain<Always>, NoMemory>
    requires { (1 ≤ passes) × (passes ≤ 65536) }
    ensures { IfOk result (λ p. p ≡ opened_core [] ((first ∷ []) ∷ (second ∷ []) ∷ []) passes) }
{
    let mut contents = Contents::new(alloc, &[1, 1])?;
    contents.set_word(0, 0, first);
    contents.set_word(1, 0, second);
    Plain::open(alloc, &Always, &contents, passes)
}

// The same, or the test ends for want of memory.
fn words(rt: &impl Abort, alloc: Global, passes: u32, first: i64, second: i64) -> Plain<Always>
    requires { (1 ≤ passes) × (passes ≤ 65536) }
    ensures { result ≡ opened_core [] ((first ∷ []) ∷ (second ∷ []) ∷ []) passes }
{
    open_words(alloc, passes, first, second).expect(rt, "memory")
}

fn starts(rt: &impl Abort, plain: Plain<Always>, pass: u32, clock: u64) -> Plain<Always>
    requires { Can always Start plain pass }
    ensures { result ≡ stepped Start plain pass }
{
    let mut at = plain.at(pass);
    assert_eq!(rt; at.start(), clock);
    at.back()
}

fn opens(
    rt: &impl Abort,
    plain: Plain<Always>,
    pass: u32,
    part: u32,
    found: Version,
) -> Plain<Always>
    requires { Can always (Open part) plain pass }
    ensures { result ≡ stepped (Open part) plain pass }
{
    let mut at = plain.at(pass);
    assert_eq!(rt; at.open(part), found);
    at.back()
}

fn reads(rt: &impl Abort, plain: Plain<Always>, pass: u32, part: u32, value: i64) -> Plain<Always>
    requires { Can always (Word part 0) plain pass }
    ensures { result ≡ stepped (Word part 0) plain pass }
{
    let mut at = plain.at(pass);
    assert_eq!(rt; at.word(part, 0), value);
    at.back()
}

fn closes(
    rt: &impl Abort,
    plain: Plain<Always>,
    pass: u32,
    part: u32,
    found: Version,
) -> Plain<Always>
    requires { Can always (Close part) plain pass }
    ensures { result ≡ stepped (Close part) plain pass }
{
    let mut at = plain.at(pass);
    assert_eq!(rt; at.close(part), found);
    at.back()
}

fn read_first(rt: &impl Abort, plain: Plain<Always>) -> Plain<Always>
    requires { plain ≡ three_passes }
    ensures { result ≡ first_reads }
{
    let plain = starts(rt, plain, 0, 0);
    let plain = starts(rt, plain, 1, 0);
    let plain = opens(rt, plain, 0, 0, FREE0);
    let plain = opens(rt, plain, 1, 1, FREE0);
    reads(rt, plain, 1, 1, 7)
}

fn read_second(rt: &impl Abort, plain: Plain<Always>) -> Plain<Always>
    requires { plain ≡ first_reads }
    ensures { result ≡ second_reads }
{
    let plain = starts(rt, plain, 2, 0);
    let plain = reads(rt, plain, 0, 0, 5);
    let plain = opens(rt, plain, 2, 0, FREE0);
    closes(rt, plain, 1, 1, FREE0)
}

fn read_third(rt: &impl Abort, plain: Plain<Always>) -> Plain<Always>
    requires { plain ≡ second_reads }
    ensures { result ≡ third_reads }
{
    let plain = closes(rt, plain, 0, 0, FREE0);
    let plain = opens(rt, plain, 0, 1, FREE0);
    let plain = reads(rt, plain, 2, 0, 5);
    opens(rt, plain, 1, 0, FREE0)
}

fn read_fourth(rt: &impl Abort, plain: Plain<Always>) -> Plain<Always>
    requires { plain ≡ third_reads }
    ensures { result ≡ fourth_reads }
{
    let plain = closes(rt, plain, 2, 0, FREE0);
    let plain = reads(rt, plain, 0, 1, 7);
    let plain = closes(rt, plain, 0, 1, FREE0);
    reads(rt, plain, 1, 0, 5)
}

fn read_fifth(rt: &impl Abort, plain: Plain<Always>)
    requires { plain ≡ fourth_reads }
{
    let plain = opens(rt, plain, 2, 1, FREE0);
    let plain = closes(rt, plain, 1, 0, FREE0);
    let plain = reads(rt, plain, 2, 1, 7);
    closes(rt, plain, 2, 1, FREE0);
}

// Three passes read both parts, each event of one pass among events of the others.
#[test]
fn three_passes_read(rt: HostRuntime) {
    let plain = words(&rt, rt.alloc(), 3, 5, 7);
    let plain = read_first(&rt, plain);
    let plain = read_second(&rt, plain);
    let plain = read_third(&rt, plain);
    let plain = read_fourth(&rt, plain);
    read_fifth(&rt, plain);
}

// The one update that changes the one word of a part.
fn one_update(alloc: Global, part: u32, change: Change) -> Result<Updates, NoMemory>
    requires { is_keep change ≡ false }
    ensures { IfOk result (λ u. u.items ≡ (part, change ∷ []) ∷ []) }
{
    let mut update = Update::keep(alloc, 1)?;
    update.set_change(0, change);
    let mut updates = Updates::new(alloc);
    updates.push((part, update))?;
    Ok(updates)
}

// The update that puts a value.
fn put(rt: &impl Abort, alloc: Global, part: u32, value: i64) -> Updates
    ensures { result.items ≡ one_put part value }
{
    one_update(alloc, part, Change::Put(value)).expect(rt, "memory")
}

// The update that adds a value.
fn addition(rt: &impl Abort, alloc: Global, part: u32, value: i64) -> Updates
    ensures { result.items ≡ one_add part value }
{
    one_update(alloc, part, Change::Add(value)).expect(rt, "memory")
}

// These parts.
fn parts(rt: &impl Abort, alloc: Global, numbers: &[u32]) -> Parts
    requires { length numbers.now < 2 ^ 32 }
    ensures { result.items ≡ numbers.now }
{
    let mut made = Parts::new(alloc);
    made.extend(numbers).expect(rt, "memory");
    made
}

// The later ticket commits while the earlier one is undecided, which is then dropped.
fn both_end(rt: &impl Abort, alloc: Global) -> (Plain<Always>, u64, u64)
    ensures words { result.0 ≡ first_gave_up }
    ensures tickets { (result.1 ≡ 1) × (result.2 ≡ 2) }
{
    let first = put(rt, alloc, 0, 1);
    let second = put(rt, alloc, 1, 9);
    let plain = words(rt, alloc, 2, 0, 0);
    let (plain, earlier, later) = both_draw(plain, &first, &second, &Parts::new(alloc));
    (first_gives_up(second_commits(plain)), earlier, later)
}

#[test]
fn later_ticket_commits_first(rt: HostRuntime) {
    let (plain, earlier, later) = both_end(&rt, rt.alloc());
    assert!(rt; earlier == 1 && later == 2);
    let contents = plain.contents().expect(&rt, "memory");
    assert!(rt; contents.word(0, 0) == 0 && contents.word(1, 0) == 9);
}

// Two passes have read a word, and one commits the word plus 1.
fn other_wins(
    rt: &impl Abort,
    alloc: Global,
    updates: &Updates,
    seen: &Parts,
) -> (Plain<Always>, u64)
    requires updates { updates.now.items ≡ one_put 0 (pos 1) }
    requires seen { seen.now.items ≡ 0 ∷ [] }
    ensures words { result.0 ≡ other_committed }
    ensures ticket { result.1 ≡ 1 }
{
    let plain = other_reads(first_reads(words(rt, alloc, 2, 0, 0)));
    let (plain, ticket) = other_draws(plain, updates, seen, &Parts::new(alloc));
    (other_commits(plain), ticket)
}

// The other one tries again, by what it reads then.
fn try_again(rt: &impl Abort, alloc: Global, plain: Plain<Always>, seen: &Parts)
    requires plain { plain ≡ first_failed }
    requires seen { seen.now.items ≡ 0 ∷ [] }
{
    let updates = put(rt, alloc, 0, 2);
    let (_, ticket) = first_tries_again(plain, &updates, seen, &Parts::new(alloc));
    assert_eq!(rt; ticket, 3);
}

// Two passes add 1 to a word that both have read. The one commits; the check of the other finds its
// ticket, and a second attempt reads again.
#[test]
fn example_of_a_lost_update_that_is_found(rt: HostRuntime) {
    let updates = put(&rt, rt.alloc(), 0, 1);
    let seen = parts(&rt, rt.alloc(), &[0]);
    let (plain, won) = other_wins(&rt, rt.alloc(), &updates, &seen);
    let (plain, lost, found) = first_fails(plain, &updates, &seen, &Parts::new(rt.alloc()));
    assert!(rt; won == 1 && lost == 2 && found.ticket() == 1 && found.is_locked());
    try_again(&rt, rt.alloc(), plain, &seen);
}

// A pass has read a part, and another one writes the other part.
fn written_later(rt: &impl Abort, alloc: Global) -> (Plain<Always>, u64)
    ensures words { result.0 ≡ other_written }
    ensures ticket { result.1 ≡ 1 }
{
    let updates = put(rt, alloc, 1, 9);
    let plain = first_reads(words(rt, alloc, 2, 0, 0));
    other_writes(plain, &updates, &Parts::new(alloc))
}

// A part is written after another was read. The reader renews its number and reads it.
#[test]
fn example_of_a_later_part(rt: HostRuntime) {
    let (plain, ticket) = written_later(&rt, rt.alloc());
    let (_, word) = reads_later(plain);
    assert!(rt; ticket == 1 && word == 9);
}

// The same, where the reader writes the later part by what it read before.
#[test]
fn example_of_a_recheck(rt: HostRuntime) {
    let (plain, _) = written_later(&rt, rt.alloc());
    let updates = put(&rt, rt.alloc(), 1, 8);
    let seen = parts(&rt, rt.alloc(), &[0]);
    let (_, ticket) = rests_on_read(plain, &updates, &seen, &Parts::new(rt.alloc()));
    assert_eq!(rt; ticket, 2);
}

// Words are closed, and opened again with one pass.
fn opened_again(rt: &impl Abort, alloc: Global) -> Plain<Always>
    ensures { result ≡ went_on }
{
    let (plain, _, _) = both_end(rt, alloc);
    let closed = close_both(plain);
    assert_eq!(rt; closed.clock(), 2);
    goes_on(closed).expect(rt, "memory")
}

// The one pass goes on from the clock as it was.
#[test]
fn example_of_closed_words(rt: HostRuntime) {
    let plain = opened_again(&rt, rt.alloc());
    let updates = put(&rt, rt.alloc(), 1, 8);
    let (plain, ticket) = draws_further(plain, &updates, &Parts::new(rt.alloc()));
    let plain = commits_further(plain);
    let contents = plain.contents().expect(&rt, "memory");
    assert!(rt; ticket == 3 && contents.word(1, 0) == 8);
}

// A part is added to after another pass has read it.
fn sum_added(rt: &impl Abort, alloc: Global) -> Plain<Always>
    ensures { result ≡ other_added }
{
    let added = addition(rt, alloc, 0, 5);
    let loaded = parts(rt, alloc, &[0]);
    let plain = first_reads(words(rt, alloc, 2, 0, 0));
    let (plain, _) = other_draws_sum(plain, &added, &Parts::new(alloc), &loaded);
    other_adds(plain)
}

// The reader takes 2 from what it loads under its hold, where a part that it tests is as it was.
#[test]
fn example_of_loaded_parts(rt: HostRuntime) {
    let plain = first_loads(sum_added(&rt, rt.alloc()));
    let taken = addition(&rt, rt.alloc(), 0, -2);
    let loaded = parts(&rt, rt.alloc(), &[0, 1]);
    let (_, ticket) = first_takes(plain, &taken, &Parts::new(rt.alloc()), &loaded);
    assert_eq!(rt; ticket, 2);
}
