//! What no clause says: the calls on the worked rows, with ample memory.
ghost use Rattle.std.specs.Prelude.{◌≡◌, ◌<◌, ◌^◌, [], ◌∷◌, length, pos, OnOk, IfOk};
ghost use Rattle.sto_item.specs.Pending.{with_update, IsWidthOf};
ghost use Rattle.sto_item.specs.Rebase.{HoldsWherePut};

use std::alloc::Global;
use sto_item::*;
use sto_part::{Change, NoMemory, Pred, Test, Update};

// That the one word of a part is at least a number, with a shift.
macro_rules! at_least {
    ($part:expr, $shift:expr, $bound:expr) => {
        Item::Holds(Pred {
            part: $part,
            word: 0,
            shift: $shift,
            test: Test::Ge,
            bound: $bound,
        })
    };
}

// A part and the changes of its words.
type Entry = (u32, &'static [Change]);

// A watch without its predicates, but with their number.
type WatchShape = (u32, bool, u32);

#[test]
fn worked_rows(rt: HostRuntime) {
    let alloc = rt.alloc();
    let cases = [
        asks_with_a_shift(alloc),
        records_what_it_does(alloc),
        items_below_updates(alloc),
        watches_in_rising_order(alloc),
        updates_in_rising_order(alloc),
        a_list_of_updates(alloc),
    ];
    assert_eq!(rt; cases, [Ok(true); 6]);
}

// An update of a part with so many words.
fn update_of(alloc: Global, changes: &[Change]) -> Result<Update, NoMemory>
    requires { length changes.now < 2 ^ 32 }
    ensures { IfOk result (λ u. u.items ≡ changes.now) }
{
    let mut made = Update::new(alloc);
    made.extend(changes)?;
    Ok(made)
}

fn items_of(alloc: Global, items: &[Item]) -> Result<Items, NoMemory>
    requires { length items.now < 2 ^ 32 }
    ensures { IfOk result (λ l. l.items ≡ items.now) }
{
    let mut made = Items::new(alloc);
    made.extend(items)?;
    Ok(made)
}

// A set with these items, and no update.
fn set_of(alloc: Global, items: &[Item]) -> Result<ItemSet, NoMemory>
    requires { length items.now < 2 ^ 32 }
{
    let mut set = ItemSet::new(alloc);
    for item in items {
        set.add_item(*item)?;
    }
    Ok(set)
}

fn add(alloc: Global, set: &mut ItemSet, part: u32, changes: &[Change]) -> Result<(), NoMemory>
    requires few { length changes.now < 2 ^ 32 }
    requires width { IsWidthOf set.old.updates part changes.now }
    ensures { OnOk result (set.new.updates ≡ with_update set.old.updates part changes.now) }
{
    set.add_update(part, &update_of(alloc, changes)?)
}

// A set with one update, which adds to the one word of a part.
fn updated_by(alloc: Global, part: u32, more: i64) -> Result<ItemSet, NoMemory>
    ensures { IfOk result (λ s. s.updates ≡ (part, Change.Add more ∷ []) ∷ []) }
{
    let mut set = ItemSet::new(alloc);
    add(alloc, &mut set, part, &[Change::Add(more)])?;
    Ok(set)
}

// Whether these are left of the items below the updates.
fn are_below(
    alloc: Global,
    items: &[Item],
    over: &ItemSet,
    wanted: &[Item],
) -> Result<bool, NoMemory>
    requires few { length items.now < 2 ^ 32 }
    requires holds { HoldsWherePut over.now.updates items.now }
{
    let below = rebase(alloc, &items_of(alloc, items)?, over)?;
    Ok(below.as_slice() == wanted)
}

fn is_observed(set: &ItemSet, wanted: &[WatchShape]) -> Result<bool, NoMemory> {
    Ok(are_watches(&set.observed()?, wanted))
}

fn are_watches(watches: &Watches, wanted: &[WatchShape]) -> bool {
    if watches.len() as usize != wanted.len() {
        return false;
    }
    for place in 0..watches.len() {
        if shape_of(watches.get(place)) != wanted[place as usize] {
            return false;
        }
    }
    true
}

fn shape_of(watch: &Watch) -> WatchShape {
    (watch.part, watch.seen, watch.preds.len())
}

fn is_updated(set: &ItemSet, wanted: &[Entry]) -> Result<bool, NoMemory> {
    Ok(are_updates(&set.updates()?, wanted))
}

fn are_updates(updates: &Updates, wanted: &[Entry]) -> bool {
    if updates.len() as usize != wanted.len() {
        return false;
    }
    for place in 0..updates.len() {
        if !is_entry(updates.get(place), &wanted[place as usize]) {
            return false;
        }
    }
    true
}

fn is_entry(update: &(u32, Update), wanted: &Entry) -> bool {
    update.0 == wanted.0 && update.1.as_slice() == wanted.1
}

// A transaction adds 3 to a counter, asks whether it is at least 5, and takes 5 of it. Both
// calls observe the counter with the pending 3, so on the counter itself they ask with a shift.
const COUNTER: u32 = 0;

const ABOVE: &[Item] = &[at_least!(COUNTER, 0, 5)];

const SHIFTED: &[Item] = &[at_least!(COUNTER, 3, 5)];

fn asks_with_a_shift(alloc: Global) -> Result<bool, NoMemory> {
    let set = updated_by(alloc, COUNTER, 3)?;
    let updated = [
        has_updates_when_new(alloc),
        set.has_updates(),
        set.overwrites(COUNTER),
    ];
    Ok(are_below(alloc, ABOVE, &set, SHIFTED)? && updated == [false, true, false])
}

fn has_updates_when_new(alloc: Global) -> bool {
    ItemSet::new(alloc).has_updates()
}

const FIVE_LESS: &[Change] = &[Change::Add(-5)];

fn records_what_it_does(alloc: Global) -> Result<bool, NoMemory> {
    let mut set = updated_by(alloc, COUNTER, 3)?;
    add(alloc, &mut set, COUNTER, FIVE_LESS)?;
    set.add_item(at_least!(COUNTER, 3, 5))?;
    is_recorded(&set)
}

const OBSERVED_ONCE: &[WatchShape] = &[(COUNTER, false, 1)];

const TWO_LESS: &[Entry] = &[(COUNTER, &[Change::Add(-2)])];

fn is_recorded(set: &ItemSet) -> Result<bool, NoMemory> {
    let recorded = set.pending(COUNTER, 0) == Change::Add(-2) && set.items() == SHIFTED;
    Ok(recorded && is_observed(set, OBSERVED_ONCE)? && is_updated(set, TWO_LESS)?)
}

const BOTH_PUT: &[Change] = &[Change::Put(7), Change::Put(8)];

const FIRST_PUT: &[Change] = &[Change::Put(7), Change::Keep];

const FIVE_MORE: &[Change] = &[Change::Add(5)];

// Part 0 is overwritten, part 1 is so in its first word, and part 2 has an addition.
fn updated_thrice(alloc: Global) -> Result<ItemSet, NoMemory>
    ensures { IfOk result (λ s. s.updates ≡ (0, Change.Put (pos 7) ∷ Change.Put (pos 8) ∷ []) ∷ (1, Change.Put (pos 7) ∷ Change.Keep ∷ [])
        ∷ (2, Change.Add (pos 5) ∷ []) ∷ []) }
{
    let mut set = ItemSet::new(alloc);
    add(alloc, &mut set, 0, BOTH_PUT)?;
    add(alloc, &mut set, 1, FIRST_PUT)?;
    add(alloc, &mut set, 2, FIVE_MORE)?;
    Ok(set)
}

const OVER_THRICE: &[Item] = &[
    Item::Seen(0),
    Item::Seen(1),
    Item::Seen(2),
    Item::Seen(3),
    at_least!(0, 0, 7),
    at_least!(2, i64::MAX, 0),
    at_least!(3, 1, 0),
];

const BELOW_THRICE: &[Item] = &[
    Item::Seen(1),
    Item::Seen(2),
    Item::Seen(3),
    at_least!(2, i64::MIN + 4, 0),
    at_least!(3, 1, 0),
];

fn items_below_updates(alloc: Global) -> Result<bool, NoMemory> {
    let over = updated_thrice(alloc)?;
    are_below(alloc, OVER_THRICE, &over, BELOW_THRICE)
}

const OBSERVATIONS: &[Item] = &[
    at_least!(5, 0, 1),
    Item::Seen(3),
    at_least!(3, 0, 1),
    at_least!(5, 0, 2),
    Item::Seen(9),
    at_least!(5, 0, 1),
];

const RISING_WATCHES: &[WatchShape] = &[(3, true, 0), (5, false, 2), (9, true, 0)];

fn watches_in_rising_order(alloc: Global) -> Result<bool, NoMemory> {
    let set = set_of(alloc, OBSERVATIONS)?;
    is_observed(&set, RISING_WATCHES)
}

const ONE_MORE: &[Change] = &[Change::Add(1)];

const PUT_ONE: &[Change] = &[Change::Put(1)];

const RISING_UPDATES: &[Entry] = &[(2, &[Change::Put(1)]), (7, &[Change::Add(i64::MIN)])];

fn updates_in_rising_order(alloc: Global) -> Result<bool, NoMemory> {
    let mut set = updated_by(alloc, 7, i64::MAX)?;
    add(alloc, &mut set, 7, ONE_MORE)?;
    add(alloc, &mut set, 2, PUT_ONE)?;
    Ok(is_updated(&set, RISING_UPDATES)? && set.pending(4, 0) == Change::Keep)
}

const PUT_SIX: &[Change] = &[Change::Put(6)];

const TWO_MORE: &[Change] = &[Change::Add(2)];

fn two_updates(alloc: Global) -> Result<Updates, NoMemory> {
    let mut updates = Updates::new(alloc);
    updates.push((1, update_of(alloc, PUT_SIX)?))?;
    updates.reserve(1)?;
    updates.push_spare((3, update_of(alloc, TWO_MORE)?));
    Ok(updates)
}

const PUSHED: &[Entry] = &[(1, &[Change::Put(6)]), (3, &[Change::Add(2)])];

fn a_list_of_updates(alloc: Global) -> Result<bool, NoMemory> {
    let mut updates = two_updates(alloc)?;
    let copied = are_updates(&updates.copied()?, PUSHED);
    let popped = [
        pop_part(&mut updates),
        pop_part(&mut updates),
        pop_part(&mut updates),
    ];
    Ok(copied && popped == [Some(3), Some(1), None])
}

fn pop_part(updates: &mut Updates) -> Option<u32> {
    updates.pop().map(|entry| entry.0)
}
