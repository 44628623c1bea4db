//! What no clause says: the calls with ample memory, and the ends of the numbers.
ghost use Rattle.std.specs.Prelude.{◌≡◌, replicate, length, IfOk};
ghost use Rattle.sto_part.specs.Parts.{zeros};

use std::alloc::Global;
use sto_part::*;

#[test]
fn calls_with_ample_memory(rt: HostRuntime) {
    let alloc = rt.alloc();
    let cases = [
        example_counter(alloc),
        largest_contents(alloc),
        calls_of_lists(alloc),
        calls_of_contents(alloc),
        appended_contents(alloc),
    ];
    assert_eq!(rt; cases, [Ok(true); 5]);
}

// A counter of one part holds 10. One update adds 3 to it and a second takes 5 away; they are one
// update that takes 2 away, and what is said of the counter is true of 8.
fn example_counter(alloc: Global) -> Result<bool, NoMemory> {
    let mut contents = Contents::new(alloc, &[1])?;
    contents.set_word(0, 0, 10);
    let change = three_more_and_five_less(alloc)?;
    let value = apply_word(change, contents.word(0, 0));
    contents.set_word(0, 0, value);
    let held = [holds(&AT_LEAST_FIVE, 8), holds(&AT_LEAST_FIVE, 7)];
    Ok(change == Change::Add(-2) && contents.word(0, 0) == 8 && held == [true, false])
}

fn three_more_and_five_less(alloc: Global) -> Result<Change, NoMemory> {
    let mut update = Update::keep(alloc, 1)?;
    update.set_change(0, Change::Add(3));
    update.set_change(0, then(update.change(0), Change::Add(-5)));
    Ok(update.change(0))
}

const AT_LEAST_FIVE: Pred = Pred {
    part: 0,
    word: 0,
    shift: -3,
    test: Test::Ge,
    bound: 5,
};

// So many parts of the same width.
fn parts_of_width(alloc: Global, parts: u32, width: u32) -> Result<Contents, NoMemory>
    ensures { IfOk result (λ c. c.items ≡ zeros (replicate parts width)) }
{
    let widths = List::filled(alloc, width, parts)?;
    Contents::new(alloc, widths.as_slice())
}

// A part, a word of it and its value; none where there is no such word.
type Place = (u32, u32, Option<i64>);

const LAST_WORD_WRITTEN: &[Place] = &[
    (4095, 15, Some(i64::MIN)),
    (4095, 14, Some(0)),
    (4094, 15, Some(0)),
    (4095, 16, None),
    (4096, 0, None),
];

fn largest_contents(alloc: Global) -> Result<bool, NoMemory> {
    let mut contents = parts_of_width(alloc, 4096, 16)?;
    let measures = (
        contents.parts(),
        contents.width(4095),
        contents.word(4095, 15),
    );
    contents.set_word(4095, 15, i64::MIN);
    Ok(measures == (4096, 16, 0) && has_words(&contents, LAST_WORD_WRITTEN))
}

fn has_words(contents: &Contents, places: &[Place]) -> bool {
    for (part, word, value) in places {
        if word_at(contents, *part, *word) != *value {
            return false;
        }
    }
    true
}

fn word_at(contents: &Contents, part: u32, word: u32) -> Option<i64> {
    (part < contents.parts() && word < contents.width(part)).then(|| contents.word(part, word))
}

// A change, a word before it and the word after it.
const APPLIED: &[(Change, i64, i64)] = &[
    (Change::Add(1), i64::MAX, i64::MIN),
    (Change::Add(-1), i64::MIN, i64::MAX),
    (Change::Add(i64::MIN), i64::MIN, 0),
    (Change::Put(i64::MIN), i64::MAX, i64::MIN),
    (Change::Keep, i64::MIN, i64::MIN),
];

#[test]
fn changes_at_the_ends(rt: HostRuntime) {
    for (change, old, new) in APPLIED {
        assert_eq!(rt; apply_word(*change, *old), *new);
    }
}

// Two changes, and the one that does what both do.
const COMPOSED: &[(Change, Change, Change)] = &[
    (Change::Put(i64::MAX), Change::Add(1), Change::Put(i64::MIN)),
    (
        Change::Add(i64::MIN),
        Change::Add(-1),
        Change::Add(i64::MAX),
    ),
    (Change::Add(7), Change::Put(2), Change::Put(2)),
    (Change::Keep, Change::Add(7), Change::Add(7)),
    (Change::Put(7), Change::Keep, Change::Put(7)),
];

#[test]
fn two_changes_at_the_ends(rt: HostRuntime) {
    for (first, second, both) in COMPOSED {
        assert_eq!(rt; then(*first, *second), *both);
    }
}

// A test with a shift and a bound, a value, and whether it holds of it.
type Row = (Test, i64, i64, i64, bool);

const WRAPPED: &[Row] = &[
    (Test::Lt, i64::MAX, 1, 0, true),
    (Test::Ge, -1, i64::MIN, i64::MAX, true),
    (Test::Eq, 1, i64::MAX, i64::MIN, true),
    (Test::Gt, 0, i64::MAX, i64::MAX, false),
    (Test::Le, 0, i64::MIN, i64::MIN, true),
    (Test::Ne, 1, i64::MAX, i64::MIN, false),
];

#[test]
fn predicates_that_wrap(rt: HostRuntime) {
    for (test, shift, value, bound, wanted) in WRAPPED {
        let held = both_ways(*test, *shift, *bound, *value);
        assert_eq!(rt; held, (*wanted, !*wanted));
    }
}

// Whether a predicate holds of a value, and whether its opposite does.
fn both_ways(test: Test, shift: i64, bound: i64, value: i64) -> (bool, bool) {
    let pred = Pred {
        part: 0,
        word: 0,
        shift,
        test,
        bound,
    };
    let opposite = Pred {
        test: negate(test),
        ..pred
    };
    (holds(&pred, value), holds(&opposite, value))
}

#[test]
fn codes(rt: HostRuntime) {
    let words = [
        word_of(&i64::MIN),
        word_of(&true),
        word_of(&u32::MAX),
        word_of(&'a'),
    ];
    assert_eq!(rt; words, [i64::MIN, 1, 4_294_967_295, 97]);
    let are_codes = [
        is_code::<bool>(2),
        is_code::<bool>(-1),
        is_code::<u32>(-1),
        is_code::<u32>(4_294_967_296),
        is_code::<char>(0xd800),
        is_code::<char>(0x10_ffff),
    ];
    assert_eq!(rt; are_codes, [false, false, false, false, false, true]);
    assert!(rt; is_pair_coded());
}

// The word of a value that is coded into one, after one way there and back.
fn word_of<W: Word + Copy>(value: &W) -> i64 {
    let mut words = [0];
    value.encode(&mut words);
    W::decode(&words).encode(&mut words);
    words[0]
}

fn is_code<W: Word>(word: i64) -> bool {
    W::is_code(&[word])
}

fn is_pair_coded() -> bool {
    let mut words = [0, 0];
    (7_i64, true).encode(&mut words);
    let codes = [
        <(i64, bool)>::is_code(&words),
        <(i64, bool)>::is_code(&[7, 2]),
    ];
    words == [7, 1] && codes == [true, false] && <(i64, bool)>::decode(&words) == (7, true)
}

const FILLED: &[u32] = &[3, 5, 6, 7, 9];

const LEFT: &[u32] = &[3, 6, 7];

fn calls_of_lists(alloc: Global) -> Result<bool, NoMemory> {
    let mut list = filled(alloc)?;
    let copy = list.copied()?;
    let as_filled = list.as_slice() == FILLED && is_copied(&copy)?;
    let taken = (list.remove(1), list.pop());
    let left = list.as_slice() == LEFT && copy != list;
    Ok(Parts::new(alloc).is_empty() && as_filled && taken == (5, Some(9)) && left)
}

fn filled(alloc: Global) -> Result<Parts, NoMemory>
    ensures { IfOk result (λ l. length l.items ≡ 5) }
{
    let mut list = Parts::new(alloc);
    list.push(4)?;
    list.reserve(2)?;
    list.push_spare(6);
    list.insert_spare(1, 5);
    list.extend(&[7])?;
    list.append(List::filled(alloc, 8, 1)?)?;
    list.set(0, 3);
    *list.get_mut(4) += 1;
    Ok(list)
}

fn is_copied(copy: &Parts) -> Result<bool, NoMemory> {
    Ok(copy.len() == 5 && *copy == copy.copied()?)
}

const TWO_ONES: &[i64] = &[1, 1];

fn calls_of_contents(alloc: Global) -> Result<bool, NoMemory> {
    let mut contents = two_parts(alloc)?;
    let is_filled = contents.len() == 2 && contents.get(0).as_slice() == TWO_ONES;
    Ok(is_filled && contents.pop().map(|part| part.len()) == Some(1))
}

fn two_parts(alloc: Global) -> Result<Contents, NoMemory>
    ensures { IfOk result (λ c. length c.items ≡ 2) }
{
    let mut contents = Contents::new(alloc, &[])?;
    contents.push(PartWords::filled(alloc, 1, 2)?)?;
    contents.reserve(1)?;
    contents.push_spare(PartWords::filled(alloc, 2, 1)?);
    Ok(contents)
}

const ONE_TWO: &[i64] = &[2];

const THREE_ZEROS: &[i64] = &[0, 0, 0];

fn appended_contents(alloc: Global) -> Result<bool, NoMemory> {
    let mut contents = three_parts(alloc)?;
    contents.append(Contents::new(alloc, &[])?)?;
    let is_behind = contents.get(2).as_slice() == THREE_ZEROS;
    Ok(contents.len() == 3 && is_behind && contents.get(1).as_slice() == ONE_TWO)
}

// Two parts, and behind them one of three words.
fn three_parts(alloc: Global) -> Result<Contents, NoMemory>
    ensures { IfOk result (λ c. length c.items ≡ 3) }
{
    let mut contents = two_parts(alloc)?;
    contents.append(Contents::new(alloc, &[3])?)?;
    Ok(contents)
}
