//! The type of a record.
ghost use Rattle.std.specs.Prelude.{◌≡◌, ◌<◌, ◌^◌, [], ◌∷◌, ℤ, List as Seq, length, false, Some, IfOk};
ghost use Rattle.std.specs.Int.{w64};
ghost use Rattle.std.specs.Int.RustNames.{FitsSigned};
ghost use Rattle.std.specs.Option.{option_map};
ghost use Rattle.sto_model.specs.PlainReplies.{Done as ToldDone, Value as ToldValue, Pairs as ToldPairs};
ghost use Rattle.sto_part.specs.declared.pred.Test.TheVariants.{Eq as TestEq};
ghost use Rattle.sto_item.specs.declared.item.Item.TheVariants.{Seen};
ghost use Rattle.sto_item.specs.Pending.{is_keep};
ghost use Rattle.sto_type.specs.Plans.{Ask, Say, planned};
ghost use Rattle.sto_type.specs.Reading.{when_known};
ghost use Rattle.sto_type.specs.Telling.{plan_of};
ghost use Rattle.sto_type.specs.Numbered.{numbered, index_of};
ghost use Rattle.sto_type.specs.Words.{word, compared, at_word};
ghost use Rattle.sto_record.specs.Recorded.{record_meaning, record_telling, takes_by, IsRecordOf};
ghost use Rattle.sto_record.specs.RecordedLaw.{record_lawful};

use std::alloc::Global;
use sto_container::absent;
use sto_item::Item;
use sto_model::{Call, Operation, Reply, State};
use sto_part::{Change, Contents, Naming, NoMemory, PartWords, Test};
use sto_type::{
    Answer, AnswerPool, Home, KnownParts, TxType, compares, index_in, one_change, one_item,
    pairs_of, rows_of, word_at,
};

/// A record of so many words. Its contents are one part.
#[derive(Drop)]
pub struct TRecord {
    width: u32,
    first: i64,
    ghost few: { width < 2 ^ 32 },
    ghost fits: { FitsSigned w64 first },
}

impl TRecord {
    /// A record that holds this number in each word at first.
    pub fn new(width: u32, first: i64) -> TRecord
        ensures width { result.width ≡ width }
        ensures first { result.first ≡ first }
    {
        TRecord { width, first }
    }
}

impl Naming for TRecord {
    ghost sizes = { λ x. x.width ∷ [] };

    ghost valid = { λ sizes c. IsRecordOf sizes c };
}

impl TxType for TRecord {
    ghost meaning = { λ x. record_meaning x.width x.first };

    ghost valid_is = { λ _ c. (λ h. h, λ h. h) };

    ghost lawful = { λ x. record_lawful x.width x.first x.fits };

    fn objects(&self) -> u32 {
        1
    }

    fn parts(&self) -> u32 {
        1
    }

    fn width(&self, part: u32) -> u32 {
        self.width
    }

    fn home(&self, part: u32) -> Home {
        Home {
            object: 0,
            local: part,
        }
    }

    fn takes(&self, call: &Call) -> bool {
        let _first = call.a;
        let _second = call.b;
        call.object == 0 && call.c == 0 && is_taken(call.operation)
    }

    fn opening(&self, alloc: Global) -> Result<Contents, NoMemory> {
        let mut contents = Contents::new(alloc, &[])?;
        contents.push(PartWords::filled(alloc, self.first, self.width)?)?;
        Ok(contents)
    }

    fn rows_at(&self, alloc: Global, contents: &Contents, first: u32) -> Result<State, NoMemory> {
        let rows = rows_of(alloc, contents.get(first).as_slice())?;
        let mut state = State::new(alloc);
        state.push(rows)?;
        Ok(state)
    }

    fn plan(
        &self,
        alloc: Global,
        pool: &mut AnswerPool,
        call: &Call,
        cache: &KnownParts<'_>,
    ) -> Result<Answer, NoMemory> {
        answer(alloc, pool, self.width, call, cache.get(0))
    }
}

// Whether a record takes calls of this operation.
fn is_taken(operation: Operation) -> bool
    ensures { result ≡ takes_by operation }
{
    matches!(
        operation,
        Operation::Get | Operation::Set | Operation::Add | Operation::Scan
    )
}

// The answer by the words of the part, where they are known.
fn answer(
    alloc: Global,
    pool: &mut AnswerPool,
    width: u32,
    call: &Call,
    words: Option<&[i64]>,
) -> Result<Answer, NoMemory>
    requires { (ws : Seq ℤ) → option_map (λ w. w.now) words ≡ Some ws → length ws < 2 ^ 32 }
    ensures { IfOk result (λ a. planned a ≡ plan_of (record_telling width call.now.operation (index_of width call.now.a) call.now.b)
        (λ p. option_map (λ w. w.now) words.entry)) }
{
    match call.operation {
        Operation::Scan => scan_answer(alloc, pool, words),
        Operation::Get => match index_in(width, call.a) {
            None => absent(pool),
            Some(place) => get_answer(pool, place, words),
        },
        Operation::Set => match index_in(width, call.a) {
            None => absent(pool),
            Some(place) => change_answer(pool, width, place, Change::Put(call.b)),
        },
        Operation::Add => match index_in(width, call.a) {
            None => absent(pool),
            Some(place) => change_answer(pool, width, place, Change::Add(call.b)),
        },
        _ => absent(pool),
    }
}

fn scan_answer(
    alloc: Global,
    pool: &mut AnswerPool,
    words: Option<&[i64]>,
) -> Result<Answer, NoMemory>
    requires { (ws : Seq ℤ) → option_map (λ w. w.now) words ≡ Some ws → length ws < 2 ^ 32 }
    ensures { IfOk result (λ a. planned a ≡ when_known (option_map (λ w. w.now) words.entry) (Ask 0)
        (λ ws. Say (ToldPairs (numbered 0 ws)) (Seen 0 ∷ []) [])) }
{
    match words {
        None => Ok(Answer::Need(0)),
        Some(words) => Ok(Answer::Done {
            reply: Reply::Pairs(pairs_of(alloc, words)?),
            items: one_item(pool, Item::Seen(0))?,
            updates: pool.updates(),
        }),
    }
}

fn get_answer(pool: &mut AnswerPool, place: u32, words: Option<&[i64]>) -> Result<Answer, NoMemory>
    ensures { IfOk result (λ a. planned a ≡ when_known (option_map (λ w. w.now) words.entry) (Ask 0)
        (λ ws. Say (ToldValue (word ws place)) (compared 0 place TestEq (word ws place) ∷ []) [])) }
{
    match words {
        None => Ok(Answer::Need(0)),
        Some(words) => {
            let value = word_at(words, place);
            Ok(Answer::Done {
                reply: Reply::Value(value),
                items: one_item(pool, compares(0, place, Test::Eq, value))?,
                updates: pool.updates(),
            })
        }
    }
}

fn change_answer(
    pool: &mut AnswerPool,
    width: u32,
    place: u32,
    change: Change,
) -> Result<Answer, NoMemory>
    requires place { place < width }
    requires changes { is_keep change ≡ false }
    ensures { IfOk result (λ a. planned a ≡ Say ToldDone [] ((0, at_word width place change) ∷ [])) }
{
    let update = one_change(pool, width, place, change)?;
    let items = pool.items();
    let mut updates = pool.updates();
    updates.push((0, update))?;
    Ok(Answer::Done {
        reply: Reply::Done,
        items,
        updates,
    })
}
