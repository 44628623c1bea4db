//! An object of two words, each in a part of its own, so that needs, offsets and updates of several parts are seen at work.
ghost use Rattle.std.specs.Prelude.{◌≡◌, ℤ, [], ◌∷◌, pos, IfOk};
ghost use Rattle.std.specs.Int.{w64};
ghost use Rattle.std.specs.Int.RustNames.{FitsSigned};
ghost use Rattle.sto_test_alone.specs.Split.{split_meaning, IsSplit};
ghost use Rattle.sto_test_alone.specs.SplitLaw.{split_lawful};
ghost use Rattle.sto_part.specs.declared.change.Change.TheVariants.{Put};
ghost use Rattle.sto_model.specs.PlainReplies as Told;
ghost use Rattle.sto_type.specs.Plans.{Say, planned};

use std::alloc::Global;
use sto_item::{Item, Items, Updates};
use sto_model::{Call, Operation, Pairs, Reply, Rows, Shape, State};
use sto_part::{Change, Contents, Naming, NoMemory, Update};
use sto_type::{Answer, AnswerPool, Home, KnownParts, TxType};

#[derive(Drop)]
pub(crate) struct Split {
    first: i64,
    second: i64,
    ghost fits: { FitsSigned w64 first },
    ghost fits_too: { FitsSigned w64 second },
}

impl Split {
    pub(crate) fn new(first: i64, second: i64) -> Split {
        Split { first, second }
    }
}

impl Naming for Split {
    ghost sizes = { λ _. [] };

    ghost valid = { λ _ c. IsSplit c };
}

impl TxType for Split {
    ghost meaning = { λ x. split_meaning x.first x.second };

    ghost valid_is = { λ _ c. (λ h. h, λ h. h) };

    ghost lawful = { λ x. split_lawful x.first x.second x.fits x.fits_too };

    fn objects(&self) -> u32 {
        1
    }

    fn parts(&self) -> u32 {
        2
    }

    fn width(&self, part: u32) -> u32 {
        1
    }

    fn home(&self, part: u32) -> Home {
        Home {
            object: 0,
            local: part,
        }
    }

    fn takes(&self, call: &Call) -> bool {
        let _first = call.a;
        let _second = call.b;
        call.object == 0 && Shape::Single(0).takes_call(call)
    }

    fn opening(&self, alloc: Global) -> Result<Contents, NoMemory> {
        let mut contents = Contents::new(alloc, &[1, 1])?;
        contents.set_word(0, 0, self.first);
        contents.set_word(1, 0, self.second);
        Ok(contents)
    }

    fn rows_at(&self, alloc: Global, contents: &Contents, first: u32) -> Result<State, NoMemory> {
        let _parts = contents.parts();
        let rows = two_rows(alloc, contents.word(first, 0), contents.word(first + 1, 0))?;
        let mut state = State::new(alloc);
        state.push(rows)?;
        Ok(state)
    }

    fn plan(
        &self,
        alloc: Global,
        pool: &mut AnswerPool,
        call: &Call,
        cache: &KnownParts<'_>,
    ) -> Result<Answer, NoMemory> {
        match call.operation {
            Operation::Get => {
                let Some(first) = cache.get(0) else {
                    return Ok(Answer::Need(0));
                };
                let Some(second) = cache.get(1) else {
                    return Ok(Answer::Need(1));
                };
                both_read(alloc, first[0], second[0])
            }
            _ => Ok(Answer::Done {
                reply: Reply::Done,
                items: Items::new(alloc),
                updates: put_both(alloc, call.a, call.b)?,
            }),
        }
    }
}

fn two_rows(alloc: Global, first: i64, second: i64) -> Result<Rows, NoMemory>
    ensures { IfOk result (λ r. r.items ≡ (pos 0, first) ∷ (pos 1, second) ∷ []) }
{
    let mut rows = Rows::new(alloc);
    rows.push((0, first))?;
    rows.push((1, second))?;
    Ok(rows)
}

fn both_read(alloc: Global, first: i64, second: i64) -> Result<Answer, NoMemory>
    ensures { IfOk result (λ a. planned a ≡ Say (Told.Pairs ((first, second) ∷ [])) (Item.Seen 0 ∷ Item.Seen 1 ∷ []) []) }
{
    let mut pairs = Pairs::new(alloc);
    pairs.push((first, second))?;
    let mut items = Items::new(alloc);
    items.push(Item::Seen(0))?;
    items.push(Item::Seen(1))?;
    Ok(Answer::Done {
        reply: Reply::Pairs(pairs),
        items,
        updates: Updates::new(alloc),
    })
}

fn put_both(alloc: Global, first: i64, second: i64) -> Result<Updates, NoMemory>
    ensures { IfOk result (λ u. u.items ≡ (0, Put first ∷ []) ∷ (1, Put second ∷ []) ∷ []) }
{
    let mut updates = Updates::new(alloc);
    updates.push((0, put_one(alloc, first)?))?;
    updates.push((1, put_one(alloc, second)?))?;
    Ok(updates)
}

fn put_one(alloc: Global, value: i64) -> Result<Update, NoMemory>
    ensures { IfOk result (λ u. u.items ≡ Put value ∷ []) }
{
    let mut update = Update::new(alloc);
    update.push(Change::Put(value))?;
    Ok(update)
}
