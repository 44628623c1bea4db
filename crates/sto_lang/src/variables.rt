//! The variables of the transaction that the lines stand in.
ghost use Rattle.std.specs.Prelude.{◌≡◌, ◌+◌, ◌^◌, ◌<◌, [], ◌∷◌, ◌++◌, length, map, position, None, OnOk, IfOk, IfSome};
ghost use Rattle.std.specs.Str.{bytes_eq};

use crate::name_table::NameTable;
use crate::{Names, Text};
use std::alloc::Global;
use std::marker::Model;
use sto_part::{List, NoMemory};
use sto_syntax::Name;

/// Names of a list that a transaction before has, or names of its own.
#[derive(Drop)]
pub(crate) enum Held {
    Shared(Names),
    Own(NameTable),
}

/// The variables of a transaction, in the order in which they are first assigned. No name is copied as long as they are
/// the first of those that a transaction before it has.
#[derive(Drop)]
pub(crate) struct Variables {
    held: Held,
}

impl Model for Variables {
    ghost use Rattle.std.specs.Prelude.{ℕ, List};
    ghost use Rattle.sto_lang.specs.HeldNames.{names_held, AreHeld};

    ghost Value = { List (List ℕ) };

    ghost view = { λ v. names_held v.held };

    ghost invariant = { λ v. AreHeld v.held };
}

/// Copies of these texts.
fn copies(alloc: Global, texts: &[Text]) -> Result<List<Text>, NoMemory>
    requires { length texts.now < 2 ^ 32 }
    ensures { IfOk result (λ l. map (λ name. name.items) l.items ≡ map (λ name. name.items) texts.now) }
{
    let mut made = List::new(alloc);
    for text in texts {
        made.push(text.copied(alloc)?)?;
    }
    Ok(made)
}

impl Variables {
    /// No variable yet.
    pub(crate) fn new(alloc: Global, names: Option<Names>) -> Variables
        requires { IfSome names (λ n. n ≡ []) }
        ensures { result ≡ [] }
    {
        let held = match names {
            Some(names) => Held::Shared(names),
            None => Held::Own(NameTable::new(alloc)),
        };
        Variables { held }
    }

    /// How many there are.
    pub(crate) fn len(&self) -> u32
        ensures { result ≡ length self.now }
    {
        match &self.held {
            Held::Shared(names) => names.len(),
            Held::Own(table) => table.len(),
        }
    }

    /// The place of a name.
    pub(crate) fn find(&self, name: &Name<'_>) -> Option<u32>
        ensures { result ≡ position (bytes_eq name.now.bytes.now) self.now }
    {
        match &self.held {
            Held::Shared(names) => names.find(name),
            Held::Own(table) => table.find(name),
        }
    }

    /// Adds a name.
    pub(crate) fn add(&mut self, alloc: Global, name: &Name<'_>) -> Result<(), NoMemory>
        requires few { length self.old + 1 < 2 ^ 32 }
        requires absent { position (bytes_eq name.now.bytes.now) self.old ≡ None }
        ensures { OnOk result (self.new ≡ self.old ++ name.now.bytes.now ∷ []) }
    {
        match &mut self.held {
            Held::Own(table) => table.add(alloc, name),
            Held::Shared(names) => {
                if names.take_next(name) {
                    return Ok(());
                }
                let mut table = NameTable::of(copies(alloc, names.texts())?);
                table.add(alloc, name)?;
                self.held = Held::Own(table);
                Ok(())
            }
        }
    }

    /// The names as a transaction keeps them.
    pub(crate) fn into_names(self, alloc: Global) -> Result<Names, NoMemory>
        ensures { IfOk result (λ n. n ≡ self) }
    {
        let Variables { held } = self;
        match held {
            Held::Shared(names) => Ok(names),
            Held::Own(table) => Names::of(alloc, table.into_names()),
        }
    }
}
