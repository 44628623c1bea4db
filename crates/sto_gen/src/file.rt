//! The whole generated file.
ghost use Rattle.std.specs.Prelude.{◌≡◌, ◌<◌, ◌^◌, length, IfOk, OnOk, Ok, map};
ghost use Rattle.std.specs.Str.{IsAscii};
ghost use Rattle.sto_lang.specs.Views.{declaration, script, threads_of, names_of, file};
ghost use Rattle.sto_lang.specs.Files.{file_of as reading_of};
ghost use Rattle.sto_lang.specs.Sound.{IsSound, numbered_from};
ghost use Rattle.sto_write.specs.Texts.{text_of};
ghost use Rattle.sto_gen.specs.Draws.{state_after};
ghost use Rattle.sto_gen.specs.Generated.{objects, transactions, threads, file_of};

use crate::draws::Draws;
use crate::transaction::transaction;
use std::alloc::Global;
use sto_lang::{Decl, Decls, File, Scripts, Text, Thread, Threads, numbered_name};
use sto_model::Shape;
use sto_part::{List, NoMemory};

fn declaration(alloc: Global, name: &str, shape: Shape, number: u32) -> Result<Decl, NoMemory>
    requires ascii { IsAscii name.now }
    requires few { length name.now < 2 ^ 32 }
    ensures { IfOk result (λ d. declaration d ≡ record { name = name.now; shape = shape; number = number }) }
{
    let name = Text::of(alloc, name)?;
    Ok(Decl {
        name,
        shape,
        number,
    })
}

/// The objects of a generated file: the accounts, the number of transfers that are done, the owners and the log.
pub fn objects(alloc: Global) -> Result<Decls, NoMemory>
    ensures { IfOk result (λ l. map declaration l.items ≡ objects) }
{
    let accounts = Shape::Array {
        len: 64,
        value: 1000,
    };
    let owners = Shape::Hash {
        buckets: 16,
        places: 8,
    };
    let log = Shape::Tree { leaves: 64 };
    let mut decls = List::new(alloc);
    decls.push(declaration(alloc, "acct", accounts, 1)?)?;
    decls.push(declaration(alloc, "done", Shape::Counter(0), 0)?)?;
    decls.push(declaration(alloc, "owner", owners, 2)?)?;
    decls.push(declaration(alloc, "log", log, 3)?)?;
    Ok(decls)
}

/// The 200 transactions of a thread.
fn transactions(alloc: Global, thread: u64, draws: &mut Draws) -> Result<Scripts, NoMemory>
    requires { thread < 16 }
    ensures scripts { IfOk result (λ l. map script l.items ≡ transactions thread draws.old.state 200) }
    ensures state { OnOk result (draws.new.state ≡ state_after 200 draws.old.state) }
{
    let mut scripts = List::new(alloc);
    for earlier in 0..200 {
        let transfer = draws.transfer();
        scripts.push(transaction(alloc, thread, earlier + 1, &transfer)?)?;
    }
    Ok(scripts)
}

/// The 16 threads.
fn threads(alloc: Global, number: u64) -> Result<Threads, NoMemory>
    ensures threads { IfOk result (λ l. threads_of l.items ≡ threads number 16) }
    ensures names { IfOk result (λ l. names_of l.items ≡ numbered_from 0 16) }
{
    let mut draws = Draws { state: number };
    let mut threads = List::new(alloc);
    for thread in 0..16 {
        let name = numbered_name(alloc, thread as u32)?;
        let scripts = transactions(alloc, thread, &mut draws)?;
        threads.push(Thread { name, scripts })?;
    }
    Ok(threads)
}

/// The file that a number generates, of version 1: 16 threads of 200 transactions each. A transaction moves an
/// amount between two of 64 accounts, where the first has as much, and counts the move. Each 20th
/// of a thread is noted in a log, and each 25th in a table of owners.
///
/// The accounts and amounts come from a linear congruential generator with the multiplier
/// 6364136223846793005 and the increment 1442695040888963407 modulo 2^64, which begins at the
/// number (Knuth, The Art of Computer Programming, volume 2, section 3.2.1).
///
/// Its canonical text reads as this file.
pub fn generate(alloc: Global, number: u64) -> Result<File, NoMemory>
    ensures file { IfOk result (λ f. file f ≡ file_of number) }
    ensures sound { IfOk result (λ f. IsSound (file f)) }
    ensures reads_back { IfOk result (λ f. reading_of (text_of (file f)) ≡ Ok (file f)) }
{
    Ok(File {
        version: 1,
        decls: objects(alloc)?,
        threads: threads(alloc, number)?,
        schedule: None,
    })
}
