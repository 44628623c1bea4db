//! The beginning of the generated file of 1, and the size of the last one.
use std::alloc::Global;
use sto_gen::generate;
use sto_lang::{Arg, File, Stmt};
use sto_part::NoMemory;

#[test]
fn generated_files(rt: HostRuntime) {
    let alloc = rt.alloc();
    let cases = [example_file_of_one(alloc), size_of_the_last_file(alloc)];
    assert_eq!(rt; cases, [Ok(true); 2]);
}

// The first transaction of the file of 1 looks at account 22, and where 97 are there it moves them to account 16.
fn example_file_of_one(alloc: Global) -> Result<bool, NoMemory> {
    let file = generate(alloc, 1)?;
    Ok(match first_of(&file) {
        Some(body) => moves_where_there_are(body),
        None => false,
    })
}

// The statements of the first transaction.
fn first_of(file: &File) -> Option<&[Stmt]> {
    let thread = file.threads.as_slice().first()?;
    let script = thread.scripts.as_slice().first()?;
    Some(script.body.as_slice())
}

fn moves_where_there_are(body: &[Stmt]) -> bool {
    match body {
        [
            Stmt::Ask { a, .. },
            Stmt::Choose { b, first: 3, .. },
            moves @ ..,
        ] => { *a == Arg::Num(22) && *b == Arg::Num(97) && are_moves(moves) }
        _ => false,
    }
}

fn are_moves(statements: &[Stmt]) -> bool {
    match statements {
        [first, second, _] => {
            asks_with(first, Arg::Num(22), Arg::Num(-97))
                && asks_with(second, Arg::Num(16), Arg::Num(97))
        }
        _ => false,
    }
}

fn asks_with(statement: &Stmt, first: Arg, second: Arg) -> bool {
    match statement {
        Stmt::Ask { a, b, .. } => (*a, *b) == (first, second),
        _ => false,
    }
}

fn size_of_the_last_file(alloc: Global) -> Result<bool, NoMemory> {
    let file = generate(alloc, u64::MAX)?;
    Ok(file.decls.len() == 4 && file.threads.len() == 16 && has_scripts_each(&file, 200))
}

fn has_scripts_each(file: &File, count: u32) -> bool {
    for thread in file.threads.as_slice() {
        if thread.scripts.len() != count {
            return false;
        }
    }
    true
}
