// Small files: how many orders lead to each of their outcomes. The numbers were counted by an interpreter that shares nothing with the
// crate.
ghost use Rattle.std.specs.Prelude.{IfOk};
ghost use Rattle.sto_lang.specs.Sound.{IsSound};
ghost use Rattle.sto_lang.specs.Views.{file as view};

use std::alloc::Global;
use std::test::Fail;
use sto_lang::File;
use sto_orders::{OrdersError, SameBy, all_outcomes};
use sto_part::NoMemory;

// Each thread adds 1 to a box that it reads in the transaction before.
const LOST_SPLIT: &str =
    "box a 0\nbox mine0 0\nbox mine1 0\nthread\nbegin\nx = get a\nset mine0 x\ncommit\nbegin\nx = get mine0\ny = sum x 1\nset a y\ncommit\nthread\nbegin\nx = get a\nset mine1 x\ncommit\nbegin\nx = get mine1\ny = sum x 1\nset a y\ncommit\n";

// Each thread adds 1 to a box.
const LOST_UPDATE: &str =
    "box a 0\nthread\nbegin\nx = get a\ny = sum x 1\nset a y\ncommit\nthread\nbegin\nx = get a\ny = sum x 1\nset a y\ncommit\n";

// No thread has a transaction.
const NOTHING: &str = "box a 0\n";

fn file_of(alloc: Global, text: &str) -> Result<File, NoMemory>
    ensures { IfOk result (λ file. IsSound (view file)) }
{
    match sto_lang::read(alloc, text.as_bytes()) {
        Ok(file) => Ok(file),
        Err(_) => Err(NoMemory),
    }
}

// How many orders lead to each outcome, outcome by outcome.
fn orders_of(alloc: Global, text: &str, by: SameBy) -> Result<Vec<Option<u64>>, Fail> {
    let file = file_of(alloc, text)?;
    let mut orders = Vec::new(alloc);
    for outcome in all_outcomes(alloc, &file, by, 1_000)?.as_slice() {
        orders.push(outcome.orders)?;
    }
    Ok(orders)
}

// Why there is no answer with so many nodes.
fn why_not(alloc: Global, text: &str, most: u64) -> Result<Option<OrdersError>, NoMemory> {
    let file = file_of(alloc, text)?;
    match all_outcomes(alloc, &file, SameBy::State, most) {
        Ok(_) => Ok(None),
        Err(why) => Ok(Some(why)),
    }
}

#[test]
fn each_outcome_has_its_orders(rt: HostRuntime) -> Result<(), Fail> {
    let alloc = rt.alloc();
    let (one, two, four) = (Some(1), Some(2), Some(4));
    let state = orders_of(alloc, LOST_SPLIT, SameBy::State)?;
    assert_eq!(rt; state.as_slice(), [four, one, one].as_slice());
    let answers = orders_of(alloc, LOST_SPLIT, SameBy::Answers)?;
    assert_eq!(rt; answers.as_slice(), [four, one, one].as_slice());
    let order = orders_of(alloc, LOST_SPLIT, SameBy::Order)?;
    assert_eq!(rt; order.as_slice(), [one, one, one, one, one, one].as_slice());
    let update = orders_of(alloc, LOST_UPDATE, SameBy::State)?;
    assert_eq!(rt; update.as_slice(), [two].as_slice());
    let exchanged = orders_of(alloc, LOST_UPDATE, SameBy::Answers)?;
    assert_eq!(rt; exchanged.as_slice(), [one, one].as_slice());
    Ok(())
}

#[test]
fn nothing_has_one_outcome(rt: HostRuntime) -> Result<(), Fail> {
    let nothing = orders_of(rt.alloc(), NOTHING, SameBy::Order)?;
    assert_eq!(rt; nothing.as_slice(), [Some(1)].as_slice());
    Ok(())
}

#[test]
fn too_many_nodes_are_refused(rt: HostRuntime) -> Result<(), Fail> {
    let alloc = rt.alloc();
    assert_eq!(rt; why_not(alloc, LOST_SPLIT, 13)?, None);
    assert_eq!(rt; why_not(alloc, LOST_SPLIT, 12)?, Some(OrdersError::TooMany));
    assert_eq!(rt;
        why_not(alloc, LOST_SPLIT, 8)?,
        Some(OrdersError::AtLeast(9))
    );
    Ok(())
}
