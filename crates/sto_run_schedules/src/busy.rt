//! The threads of a file that have a transaction.
ghost use Rattle.std.specs.Prelude.{◌≡◌, IfOk};
ghost use Rattle.sto_lang.specs.Views.{file as view};
ghost use Rattle.sto_run_schedules.specs.Telling.{busy_threads};

use std::alloc::Global;
use sto_lang::File;
use sto_part::NoMemory;

/// The threads that have a transaction, by rising number.
pub fn busy_threads(alloc: Global, file: &File) -> Result<Vec<u32>, NoMemory>
    ensures { IfOk result (λ threads. threads.items ≡ busy_threads (view file.now)) }
{
    let mut busy = Vec::new(alloc);
    for (number, thread) in file.threads.as_slice().iter().enumerate() {
        if !thread.scripts.is_empty() && busy.push(number as u32).is_err() {
            return Err(NoMemory);
        }
    }
    Ok(busy)
}
