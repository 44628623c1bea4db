//! How many workers run a file, and what is left to the system once its report is made.
ghost use Rattle.std.specs.Prelude.{◌≡◌, length};
ghost use Rattle.sto_lang.specs.Sound.{IsFromTo};
ghost use Rattle.sto_lang.specs.Views.{file as view};
ghost use Rattle.sto_args.specs.Commands.{HasThreads};
ghost use Rattle.sto_console.specs.Workers.{workers_of};

use std::mem;
use sto_journal::Journal;
use sto_lang::File;

/// How many workers run a file: as many as the words ask for, else 16, but no more than the file has script threads, and at least
/// one.
pub fn workers_for(file: &File, threads: Option<u32>) -> u32
    requires { HasThreads threads }
    ensures count { result ≡ workers_of threads (length (view file.now).threads) }
    ensures few { IsFromTo 1 16 result }
{
    threads.unwrap_or(16).min(file.threads.len()).max(1)
}

/// Leaves a file and a journal to the system, which takes them back sooner. It is for a program whose text is made and that is about to
/// end.
pub fn leave(file: File, journal: Journal) {
    mem::forget(file);
    mem::forget(journal);
}
