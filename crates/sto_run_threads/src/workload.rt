//! What a run asks of a file: how many transactions it has, what objects they are on, and the body of each.
ghost use Rattle.std.specs.Prelude.{◌≡◌, ◌<◌, ◌≤◌, length, Some, IfOk};
ghost use Rattle.sto_lang.specs.Objects.{shapes_of};
ghost use Rattle.sto_lang.specs.Scripts.{Script, File as Whole};
ghost use Rattle.sto_lang.specs.Sizes.{calls_of};
ghost use Rattle.sto_lang.specs.Views.{file as view};
ghost use Rattle.sto_report_spec.specs.Orders.{count_in, transaction_at};
ghost use Rattle.sto_run_threads.specs.Ran.{IsTransaction, IsBodyAt};

use std::alloc::Global;
use sto_lang::File;
use sto_model::{Body, Shapes};
use sto_part::NoMemory;
use sto_script::ScriptBody;

/// The transactions of a file, and the shapes of its objects. A file that stands in memory is one; another may make each
/// transaction when it is run.
pub trait Workload {
    /// What runs a transaction.
    type Transaction: Body + Drop + Send + Sync;

    /// The file.
    ghost file: { Self → Whole };

    /// How many script threads the file has.
    fn threads(&self) -> u32
        ensures { result ≡ length (file self.now).threads };

    /// How many transactions a script thread has.
    fn count(&self, thread: u32) -> u32
        requires { thread < length (file self.now).threads }
        ensures { result ≡ count_in (file self.now).threads thread };

    /// The shapes of the objects, in the order of the objects.
    fn shapes(&self, alloc: Global) -> Result<Shapes, NoMemory>
        ensures { IfOk result (λ l. l.items ≡ shapes_of (file self.now).declarations) };

    /// The transaction at a place, at its beginning. It does what its script says, and asks only the calls of the script, which must
    /// weigh at least as much as they are many.
    fn transaction(
        &self,
        alloc: Global,
        thread: u32,
        position: u32,
    ) -> Result<Self::Transaction, NoMemory>
        requires there { IsTransaction (file self.now) (thread, position) }
        requires weighed { (script : Script) → transaction_at (file self.now) (thread, position) ≡ Some script
            → calls_of script.body ≤ script.weight }
        ensures made { IfOk result (λ body. IsBodyAt (file self.now) (thread, position) (Self.Transaction.script body)
            (Self.Transaction.left_at_reset body) (Self.Transaction.may_ask body)) };
}

/// A file that stands in memory, lent to its run.
#[derive(Drop)]
pub struct BorrowedFile<'f> {
    pub file: &'f File,
}

impl<'f> Workload for BorrowedFile<'f> {
    type Transaction = ScriptBody<'f>;

    ghost file = { λ f. view f.file.now };

    fn threads(&self) -> u32 {
        self.file.threads.len()
    }

    fn count(&self, thread: u32) -> u32 {
        self.file.threads.get(thread).scripts.len()
    }

    fn shapes(&self, alloc: Global) -> Result<Shapes, NoMemory> {
        sto_lang::shapes(alloc, self.file)
    }

    fn transaction(
        &self,
        alloc: Global,
        thread: u32,
        position: u32,
    ) -> Result<ScriptBody<'f>, NoMemory> {
        let script = self.file.threads.get(thread).scripts.get(position - 1);
        ScriptBody::new(alloc, script)
    }
}
