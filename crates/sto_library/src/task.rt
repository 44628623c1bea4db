//! What a worker does, told by whoever gives it to do.
ghost use Rattle.std.specs.Prelude.{◌≡◌};
ghost use Rattle.sto_library.specs.Values.{Serves, TakeCalls, Working};
ghost use Rattle.sto_library.specs.Tasks.{DoesTask};
ghost use Rattle.sto_library.specs.Kinds.{GivesEither};

use crate::worker::StoreWorker;
use either::Either;
use std::alloc::Global;
use sto_model::Shapes;
use sto_shared_store::CountedRest;
use sto_type::TxType;

/// What a worker does at its store: transactions, one after the other, and what it makes of what they give.
///
/// `SharedStore::run_tasks` does tasks side by side, each on a thread of its own.
pub trait Task<T: TxType> {
    /// What it gives at its end.
    type Out;

    /// What is so of that, by the worker as it was and as it is at the end.
    ghost gives: { Self → Working T → Working T → Self.Out → Type 0 };

    /// Does it.
    fn work(&self, worker: &mut StoreWorker<'_, T>) -> Self::Out
        ensures gives { gives self.now worker.old worker.new result }
        ensures stays { (worker.new.words ≡ worker.old.words) × (worker.new.shapes ≡ worker.old.shapes) };
}

/// A task of one of two kinds, which gives something of its kind: so a list can have tasks of both.
impl<T: TxType, A: Task<T>, B: Task<T>> Task<T> for Either<A, B> {
    type Out = Either<A::Out, B::Out>;

    ghost gives = { λ task before after out. GivesEither A.gives B.gives task before after out };

    fn work(&self, worker: &mut StoreWorker<'_, T>) -> Either<A::Out, B::Out> {
        match self {
            Either::Left(task) => Either::Left(task.work(worker)),
            Either::Right(task) => Either::Right(task.work(worker)),
        }
    }
}

/// Why tasks were not done, or what they gave is lost.
#[derive(Clone, Copy, PartialEq, Eq, Debug)]
pub enum TaskError {
    /// Fewer workers rest in the store than there are tasks. None was done.
    NoWorker,
    /// Memory was wanting. What the tasks gave is lost, and workers that had begun may be lost with it.
    NoMemory,
}

/// A worker that has done a task, and what that gave.
#[derive(Drop)]
pub(crate) struct Finished<T: TxType, O> {
    pub(crate) worker: CountedRest<T>,
    pub(crate) out: O,
}

/// Workers that have done tasks, and what these gave, each in the order of the tasks.
#[derive(Drop)]
pub(crate) struct FinishedTasks<T: TxType, O> {
    pub(crate) workers: Vec<CountedRest<T>>,
    pub(crate) outs: Vec<O>,
}

/// Does a task in this thread.
pub(crate) fn work_alone<T: TxType, K: Task<T>>(
    alloc: Global,
    words: &sto_shared_store::Store<T>,
    shapes: &Shapes,
    worker: CountedRest<T>,
    task: &K,
) -> Finished<T, K::Out>
    requires takes { TakeCalls T.TxType words.now shapes.now.items }
    requires serves { Serves T.TxType words.now worker.rest.seat }
    ensures { DoesTask T.TxType words.now shapes.now.items worker (K.gives task.now) result }
{
    let mut busy = StoreWorker::new(alloc, words, shapes, worker);
    let out = task.work(&mut busy);
    Finished {
        worker: busy.rest(),
        out,
    }
}
