//! Tasks side by side, each by a worker on a thread of its own.
ghost use Rattle.std.specs.Prelude.{◌≡◌, ◌<◌, ◌++◌, length, reverse, IfOk, IfErr};
ghost use Rattle.std.specs.List.{All};
ghost use Rattle.std.specs.Thread.{IsSync};
ghost use Rattle.std.specs.Vec.{vec_len};
ghost use Rattle.sto_library.specs.Values.{Serves, TakeCalls};
ghost use Rattle.sto_library.specs.Tasks.{views_of, AreHired, HaveWorked, AreBothLists, AreAllDone, HasFailed};

use crate::store::SharedStore;
use crate::task::{Finished, FinishedTasks, Task, TaskError, work_alone};
use std::alloc::Global;
use std::thread::{Threads, join};
use sto_model::Shapes;
use sto_part::NoMemory;
use sto_shared_store::CountedRest;
use sto_type::TxType;

// Hires so many workers, if so many rest: the last one first.
fn hire_all<T: TxType>(
    store: &mut SharedStore<T>,
    alloc: Global,
    many: usize,
) -> Result<Vec<CountedRest<T>>, TaskError>
    ensures same { (store.new.words ≡ store.old.words) × (store.new.shapes ≡ store.old.shapes) }
    ensures hired { IfOk result (λ workers. AreHired T.TxType store.old store.new many workers.items) }
    ensures failed { IfErr result (λ error. HasFailed error many store.old store.new) }
{
    if (store.resting() as usize) < many {
        return Err(TaskError::NoWorker);
    }
    let Ok(mut workers) = Vec::with_capacity(alloc, many) else {
        return Err(TaskError::NoMemory);
    };
    for _turn in 0..many {
        let Some(worker) = store.hire() else {
            unreachable!()
        };
        workers.push_reserved(worker);
    }
    Ok(workers)
}

// Takes workers back that were hired here: the last one first.
fn back_all<T: TxType>(
    store: &mut SharedStore<T>,
    workers: Vec<CountedRest<T>>,
) -> Result<(), NoMemory>
    requires { All (λ w. Serves T.TxType store.old.words w.rest.seat) workers.items }
    ensures same { (store.new.words ≡ store.old.words) × (store.new.shapes ≡ store.old.shapes) }
    ensures more { IfOk result (λ _. store.new.views ≡ store.old.views ++ reverse (views_of workers.items)) }
{
    let mut workers = workers;
    while let Some(worker) = workers.pop() {
        store.back(worker)?;
    }
    Ok(())
}

// Does the one task that there is, or none, by the one worker.
fn work_one<T: TxType, K: Task<T>>(
    alloc: Global,
    words: &sto_shared_store::Store<T>,
    shapes: &Shapes,
    tasks: &[K],
    workers: Vec<CountedRest<T>>,
) -> Result<FinishedTasks<T, K::Out>, NoMemory>
where
    K::Out: Drop,
    requires takes { TakeCalls T.TxType words.now shapes.now.items }
    requires serve { All (λ w. Serves T.TxType words.now w.rest.seat) workers.items }
    requires each { length tasks.now ≡ vec_len workers }
    requires few { vec_len workers < 2 }
    ensures { IfOk result (HaveWorked T.TxType words.now shapes.now.items K.gives tasks.now workers.items) }
{
    let mut workers = workers;
    let mut outs = Vec::new(alloc);
    let Some(worker) = workers.pop() else {
        return Ok(FinishedTasks { workers, outs });
    };
    let Finished { worker, out } = work_alone(alloc, words, shapes, worker, &tasks[0]);
    match workers.push(worker) {
        Ok(()) => {}
        Err(_) => return Err(NoMemory),
    }
    match outs.push(out) {
        Ok(()) => {}
        Err(_) => return Err(NoMemory),
    }
    Ok(FinishedTasks { workers, outs })
}

// Calls both, side by side where there are threads for both, and else one after the other.
fn call_both<R: Threads, F: FnOnce() -> A + Send, G: FnOnce() -> B, A: Send, B>(
    rt: &R,
    threads: u32,
    first: F,
    other: G,
) -> (A, B)
    requires { F.pre first × G.pre other }
    ensures first { F.post first result.0 }
    ensures other { G.post other result.1 }
{
    if threads < 2 {
        let done = first();
        return (done, other());
    }
    join(rt, first, other)
}

// What was done first, and then what was done beside it.
fn gather<T: TxType, O: Drop>(
    first: FinishedTasks<T, O>,
    other: FinishedTasks<T, O>,
) -> Result<FinishedTasks<T, O>, NoMemory>
    ensures { IfOk result (AreBothLists first other) }
{
    let FinishedTasks {
        mut workers,
        mut outs,
    } = first;
    let FinishedTasks {
        workers: mut more_workers,
        outs: mut more_outs,
    } = other;
    match workers.append(&mut more_workers) {
        Ok(()) => {}
        Err(_) => return Err(NoMemory),
    }
    match outs.append(&mut more_outs) {
        Ok(()) => {}
        Err(_) => return Err(NoMemory),
    }
    Ok(FinishedTasks { workers, outs })
}

// Does each task by the worker at its place, by halves, on at most so many threads.
#[cycle(halves)]
fn work_all<R: Threads + Sync, T: TxType + Drop + Send + Sync, K: Task<T> + Sync>(
    rt: &R,
    alloc: Global,
    words: &sto_shared_store::Store<T>,
    shapes: &Shapes,
    threads: u32,
    tasks: &[K],
    workers: Vec<CountedRest<T>>,
) -> Result<FinishedTasks<T, K::Out>, NoMemory>
where
    K::Out: Send + Drop,
    requires takes { TakeCalls T.TxType words.now shapes.now.items }
    requires serve { All (λ w. Serves T.TxType words.now w.rest.seat) workers.items }
    requires each { length tasks.now ≡ vec_len workers }
    ensures { IfOk result (HaveWorked T.TxType words.now shapes.now.items K.gives tasks.now workers.items) }
{
    let mut workers = workers;
    let half = workers.len() / 2;
    if half == 0 {
        return work_one(alloc, words, shapes, tasks, workers);
    }
    let others = match workers.split_off(half) {
        Ok(others) => others,
        Err(_) => return Err(NoMemory),
    };
    let (firsts, rest) = tasks.split_at(half);
    let few = threads / 2;
    let more = threads - few;
    let front = move || -> Result<FinishedTasks<T, K::Out>, NoMemory>
        requires sync { IsSync R.row }
        requires takes { TakeCalls T.TxType words.now shapes.now.items }
        requires serve { All (λ w. Serves T.TxType words.now w.rest.seat) workers.items }
        requires each { length firsts.now ≡ vec_len workers }
        ensures { IfOk result (HaveWorked T.TxType words.entry.now shapes.entry.now.items K.gives firsts.entry.now workers.items) }
    { work_all(rt, alloc, words, shapes, few, firsts, workers) };
    let back = move || -> Result<FinishedTasks<T, K::Out>, NoMemory>
        requires sync { IsSync R.row }
        requires takes { TakeCalls T.TxType words.now shapes.now.items }
        requires serve { All (λ w. Serves T.TxType words.now w.rest.seat) others.items }
        requires each { length rest.now ≡ vec_len others }
        ensures { IfOk result (HaveWorked T.TxType words.entry.now shapes.entry.now.items K.gives rest.entry.now others.items) }
    { work_all(rt, alloc, words, shapes, more, rest, others) };
    let (first, other) = call_both(rt, threads, front, back);
    let first = first?;
    let other = other?;
    gather(first, other)
}

impl<T: TxType + Drop + Send + Sync> SharedStore<T> {
    /// Does tasks side by side, each by a worker that rests here, on at most so many threads. It answers what they gave, in their order,
    /// each as its task says, once all are done and the workers are back.
    ///
    /// With as many threads as there are tasks each has one of its own, where one can be made; tasks that share one are done one after the
    /// other, and with one or none all are done on this one. What is promised is the same for each number. Tasks of two kinds are tasks of
    /// one type by `Either`.
    ///
    /// Errors: `NoWorker` where fewer workers rest than there are tasks, of which none was done then; `NoMemory` where memory was
    /// wanting: what the tasks gave is lost then, and some of the workers may be.
    pub fn run_tasks<R: Threads + Sync, K: Task<T> + Sync>(
        &mut self,
        rt: &R,
        alloc: Global,
        threads: u32,
        tasks: &[K],
    ) -> Result<Vec<K::Out>, TaskError>
    where
        K::Out: Send + Drop,
        ensures same { (self.new.words ≡ self.old.words) × (self.new.shapes ≡ self.old.shapes) }
        ensures done { IfOk result (λ outs. AreAllDone self.old self.new K.gives tasks.now outs.items) }
        ensures failed { IfErr result (λ error. HasFailed error (length tasks.now) self.old self.new) }
    {
        let workers = hire_all(self, alloc, tasks.len())?;
        let (words, shapes) = self.parts();
        let Ok(done) = work_all(rt, alloc, words, shapes, threads, tasks, workers) else {
            return Err(TaskError::NoMemory);
        };
        let FinishedTasks { workers, outs } = done;
        match back_all(self, workers) {
            Ok(()) => Ok(outs),
            Err(NoMemory) => Err(TaskError::NoMemory),
        }
    }
}
