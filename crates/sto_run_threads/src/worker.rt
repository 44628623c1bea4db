//! A worker: one pass and one claimer.
ghost use Rattle.std.specs.Prelude.{◌≡◌, [], ◌∷◌, IfOk};
ghost use Rattle.sto_run_threads.specs.Teams.{IsHired, IsTeamOf};
ghost use Rattle.sto_run_threads.specs.Plans.{thread_count};

use crate::one::Work;
use crate::script::run_script;
use std::alloc::Global;
use sto_part::{Naming, NoMemory};
use sto_table::{Claimer, Claims, Rest, Shared};
use sto_transaction::{AttemptLists, Record};

/// A pass at rest, and a claimer of script threads.
#[derive(Drop)]
pub struct ScriptWorker<T: Naming> {
    pub rest: Rest<T>,
    pub claimer: Claimer,
}

/// What workers have done, who were gathered: their pass, their claimer and their records.
#[derive(Drop)]
pub struct Team<T: Naming> {
    pub rest: Rest<T>,
    pub claimer: Claimer,
    pub records: Vec<Record>,
}

/// Claims a script thread, runs it to its end or until a transaction has used up its tries, and claims again until none is left.
pub fn work_alone<T: Naming, W: Work<T>>(
    work: &W,
    alloc: Global,
    shared: &Shared<T>,
    claims: &Claims,
    worker: ScriptWorker<T>,
) -> Result<Team<T>, NoMemory>
    requires ready { W.ready work.now }
    requires count { claims.now.table.shared.key.count ≡ thread_count (W.plan work.now) }
    requires hired { IsHired shared.now claims.now (W.plan work.now) worker }
    ensures team { IfOk result (IsTeamOf shared.now claims.now (W.plan work.now) (worker ∷ [])) }
{
    let ScriptWorker { rest, mut claimer } = worker;
    let mut pass = shared.pass(rest);
    let mut memory = AttemptLists::new(alloc);
    let mut records = Vec::new(alloc);
    while let Some(thread) = claims.claim(&mut claimer) {
        let count = work.count(thread);
        run_script(
            work,
            alloc,
            &mut pass,
            thread,
            0,
            count,
            &mut memory,
            &mut records,
        )?;
    }
    Ok(Team {
        rest: pass.rest(),
        claimer,
        records,
    })
}
