//! Runs gathered by what they lead to.
ghost use Rattle.std.specs.Prelude.{◌≡◌, [], OnOk, IfOk, List, map, string_bytes};
ghost use Rattle.sto_explore.specs.Explored.{Found};
ghost use Rattle.sto_explore.specs.Outcomes.{AreOutcomes};
ghost use Rattle.sto_explore.specs.Tallied.{outcome_of, AreRising, HasOneMoreWay};

use crate::aborted::Aborted;
use crate::leg::Leg;
use crate::order::sort;
use crate::outcome::{Outcome, Outcomes, Reported};
use crate::runs::Gathers;
use crate::way::Way;
use std::alloc::{AllocError, Global};
use std::collections::BTreeMap;
use sto_part::NoMemory;

/// The runs so far, by their reports.
#[derive(Drop)]
pub struct Tally {
    ways: BTreeMap<String, Way>,
    schedules: u64,
    aborted: Aborted,
}

impl Tally {
    ghost use Rattle.sto_explore.specs.Tallied.{HasTallied};

    /// No runs.
    pub fn new(alloc: Global) -> Tally
        ensures { HasTallied result [] }
    {
        Tally {
            ways: BTreeMap::new(alloc),
            schedules: 0,
            aborted: Aborted::none(),
        }
    }

    /// The outcomes of the runs.
    pub fn outcomes(self, alloc: Global) -> Result<Outcomes, NoMemory>
        ensures { IfOk result (λ outcomes. (xs : List (Found Reported)) → HasTallied self xs → AreOutcomes xs outcomes) }
    {
        let Tally {
            ways,
            schedules,
            aborted,
        } = self;
        let mut each = outcomes_of(alloc, ways)?;
        sort(&mut each)?;
        Ok(Outcomes {
            each,
            schedules,
            aborted,
        })
    }
}

impl Gathers<Reported> for Tally {
    ghost use Rattle.sto_explore.specs.Tallied.{HasTallied};

    ghost holds = { HasTallied };

    fn add(&mut self, _alloc: Global, legs: Vec<Leg>, report: Reported) -> Result<(), NoMemory> {
        let Reported { text, aborted } = report;
        match self.schedules.checked_add(1) {
            Some(schedules) => self.schedules = schedules,
            None => return Err(NoMemory),
        }
        self.aborted = self.aborted.and(aborted)?;
        add_way(&mut self.ways, text, legs)
    }
}

// One more schedule leads to a report.
fn add_way(ways: &mut BTreeMap<String, Way>, text: String, legs: Vec<Leg>) -> Result<(), NoMemory>
    ensures { OnOk result (HasOneMoreWay ways.old (string_bytes text) legs.items ways.new) }
{
    if let Some(way) = ways.get_mut(text.as_str()) {
        return way.add(legs);
    }
    let way = Way { schedules: 1, legs };
    match ways.insert(text, way) {
        Ok(_) => Ok(()),
        Err(_) => Err(NoMemory),
    }
}

// The outcome of each way, by rising text.
fn outcomes_of(alloc: Global, ways: BTreeMap<String, Way>) -> Result<Vec<Outcome>, NoMemory>
    ensures each { IfOk result (λ outcomes. outcomes.items ≡ map outcome_of ways.entries) }
    ensures rising { IfOk result (λ outcomes. AreRising outcomes.items) }
{
    let outcomes = ways
        .into_iter()
        .map(|(text, Way { schedules, legs })| Outcome {
            text,
            schedules,
            legs,
        })
        .collect(alloc);
    match outcomes {
        Ok(outcomes) => Ok(outcomes),
        Err(AllocError) => Err(NoMemory),
    }
}
