//! Outcomes gathered run by run, and how they are printed.
use std::alloc::Global;
use std::test::Fail;
use sto_explore::{Aborted, Gathers, Leg, Outcome, Outcomes, Reported, Tally, outcomes_text};
use sto_lang::Text;

fn leg(thread: u32, turns: u64) -> Leg {
    Leg {
        thread,
        turns,
        over: true,
    }
}

// Tallies a run of so many legs that leads to a text.
fn add(alloc: Global, tally: &mut Tally, text: &str, legs: u32) -> Result<(), Fail> {
    let mut made = Vec::new(alloc);
    for thread in 0..legs {
        made.push(leg(thread, 1))?;
    }
    let report = Reported {
        text: String::from_str(alloc, text)?,
        aborted: Aborted {
            locked: 1,
            changed: 2,
        },
    };
    tally.add(alloc, made, report)?;
    Ok(())
}

#[test]
fn each_report_is_kept_once(rt: HostRuntime) -> Result<(), Fail> {
    let alloc = rt.alloc();
    let mut tally = Tally::new(alloc);
    for (text, legs) in [("b", 3), ("a", 2), ("b", 1), ("b", 2)] {
        add(alloc, &mut tally, text, legs)?;
    }
    let outcomes = tally.outcomes(alloc)?;
    assert_eq!(rt; outcomes.schedules, 4);
    let aborted = outcomes.aborted;
    assert_eq!(rt; (aborted.locked, aborted.changed), (4, 8));
    assert_eq!(rt; outcomes.each.len(), 2);
    let (b, a) = (&outcomes.each[0], &outcomes.each[1]);
    assert_eq!(rt; (b.text.as_str(), b.schedules, b.legs.len()), ("b", 3, 1));
    assert_eq!(rt; (a.text.as_str(), a.schedules, a.legs.len()), ("a", 1, 2));
    Ok(())
}

// An outcome to which two legs lead: of the first thread and of the second.
fn outcome(alloc: Global, text: &str, schedules: u64, turns: (u64, u64)) -> Result<Outcome, Fail> {
    let mut legs = Vec::new(alloc);
    legs.push(leg(0, turns.0))?;
    legs.push(leg(1, turns.1))?;
    Ok(Outcome {
        text: String::from_str(alloc, text)?,
        schedules,
        legs,
    })
}

// Two outcomes with these texts.
fn outcomes(alloc: Global, texts: (&str, &str)) -> Result<Outcomes, Fail> {
    let mut each = Vec::new(alloc);
    each.push(outcome(alloc, texts.0, 12, (4, 10))?)?;
    each.push(outcome(alloc, texts.1, 6, (1, 13))?)?;
    Ok(Outcomes {
        each,
        schedules: 18,
        aborted: Aborted {
            locked: 4,
            changed: 7,
        },
    })
}

// What is printed of outcomes of a script.
fn printed(alloc: Global, script: &str, outcomes: &Outcomes, json: bool) -> Result<Text, Fail> {
    let file = sto_lang::read(alloc, script.as_bytes())?;
    Ok(outcomes_text(alloc, &file, outcomes, json)?)
}

const NUMBERED: &str = "box a 0\nthread\nbegin\nset a 1\ncommit\nthread\nbegin\nset a 2\ncommit\n";

const NAMED: &str =
    "sto 2\nbox a 0\nthread up\nbegin\nset a 1\ncommit\nthread down\nbegin\nset a 2\ncommit\n";

const NUMBERED_TEXT: &str =
    "outcome 1 schedules 12\nschedule 0:4 1:10\nreport\na = 1\nend\noutcome 2 schedules 6\nschedule 0:1 1:13\nreport\na = 2\nsum schedules 18 outcomes 2 locked 4 changed 7\n";

const NAMED_TEXT: &str =
    "outcome 1 schedules 12\nschedule up:4 down:10\nreport\na = 1\nend\noutcome 2 schedules 6\nschedule up:1 down:13\nreport\na = 2\nsum schedules 18 outcomes 2 locked 4 changed 7\n";

const NUMBERED_JSON: &str =
    "{\"changed\":7,\"locked\":4,\"outcomes\":[{\"report\":{\"a\":\"1\"},\"schedule\":\"schedule 0:4 1:10\",\"schedules\":12},{\"report\":{\"a\":\"2\"},\"schedule\":\"schedule 0:1 1:13\",\"schedules\":6}],\"schedules\":18}\n";

const NAMED_JSON: &str =
    "{\"changed\":7,\"locked\":4,\"outcomes\":[{\"report\":{\"a\":\"1\"},\"schedule\":\"schedule up:4 down:10\",\"schedules\":12},{\"report\":{\"a\":\"2\"},\"schedule\":\"schedule up:1 down:13\",\"schedules\":6}],\"schedules\":18}\n";

#[test]
fn outcomes_as_text(rt: HostRuntime) -> Result<(), Fail> {
    let alloc = rt.alloc();
    let outcomes = outcomes(alloc, ("a = 1\nend\n", "a = 2\n"))?;
    for (script, text) in [(NUMBERED, NUMBERED_TEXT), (NAMED, NAMED_TEXT)] {
        assert_eq!(rt; printed(alloc, script, &outcomes, false)?.as_str(), text);
    }
    Ok(())
}

#[test]
fn outcomes_as_json(rt: HostRuntime) -> Result<(), Fail> {
    let alloc = rt.alloc();
    let outcomes = outcomes(alloc, ("{\"a\":\"1\"}\n", "{\"a\":\"2\"}\n"))?;
    for (script, json) in [(NUMBERED, NUMBERED_JSON), (NAMED, NAMED_JSON)] {
        assert_eq!(rt; printed(alloc, script, &outcomes, true)?.as_str(), json);
    }
    Ok(())
}

const WITHOUT_SCHEDULE: &str =
    "outcome 1 schedules 1\nreport\nstate\na = 0\nsum schedules 1 outcomes 1 locked 0 changed 0\n";

#[test]
fn no_schedule_where_nothing_runs(rt: HostRuntime) -> Result<(), Fail> {
    let alloc = rt.alloc();
    let mut each = Vec::new(alloc);
    each.push(Outcome {
        text: String::from_str(alloc, "state\na = 0\n")?,
        schedules: 1,
        legs: Vec::new(alloc),
    })?;
    let outcomes = Outcomes {
        each,
        schedules: 1,
        aborted: Aborted::none(),
    };
    assert_eq!(rt;
        printed(alloc, "box a 0\n", &outcomes, false)?.as_str(),
        WITHOUT_SCHEDULE
    );
    Ok(())
}
