//! Sources and sinks, each of whose calls fails in turn: that is never taken for the end or for done.
use crate::calls::{Call, Failing, NONE, Program};
use crate::cases::Case;
use crate::cases::ending::Ending;
use crate::cases::group::Group;
use crate::cases::text::written_out;
use std::alloc::AllocError;
use std::sync::Wait;
use std::thread::Threads;
use std::{io, str};

// How many bytes a source gives at a call.
const PIECE: u32 = 16;

// Of a text that is longer than this, so many of the first calls fail in turn, then one in so many, and the last ones.
const SHORT: usize = 1000;

const FIRST: usize = 100;

const ONE_IN: usize = 65_536;

const ONE_GET: &str = "box a 5\nthread\nbegin\nx = get a\ncommit\n";

// How a call ends that is not done: its words, which call of the source and of the output fails, its status and its line.
const UNDONE: [(&str, u64, u64, u8, &str); 4] = [
    ("run --", 0, 0, 2, "sto: usage\n"),
    ("step", 1, 0, 4, "sto: read fault\n"),
    ("step", 0, 1, 5, "sto: write fault\n"),
    ("gen 1", 1, 1, 5, "sto: write fault\n"),
];

/// Each call of the source up to the one that finds the end, and the one after it, which is never made.
pub fn fail_reading<R: Threads + Wait + Sync>(
    group: &mut Group<'_, R>,
    case: &Case<'_>,
) -> io::Result<()> {
    let failed = Ending {
        status: 4,
        out: "",
        line: "sto: read fault\n",
    };
    let last = case.input.len().div_ceil(PIECE as usize).saturating_add(1);
    for number in 1..=last {
        group.call(&case.call, case.input, failing_read(number), &failed)?;
    }
    let after = failing_read(last.saturating_add(1));
    let is_read = is_read(group, case, after)?;
    group.add(case.call.words, is_read)
}

// Whether a call of a case ends as it must where nothing fails that is asked for.
fn is_read<R: Threads + Wait + Sync>(
    group: &Group<'_, R>,
    case: &Case<'_>,
    failing: Failing,
) -> Result<bool, AllocError> {
    let alloc = group.rt.alloc();
    let called = case.call.on(group.threads, alloc, case.input, failing)?;
    Ok(if case.text.is_empty() {
        called.status == case.status && !called.out.as_slice().is_empty()
    } else {
        case.ending(case.text).is_of(&called)
    })
}

fn failing_read(number: usize) -> Failing {
    Failing {
        given: PIECE,
        source: number as u64,
        ..NONE
    }
}

/// Each byte of what is printed, and its end, after which no call is made.
pub fn fail_writing<R: Threads + Wait + Sync>(
    group: &mut Group<'_, R>,
    case: &Case<'_>,
) -> io::Result<()> {
    let alloc = group.rt.alloc();
    let whole = case.call.on(group.threads, alloc, case.input, NONE)?;
    let text = match case.text {
        "" => str::from_utf8(whole.out.as_slice()).unwrap_or(""),
        text => text,
    };
    let ending = case.ending(text);
    group.add(case.call.words, ending.is_of(&whole))?;
    fail_each_byte(group, case, &ending)
}

fn fail_each_byte<R: Threads + Wait + Sync>(
    group: &mut Group<'_, R>,
    case: &Case<'_>,
    ending: &Ending<'_>,
) -> io::Result<()> {
    let length = ending.out.len();
    for written in 0..=length {
        let number = written.saturating_add(1);
        if is_tried(number, length) {
            let failing = Failing {
                taken: 1,
                out: number as u64,
                ..NONE
            };
            let ending = cut_output(ending, written);
            group.call(&case.call, case.input, failing, &ending)?;
        }
    }
    Ok(())
}

fn is_tried(number: usize, length: usize) -> bool {
    length <= SHORT || number <= FIRST || number % ONE_IN == 0 || number >= length
}

// How a call ends whose output took so many bytes.
fn cut_output<'a>(ending: &Ending<'a>, written: usize) -> Ending<'a> {
    if written >= ending.out.len() {
        return *ending;
    }
    Ending {
        status: 5,
        out: ending.out.get(..written).unwrap_or(""),
        line: "sto: write fault\n",
    }
}

/// Each byte of what is said beside, and its end: the status and the output stay.
pub fn fail_beside<R: Threads + Wait + Sync>(
    group: &mut Group<'_, R>,
    case: &Case<'_>,
) -> io::Result<()> {
    let input = written_out(group.rt, case.input)?;
    let ending = case.ending(case.text);
    fail_each_beside(group, &case.call, input.as_str(), NONE, &ending)
}

fn fail_each_beside<R: Threads + Wait + Sync>(
    group: &mut Group<'_, R>,
    call: &Call<'_>,
    input: &str,
    failing: Failing,
    ending: &Ending<'_>,
) -> io::Result<()> {
    for written in 0..=ending.line.len() {
        let failing = Failing {
            taken: 1,
            diag: written.saturating_add(1) as u64,
            ..failing
        };
        let ending = Ending {
            line: ending.line.get(..written).unwrap_or(""),
            ..*ending
        };
        group.call(call, input, failing, &ending)?;
    }
    Ok(())
}

/// Each byte of what is said beside of a call that is not done.
pub fn go_over<R: Threads + Wait + Sync>(rt: &HostRuntime, threads: &R) -> io::Result<()> {
    let mut group = Group {
        rt,
        threads,
        name: "undone",
        cases: 0,
    };
    for (words, source, out, status, line) in UNDONE {
        let call = Call {
            program: Program::Sto,
            words,
        };
        let failing = Failing {
            source,
            out,
            ..NONE
        };
        let ending = Ending {
            status,
            out: "",
            line,
        };
        fail_each_beside(&mut group, &call, ONE_GET, failing, &ending)?;
    }
    group.end()
}
