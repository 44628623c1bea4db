//! What scripts are read as, and how files are written.
use std::alloc::{AllocError, Global};
use sto_lang::{FaultKind, File, ReadError, ScriptFault, read};
use sto_model::{Shape, Shapes};
use sto_part::NoMemory;
use sto_write::write;

/// The first fault of a script, or that it has none.
fn fault_in(alloc: Global, bytes: &[u8]) -> Result<Option<ScriptFault>, NoMemory> {
    match read(alloc, bytes) {
        Ok(_) => Ok(None),
        Err(ReadError::Fault(fault)) => Ok(Some(fault)),
        Err(ReadError::NoMemory) => Err(NoMemory),
    }
}

/// Lines, so many times over, between others.
fn script(
    alloc: Global,
    head: &str,
    times: u32,
    line: &str,
    tail: &str,
) -> Result<String, AllocError> {
    let mut text = String::from_str(alloc, head)?;
    for _ in 0..times {
        text.push_str(line)?;
    }
    text.push_str(tail)?;
    Ok(text)
}

/// A line for each number, so many of them, between others.
fn numbered(
    alloc: Global,
    head: &str,
    times: u32,
    line: (&str, &str),
    tail: &str,
) -> Result<String, AllocError> {
    let (first, last) = line;
    let mut text = String::from_str(alloc, head)?;
    for number in 0..times {
        let middle = format!(in alloc; "{first}{number}{last}")?;
        text.push_str(middle.as_str())?;
    }
    text.push_str(tail)?;
    Ok(text)
}

// A text, and the canonical text of what it is read as.
const TEXTS: &[(&str, &str)] = &[
    (TAKE_AND_ADD, TAKE_AND_ADD_WRITTEN),
    (
        "# up and down\nsto  2\nbox a 0\nthread up\nbegin\nset a 1\ncommit\nthread down\nschedule up:4  down:10",
        "sto 2\nbox a 0\nthread up\nbegin\nset a 1\ncommit\nthread down\nschedule up:4 down:10\n",
    ),
    (SPLIT_AND_REPACK, SPLIT_AND_REPACK),
    (ALL_FORMS, ALL_FORMS),
];

const TAKE_AND_ADD: &str =
    "counter c 10\n# take and add\nthread\nbegin\n  x = take  c 5\nif x eq 1\nadd c x\nend\ncommit";

const TAKE_AND_ADD_WRITTEN: &str =
    "counter c 10\nthread\nbegin\nx = take c 5\nif x eq 1\nadd c x\nend\ncommit\n";

const SPLIT_AND_REPACK: &str =
    "tree t 3\nthread\nbegin\nk = sum 0 0\nrepeat 9\nk = sum k 10\nput t k k\nend\nremove t 10\nremove t 20\nremove t 30\nrepeat 4\nk = sum k 10\nput t k k\nend\nremove t 50\nremove t 60\nremove t 70\nrepeat 4\nk = sum k 10\nput t k k\nend\nn = next t 81\nm = count t 40 100\ncommit\n";

const ALL_FORMS: &str =
    "tree t 3\nhash h 1 2\narray r 2 -5\ncounter c 9\nbox b -1\nthread\nbegin\nget b\nget c\nget r 0\nget h 1\nget t 2\nset b 1\nset r 0 1\nadd c 1\nadd r 0 1\ntest c eq 1\ntest c ne 1\nx = test c lt 1\ntest c le 1\ntest c gt x\ntest c ge 1\ntake c 1\nput h 1 2\nput t x 2\nremove h 1\nremove t 1\nhas h 1\nlen h\nlen t\nnext t 1\ncount t 1 2\ny = scan t 1 x\nz = diff x y\nif z ge 3\ncancel\nelse\nrepeat 0\nend\nend\ncommit\nthread\nschedule 0:1 1:1000000\n";

#[test]
fn texts_are_written(rt: HostRuntime) {
    for (text, lines) in TEXTS {
        assert_eq!(rt; is_written(rt.alloc(), text, lines), Ok(true));
    }
}

fn is_written(alloc: Global, text: &str, lines: &str) -> Result<bool, ReadError> {
    let file = read(alloc, text.as_bytes())?;
    let written = write(alloc, &file)?;
    Ok(written.as_str() == lines)
}

#[test]
fn example_script(rt: HostRuntime) {
    assert_eq!(rt; declared(rt.alloc(), TAKE_AND_ADD), Ok((1, 1)));
}

// How many objects and threads a text has.
fn declared(alloc: Global, text: &str) -> Result<(u32, u32), ReadError> {
    let file = read(alloc, text.as_bytes())?;
    Ok((file.decls.len(), file.threads.len()))
}

// A text, the line of its first fault, and what that is.
const REFUSED: &[(&str, u32, FaultKind)] = &[
    (
        "box a 1\nthread\nbegin\nset b 1\ncommit\n",
        4,
        FaultKind::UnknownName,
    ),
    ("thread\ncommit\n", 2, FaultKind::WrongPlace),
    ("thread\nbegin\n", 3, FaultKind::Unfinished),
    ("box a 9223372036854775808\n", 1, FaultKind::BadNumber),
    ("box a 0\nbox a 1\n", 2, FaultKind::TakenName),
    (
        "box a 0\nthread\nbegin\nadd a 1\ncommit\n",
        4,
        FaultKind::WrongKind,
    ),
    (
        "box a 0\nthread\nbegin\nfetch a\ncommit\n",
        4,
        FaultKind::BadLine,
    ),
    ("thread\nschedule 1:1\n", 2, FaultKind::OutOfLimits),
    ("sto 2\nthread\n", 2, FaultKind::BadLine),
    ("sto 2\nthread p\nthread p\n", 3, FaultKind::TakenName),
    ("box a 1\nsto 2\n", 2, FaultKind::WrongPlace),
    ("sto 3\n", 1, FaultKind::OutOfLimits),
    ("sto 2\nthread p\nschedule q:1\n", 3, FaultKind::UnknownName),
    ("sto 2\nhash h 683 64\n", 2, FaultKind::OutOfLimits),
    ("sto 2\narray r 16385 0\n", 2, FaultKind::OutOfLimits),
    (
        "sto 2\narray a 16384 0\narray b 16384 0\narray c 16384 0\narray d 16384 0\nbox e 0\n",
        6,
        FaultKind::OutOfLimits,
    ),
    (
        "sto 2\nhash h 682 64\narray r 129 0\n",
        3,
        FaultKind::OutOfLimits,
    ),
    ("box a -0\n", 1, FaultKind::BadNumber),
    ("box a 01\n", 1, FaultKind::BadNumber),
    ("thread\nbox a 0\n", 2, FaultKind::WrongPlace),
    ("schedule 0:1\nthread\n", 1, FaultKind::WrongPlace),
    (
        "thread\nbegin\nx = sum x 1\ncommit\n",
        3,
        FaultKind::UnknownName,
    ),
    ("array r 4096 0\nbox a 0\n", 2, FaultKind::OutOfLimits),
    ("array r 4097 0\n", 1, FaultKind::OutOfLimits),
    (
        "thread\nbegin\nrepeat 4097\nend\ncommit\n",
        3,
        FaultKind::OutOfLimits,
    ),
    (
        "box nnnnnnnnnnnnnnnnnnnnnnnnnnnnnnnnn 0\n",
        1,
        FaultKind::BadLine,
    ),
    (
        "box a 0\nthread\nbegin\nrepeat 4095\nset a 1\nend\ncommit\n",
        7,
        FaultKind::OutOfLimits,
    ),
];

#[test]
fn refused_scripts(rt: HostRuntime) {
    for (text, line, kind) in REFUSED {
        let (line, kind) = (*line, *kind);
        assert_eq!(rt;
            fault_in(rt.alloc(), text.as_bytes()),
            Ok(Some(ScriptFault { line, kind }))
        );
    }
}

// A head, a line so many times over, a tail, and the line that is out of limits; 0 where none is.
const REPEATED: &[(&str, u32, &str, &str, u32)] = &[
    ("", 16, "thread\n", "", 0),
    ("", 17, "thread\n", "", 17),
    (
        "sto 2\narray a 16384 0\narray b 16384 0\narray c 16384 0\narray d 16384 0\n",
        0,
        "",
        "",
        0,
    ),
    ("sto 2\nhash h 682 64\narray r 128 0\n", 0, "", "", 0),
    ("thread\n", 10000, "begin\ncommit\n", "", 0),
    ("thread\n", 10001, "begin\ncommit\n", "", 20002),
    (
        "thread\nbegin\n",
        8,
        "repeat 1\n",
        "end\nend\nend\nend\nend\nend\nend\nend\ncommit\n",
        0,
    ),
    ("thread\nbegin\n", 9, "repeat 1\n", "", 11),
    ("box nnnnnnnnnnnnnnnnnnnnnnnnnnnnnnnn 0\n", 0, "", "", 0),
    ("array r 4096 0\n", 0, "", "", 0),
    (
        "box a 0\nthread\nbegin\nrepeat 4094\nset a 1\nend\ncommit\n",
        0,
        "",
        "",
        0,
    ),
];

#[test]
fn limits_of_lines(rt: HostRuntime) {
    for (head, times, line, tail, fault) in REPEATED {
        let found = limit_in_script(rt.alloc(), head, *times, line, tail);
        assert_eq!(rt; found, Ok(out_of_limits(*fault)));
    }
}

fn out_of_limits(line: u32) -> Option<ScriptFault> {
    let kind = FaultKind::OutOfLimits;
    (line != 0).then_some(ScriptFault { line, kind })
}

fn limit_in_script(
    alloc: Global,
    head: &str,
    times: u32,
    line: &str,
    tail: &str,
) -> Result<Option<ScriptFault>, NoMemory> {
    match script(alloc, head, times, line, tail) {
        Ok(text) => fault_in(alloc, text.as_bytes()),
        Err(_) => Err(NoMemory),
    }
}

// The same with a number in the line, between the two texts.
const NUMBERED: &[(&str, u32, (&str, &str), &str, u32)] = &[
    ("", 64, ("box b", " 0\n"), "", 0),
    ("", 65, ("box b", " 0\n"), "", 65),
    ("thread\nbegin\n", 64, ("v", " = sum 0 0\n"), "commit\n", 0),
    ("thread\nbegin\n", 65, ("v", " = sum 0 0\n"), "commit\n", 67),
    ("sto 2\n", 64, ("thread p", "\n"), "", 0),
    ("sto 2\n", 65, ("thread p", "\n"), "", 66),
];

#[test]
fn limits_of_names(rt: HostRuntime) {
    for (head, times, line, tail, fault) in NUMBERED {
        let found = limit_in_numbered(rt.alloc(), head, *times, *line, tail);
        assert_eq!(rt; found, Ok(out_of_limits(*fault)));
    }
}

fn limit_in_numbered(
    alloc: Global,
    head: &str,
    times: u32,
    line: (&str, &str),
    tail: &str,
) -> Result<Option<ScriptFault>, NoMemory> {
    match numbered(alloc, head, times, line, tail) {
        Ok(text) => fault_in(alloc, text.as_bytes()),
        Err(_) => Err(NoMemory),
    }
}

const SPACES: &str = "                                                                ";

#[test]
fn limit_of_bytes(rt: HostRuntime) {
    let too_large = ScriptFault {
        line: 0,
        kind: FaultKind::TooLarge,
    };
    let faults = [
        limit_in_script(rt.alloc(), "", 16384, SPACES, ""),
        limit_in_script(rt.alloc(), "", 16384, SPACES, " "),
    ];
    assert_eq!(rt; faults, [Ok(None), Ok(Some(too_large))]);
}

#[test]
fn every_prefix_is_read(rt: HostRuntime) {
    assert!(rt; read_prefixes(rt.alloc(), SPLIT_AND_REPACK.as_bytes()).is_ok());
}

fn read_prefixes(alloc: Global, bytes: &[u8]) -> Result<(), NoMemory> {
    for end in 0..bytes.len() {
        let _ = fault_in(alloc, &bytes[..end])?;
    }
    Ok(())
}

// The places of the declarations in the text, and their numbers.
const NUMBERS: &[(usize, u32)] = &[(0, 3), (1, 0), (2, 2), (3, 1)];

#[test]
fn shapes_in_order(rt: HostRuntime) {
    assert_eq!(rt; are_in_order(rt.alloc()), Ok(true));
}

fn are_in_order(alloc: Global) -> Result<bool, ReadError> {
    let file = read(alloc, b"tree t 3\nbox b -1\ncounter c 9\nbox a 2\n")?;
    let shapes = sto_lang::shapes(alloc, &file)?;
    for (place, number) in NUMBERS {
        if !is_numbered(&file, &shapes, *place, *number) {
            return Ok(false);
        }
    }
    Ok(true)
}

fn is_numbered(file: &File, shapes: &Shapes, place: usize, number: u32) -> bool {
    match file.decls.as_slice().get(place) {
        Some(decl) => decl.number == number && is_shape(shapes, number, decl.shape),
        None => false,
    }
}

fn is_shape(shapes: &Shapes, number: u32, shape: Shape) -> bool {
    shapes.as_slice().get(number as usize).copied() == Some(shape)
}
