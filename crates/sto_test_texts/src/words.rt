//! Words that are commands, and words that are not.
use std::alloc::{AllocError, Global};
use sto_args::{Asked, By, Command, GivenText, HelpPage, find_command};

fn words_of(alloc: Global, words: &[&str]) -> Result<Vec<String>, AllocError> {
    let mut texts = Vec::new(alloc);
    for word in words {
        texts.push(String::from_str(alloc, word)?)?;
    }
    Ok(texts)
}

// What a command says besides texts.
type Numbers = (&'static str, u64, u64, bool);

// Words, and the command that they are: its name, a number of its own, its tries, its number or its states, and whether it prints JSON.
const COMMANDS: &[(&[&str], Numbers)] = &[
    (&["run"], ("run", 0, 64, false)),
    (&["run", "--tries=3"], ("run", 0, 3, false)),
    (&["run", "--tries", "1"], ("run", 0, 1, false)),
    (
        &["run", "--json", "--tries", "64", "--threads=16"],
        ("run", 16, 64, true),
    ),
    (&["run", "--threads", "1", "--json"], ("run", 1, 64, true)),
    (&["step"], ("step", 0, 64, false)),
    (&["step", "--json", "--tries", "1"], ("step", 0, 1, true)),
    (&["trace"], ("trace", 0, 64, false)),
    (&["trace", "--tries=2", "--json"], ("trace", 0, 2, true)),
    (&["draw"], ("draw", 0, 64, false)),
    (&["draw", "--tries", "2"], ("draw", 0, 2, false)),
    (
        &["explore"],
        ("explore", By::State as u64, 1_000_000, false),
    ),
    (
        &["explore", "--json", "--by=answers", "--states", "1"],
        ("explore", By::Answers as u64, 1, true),
    ),
    (
        &["explore", "--by", "order", "--states=1000000000"],
        ("explore", By::Order as u64, 1_000_000_000, false),
    ),
    (
        &["explore", "--by", "state"],
        ("explore", By::State as u64, 1_000_000, false),
    ),
    (&["schedules"], ("schedules", 2, 64, false)),
    (
        &["schedules", "--json", "--switches=8", "--tries", "1"],
        ("schedules", 8, 1, true),
    ),
    (
        &["schedules", "--switches", "0"],
        ("schedules", 0, 64, false),
    ),
    (&["upgrade"], ("upgrade", 0, 0, false)),
    (&["gen", "0"], ("gen", 0, 0, false)),
    (&["gen", "1"], ("gen", 0, 1, false)),
    (&["gen", "7"], ("gen", 0, 7, false)),
    (
        &["gen", "18446744073709551615"],
        ("gen", 0, u64::MAX, false),
    ),
    (&["bench", "1"], ("bench", 0, 1, false)),
    (&["bench", "--threads", "4", "7"], ("bench", 4, 7, false)),
    (&["--help"], ("help", 0, HelpPage::Program as u64, false)),
    (&["--help", "run"], ("help", 0, HelpPage::Run as u64, false)),
    (
        &["--help", "bench"],
        ("help", 0, HelpPage::Bench as u64, false),
    ),
];

// The commands of the program, with their options in both forms.
#[test]
fn example_commands(rt: HostRuntime) {
    for (words, numbers) in COMMANDS {
        assert_eq!(rt; finds(rt.alloc(), words, Some(*numbers)), Ok(true));
    }
}

// The text of an option, where it is given.
fn text_of(text: &Option<GivenText>) -> Option<&[u8]> {
    text.as_ref().map(|text| text.as_bytes())
}

// What is asked of outcomes: whether there must be none, and the text.
fn asked_of(asked: &Option<Asked>) -> Option<(bool, &[u8])> {
    match asked {
        None => None,
        Some(Asked::Where(text)) => Some((false, text.as_bytes())),
        Some(Asked::Never(text)) => Some((true, text.as_bytes())),
    }
}

// What a command says besides texts.
fn numbers_of(command: &Command) -> Numbers {
    match command {
        Command::Run {
            threads,
            tries,
            json,
        } => ("run", threads.unwrap_or(0).into(), (*tries).into(), *json),
        Command::Step { tries, json, .. } => ("step", 0, (*tries).into(), *json),
        Command::Trace { tries, json, .. } => ("trace", 0, (*tries).into(), *json),
        Command::Draw { tries, .. } => ("draw", 0, (*tries).into(), false),
        Command::Explore {
            by,
            states,
            json,
            ..
        } => ("explore", *by as u64, *states, *json),
        Command::Schedules {
            switches,
            tries,
            json,
        } => ("schedules", (*switches).into(), (*tries).into(), *json),
        Command::Upgrade => ("upgrade", 0, 0, false),
        Command::Gen { number } => ("gen", 0, *number, false),
        Command::Bench { number, threads } => (
            "bench",
            threads.unwrap_or(0).into(),
            *number,
            false,
        ),
        Command::Help { page } => ("help", 0, *page as u64, false),
    }
}

// The schedule and the question of a command.
fn texts_of(command: &Command) -> (Option<&[u8]>, Option<(bool, &[u8])>) {
    match command {
        Command::Step { schedule, .. }
        | Command::Trace { schedule, .. }
        | Command::Draw { schedule, .. } => (text_of(schedule), None),
        Command::Explore { asked, .. } => (None, asked_of(asked)),
        _ => (None, None),
    }
}

// Whether the words are the command that says just these numbers, and no text; none where they are no command.
fn finds(alloc: Global, words: &[&str], numbers: Option<Numbers>) -> Result<bool, AllocError> {
    let words = words_of(alloc, words)?;
    match (find_command(alloc, words.as_slice()), numbers) {
        (Ok(None), None) => Ok(true),
        (Ok(Some(command)), Some(numbers)) => {
            Ok(numbers_of(&command) == numbers && texts_of(&command) == (None, None))
        }
        (Ok(_), _) => Ok(false),
        (Err(_), _) => Err(AllocError),
    }
}

// The schedule, or what is asked of outcomes, that words have.
fn has_texts(
    alloc: Global,
    words: &[&str],
    schedule: Option<&[u8]>,
    asked: Option<(bool, &[u8])>,
) -> Result<bool, AllocError> {
    let words = words_of(alloc, words)?;
    match find_command(alloc, words.as_slice()) {
        Ok(Some(command)) => Ok(texts_of(&command) == (schedule, asked)),
        _ => Ok(false),
    }
}

// The texts of options are those of the words, whatever they are.
#[test]
fn texts_of_options(rt: HostRuntime) {
    let alloc = rt.alloc();
    let schedule = Some(b"1:4 0:10".as_slice());
    let step = ["step", "--schedule", "1:4 0:10"];
    assert_eq!(rt; has_texts(alloc, step.as_slice(), schedule, None), Ok(true));
    let trace = ["trace", "--schedule=1:4 0:10", "--json"];
    assert_eq!(rt;
        has_texts(alloc, trace.as_slice(), schedule, None),
        Ok(true)
    );
    let draw = ["draw", "--schedule", ""];
    assert_eq!(rt;
        has_texts(alloc, draw.as_slice(), Some(b"".as_slice()), None),
        Ok(true)
    );
    let only = ["explore", "--where", "a = 1"];
    let asked = Some((false, b"a = 1".as_slice()));
    assert_eq!(rt; has_texts(alloc, only.as_slice(), None, asked), Ok(true));
    let never = ["explore", "--by", "order", "--never=-1 = a"];
    let asked = Some((true, b"-1 = a".as_slice()));
    assert_eq!(rt; has_texts(alloc, never.as_slice(), None, asked), Ok(true));
}

const NO_COMMANDS: &[&[&str]] = &[
    &[],
    &["run", "--tries", "0"],
    &["run", "--tries", "65"],
    &["run", "--tries=65"],
    &["run", "--tries", "2", "--tries", "2"],
    &["run", "--tries=2", "--tries=2"],
    &["run", "--threads", "17"],
    &["run", "--threads=0"],
    &["run", "--json", "--json"],
    &["run", "--json="],
    &["run", "--json=1"],
    &["run", "--tries", "--json", "3"],
    &["step", "--threads", "2"],
    &["step", "--tries", "65"],
    &["step", "1"],
    &["trace", "--tries", "0"],
    &["trace", "1"],
    &["trace", "--threads", "2"],
    &["draw", "--tries", "65"],
    &["draw", "--json"],
    &["explore", "--by", "report"],
    &["explore", "--by", ""],
    &["explore", "--by"],
    &["explore", "--states", "0"],
    &["explore", "--states", "1000000001"],
    &["explore", "--tries", "2"],
    &["explore", "--switches", "2"],
    &["explore", "2"],
    &["explore", "--where", "a = 1", "--never", "a = 2"],
    &["explore", "--where", "a = 1", "--where", "a = 1"],
    &["explore", "--where"],
    &["explore", "--where", "-1 = a"],
    &["explore", "--schedule", "0:1"],
    &["run", "--schedule", "0:1"],
    &["run", "--where", "a = 1"],
    &["step", "--schedule", "0:1", "--schedule", "0:1"],
    &["step", "--schedule"],
    &["schedules", "--schedule", "0:1"],
    &["schedules", "--switches", "9"],
    &["schedules", "--switches", "-1"],
    &["schedules", "--switches", "01"],
    &["schedules", "--switches"],
    &["schedules", "--threads", "2"],
    &["schedules", "2"],
    &["step", "--switches", "2"],
    &["upgrade", "--json"],
    &["upgrade", "1"],
    &["gen", "1", "--json"],
    &["run", "--"],
    &["run", "--help"],
    &["run", "-h"],
    &["run", "--version"],
    &["run", "--tries="],
    &["run", "--tries"],
    &["run", "--tries", "--"],
    &["run", "--tries", "+1"],
    &["run", "--tries", "01"],
    &["run", ""],
    &["run", "1"],
    &["gen"],
    &["gen", "01"],
    &["gen", "-1"],
    &["gen", "18446744073709551616"],
    &["gen", "1", "2"],
    &["gen", "--NUMBER=1"],
    &["bench"],
    &["bench", "1", "--threads", "17"],
    &["bench", "1", "--tries", "2"],
    &["bench", "--json", "1"],
    &["Run"],
    &["--help", "--help"],
    &["--help", "nonsense"],
    &["--help", "run", "step"],
    &["--help", "run", "--json"],
    &["--help", ""],
    &["--help", "Run"],
    &["--help", "--json"],
    &["--help", "check"],
    &["--help=run"],
    &["--Help"],
    &["-h"],
    &["help"],
    &["--version"],
];

#[test]
fn words_outside_the_grammar(rt: HostRuntime) {
    for words in NO_COMMANDS {
        assert_eq!(rt; finds(rt.alloc(), words, None), Ok(true));
    }
}
