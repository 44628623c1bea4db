//! One report in both forms.
ghost use Rattle.std.specs.Prelude.{◌≡◌, [], ◌∷◌, ◌<◌, ◌++◌, pos, negsuc, length, map, codes, IfOk};
ghost use Rattle.sto_model.specs.declared.shape.Shape.TheVariants.{Single};
ghost use Rattle.sto_lang.specs.Objects.{Declaration};
ghost use Rattle.sto_lang.specs.Views.{declaration, names_of};
ghost use Rattle.sto_journal.specs.Journals.{HaveThreads, AreAbortsOf};
ghost use Rattle.sto_test_texts.specs.Examples.{box_a, up_and_down};

use serde_json::Value;
use std::alloc::Global;
use sto_journal::{AbortLine, Aborts, Cause, Ending, Journal, Line, Lines, json_report, report};
use sto_lang::{Decl, Decls, File, Text, Thread, Threads};
use sto_model::{Replies, Reply, Shape, Shapes, State};
use sto_part::{List, NoMemory};
use sto_type::Home;

fn decls(alloc: Global) -> Result<Decls, NoMemory>
    ensures { IfOk result (λ ds. map declaration ds.items ≡ box_a) }
{
    let mut decls = List::new(alloc);
    let name = Text::of(alloc, "a")?;
    decls.push(Decl {
        name,
        shape: Shape::Single(0),
        number: 0,
    })?;
    Ok(decls)
}

fn threads(alloc: Global) -> Result<Threads, NoMemory>
    ensures { IfOk result (λ ts. names_of ts.items ≡ up_and_down) }
{
    let mut threads = List::new(alloc);
    let name = Text::of(alloc, "up")?;
    let scripts = List::new(alloc);
    threads.push(Thread { name, scripts })?;
    let name = Text::of(alloc, "down")?;
    let scripts = List::new(alloc);
    threads.push(Thread { name, scripts })?;
    Ok(threads)
}

fn replies(alloc: Global, value: i64) -> Result<Replies, NoMemory> {
    let mut replies = List::new(alloc);
    replies.push(Reply::Value(value))?;
    replies.push(Reply::Done)?;
    Ok(replies)
}

fn lines(alloc: Global) -> Result<Lines, NoMemory>
    ensures { IfOk result (λ ls. HaveThreads 2 ls.items) }
{
    let mut lines = List::new(alloc);
    lines.push(Line {
        k: 1,
        thread: 1,
        position: 1,
        end: Ending::Commit,
        replies: replies(alloc, 0)?,
    })?;
    lines.push(Line {
        k: 2,
        thread: 0,
        position: 1,
        end: Ending::Commit,
        replies: replies(alloc, -1)?,
    })?;
    Ok(lines)
}

fn aborts(alloc: Global) -> Result<Aborts, NoMemory>
    ensures { IfOk result (λ ls. AreAbortsOf 2 box_a ls.items) }
{
    let mut aborts = List::new(alloc);
    let home = Home {
        object: 0,
        local: 0,
    };
    aborts.push(AbortLine {
        thread: 0,
        position: 1,
        at: 0,
        replies: replies(alloc, 0)?,
        cause: Cause::Changed { home, by: 1 },
    })?;
    Ok(aborts)
}

fn state(alloc: Global) -> Result<State, NoMemory>
    ensures { IfOk result (λ s. length s.items ≡ 1) }
{
    let mut shapes = Shapes::new(alloc);
    shapes.push(Shape::Single(0))?;
    State::opening(alloc, &shapes)
}

// The two threads and the box.
fn file(alloc: Global) -> Result<File, NoMemory>
    ensures decls { IfOk result (λ f. map declaration f.decls.items ≡ box_a) }
    ensures threads { IfOk result (λ f. names_of f.threads.items ≡ up_and_down) }
{
    let decls = decls(alloc)?;
    Ok(File {
        version: 2,
        decls,
        threads: threads(alloc)?,
        schedule: None,
    })
}

// Each thread has committed, the first after an abort.
fn journal(alloc: Global) -> Result<Journal, NoMemory>
    ensures lines { IfOk result (λ j. HaveThreads 2 j.lines.items) }
    ensures aborts { IfOk result (λ j. AreAbortsOf 2 box_a j.aborts.items) }
    ensures rows { IfOk result (λ j. length j.state.items ≡ 1) }
{
    let lines = lines(alloc)?;
    let aborts = aborts(alloc)?;
    Ok(Journal {
        lines,
        aborts,
        state: state(alloc)?,
    })
}

const TEXT: &str =
    "1 down.1 commit 0 ok\n2 up.1 commit -1 ok\nabort up.1 at 0 saw 0 ok changed a 0 by 1\nstate\na = 0\n";

const JSON: &str =
    "{\"aborts\":[{\"at\":0,\"by\":1,\"cause\":\"changed\",\"object\":\"a\",\"part\":0,\"position\":1,\"saw\":[\"0\",\"ok\"],\"thread\":\"up\"}],\"journal\":[{\"end\":\"commit\",\"k\":1,\"position\":1,\"replies\":[\"0\",\"ok\"],\"thread\":\"down\"},{\"end\":\"commit\",\"k\":2,\"position\":1,\"replies\":[\"-1\",\"ok\"],\"thread\":\"up\"}],\"state\":[{\"name\":\"a\",\"text\":\"0\"}]}\n";

#[test]
fn both_forms(rt: HostRuntime) {
    let alloc = rt.alloc();
    let forms = [is_reported(alloc, TEXT), is_reported_as_json(alloc, JSON)];
    assert_eq!(rt; forms, [Ok(true); 2]);
    assert!(rt; is_read(alloc, JSON));
}

#[tactic(auto, using(crate::proofs::Examples::box_named, crate::proofs::Examples::threads_named, crate::proofs::Examples::lines_of_two, crate::proofs::Examples::aborts_of_two, crate::proofs::Examples::box_rows))]
fn is_reported(alloc: Global, wanted: &str) -> Result<bool, NoMemory> {
    let file = file(alloc)?;
    let journal = journal(alloc)?;
    let text = report(alloc, &file, &journal)?;
    Ok(text.as_str() == wanted)
}

#[tactic(auto, using(crate::proofs::Examples::box_named, crate::proofs::Examples::threads_named, crate::proofs::Examples::lines_of_two, crate::proofs::Examples::aborts_of_two, crate::proofs::Examples::box_rows))]
fn is_reported_as_json(alloc: Global, wanted: &str) -> Result<bool, NoMemory> {
    let file = file(alloc)?;
    let journal = journal(alloc)?;
    let line = json_report(alloc, &file, &journal)?;
    Ok(line.as_str() == wanted)
}

fn is_read(alloc: Global, text: &str) -> bool {
    match Value::from_str(alloc, text) {
        Ok(read) => has_numbers(&read) && has_words(&read),
        Err(_) => false,
    }
}

const NUMBERS: &[(&str, u64)] = &[
    ("/aborts/0/at", 0),
    ("/aborts/0/by", 1),
    ("/aborts/0/part", 0),
    ("/aborts/0/position", 1),
    ("/journal/0/k", 1),
    ("/journal/1/k", 2),
    ("/journal/1/position", 1),
];

fn has_numbers(read: &Value) -> bool {
    for (path, number) in NUMBERS {
        if read.pointer(path).and_then(Value::as_u64) != Some(*number) {
            return false;
        }
    }
    true
}

const WORDS: &[(&str, &str)] = &[
    ("/aborts/0/cause", "changed"),
    ("/aborts/0/object", "a"),
    ("/aborts/0/saw/1", "ok"),
    ("/aborts/0/thread", "up"),
    ("/journal/0/end", "commit"),
    ("/journal/0/thread", "down"),
    ("/journal/1/replies/0", "-1"),
    ("/state/0/name", "a"),
    ("/state/0/text", "0"),
];

fn has_words(read: &Value) -> bool {
    for (path, word) in WORDS {
        if read.pointer(path).and_then(Value::as_str) != Some(*word) {
            return false;
        }
    }
    true
}
