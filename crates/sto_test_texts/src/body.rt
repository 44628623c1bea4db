// Worked examples, run on the plain state.
ghost use Rattle.std.specs.Prelude.{◌≡◌, ◌≤◌, length, pos, true, [], ◌∷◌, IfOk};
ghost use Rattle.sto_lang.specs.Sizes.{calls_of};
ghost use Rattle.sto_lang.specs.Taken.{are_taken};
ghost use Rattle.sto_model.specs.declared.shape.Shape.TheVariants.{Single, Tree};

use std::alloc::Global;
use sto_lang::{Arg, Names, Script, Stmt, Stmts, Text};
use sto_model::{
    Body, Call, End, Next, Operation, Outcome, Reply, Shape, Shapes, State, serial_run,
};
use sto_part::{List, NoMemory, Test};
use sto_script::ScriptBody;

const ZERO: Arg = Arg::Num(0);

const FIRST: Arg = Arg::Var(0);

const SECOND: Arg = Arg::Var(1);

// A script of these statements, with so many variables.
fn script_of(alloc: Global, vars: u32, body: Stmts, weight: u32) -> Result<Script, NoMemory>
    ensures body { IfOk result (λ s. s.body ≡ body) }
    ensures weight { IfOk result (λ s. s.weight ≡ weight) }
{
    Ok(Script {
        vars: names(alloc, vars)?,
        body,
        weight,
    })
}

// The names of so many variables.
fn names(alloc: Global, count: u32) -> Result<Names, NoMemory> {
    let mut names = List::new(alloc);
    for _ in 0..count {
        names.push(Text::new(alloc))?;
    }
    Names::of(alloc, names)
}

// One object of this shape.
fn one(alloc: Global, shape: Shape) -> Result<Shapes, NoMemory>
    ensures { IfOk result (λ l. l.items ≡ shape ∷ []) }
{
    let mut shapes = Shapes::new(alloc);
    shapes.push(shape)?;
    Ok(shapes)
}

// The serial run of a script.
fn run(
    alloc: Global,
    script: &Script,
    shapes: &Shapes,
    state: &mut State,
) -> Result<Outcome, NoMemory>
    requires calls { calls_of script.now.body ≤ script.now.weight }
    requires taken { are_taken shapes.now.items script.now.body ≡ true }
    requires objects { length state.old.items ≡ length shapes.now.items }
{
    let mut body = ScriptBody::new(alloc, script)?;
    serial_run(alloc, &mut body, shapes, state)
}

// What a run has answered, and the rows that it has left.
#[derive(Drop)]
struct Ran {
    outcome: Outcome,
    state: State,
}

// The serial run of a script on the opening rows of one object.
fn run_on(alloc: Global, script: &Script, shape: Shape) -> Result<Ran, NoMemory>
    requires calls { calls_of script.now.body ≤ script.now.weight }
    requires taken { are_taken (shape ∷ []) script.now.body ≡ true }
{
    let shapes = one(alloc, shape)?;
    let mut state = State::opening(alloc, &shapes)?;
    let outcome = run(alloc, script, &shapes, &mut state)?;
    Ok(Ran { outcome, state })
}

fn replies(ran: &Ran) -> &[Reply] {
    ran.outcome.replies.as_slice()
}

// Whether these are the rows of the one object.
fn has_left(ran: &Ran, rows: &[(i64, i64)]) -> bool {
    ran.state.len() == 1 && ran.state.get(0).as_slice() == rows
}

// A call of the one object.
macro_rules! ask {
    ($to:expr, $operation:expr, $a:expr, $b:expr) => {
        Stmt::Ask {
            to: $to,
            object: 0,
            operation: $operation,
            a: $a,
            b: $b,
        }
    };
}

// Statements without branches and bodies, in order.
macro_rules! list {
    ($alloc:expr; $($item:expr),*) => {{
        let mut made = Stmts::new($alloc);
        $(made.push($item)?;)*
        made
    }};
}

#[test]
fn worked_examples(rt: HostRuntime) {
    let alloc = rt.alloc();
    let cases = [
        example_of_a_body(alloc),
        fills_a_tree(alloc),
        cancels_in_a_branch(alloc),
        sees_its_own_writes(alloc),
        passes_over_empty_turns(alloc),
    ];
    assert_eq!(rt; cases, [Ok(true); 5]);
}

// `x = get a`, `y = sum y x`, `set a y`, told twice that a is 5: each time y is 0 at first.
fn example_of_a_body(alloc: Global) -> Result<bool, NoMemory> {
    let set = Stmt::Sum {
        to: 1,
        a: SECOND,
        b: FIRST,
    };
    let body =
        list!(alloc; ask!(Some(0), Operation::Get, ZERO, ZERO), set, ask!(None, Operation::Set, SECOND, ZERO));
    let script = script_of(alloc, 2, body, 4)?;
    let mut body = ScriptBody::new(alloc, &script)?;
    let first = asks_and_commits(&mut body);
    body.reset();
    Ok(first && asks_for_five(&mut body) && body.next() == Next::Ask(set_five()))
}

fn get() -> Call {
    Call::new(0, Operation::Get, 0, 0)
}

fn set_five() -> Call {
    Call::new(0, Operation::Set, 5, 0)
}

fn asks_and_commits(body: &mut ScriptBody<'_>) -> bool {
    asks_for_five(body)
        && body.left() == 3
        && is_told(body, set_five(), &Reply::Done)
        && body.next() == Next::Commit
}

// Whether a body that has heard nothing asks for the value, which it is told to be 5.
fn asks_for_five(body: &mut ScriptBody<'_>) -> bool {
    body.left() == 4 && is_told(body, get(), &Reply::Value(5))
}

// Whether the body asks this call, which is answered so.
fn is_told(body: &mut ScriptBody<'_>, wanted: Call, reply: &Reply) -> bool {
    match body.next() {
        Next::Ask(call) => {
            body.hear(reply);
            call == wanted
        }
        _ => false,
    }
}

// `k = sum 0 0`, nine times `k = sum k 1` and `put t k k`, then `put t 8 5` and `n = len t`.
fn filling(alloc: Global) -> Result<Stmts, NoMemory>
    ensures calls { IfOk result (λ s. calls_of s ≤ 23) }
    ensures taken { IfOk result (λ s. are_taken (Tree 2 ∷ []) s ≡ true) }
{
    let begin = Stmt::Sum {
        to: 0,
        a: ZERO,
        b: ZERO,
    };
    let next = Stmt::Sum {
        to: 0,
        a: FIRST,
        b: Arg::Num(1),
    };
    let turn = list!(alloc; next, ask!(None, Operation::Put, FIRST, FIRST));
    let mut all = list!(alloc; begin);
    all.push_repetition(9, &turn)?;
    all.push(ask!(None, Operation::Put, Arg::Num(8), Arg::Num(5)))?;
    all.push(ask!(Some(1), Operation::Len, ZERO, ZERO))?;
    Ok(all)
}

const FILLED: &[(i64, i64)] = &[
    (1, 1),
    (2, 2),
    (3, 3),
    (4, 4),
    (5, 5),
    (6, 6),
    (7, 7),
    (8, 5),
];

fn fills_a_tree(alloc: Global) -> Result<bool, NoMemory> {
    let script = script_of(alloc, 2, filling(alloc)?, 23)?;
    let ran = run_on(alloc, &script, Shape::Tree { leaves: 2 })?;
    Ok(
        ran.outcome.end == End::Commit
            && are_of_a_full_tree(replies(&ran))
            && has_left(&ran, FILLED),
    )
}

// Eight keys are put, the ninth has no room, and the value of the eighth is put anew.
fn are_of_a_full_tree(replies: &[Reply]) -> bool {
    match replies {
        [puts @ .., Reply::Full, Reply::Done, Reply::Value(8)] => {
            puts.len() == 8 && are_done(puts)
        }
        _ => false,
    }
}

fn are_done(replies: &[Reply]) -> bool {
    replies.iter().all(|reply| matches!(reply, Reply::Done))
}

// `x = get a`, and where x is below 1 `set a 5`, else `set a 9` and `cancel`.
fn cancelling(alloc: Global) -> Result<Stmts, NoMemory>
    ensures calls { IfOk result (λ s. calls_of s ≤ 6) }
    ensures taken { IfOk result (λ s. are_taken (Single (pos 1) ∷ []) s ≡ true) }
{
    let first = list!(alloc; ask!(None, Operation::Set, Arg::Num(5), ZERO));
    let second = list!(alloc; ask!(None, Operation::Set, Arg::Num(9), ZERO), Stmt::Cancel);
    let mut all = list!(alloc; ask!(Some(0), Operation::Get, ZERO, ZERO));
    all.push_choice(FIRST, Test::Lt, Arg::Num(1), &first, &second)?;
    Ok(all)
}

const ONE: &[(i64, i64)] = &[(0, 1)];

fn cancels_in_a_branch(alloc: Global) -> Result<bool, NoMemory> {
    let script = script_of(alloc, 1, cancelling(alloc)?, 6)?;
    let ran = run_on(alloc, &script, Shape::Single(1))?;
    Ok(
        ran.outcome.end == End::Cancel
            && matches!(replies(&ran), [Reply::Value(1), Reply::Done])
            && has_left(&ran, ONE),
    )
}

// `add c 3`, `x = test c ge 5`, `take c 5`, on a counter of 3.
fn sees_its_own_writes(alloc: Global) -> Result<bool, NoMemory> {
    let body = list!(
        alloc;
        ask!(None, Operation::Add, Arg::Num(3), ZERO),
        ask!(Some(0), Operation::Test, Arg::Num(5), Arg::Num(5)),
        ask!(None, Operation::Take, Arg::Num(5), ZERO)
    );
    let script = script_of(alloc, 1, body, 4)?;
    let ran = run_on(alloc, &script, Shape::Counter(3))?;
    let said = matches!(
        replies(&ran),
        [Reply::Done, Reply::Flag(true), Reply::Flag(true)]
    );
    Ok(said && has_left(&ran, ONE))
}

// Turns without statements, a repetition that runs no times, and sums and differences that wrap.
fn wrapping(alloc: Global) -> Result<Stmts, NoMemory>
    ensures calls { IfOk result (λ s. calls_of s ≤ 4010) }
    ensures taken { IfOk result (λ s. are_taken (Single (pos 7) ∷ []) s ≡ true) }
{
    let mut empty = Stmts::new(alloc);
    empty.push_repetition(4096, &Stmts::new(alloc))?;
    let never = list!(alloc; ask!(None, Operation::Set, Arg::Num(1), ZERO));
    let mut all = Stmts::new(alloc);
    all.push_repetition(4000, &empty)?;
    all.push_repetition(0, &never)?;
    all.push(Stmt::Sum {
        to: 0,
        a: Arg::Num(i64::MAX),
        b: Arg::Num(1),
    })?;
    all.push(ask!(None, Operation::Set, FIRST, ZERO))?;
    all.push(ask!(None, Operation::Get, ZERO, ZERO))?;
    all.push(Stmt::Diff {
        to: 0,
        a: FIRST,
        b: Arg::Num(1),
    })?;
    all.push(ask!(None, Operation::Set, FIRST, ZERO))?;
    all.push(ask!(None, Operation::Get, ZERO, ZERO))?;
    Ok(all)
}

fn passes_over_empty_turns(alloc: Global) -> Result<bool, NoMemory> {
    let script = script_of(alloc, 1, wrapping(alloc)?, 4010)?;
    let ran = run_on(alloc, &script, Shape::Single(7))?;
    let said = matches!(
        replies(&ran),
        [
            Reply::Done,
            Reply::Value(i64::MIN),
            Reply::Done,
            Reply::Value(i64::MAX)
        ]
    );
    Ok(said)
}
