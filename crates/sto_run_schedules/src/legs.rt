//! The events of a run, parted into legs.
ghost use Rattle.std.specs.Prelude.{◌≡◌, ◌≤◌, ◌<◌, ◌^◌, length, IfOk, nat_eq};
ghost use Rattle.std.specs.List.{prefix_len};
ghost use Rattle.sto_run_schedules.specs.Parted.{front_of, past, ends_of};

use std::alloc::Global;
use sto_explore::Leg;
use sto_part::NoMemory;
use sto_trace::Step;

// How many of the first events are of a thread.
fn own_front(steps: &[Step], thread: u32) -> usize
    ensures { result ≡ prefix_len (λ step. nat_eq step.thread thread) steps.now }
{
    steps
        .iter()
        .take_while(|step| step.thread == thread)
        .count()
}

// No more of them than so many.
fn front(steps: &[Step], thread: u32, most: u64) -> usize
    ensures count { result ≡ front_of thread most steps.now }
    ensures within { result ≤ length steps.now }
{
    own_front(steps, thread).min(most as usize)
}

/// The events past those of the legs with which a run begins.
pub fn past<'s>(steps: &'s [Step], decided: &[Leg]) -> &'s [Step]
    requires { length steps.now < 2 ^ 32 }
    ensures past { result.now ≡ past decided.now steps.now }
    ensures few { length result.now < 2 ^ 32 }
{
    let mut rest = steps;
    for leg in decided {
        let made = front(rest, leg.thread, leg.turns);
        rest = &rest[made..];
    }
    rest
}

/// The legs that led the threads of an order to their ends, one after the other, where none made more events than so many.
pub fn ends(alloc: Global, steps: &[Step], order: &[u32], most: u32) -> Result<Vec<Leg>, NoMemory>
    requires { length steps.now < 2 ^ 32 }
    ensures { IfOk result (λ legs. legs.items ≡ ends_of most order.now steps.now) }
{
    let mut rest = steps;
    let mut legs = Vec::new(alloc);
    for thread in order {
        let made = front(rest, *thread, u64::from(most));
        rest = &rest[made..];
        let leg = Leg {
            thread: *thread,
            turns: (made as u64).max(1),
            over: true,
        };
        if legs.push(leg).is_err() {
            return Err(NoMemory);
        }
    }
    Ok(legs)
}
