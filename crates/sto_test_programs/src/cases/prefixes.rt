//! Every prefix of a script of one transaction: it is a script exactly where none of its lines is cut short and no transaction is
//! open.
use crate::calls::NONE;
use crate::cases::Case;
use crate::cases::group::Group;
use std::io;
use std::sync::Wait;
use std::thread::Threads;

/// Cuts the input of a case at each place.
pub fn cut<R: Threads + Wait + Sync>(group: &mut Group<'_, R>, case: &Case<'_>) -> io::Result<()> {
    for length in 0..=case.input.len() {
        let prefix = case.input.get(..length).unwrap_or("");
        let holds = ends_rightly(group, case, prefix)?;
        group.add(prefix, holds)?;
    }
    Ok(())
}

fn ends_rightly<R: Threads + Wait + Sync>(
    group: &Group<'_, R>,
    case: &Case<'_>,
    prefix: &str,
) -> io::Result<bool> {
    let alloc = group.rt.alloc();
    let called = case.call.on(group.threads, alloc, prefix, NONE)?;
    Ok(if is_script(prefix, case.text) {
        called.status == 0 && called.line.as_slice().is_empty()
    } else {
        called.status == 3 && called.out.as_slice().is_empty()
    })
}

// The last line may lack its line feed. In version 2 a name of a thread that is cut short is another name.
fn is_script(prefix: &str, last_lines: &str) -> bool {
    let last = prefix.split('\n').last().unwrap_or("");
    let is_whole = last_lines.split('\n').any(|line| line == last);
    is_whole && prefix.contains("\nbegin") == prefix.contains("\ncommit")
}
