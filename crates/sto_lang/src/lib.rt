//! Scripts: what they say, which bytes are one, and how they are read.
#![tactic(auto)]

mod arg;
mod draft;
mod fault;
mod faults;
mod file;
mod kind;
mod limit;
mod name_table;
mod names;
mod objects;
mod open_transaction;
mod order;
mod place;
mod range;
mod reader;
mod room;
mod stmt;
mod text;
mod thread;
mod turns;
mod usage;
mod variables;
mod weight;

pub use arg::Arg;
pub use fault::{FaultKind, ReadError, ScriptFault};
pub use file::{Decl, Decls, File, Schedule, Script, Scripts, Thread, Threads, Turns};
pub use names::Names;
pub use order::shapes;
pub use reader::read;
pub use stmt::{Stmt, Stmts, beyond, stretch};
pub use text::Text;
pub use thread::numbered_name;
