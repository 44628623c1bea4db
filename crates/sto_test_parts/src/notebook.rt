//! A notebook is made, and its list noted anew.
use std::marker::Brand;
use sto_core::Notebook;

#[test]
fn example_of_a_notebook(rt: HostRuntime) {
    let mut book = Notebook::new(rt.alloc()).expect(&rt, "memory");
    book.note::<Brand>();
}
