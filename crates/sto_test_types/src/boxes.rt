//! Values in calls and replies.
use crate::alone::set;
use std::alloc::Global;
use sto_box::TBox;
use sto_model::{Pairs, Reply};
use sto_part::{NoMemory, Word, Words};

type TPair = TBox<(i64, bool)>;

#[test]
fn values_in_calls(rt: HostRuntime) {
    let calls = [
        TBox::<char>::set_call(2, &'a'),
        TPair::set_call(0, &(7, true)),
    ];
    assert_eq!(rt; calls, [set(2, 97, 0), set(0, 7, 1)]);
}

#[test]
fn values_of_one_word(rt: HostRuntime) {
    let letters = [read_value::<char>(97), read_value::<char>(0xD800)];
    assert_eq!(rt; letters, [Some('a'), None]);
    assert!(rt; TBox::<char>::read_reply(&Reply::Done).is_none());
    assert!(rt; read_value::<bool>(2).is_none());
}

fn read_value<W: Words>(value: i64) -> Option<W> {
    TBox::<W>::read_reply(&Reply::Value(value))
}

#[test]
fn values_of_two_words(rt: HostRuntime) {
    assert_eq!(rt; is_read_as_a_pair(rt.alloc()), Ok(true));
    let others = [
        read_value::<(i64, bool)>(7),
        TPair::read_reply(&Reply::Done),
    ];
    assert_eq!(rt; others, [None, None]);
}

fn is_read_as_a_pair(alloc: Global) -> Result<bool, NoMemory> {
    let mut pairs = Pairs::new(alloc);
    pairs.push((7, 1))?;
    let reply = Reply::Pairs(pairs);
    let pair = TPair::read_reply(&reply);
    Ok(pair == Some((7, true)) && TBox::<i64>::read_reply(&reply).is_none())
}
