//! What a cache knows, and the short lists.
use std::alloc::Global;
use sto_item::Item;
use sto_part::{Change, NoMemory};
use sto_type::{AnswerPool, Cache, KnownParts, one_item, one_update};

// A part and its words; none where they are not known.
type Known = (u32, Option<&'static [i64]>);

const AT_FIRST: &[Known] = &[(3, None)];

const LEARNT: &[Known] = &[(3, Some(&[4])), (1, Some(&[5])), (2, None)];

const FORGOTTEN: &[Known] = &[(1, None)];

#[test]
fn caches_and_short_lists(rt: HostRuntime) {
    let alloc = rt.alloc();
    let cases = [
        example_cache(alloc),
        parts_beyond(alloc),
        has_one_item(alloc),
        has_one_update(alloc),
    ];
    assert_eq!(rt; cases, [Ok(true); 4]);
}

fn example_cache(alloc: Global) -> Result<bool, NoMemory> {
    let mut cache = Cache::new(alloc);
    let new = knows(&cache, AT_FIRST);
    cache.learn(3, &[1, 2])?;
    cache.learn(1, &[5])?;
    cache.learn(3, &[4])?;
    let learnt = knows(&cache, LEARNT);
    cache.forget();
    Ok(new && learnt && knows(&cache, FORGOTTEN))
}

fn knows(cache: &Cache, parts: &[Known]) -> bool {
    for (part, words) in parts {
        if cache.get(*part) != *words {
            return false;
        }
    }
    true
}

const ALL: &[Known] = &[(4, Some(&[5]))];

const FROM_FOUR: &[Known] = &[(0, Some(&[5])), (3, Some(&[1, 2])), (4, None)];

const FROM_SIX: &[Known] = &[(1, Some(&[1, 2]))];

const PAST_ALL: &[Known] = &[(0, None), (u32::MAX, None)];

fn parts_beyond(alloc: Global) -> Result<bool, NoMemory> {
    let mut cache = Cache::new(alloc);
    cache.learn(7, &[1, 2])?;
    cache.learn(4, &[5])?;
    Ok(are_beyond(&cache))
}

fn are_beyond(cache: &Cache) -> bool {
    let all = cache.all();
    let from_four = all.beyond(4);
    let from_six = from_four.beyond(2);
    let past_all = from_six.beyond(u32::MAX);
    let first_words = [from_four.first_word(3), from_four.first_word(4)];
    first_words == [Some(1), None]
        && are_known(&all, ALL)
        && are_known(&from_four, FROM_FOUR)
        && are_known(&from_six, FROM_SIX)
        && are_known(&past_all, PAST_ALL)
}

fn are_known(known: &KnownParts<'_>, parts: &[Known]) -> bool {
    for (part, words) in parts {
        if known.get(*part) != *words {
            return false;
        }
    }
    true
}

const ITEM: &[Item] = &[Item::Seen(2)];

// A pool that was given back the lists of another answer.
fn used_pool(alloc: Global) -> Result<AnswerPool, NoMemory> {
    let mut pool = AnswerPool::new(alloc);
    let items = one_item(&mut pool, Item::Seen(3))?;
    let updates = one_update(&mut pool, 5, Change::Put(7))?;
    pool.keep(items, updates);
    Ok(pool)
}

fn has_one_item(alloc: Global) -> Result<bool, NoMemory> {
    let mut pool = used_pool(alloc)?;
    Ok(one_item(&mut pool, Item::Seen(2))?.as_slice() == ITEM)
}

const CHANGE: &[Change] = &[Change::Add(-1)];

fn has_one_update(alloc: Global) -> Result<bool, NoMemory> {
    let mut pool = used_pool(alloc)?;
    let updates = one_update(&mut pool, 4, Change::Add(-1))?;
    Ok(updates.len() == 1 && updates.get(0).0 == 4 && updates.get(0).1.as_slice() == CHANGE)
}
