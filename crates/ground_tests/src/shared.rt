//! Shared maps and lists: what a change leaves as it was, and how deep long ones are.
use base_core::NoMem;
use shared_map::{SharedList, SharedMap};
use std::alloc::Global;
use std::process::Abort;

struct Case {
    /// The pairs that are put, in turn.
    puts: &'static [(u32, u32)],
    key: u32,
    /// What the map before the last put gives for the key.
    before: Option<u32>,
    after: Option<u32>,
    len: usize,
}

const CASES: [Case; 6] = [
    Case {
        puts: &[],
        key: 1,
        before: None,
        after: None,
        len: 0,
    },
    Case {
        puts: &[(1, 10), (1, 11)],
        key: 1,
        before: Some(10),
        after: Some(11),
        len: 1,
    },
    Case {
        puts: &[(1, 10), (2, 20)],
        key: 2,
        before: None,
        after: Some(20),
        len: 2,
    },
    Case {
        puts: &[
            (1, 10),
            (2, 20),
            (3, 30),
            (4, 40),
            (5, 50),
            (6, 60),
            (1, 11),
        ],
        key: 1,
        before: Some(10),
        after: Some(11),
        len: 6,
    },
    Case {
        puts: &[(9, 1), (7, 2), (5, 3), (3, 4), (1, 5), (0, 6), (4, 7)],
        key: 9,
        before: Some(1),
        after: Some(1),
        len: 7,
    },
    Case {
        puts: &[(1, 1), (9, 2), (2, 3), (8, 4), (3, 5), (7, 6), (4, 7)],
        key: 5,
        before: None,
        after: None,
        len: 7,
    },
];

/// How many items and entries the long chains have.
const MANY: u32 = 2_000;

fn try_case(rt: &impl Abort, alloc: Global, case: &Case) -> Result<(), NoMem> {
    let mut before: SharedMap<u32, u32> = SharedMap::empty();
    let mut after: SharedMap<u32, u32> = SharedMap::empty();
    for (key, value) in case.puts {
        before = after.share()?;
        after = before.with(alloc, *key, *value)?;
    }
    assert_eq!(rt; before.get(&case.key).copied(), case.before);
    assert_eq!(rt; after.get(&case.key).copied(), case.after);
    assert_eq!(rt; after.len(), case.len);
    Ok(())
}

fn ascending_map(alloc: Global) -> Result<SharedMap<u32, u32>, NoMem> {
    let mut map = SharedMap::empty();
    for key in 0..MANY {
        map = map.with(alloc, key, key / 2)?;
    }
    Ok(map)
}

fn ascending_list(alloc: Global) -> Result<SharedList<u32>, NoMem> {
    let mut list = SharedList::empty();
    for item in 0..MANY {
        list = list.with_last(alloc, item)?;
    }
    Ok(list)
}

/// Whether a depth lies between the base-2 logarithm of 2,001 and 2.41 times that.
fn is_logarithmic(depth: usize) -> bool {
    depth >= 11 && depth <= 26
}

fn try_long_map(rt: &impl Abort, map: &SharedMap<u32, u32>) {
    for key in 0..MANY {
        assert_eq!(rt; map.get(&key).copied(), Some(key / 2));
    }
    assert!(rt; map.get(&MANY).is_none());
    assert!(rt; is_logarithmic(map.depth()));
}

fn try_long_list(rt: &impl Abort, list: &SharedList<u32>) {
    for at in 0..MANY {
        assert_eq!(rt; list.get(at as usize).copied(), Some(at));
    }
    assert!(rt; list.get(2_000).is_none());
    assert!(rt; is_logarithmic(list.depth()));
}

fn try_edits(rt: &impl Abort, alloc: Global, list: &SharedList<u32>) -> Result<(), NoMem> {
    assert_eq!(rt; list.len(), 2_000);
    let changed = list.with_set(alloc, 999, 5)?;
    assert_eq!(rt; changed.get(999).copied(), Some(5));
    let first = list.with_first(alloc, 7)?;
    assert_eq!(rt; first.get(0).copied(), Some(7));
    let inserted = list.with_insert(alloc, 1_000, 8)?;
    assert_eq!(rt; inserted.get(1_001).copied(), Some(1_000));
    Ok(())
}

#[test]
fn changes_leave_the_old_ones(rt: HostRuntime) -> Result<(), NoMem> {
    for case in &CASES {
        try_case(&rt, rt.alloc(), case)?;
    }
    try_long_map(&rt, &ascending_map(rt.alloc())?);
    let list = ascending_list(rt.alloc())?;
    try_edits(&rt, rt.alloc(), &list)?;
    try_long_list(&rt, &list);
    Ok(())
}
