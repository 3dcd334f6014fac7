//! Layers of a few items.
use dce_peel::{Access, Item, layers_of, what_stays};
use std::alloc::{AllocError, Global};
use std::process::Abort;

fn item(
    alloc: Global,
    name: Option<usize>,
    goers: &[usize],
    notes: &[usize],
) -> Result<Item, AllocError> {
    Ok(Item {
        name,
        goers: Vec::from_slice(alloc, goers)?,
        notes: Vec::from_slice(alloc, notes)?,
    })
}

/// Adds an item: its name, the names that go with it, and those that it notes.
fn add(
    rt: &impl Abort,
    alloc: Global,
    items: &mut Vec<Item>,
    (name, goers, notes): (Option<usize>, &[usize], &[usize]),
) {
    let item = item(alloc, name, goers, notes).expect(rt, "an item");
    items.push(item).expect(rt, "a list");
}

/// Three functions, of which each calls the next, an item that uses none of them, and a variable that the second uses.
fn chain(rt: &impl Abort, alloc: Global, variable: bool) -> Vec<Item> {
    let mut items = Vec::new(alloc);
    add(rt, alloc, &mut items, (Some(0), &[3], &[1, 3]));
    add(rt, alloc, &mut items, (Some(1), &[], &[2, 4]));
    add(rt, alloc, &mut items, (Some(2), &[], &[5]));
    add(rt, alloc, &mut items, (None, &[], &[6]));
    if variable {
        add(rt, alloc, &mut items, (None, &[4], &[]));
    }
    items
}

/// What an item reads, and what it declares and writes.
fn access(alloc: Global, reads: &[usize], writes: &[usize]) -> Result<Access, AllocError> {
    Ok(Access {
        reads: Vec::from_slice(alloc, reads)?,
        writes: Vec::from_slice(alloc, writes)?,
        declares: Vec::from_slice(alloc, writes)?,
    })
}

/// Adds what an item reads, and what it declares and writes.
fn add_access(
    rt: &impl Abort,
    alloc: Global,
    accesses: &mut Vec<Access>,
    (reads, writes): (&[usize], &[usize]),
) {
    let access = access(alloc, reads, writes).expect(rt, "an access");
    accesses.push(access).expect(rt, "a list");
}

/// Four items, of which the second reads a name that the last declares and writes.
fn accesses(rt: &impl Abort, alloc: Global) -> Vec<Access> {
    let mut accesses = Vec::new(alloc);
    add_access(rt, alloc, &mut accesses, (&[], &[]));
    add_access(rt, alloc, &mut accesses, (&[6], &[]));
    add_access(rt, alloc, &mut accesses, (&[], &[]));
    add_access(rt, alloc, &mut accesses, (&[], &[6]));
    accesses
}

/// Tries how many rounds there are, and how many items stay.
fn counts(
    rt: &impl Abort,
    alloc: Global,
    items: &[Item],
    accesses: &[Access],
    (most, rounds, stay): (usize, usize, usize),
) {
    let found = layers_of(alloc, 7, items, accesses, most).expect(rt, "layers");
    assert!(rt; found.rounds == rounds);
    let mut all = Vec::new(alloc);
    for i in 0..items.len() {
        all.push(i).expect(rt, "a list");
    }
    let left = what_stays(alloc, all, &found.layers, found.rounds).expect(rt, "a list");
    assert!(rt; left.len() == stay);
}

#[test]
fn chains_go(rt: HostRuntime) {
    let alloc = rt.alloc();
    let items = chain(&rt, alloc, false);
    for wanted in [(9, 3, 1), (2, 2, 2), (0, 0, 4)] {
        counts(&rt, alloc, &items, &[], wanted);
    }
}

/// In the round behind that of its last reader a variable goes.
#[test]
fn variables_end_the_rounds(rt: HostRuntime) {
    let alloc = rt.alloc();
    counts(&rt, alloc, &chain(&rt, alloc, true), &[], (9, 2, 3));
}

/// In the round behind that of its last reader an assignment goes.
#[test]
fn assignments_end_the_rounds(rt: HostRuntime) {
    let alloc = rt.alloc();
    let items = chain(&rt, alloc, false);
    counts(&rt, alloc, &items, &accesses(&rt, alloc), (9, 2, 2));
}
