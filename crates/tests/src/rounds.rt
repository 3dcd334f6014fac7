//! What a pass tells of its runs, and passes made of passes.
use crate::small::{Refuse, Turn, long_module, short_module};
use std::alloc::Global;
use std::process::Abort;
use swc_ast::{EqIgnoreSpan, Module, PassError};
use swc_pass::{Chain, Pass, Repeat, Repeated};

/// The long module or the short one.
fn whole(rt: &impl Abort, alloc: Global, is_long: bool) -> Module {
    if is_long {
        long_module(alloc).expect(rt, "a module")
    } else {
        short_module(alloc).expect(rt, "a module")
    }
}

/// Tries which of the two a pass makes of which, and whether it tells of a change.
fn turns<P: Pass>(
    rt: &impl Abort,
    alloc: Global,
    pass: &mut P,
    (from_long, to_long, changes): (bool, bool, bool),
) -> Module {
    let input = whole(rt, alloc, from_long);
    let answer = pass.run(alloc, &input).expect(rt, "an answer");
    assert!(rt; pass.changed() == changes);
    assert!(rt; answer.eq_ignore_span(&whole(rt, alloc, to_long)));
    answer
}

#[test]
fn a_chain_tells_what_its_passes_come_to(rt: HostRuntime) {
    let alloc = rt.alloc();
    for (first, second, input_is_long, changed, answer_is_long) in [
        // the second undoes the first
        (true, false, true, false, true),
        // the first has nothing to do, and the second has
        (true, false, false, true, true),
        // both lower the weight
        (true, true, true, true, false),
        (true, true, false, false, false),
    ] {
        let mut chain = Chain::new(Turn::new(first), Turn::new(second));
        let turned = (input_is_long, answer_is_long, changed);
        turns(&rt, alloc, &mut chain, turned);
        chain.reset();
        assert!(rt; !chain.changed());
    }
}

#[test]
fn rounds_end_with_one_that_changes_nothing(rt: HostRuntime) {
    let alloc = rt.alloc();
    for (max_rounds, input_is_long, rounds, reached, changed) in [
        (0, true, 0, false, false),
        (1, true, 1, false, true),
        (2, true, 2, true, true),
        (9, true, 2, true, true),
        (9, false, 1, true, false),
    ] {
        let mut pass = Repeat::new(Turn::new(true), max_rounds);
        let turned = (input_is_long, input_is_long && !changed, changed);
        let answer = turns(&rt, alloc, &mut pass, turned);
        assert!(rt; pass.rounds() == rounds, "rounds within {max_rounds}");
        assert!(rt; pass.reached() == reached, "end within {max_rounds}");
        if reached {
            runs_once_more(&rt, alloc, &mut pass, &answer);
        }
    }
}

/// Tries that rounds have ended.
fn runs_once_more(rt: &impl Abort, alloc: Global, pass: &mut Repeat<Turn>, answer: &Module) {
    pass.run(alloc, answer).expect(rt, "an answer");
    assert!(rt; !pass.changed() && pass.reached() && pass.rounds() == 1);
}

#[test]
fn a_refusal_leaves_nothing_behind(rt: HostRuntime) {
    let alloc = rt.alloc();
    let long = whole(&rt, alloc, true);
    let mut pass = Repeat::new(Chain::new(Turn::new(true), Refuse::new(1)), 3);
    let refusal = pass.run(alloc, &long).err();
    assert!(rt; refusal == Some(PassError::OutOfMemory));
    assert!(rt; !pass.changed() && !pass.reached() && pass.rounds() == 0);
    // it may run again
    turns(&rt, alloc, &mut pass, (true, false, true));
    assert!(rt; pass.reached() && pass.rounds() == 2);
    pass.reset();
    assert!(rt; !pass.changed() && !pass.reached() && pass.rounds() == 0);
}

#[test]
fn a_round_is_judged_by_what_it_comes_to(rt: HostRuntime) {
    let alloc = rt.alloc();
    let mut there = Repeat::new(Turn::new(false), 3);
    turns(&rt, alloc, &mut there, (false, true, true));
    assert!(rt; there.reached() && !there.lowers() && there.rounds() == 2);
    // a round that changes nothing in all is one
    let mut both = Repeat::new(Chain::new(Turn::new(true), Turn::new(false)), 3);
    turns(&rt, alloc, &mut both, (true, true, false));
    assert!(rt; both.reached() && both.rounds() == 1);
}
