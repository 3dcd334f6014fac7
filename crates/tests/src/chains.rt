//! The simplifier as a pass: alone, in a chain, and again and again.
use crate::texts::{leaves, makes, shows, unresolved};
use std::alloc::Global;
use std::process::Abort;
use swc_branch::dead_branch_remover;
use swc_expr::expr_simplifier;
use swc_optimization::simplify::inlining;
use swc_optimization::{Config, Simplifier, simplifier};
use swc_pass::{Chain, Pass, Repeat, Repeated};
use swc_text::{print_script, read_script};

/// Tries a pass that simplifies, on a module and on a script.
fn tries<P: Pass>(rt: &impl Abort, alloc: Global, pass: &mut P) {
    let mark = unresolved(rt);
    assert!(rt; pass.mark() == Some(mark) && pass.lowers() && !pass.changed());
    let answer = makes(rt, alloc, pass, "if (0) f(); g(1 + 2);", "g(3);\n");
    let again = pass.fold_module(alloc, answer).expect(rt, "a module");
    shows(rt, alloc, &again, "g(3);\n");
    assert!(rt; !pass.changed());
    let script = read_script(alloc, "g(2 * 3);", mark).expect(rt, "a script");
    let script = pass.run_script(alloc, &script).expect(rt, "a script");
    assert!(rt; print_script(alloc, &script).expect(rt, "a text").as_str() == "g(6);\n");
    assert!(rt; pass.changed());
    pass.reset();
    assert!(rt; !pass.changed());
}

#[test]
fn the_simplifier_is_a_pass_among_passes(rt: HostRuntime) {
    let alloc = rt.alloc();
    let mark = unresolved(&rt);
    tries(&rt, alloc, &mut simplifier(mark, Config::new(alloc)));
    let expressions = expr_simplifier(mark, swc_expr::Config {});
    let mut row = Chain::new(expressions, simplifier(mark, Config::new(alloc)));
    tries(&rt, alloc, &mut row);
}

#[test]
fn the_simplifier_runs_again_and_again(rt: HostRuntime) {
    let alloc = rt.alloc();
    let mut rounds = Repeat::new(simplifier(unresolved(&rt), Config::new(alloc)), 3);
    tries(&rt, alloc, &mut rounds);
    assert!(rt; rounds.rounds() == 0 && !rounds.reached());
    makes(&rt, alloc, &mut rounds, "f(1 + 2);", "f(3);\n");
    assert!(rt; rounds.rounds() == 2 && rounds.reached());
}

/// Inlining makes no module lighter, so passes in a row with it compare what they were given and what they made.
#[test]
fn inlining_stands_in_front_of_the_simplifier(rt: HostRuntime) {
    let alloc = rt.alloc();
    let mark = unresolved(&rt);
    let mut row: Chain<inlining::Inlining, Simplifier> = Chain::new(
        inlining::inlining(inlining::Config {}),
        simplifier(mark, Config::new(alloc)),
    );
    assert!(rt; row.mark() == Some(mark) && !row.lowers());
    makes(&rt, alloc, &mut row, "let a = 1; f(a + 1);", "f(2);\n");
    leaves(&rt, alloc, &mut row, "f(2);\n");
    // what is put is folded to the same again
    leaves(&rt, alloc, &mut row, "f(void 0);\n");
}

#[test]
fn inlining_runs_again_and_again_in_front_of_another_pass(rt: HostRuntime) {
    let alloc = rt.alloc();
    let row = Chain::new(
        inlining::inlining(inlining::Config {}),
        expr_simplifier(unresolved(&rt), swc_expr::Config {}),
    );
    let mut rounds = Repeat::new(row, 5);
    let (text, wanted) = (
        "let a = 1; let b = a + 1; f(b);",
        "let a = 1;\nlet b = 2;\nf(2);\n",
    );
    makes(&rt, alloc, &mut rounds, text, wanted);
    assert!(rt; rounds.rounds() == 3 && rounds.reached() && !rounds.lowers());
}

#[test]
fn passes_in_a_row_run_again_and_again(rt: HostRuntime) {
    let alloc = rt.alloc();
    let mark = unresolved(&rt);
    let expressions = expr_simplifier(mark, swc_expr::Config {});
    let mut rounds = Repeat::new(Chain::new(expressions, dead_branch_remover(mark)), 2);
    makes(&rt, alloc, &mut rounds, "if (1 + 2) f();", "f();\n");
}
