//! What passes tell of themselves that put what is given or known.
use crate::texts::{read, shows, tells, unresolved, value};
use std::alloc::{AllocError, Global};
use std::collections::BTreeMap;
use swc_ast::Expr;
use swc_const_propagation::constant_propagation;
use swc_inline_globals::inline_globals;
use swc_inlining::{Config, ScopeKind, inlining};
use swc_pass::{CompilerPass, Repeated};

#[test]
fn passes_that_propagate_have_no_mark(rt: HostRuntime) {
    let alloc = rt.alloc();
    let texts = ("const a = 1; f(a);", "const a = 1;\nf(1);\n");
    tells(&rt, alloc, &mut constant_propagation(), None, texts);
    tells(&rt, alloc, &mut inlining(Config {}), None, texts);
}

#[test]
fn the_pass_that_inlines_has_a_name(rt: HostRuntime) {
    assert_eq!(rt; inlining(Config::default()).name(), "inlining");
    assert!(rt; ScopeKind::default() == ScopeKind::Fn { named: false });
    assert!(rt; ScopeKind::Cond != ScopeKind::Loop && ScopeKind::Loop != ScopeKind::Block);
}

/// What is given for a name.
fn given(alloc: Global, name: &str, value: Expr) -> Result<BTreeMap<String, Expr>, AllocError> {
    let mut globals = BTreeMap::new(alloc);
    globals.insert(String::from_str(alloc, name)?, value)?;
    Ok(globals)
}

/// Without a mark only names with the empty context are unresolved.
#[test]
fn names_with_another_mark_stay(rt: HostRuntime) {
    let alloc = rt.alloc();
    let (envs, typeofs) = (BTreeMap::new(alloc), BTreeMap::new(alloc));
    let globals = given(alloc, "x", value(&rt, alloc, "1")).expect(&rt, "a value");
    let mut pass = inline_globals(&envs, &globals, &typeofs);
    let module = read(&rt, alloc, "f(x);");
    let answer = pass.run(alloc, &module).expect(&rt, "a module");
    assert!(rt; !pass.changed());
    shows(&rt, alloc, &answer, "f(x);\n");
    let mut pass = pass.with_mark(unresolved(&rt));
    let answer = pass.fold_module(alloc, answer).expect(&rt, "a module");
    assert!(rt; pass.changed());
    shows(&rt, alloc, &answer, "f(1);\n");
    pass.reset();
    assert!(rt; !pass.changed());
}
