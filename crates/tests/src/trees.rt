//! Trees that no text has: which are valid, which are resolved and which are core.
use crate::texts::{read, unresolved};
use core_trees::{is_core, is_script_core};
use std::alloc::{AllocError, Global};
use std::process::Abort;
use swc_ast::VarDeclKind::{Const, Let, Var};
use swc_ast::{
    Atom, DUMMY_SP, ExportNamedSpecifier, Expr, ModuleDecl, ModuleItem, NamedExport, Pat, Stmt,
    Tpl, TplElement, VarDeclKind,
};
use swc_debug::{is_script_valid, is_valid};
use swc_resolved::{
    is_core_and_resolved, is_resolved, is_script_core_and_resolved, is_script_resolved,
};
use test_trees::Place::{Here, InBlock, InFunction};
use test_trees::{
    block, break_to, continue_to, declare, function, labeled, loop_on, name, nothing, number,
    param, param_with_default, scope, sequence, statement, try_alone, whole,
};

/// Tries what is told of a statement that isn't both valid and resolved, as a module and as a script.
fn tries(
    rt: &impl Abort,
    alloc: Global,
    s: Result<Stmt, AllocError>,
    (valid, resolved): (bool, bool),
) {
    let mark = unresolved(rt);
    let s = s.expect(rt, "a statement");
    let (module, script) = whole(alloc, s).expect(rt, "a tree");
    assert!(rt; is_valid(&module) == valid && is_script_valid(&script) == valid);
    assert!(rt; is_resolved(alloc, &module, mark).expect(rt, "an answer") == resolved);
    assert!(rt; is_script_resolved(alloc, &script, mark).expect(rt, "an answer") == resolved);
    assert!(rt; !is_core_and_resolved(alloc, &module, mark).expect(rt, "an answer"));
    assert!(rt; !is_script_core_and_resolved(alloc, &script, mark).expect(rt, "an answer"));
}

/// Tries a statement that is resolved and isn't valid.
fn invalid(rt: &impl Abort, alloc: Global, s: Result<Stmt, AllocError>) {
    tries(rt, alloc, s, (false, true));
}

/// Tries a statement that is valid and isn't resolved.
fn unbound(rt: &impl Abort, alloc: Global, s: Result<Stmt, AllocError>) {
    tries(rt, alloc, s, (true, false));
}

/// A template of an expression and a text.
fn template(alloc: Global) -> Result<Stmt, AllocError> {
    let span = DUMMY_SP;
    let cooked = String::from_str(alloc, "a")?;
    let tail = true;
    let mut quasis = Vec::new(alloc);
    quasis.push(TplElement { span, tail, cooked })?;
    let quasis = Box::new(alloc, quasis)?;
    let mut exprs = Vec::new(alloc);
    exprs.push(number(1))?;
    let node = Tpl {
        span,
        quasis,
        exprs,
    };
    statement(alloc, Expr::Tpl(node))
}

#[test]
fn invalid_trees_are_told(rt: HostRuntime) {
    let alloc = rt.alloc();
    invalid(&rt, alloc, try_alone(alloc));
    invalid(&rt, alloc, loop_on(alloc, Let));
    invalid(&rt, alloc, sequence(alloc, 1));
    invalid(&rt, alloc, statement(alloc, nothing()));
    invalid(&rt, alloc, template(alloc));
    for word in ["class", "await", "yield", "", "1a", "a-b"] {
        invalid(&rt, alloc, name(alloc, word));
    }
}

/// A function under a label, with a jump to that.
fn jump_out(alloc: Global) -> Result<Stmt, AllocError> {
    let inner = vec![in alloc; break_to(alloc, "a")?]?;
    let stmts = vec![in alloc; function(alloc, Vec::new(alloc), inner)?]?;
    labeled(alloc, block(stmts))
}

/// `function f(x) { let x; }`, or `var` or `const`.
fn redeclared(
    alloc: Global,
    param: Result<Pat, AllocError>,
    kind: VarDeclKind,
    mark: u32,
) -> Result<Stmt, AllocError> {
    let params = vec![in alloc; param?]?;
    let stmts = vec![in alloc; declare(alloc, kind, mark)?]?;
    function(alloc, params, stmts)
}

#[test]
fn jumps_without_targets_are_told(rt: HostRuntime) {
    let alloc = rt.alloc();
    unbound(&rt, alloc, break_to(alloc, "a"));
    let break_b = break_to(alloc, "b").expect(&rt, "a jump");
    unbound(&rt, alloc, labeled(alloc, break_b));
    unbound(&rt, alloc, jump_out(alloc));
    let continue_a = continue_to(alloc, "a").expect(&rt, "a jump");
    unbound(&rt, alloc, labeled(alloc, continue_a));
}

#[test]
fn unresolved_trees_are_told(rt: HostRuntime) {
    let alloc = rt.alloc();
    // a name is bound by one scope, and no unresolved name is bound
    unbound(
        &rt,
        alloc,
        scope(alloc, &[(Here, Let, 2), (InBlock, Let, 2)]),
    );
    unbound(&rt, alloc, declare(alloc, Let, 0));
    unbound(&rt, alloc, declare(alloc, Let, 1));
    // no parameter is declared beside a default
    let param = param_with_default(alloc, 3);
    unbound(&rt, alloc, redeclared(alloc, param, Let, 4));
}

fn rename(alloc: Global, n: &mut ExportNamedSpecifier, text: &str) -> Result<(), AllocError> {
    n.orig.sym = Atom::from_str(alloc, text)?;
    Ok(())
}

fn rename_first(alloc: Global, n: &mut NamedExport, text: &str) -> Result<(), AllocError> {
    match n.specifiers.first_mut() {
        Some(first) => rename(alloc, first, text),
        None => Ok(()),
    }
}

/// Lets the first name that an item exports have another text.
fn export_as(alloc: Global, item: &mut ModuleItem, text: &str) -> Result<(), AllocError> {
    match item {
        ModuleItem::ModuleDecl(ModuleDecl::ExportNamed(n)) => rename_first(alloc, n, text),
        _ => Ok(()),
    }
}

#[test]
fn exports_are_bound_by_the_module(rt: HostRuntime) {
    let alloc = rt.alloc();
    for (text, is_bound) in [("x", true), ("y", false)] {
        let mut module = read(&rt, alloc, "let x; export {x};");
        let Some(export) = module.body.last_mut() else {
            rt.panic("an export")
        };
        export_as(alloc, export, text).expect(&rt, "a name");
        let is_answer = is_resolved(alloc, &module, unresolved(&rt)).expect(&rt, "an answer");
        assert!(rt; is_answer == is_bound, "{text}");
        let is_both = is_core_and_resolved(alloc, &module, unresolved(&rt));
        assert!(rt; is_both.expect(&rt, "an answer") == is_bound, "{text}");
    }
}

/// Tries whether a statement is core, as a module and as a script.
fn tries_core(rt: &impl Abort, alloc: Global, s: Result<Stmt, AllocError>, wanted: bool) {
    let s = s.expect(rt, "a statement");
    let (module, script) = whole(alloc, s).expect(rt, "a tree");
    assert!(rt; is_core(alloc, &module).expect(rt, "an answer") == wanted);
    assert!(rt; is_script_core(alloc, &script).expect(rt, "an answer") == wanted);
}

#[test]
fn numbers_of_the_core_are_told(rt: HostRuntime) {
    let alloc = rt.alloc();
    for (value, is_core) in [
        (9007199254740991, true),
        (-9007199254740991, true),
        (9007199254740992, false),
        (-9007199254740992, false),
    ] {
        tries_core(&rt, alloc, statement(alloc, number(value)), is_core);
    }
}

#[test]
fn lists_of_the_core_are_told(rt: HostRuntime) {
    let alloc = rt.alloc();
    // a list declares a name once
    let apart = scope(alloc, &[(Here, Let, 2), (Here, Let, 3)]);
    tries_core(&rt, alloc, apart, true);
    let twice = scope(alloc, &[(Here, Let, 2), (Here, Let, 2)]);
    tries_core(&rt, alloc, twice, false);
    let hoisted = scope(alloc, &[(Here, Let, 2), (InBlock, Var, 2)]);
    tries_core(&rt, alloc, hoisted, false);
    // a scope's names are declared in it alone, and stay declared behind a scope inside that declares them too
    let before = scope(alloc, &[(InBlock, Let, 2), (Here, Var, 2)]);
    tries_core(&rt, alloc, before, true);
    let shadowed = scope(alloc, &[(Here, Let, 2), (InBlock, Let, 2), (Here, Var, 2)]);
    tries_core(&rt, alloc, shadowed, false);
    let in_function = scope(alloc, &[(Here, Let, 2), (InFunction, Var, 2)]);
    tries_core(&rt, alloc, in_function, true);
}

/// `function f(x, x) {}`, where the marks of the two names are 3 and another.
fn of_two(alloc: Global, mark: u32) -> Result<Stmt, AllocError> {
    let mut params = vec![in alloc; param(alloc, 3)?]?;
    params.push(param(alloc, mark)?)?;
    function(alloc, params, Vec::new(alloc))
}

/// Parameters stand once, and only `var` declares them again.
#[test]
fn functions_of_the_core_are_told(rt: HostRuntime) {
    let alloc = rt.alloc();
    for (kind, is_core) in [(Var, true), (Let, false), (Const, false)] {
        let again = redeclared(alloc, param(alloc, 3), kind, 3);
        tries_core(&rt, alloc, again, is_core);
    }
    for (mark, is_core) in [(3, false), (4, true)] {
        tries_core(&rt, alloc, of_two(alloc, mark), is_core);
    }
}
