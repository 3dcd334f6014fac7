//! Trees that aren't valid, and trees that aren't resolved.
use crate::passes::each_runs;
use crate::texts::{read, read_as_script};
use std::alloc::{AllocError, Global};
use std::process::Abort;
use swc_ast::VarDeclKind::{Const, Let};
use swc_ast::{
    AssignExpr, AssignOp, AssignTarget, DUMMY_SP, Expr, Mark, Module, Script, Stmt, SwitchStmt, Tpl,
};
use swc_debug::is_valid;
use swc_resolved::is_core_and_resolved;
use swc_text::{PrintError, print};
use test_trees::Place::{Here, InBlock};
use test_trees::{
    break_to, continue_to, declare, function, ident, labeled, loop_on, name, nothing, number,
    param, param_with_default, scope, sequence, statement, try_alone, whole,
};

/// Tries that each pass returns on a tree, which isn't resolved for a mark, or not in the core.
fn comes_back(rt: &impl Abort, alloc: Global, number: u32, module: &Module, script: &Script) {
    let mark = Mark::new(number).expect(rt, "a mark");
    assert!(rt; !is_core_and_resolved(alloc, module, mark).expect(rt, "an answer"));
    each_runs(rt, alloc, mark, module, script);
}

/// Tries that each pass returns on a statement that isn't valid.
fn invalid(rt: &impl Abort, alloc: Global, s: Result<Stmt, AllocError>) {
    let s = s.expect(rt, "a statement");
    let (module, script) = whole(alloc, s).expect(rt, "a tree");
    assert!(rt; !is_valid(&module));
    comes_back(rt, alloc, 1, &module, &script);
}

/// Tries that each pass returns on a statement that isn't resolved.
fn unresolved(rt: &impl Abort, alloc: Global, s: Result<Stmt, AllocError>) {
    let s = s.expect(rt, "a statement");
    let (module, script) = whole(alloc, s).expect(rt, "a tree");
    comes_back(rt, alloc, 1, &module, &script);
}

/// A template of more expressions than texts, and none.
fn template(alloc: Global) -> Result<Stmt, AllocError> {
    let span = DUMMY_SP;
    let quasis = Box::new(alloc, Vec::new(alloc))?;
    let mut exprs = vec![in alloc; number(1)]?;
    exprs.push(nothing())?;
    let node = Tpl {
        span,
        quasis,
        exprs,
    };
    statement(alloc, Expr::Tpl(node))
}

/// `x = ` nothing, for a name with no context of its own.
fn assign(alloc: Global) -> Result<Stmt, AllocError> {
    let right = Box::new(alloc, nothing())?;
    let left = AssignTarget::Ident(ident(alloc, "x", 0)?);
    let node = AssignExpr {
        span: DUMMY_SP,
        op: AssignOp::Assign,
        left,
        right,
    };
    statement(alloc, Expr::Assign(Box::new(alloc, node)?))
}

/// A switch on nothing, without cases.
fn switch(alloc: Global) -> Result<Stmt, AllocError> {
    let span = DUMMY_SP;
    let discriminant = Box::new(alloc, nothing())?;
    let cases = Vec::new(alloc);
    Ok(Stmt::Switch(SwitchStmt {
        span,
        discriminant,
        cases,
    }))
}

#[test]
fn invalid_trees_come_back(rt: HostRuntime) {
    let alloc = rt.alloc();
    invalid(&rt, alloc, statement(alloc, nothing()));
    invalid(&rt, alloc, sequence(alloc, 0));
    invalid(&rt, alloc, template(alloc));
    invalid(&rt, alloc, assign(alloc));
    invalid(&rt, alloc, try_alone(alloc));
    invalid(&rt, alloc, loop_on(alloc, Let));
    invalid(&rt, alloc, loop_on(alloc, Const));
    invalid(&rt, alloc, switch(alloc));
    for word in ["class", "", "1a", "a-b"] {
        invalid(&rt, alloc, name(alloc, word));
    }
}

/// `a: a: continue b;`
fn jump_on(alloc: Global) -> Result<Stmt, AllocError> {
    labeled(alloc, labeled(alloc, continue_to(alloc, "b")?)?)
}

/// `a: function f(x, x, x = 1) { let x; break a; }`, of one name.
fn function_of_one(alloc: Global) -> Result<Stmt, AllocError> {
    let mut params = vec![in alloc; param(alloc, 3)?]?;
    params.push(param(alloc, 3)?)?;
    params.push(param_with_default(alloc, 3)?)?;
    let mut stmts = vec![in alloc; declare(alloc, Let, 3)?]?;
    stmts.push(break_to(alloc, "a")?)?;
    labeled(alloc, function(alloc, params, stmts)?)
}

/// Jumps without targets, and names that scopes share or bind beside their marks.
#[test]
fn unresolved_trees_come_back(rt: HostRuntime) {
    let alloc = rt.alloc();
    unresolved(&rt, alloc, break_to(alloc, "a"));
    unresolved(&rt, alloc, continue_to(alloc, "a"));
    unresolved(&rt, alloc, jump_on(alloc));
    unresolved(&rt, alloc, function_of_one(alloc));
    let twice = scope(alloc, &[(Here, Let, 2), (InBlock, Let, 2)]);
    unresolved(&rt, alloc, twice);
    unresolved(&rt, alloc, declare(alloc, Let, 0));
    unresolved(&rt, alloc, declare(alloc, Const, 1));
}

/// A text that binds names in each way.
const BINDS: &str =
    "var x = a.b, y; let z = x; function f(p, q = 1) { p = x; return q; } const c = 1; f(c, {y});\n\
    l: for (let i = 0; i < z; i++) { switch (i) { case 1: let d = 2; continue l; default: (r) => { var r; }; } }\n\
    try { throw a; } catch (e) { var v = e; } delete z.b; if (1) { y = 1; } else y = typeof g;";

/// Names are resolved for one mark alone: for another one what no scope binds isn't told from what one does.
#[test]
fn trees_of_another_mark_come_back(rt: HostRuntime) {
    let alloc = rt.alloc();
    let module = read(&rt, alloc, BINDS);
    let script = read_as_script(&rt, alloc, BINDS);
    for number in [2, 3] {
        comes_back(&rt, alloc, number, &module, &script);
    }
}

#[test]
fn an_invalid_expression_is_not_printed(rt: HostRuntime) {
    let alloc = rt.alloc();
    let s = statement(alloc, nothing()).expect(&rt, "a statement");
    let (module, _script) = whole(alloc, s).expect(&rt, "a tree");
    assert!(rt; print(alloc, &module).err() == Some(PrintError::Invalid));
}
