//! The walk, by a pass that takes a step in front: the value of an assignment takes its place.
ghost use Rattle.std.specs.Prelude.{◌≡◌, ◌≤◌, IsFalse};
ghost use Rattle.swc_ast.specs.declared.expressions.Expr.{size-Expr};

use crate::texts::{read, read_as_script, value};
use std::alloc::AllocError;
use std::mem;
use std::process::Abort;
use swc_ast::{DUMMY_SP, Expr, Invalid, Lit, ModuleItem, Stmt};
use tree_walk::{
    ListPlace, Place, Rules, rewrite, walk_decl, walk_expr, walk_list, walk_module, walk_script,
    walk_stmt,
};

#[derive(Drop)]
struct Unassign {}

fn take_value(e: &mut Expr) -> bool
    ensures stays { IsFalse result → e.new ≡ e.old }
    ensures no_deeper { size-Expr e.new ≤ size-Expr e.old }
{
    match e {
        Expr::Assign(n) => {
            let value = mem::replace(&mut *n.right, Expr::Invalid(Invalid { span: DUMMY_SP }));
            *e = value;
            true
        }
        _ => false,
    }
}

impl Rules for Unassign {
    ghost pass = { λ _. record { opens = λ t u. Unit {0}; steps = λ t u. ⊥; rests = λ t. Unit {0}; tidies = λ l ts us. ⊥; tidy = λ l ts. Unit {0}; skips = λ t. ⊥ } };

    fn enter_expr(&self, place: Place, e: &mut Expr) -> Result<bool, AllocError> {
        match place {
            Place::Value => Ok(take_value(e)),
            Place::Statement => Ok(take_value(e)),
            _ => Ok(false),
        }
    }

    fn leave_expr(&self, _place: Place, _e: &mut Expr) -> Result<bool, AllocError> {
        Ok(false)
    }

    fn leave_stmt(&self, _s: &mut Stmt) -> Result<bool, AllocError> {
        Ok(false)
    }

    fn leave_list(&self, _place: ListPlace, _stmts: &mut Vec<Stmt>) -> Result<bool, AllocError> {
        Ok(false)
    }

    fn leave_item(&self, _item: &mut ModuleItem) -> Result<bool, AllocError> {
        Ok(false)
    }

    fn leave_items(&self, _items: &mut Vec<ModuleItem>) -> Result<bool, AllocError> {
        Ok(false)
    }
}

fn is_number(e: &Expr) -> bool {
    matches!(e, Expr::Lit(Lit::Num(_)))
}

fn ends_in_number(stmts: &[Stmt]) -> bool {
    matches!(stmts.last(), Some(Stmt::Expr(n)) if is_number(&n.expr))
}

#[test]
fn expressions_are_walked(rt: HostRuntime) {
    let mut e = value(&rt, rt.alloc(), "x = 1");
    assert!(rt; !walk_expr(&Unassign {}, Place::Callee, &mut e).expect(&rt, "a walk"));
    assert!(rt; walk_expr(&Unassign {}, Place::Value, &mut e).expect(&rt, "a walk"));
    assert!(rt; is_number(&e));
    assert!(rt; !walk_expr(&Unassign {}, Place::Value, &mut e).expect(&rt, "a walk"));
}

#[test]
fn statements_are_walked(rt: HostRuntime) {
    let mut script = read_as_script(&rt, rt.alloc(), "x = 1; x = 1;");
    let Some(first) = script.body.first_mut() else {
        rt.panic("a statement")
    };
    assert!(rt; walk_stmt(&Unassign {}, first).expect(&rt, "a walk"));
    let list = &mut script.body;
    assert!(rt; walk_list(&Unassign {}, ListPlace::Block, list).expect(&rt, "a walk"));
    assert!(rt; ends_in_number(&script.body));
}

/// Whether the walk changes the declaration that a list begins with.
fn is_walked(rt: &impl Abort, stmts: &mut Vec<Stmt>) -> bool {
    match stmts.first_mut() {
        Some(Stmt::Decl(declared)) => walk_decl(&Unassign {}, declared).expect(rt, "a walk"),
        _ => rt.panic("a declaration"),
    }
}

#[test]
fn declarations_are_walked(rt: HostRuntime) {
    let mut script = read_as_script(&rt, rt.alloc(), "var x = x = 1;");
    assert!(rt; is_walked(&rt, &mut script.body));
    assert!(rt; !is_walked(&rt, &mut script.body));
}

#[test]
fn scripts_are_walked(rt: HostRuntime) {
    let mut script = read_as_script(&rt, rt.alloc(), "x = 1;");
    assert!(rt; walk_script(&Unassign {}, &mut script).expect(&rt, "a walk"));
    assert!(rt; ends_in_number(&script.body));
}

#[test]
fn modules_are_walked(rt: HostRuntime) {
    let mut whole = read(&rt, rt.alloc(), "x = 1;");
    let copy = rewrite(&Unassign {}, &whole).expect(&rt, "a walk");
    assert!(rt; copy.changed && copy.module != whole);
    assert!(rt; walk_module(&Unassign {}, &mut whole).expect(&rt, "a walk"));
    assert!(rt; copy.module == whole);
    assert!(rt; !rewrite(&Unassign {}, &whole).expect(&rt, "a walk").changed);
}
