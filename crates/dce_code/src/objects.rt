//! Calls that give an object of names.
ghost use Rattle.std.specs.Prelude.{◌≡◌, IfSome, IsNone, IsTrue, List, None as Nameless, []};
ghost use Rattle.swc_ast.specs.Expressions.{call_tree, fn_expr_tree, key_value_tree};
ghost use Rattle.swc_ast.specs.Parts.{list_trees};
ghost use Rattle.swc_ast.specs.Tree.{Fn, Key, KeyValue, PlainKey, Return, node, ε, ◌⊳◌};
ghost use Rattle.swc_ast.specs.Views.{expr_tree, function_trees, prop_or_spread_tree, prop_tree, stmt_tree};
ghost use Rattle.swc_ast.specs.declared.Span.{Span};
ghost use Rattle.tree_walk.specs.Walks.{Became, Fits};
ghost use Rattle.tree_walk.specs.declared.rules.Place.{Place};
ghost use Rattle.dce_rules.specs.Shakes.{NamesOnly, Shaker, Shakes, shake_pass};
ghost use Rattle.dce_code.specs.Knowledge.{shaker};
ghost use Rattle.dce_code.specs.Objects.{AddsNames, Gives, Returns, ReturnsAlone};

use crate::known::Known;
use swc_ast::{CallExpr, Expr, FnExpr, Function, KeyValueProp, Prop, PropName, PropOrSpread, Stmt};
use tree_nodes::take;

/// Whether an expression is a name.
#[tactic(auto, using(swc_ast::proofs::Equations::forms))]
fn is_name(e: &Expr) -> bool
    ensures { IsTrue result → (k : Key) (rs : List Span) → AddsNames (node KeyValue [] (node (PlainKey k) rs ε ⊳ expr_tree e.now ⊳ ε)) }
{
    match e {
        Expr::Ident(_) => true,
        _ => false,
    }
}

/// Whether a property has a key that is written out, and a name for its value.
fn is_named(n: &KeyValueProp) -> bool
    ensures { IsTrue result → AddsNames (key_value_tree expr_tree n.now) }
{
    match &n.key {
        PropName::Ident(_) | PropName::Str(_) | PropName::Num(_) => is_name(&n.value),
        PropName::Computed(_) => false,
    }
}

#[tactic(auto, using(swc_ast::proofs::Equations::forms))]
fn prop_names(prop: &Prop) -> bool
    ensures { IsTrue result → AddsNames (prop_tree prop.now) }
{
    match prop {
        Prop::Shorthand(_) => true,
        Prop::KeyValue(n) => is_named(n),
        Prop::Method(_) => false,
    }
}

/// Whether a property only names names.
#[tactic(auto, using(swc_ast::proofs::Equations::forms))]
fn only_names(prop: &PropOrSpread) -> bool
    ensures { IsTrue result → AddsNames (prop_or_spread_tree prop.now) }
{
    match prop {
        PropOrSpread::Spread(_) => false,
        PropOrSpread::Prop(prop) => prop_names(prop),
    }
}

fn all_name(props: &[PropOrSpread]) -> bool
    ensures { IsTrue result → NamesOnly (list_trees prop_or_spread_tree props.now) }
{
    let mut left = props;
    while let [prop, rest @ ..] = left {
        if !only_names(prop) {
            return false;
        }
        left = rest;
    }
    true
}

/// Whether an expression is an object whose properties only name names.
#[tactic(auto, using(swc_ast::proofs::Equations::forms))]
fn is_object_of_names(e: &Expr) -> bool
    ensures { IsTrue result → (rs : List Span) → Returns (node Return rs (expr_tree e.now ⊳ ε)) (expr_tree e.now) }
{
    match e {
        Expr::Object(n) => all_name(&n.props),
        _ => false,
    }
}

fn take_object(e: &mut Expr) -> Option<Expr>
    ensures returns { IfSome result (λ o. (rs : List Span) → Returns (node Return rs (expr_tree e.old ⊳ ε)) (expr_tree o)) }
    ensures stays { IsNone result → e.new ≡ e.old }
{
    if !is_object_of_names(e) {
        return None;
    }
    Some(take(e))
}

/// Takes such an object out of the statement that returns it.
#[tactic(auto, using(swc_ast::proofs::Equations::forms))]
fn take_returned(s: &mut Stmt) -> Option<Expr>
    ensures returns { IfSome result (λ o. Returns (stmt_tree s.old) (expr_tree o)) }
    ensures stays { IsNone result → s.new ≡ s.old }
{
    match s {
        Stmt::Return(n) => match &mut n.arg {
            Some(arg) => take_object(arg),
            None => None,
        },
        _ => None,
    }
}

/// Takes the object out of statements that are such a statement alone.
fn take_alone(stmts: &mut Vec<Stmt>) -> Option<Expr>
    ensures returns { IfSome result (λ o. ReturnsAlone (list_trees stmt_tree stmts.old.items) (expr_tree o)) }
    ensures stays { IsNone result → list_trees stmt_tree stmts.new.items ≡ list_trees stmt_tree stmts.old.items }
{
    if stmts.len() != 1 {
        return None;
    }
    take_returned(&mut stmts[0])
}

fn take_given(f: &mut Function) -> Option<Expr>
    ensures gives { IfSome result (λ o. let p = function_trees f.old in (fs : List Span) → Gives (node (Fn Nameless) fs (p.parameters ⊳ p.body ⊳ ε)) (expr_tree o)) }
    ensures stays { IsNone result → function_trees f.new ≡ function_trees f.old }
{
    if !f.params.is_empty() {
        return None;
    }
    take_alone(&mut f.body.stmts)
}

fn take_from_fn(n: &mut FnExpr) -> Option<Expr>
    ensures gives { IfSome result (λ o. Gives (fn_expr_tree function_trees n.old) (expr_tree o)) }
    ensures stays { IsNone result → fn_expr_tree function_trees n.new ≡ fn_expr_tree function_trees n.old }
{
    if n.ident.is_some() {
        return None;
    }
    take_given(&mut n.function)
}

/// Takes the object out of a nameless function that only returns it.
#[tactic(auto, using(swc_ast::proofs::Equations::forms))]
fn take_from_callee(e: &mut Expr) -> Option<Expr>
    ensures gives { IfSome result (λ o. Gives (expr_tree e.old) (expr_tree o)) }
    ensures stays { IsNone result → expr_tree e.new ≡ expr_tree e.old }
{
    match e {
        Expr::Fn(n) => take_from_fn(n),
        _ => None,
    }
}

fn take_from_call(n: &mut CallExpr) -> Option<Expr>
    ensures steps { IfSome result (λ o. (S : Shaker) → Shakes S (call_tree expr_tree n.old) (expr_tree o)) }
    ensures fits { IfSome result (λ o. (p : Place) → Fits p (expr_tree o)) }
    ensures stays { IsNone result → call_tree expr_tree n.new ≡ call_tree expr_tree n.old }
{
    if !n.args.is_empty() {
        return None;
    }
    take_from_callee(&mut n.callee)
}

/// The object that a call gives.
#[tactic(auto, using(swc_ast::proofs::Equations::forms))]
fn take_result(e: &mut Expr) -> Option<Expr>
    ensures steps { IfSome result (λ o. (S : Shaker) → Shakes S (expr_tree e.old) (expr_tree o)) }
    ensures fits { IfSome result (λ o. (p : Place) → Fits p (expr_tree o)) }
    ensures stays { IsNone result → expr_tree e.new ≡ expr_tree e.old }
{
    match e {
        Expr::Call(n) => take_from_call(n),
        _ => None,
    }
}

impl<'a> Known<'a> {
    /// Puts the object in the place of a call that does nothing but give it: of a nameless function without parameters,
    /// whose body returns an object of properties that only name names. False: the expression is as it was, and nothing is
    /// to do at it.
    pub fn give_object(&self, e: &mut Expr) -> bool
        ensures steps { Became (shake_pass (shaker self.now)) result (expr_tree e.old) (expr_tree e.new) }
        ensures fits { (place : Place) → Fits place (expr_tree e.old) → Fits place (expr_tree e.new) }
    {
        match take_result(e) {
            Some(object) => {
                *e = object;
                true
            }
            None => false,
        }
    }
}
