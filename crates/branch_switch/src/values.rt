//! Values that are known without a run.
ghost use Rattle.std.specs.Prelude.{◌≡◌, true, IfOk, IfSome, IsTrue, Some};
ghost use Rattle.swc_ast.specs.Operators.{int_eq, prim, strict_equal};
ghost use Rattle.swc_ast.specs.Views.{expr_tree};
ghost use Rattle.swc_utils.specs.Globals.{unresolved};
ghost use Rattle.swc_utils.specs.Known.{number, text, truth};
ghost use Rattle.pass_rules.specs.Values as rules;
ghost use Rattle.branch_rules.specs.Switches.{FixedValue, is_fixed as tree_is_fixed};
ghost use Rattle.branch_switch.specs.Values.{value_in};

use std::alloc::{AllocError, Global};
use swc_ast::Expr;
use swc_utils::{ExprCtx, ExprExt, Value, ValueType};

/// A value that is known; a number that is None is NaN.
#[derive(Debug, Drop)]
pub(crate) enum Known {
    Undefined,
    Null,
    Bool(bool),
    Num(Option<i64>),
    Str(String),
}

fn as_truth(ctx: &ExprCtx, e: &Expr) -> Option<Known>
    ensures { IfSome result (λ k. rules.truth_of_known (truth (unresolved ctx.now) (expr_tree e.now)) ≡ Some (value_in k)) }
{
    let (_, truth) = e.cast_to_bool(ctx);
    match truth {
        Value::Known(b) => Some(Known::Bool(b)),
        Value::Unknown => None,
    }
}

fn as_number(ctx: &ExprCtx, e: &Expr) -> Option<Known>
    ensures { IfSome result (λ k. rules.number_of (number (unresolved ctx.now) (expr_tree e.now)) ≡ Some (value_in k)) }
{
    match e.as_pure_number(ctx) {
        Value::Known(n) => Some(Known::Num(n)),
        Value::Unknown => None,
    }
}

fn as_text(alloc: Global, ctx: &ExprCtx, e: &Expr) -> Result<Option<Known>, AllocError>
    ensures { IfOk result (λ o. IfSome o (λ k. rules.text_value (text (unresolved ctx.now) (expr_tree e.now)) ≡ Some (value_in k))) }
{
    match e.as_pure_string(alloc, ctx) {
        Ok(text) => match text {
            Value::Known(s) => Ok(Some(Known::Str(s))),
            Value::Unknown => Ok(None),
        },
        Err(_) => Err(AllocError),
    }
}

/// Whether an expression is a literal or a name; of `undefined` and `NaN` the value is known.
#[tactic(auto, using(swc_ast::proofs::Equations::forms))]
fn is_fixed(e: &Expr) -> bool
    ensures { IsTrue result → tree_is_fixed (expr_tree e.now) ≡ true }
{
    match e {
        Expr::Lit(_) => true,
        Expr::Ident(_) => true,
        _ => false,
    }
}

/// The value of an expression, if it is known. Fails where memory for a text is refused.
#[tactic(auto, using(crate::proofs::Typed::value_at))]
fn known_value(alloc: Global, ctx: &ExprCtx, e: &Expr) -> Result<Option<Known>, AllocError>
    ensures { IfOk result (λ o. IfSome o (λ k. rules.value_of (unresolved ctx.now) (expr_tree e.now) ≡ Some (value_in k))) }
{
    match e.get_type(ctx) {
        Value::Known(kind) => match kind {
            ValueType::Undefined => Ok(Some(Known::Undefined)),
            ValueType::Null => Ok(Some(Known::Null)),
            ValueType::Bool => Ok(as_truth(ctx, e)),
            ValueType::Num => Ok(as_number(ctx, e)),
            ValueType::Str => as_text(alloc, ctx, e),
            ValueType::Obj => Ok(None),
        },
        Value::Unknown => Ok(None),
    }
}

/// The value of a literal, of `undefined` or of `NaN`; of another expression none. Fails where memory for a text is refused.
pub(crate) fn value_of(alloc: Global, ctx: &ExprCtx, e: &Expr) -> Result<Option<Known>, AllocError>
    ensures { IfOk result (λ o. IfSome o (λ k. FixedValue (unresolved ctx.now) (expr_tree e.now) (value_in k))) }
{
    if !is_fixed(e) {
        return Ok(None);
    }
    match known_value(alloc, ctx, e)? {
        Some(value) => Ok(Some(value)),
        None => Ok(None),
    }
}

fn is_same_whole(a: i64, b: i64) -> bool
    ensures { result ≡ int_eq a b }
{
    a == b
}

impl Known {
    /// Whether it is equal to another value, strictly.
    pub(crate) fn equals(&self, other: &Known) -> bool
        ensures { strict_equal (prim (value_in self.now)) (prim (value_in other.now)) ≡ Some result }
    {
        match (self, other) {
            (Known::Undefined, Known::Undefined) => true,
            (Known::Null, Known::Null) => true,
            (Known::Bool(a), Known::Bool(b)) => *a == *b,
            (Known::Num(Some(a)), Known::Num(Some(b))) => is_same_whole(*a, *b),
            (Known::Str(a), Known::Str(b)) => a == b,
            _ => false,
        }
    }
}
