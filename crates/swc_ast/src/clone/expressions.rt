//! Copies of expressions.
ghost use Rattle.std.specs.Prelude.{◌≡◌, IfOk, map};
ghost use Rattle.swc_ast.specs.Parts.{option_tree, ident_tree, lit_tree};
ghost use Rattle.swc_ast.specs.Expressions.{element_node, element_tree, array_tree, object_tree, fn_expr_tree, unary_tree, bin_tree, cond_tree, call_tree, new_tree, seq_tree, tpl_tree, member_tree};
ghost use Rattle.swc_ast.specs.Views.{expr_tree, prop_or_spread_tree, function_trees};

use crate::clone::functions::{copy_boxed_arrow, copy_boxed_function};
use crate::clone::leaves::{
    copy_ident, copy_invalid, copy_lit, copy_option_ident, copy_quasis, copy_this,
};
use crate::clone::objects::copy_properties;
use crate::clone::targets::{copy_boxed_assign, copy_boxed_update, copy_member};
use crate::expressions::{
    ArrayLit, BinExpr, CallExpr, CondExpr, Expr, ExprOrSpread, FnExpr, MemberExpr, NewExpr,
    ObjectLit, SeqExpr, Tpl, UnaryExpr,
};
use crate::literals::Lit;
use crate::names::Ident;
use std::alloc::{AllocError, Global};

#[cycle(clone)]
pub(crate) fn copy_expr(e: &Expr) -> Result<Expr, AllocError>
    ensures { IfOk result (λ r. expr_tree r ≡ expr_tree e.now) }
{
    match e {
        Expr::This(n) => Ok(Expr::This(copy_this(n))),
        Expr::Array(n) => expr_of_array(n),
        Expr::Object(n) => expr_of_object(n),
        Expr::Fn(n) => expr_of_fn(n),
        Expr::Unary(n) => expr_of_unary(n),
        Expr::Update(n) => Ok(Expr::Update(copy_boxed_update(n)?)),
        Expr::Bin(n) => expr_of_bin(n),
        Expr::Assign(n) => Ok(Expr::Assign(copy_boxed_assign(n)?)),
        Expr::Member(n) => expr_of_member(n),
        Expr::Cond(n) => expr_of_cond(n),
        Expr::Call(n) => expr_of_call(n),
        Expr::New(n) => expr_of_new(n),
        Expr::Seq(n) => expr_of_seq(n),
        Expr::Ident(n) => expr_of_ident(n),
        Expr::Lit(n) => expr_of_lit(n),
        Expr::Tpl(n) => expr_of_tpl(n),
        Expr::Arrow(n) => Ok(Expr::Arrow(copy_boxed_arrow(n)?)),
        Expr::Invalid(n) => Ok(Expr::Invalid(copy_invalid(n))),
    }
}

#[cycle(clone)]
#[inline(never)]
fn expr_of_array(n: &ArrayLit) -> Result<Expr, AllocError>
    ensures { IfOk result (λ r. expr_tree r ≡ array_tree expr_tree n.now) }
{
    Ok(Expr::Array(copy_array(n)?))
}

#[cycle(clone)]
#[inline(never)]
fn expr_of_object(n: &ObjectLit) -> Result<Expr, AllocError>
    ensures { IfOk result (λ r. expr_tree r ≡ object_tree prop_or_spread_tree n.now) }
{
    Ok(Expr::Object(copy_object(n)?))
}

#[cycle(clone)]
#[inline(never)]
fn expr_of_fn(n: &FnExpr) -> Result<Expr, AllocError>
    ensures { IfOk result (λ r. expr_tree r ≡ fn_expr_tree function_trees n.now) }
{
    Ok(Expr::Fn(copy_fn_expr(n)?))
}

#[cycle(clone)]
#[inline(never)]
fn expr_of_unary(n: &UnaryExpr) -> Result<Expr, AllocError>
    ensures { IfOk result (λ r. expr_tree r ≡ unary_tree expr_tree n.now) }
{
    Ok(Expr::Unary(copy_unary(n)?))
}

#[cycle(clone)]
#[inline(never)]
fn expr_of_bin(n: &BinExpr) -> Result<Expr, AllocError>
    ensures { IfOk result (λ r. expr_tree r ≡ bin_tree expr_tree n.now) }
{
    Ok(Expr::Bin(copy_bin(n)?))
}

#[cycle(clone)]
#[inline(never)]
fn expr_of_member(n: &MemberExpr) -> Result<Expr, AllocError>
    ensures { IfOk result (λ r. expr_tree r ≡ member_tree expr_tree n.now) }
{
    Ok(Expr::Member(copy_member(n)?))
}

#[cycle(clone)]
#[inline(never)]
fn expr_of_cond(n: &CondExpr) -> Result<Expr, AllocError>
    ensures { IfOk result (λ r. expr_tree r ≡ cond_tree expr_tree n.now) }
{
    Ok(Expr::Cond(copy_cond(n)?))
}

#[cycle(clone)]
#[inline(never)]
fn expr_of_call(n: &CallExpr) -> Result<Expr, AllocError>
    ensures { IfOk result (λ r. expr_tree r ≡ call_tree expr_tree n.now) }
{
    Ok(Expr::Call(copy_call(n)?))
}

#[cycle(clone)]
#[inline(never)]
fn expr_of_new(n: &NewExpr) -> Result<Expr, AllocError>
    ensures { IfOk result (λ r. expr_tree r ≡ new_tree expr_tree n.now) }
{
    Ok(Expr::New(copy_new(n)?))
}

#[cycle(clone)]
#[inline(never)]
fn expr_of_seq(n: &SeqExpr) -> Result<Expr, AllocError>
    ensures { IfOk result (λ r. expr_tree r ≡ seq_tree expr_tree n.now) }
{
    Ok(Expr::Seq(copy_seq(n)?))
}

#[inline(never)]
fn expr_of_ident(n: &Ident) -> Result<Expr, AllocError>
    ensures { IfOk result (λ r. expr_tree r ≡ ident_tree n.now) }
{
    Ok(Expr::Ident(copy_ident(n)?))
}

#[inline(never)]
fn expr_of_lit(n: &Lit) -> Result<Expr, AllocError>
    ensures { IfOk result (λ r. expr_tree r ≡ lit_tree n.now) }
{
    Ok(Expr::Lit(copy_lit(n)?))
}

#[cycle(clone)]
#[inline(never)]
fn expr_of_tpl(n: &Tpl) -> Result<Expr, AllocError>
    ensures { IfOk result (λ r. expr_tree r ≡ tpl_tree expr_tree n.now) }
{
    Ok(Expr::Tpl(copy_tpl(n)?))
}

#[cycle(clone)]
#[inline(never)]
pub(crate) fn copy_boxed(e: &Box<Expr>) -> Result<Box<Expr>, AllocError>
    ensures { IfOk result (λ r. expr_tree r.value ≡ expr_tree e.now.value) }
{
    let alloc = *Box::allocator(e);
    let copy = copy_expr(e)?;
    Ok(Box::new(alloc, copy)?)
}

#[cycle(clone)]
pub(crate) fn copy_option(o: &Option<Box<Expr>>) -> Result<Option<Box<Expr>>, AllocError>
    ensures { IfOk result (λ r. option_tree expr_tree r ≡ option_tree expr_tree o.now) }
{
    match o {
        Some(e) => Ok(Some(copy_boxed(e)?)),
        None => Ok(None),
    }
}

#[cycle(clone)]
pub(crate) fn copy_exprs(es: &Vec<Expr>) -> Result<Vec<Expr>, AllocError>
    ensures { IfOk result (λ r. map expr_tree r.items ≡ map expr_tree es.now.items) }
{
    let mut out = Vec::with_capacity(*es.allocator(), es.len())?;
    for e in es {
        out.push(copy_expr(e)?)?;
    }
    Ok(out)
}

#[cycle(clone)]
pub(crate) fn copy_item(n: &ExprOrSpread) -> Result<ExprOrSpread, AllocError>
    ensures { IfOk result (λ r. element_node r.spread (expr_tree r.expr.value) ≡ element_node n.now.spread (expr_tree n.now.expr.value)) }
{
    let expr = copy_boxed(&n.expr)?;
    Ok(ExprOrSpread {
        spread: n.spread,
        expr,
    })
}

#[cycle(clone)]
pub(crate) fn copy_element(o: &Option<ExprOrSpread>) -> Result<Option<ExprOrSpread>, AllocError>
    ensures { IfOk result (λ r. element_tree expr_tree r ≡ element_tree expr_tree o.now) }
{
    match o {
        Some(n) => Ok(Some(copy_item(n)?)),
        None => Ok(None),
    }
}

#[cycle(clone)]
pub(crate) fn copy_elements(
    xs: &Vec<Option<ExprOrSpread>>,
) -> Result<Vec<Option<ExprOrSpread>>, AllocError>
    ensures { IfOk result (λ r. map (element_tree expr_tree) r.items ≡ map (element_tree expr_tree) xs.now.items) }
{
    let mut out = Vec::with_capacity(*xs.allocator(), xs.len())?;
    for x in xs {
        out.push(copy_element(x)?)?;
    }
    Ok(out)
}

#[cycle(clone)]
pub(crate) fn copy_array(n: &ArrayLit) -> Result<ArrayLit, AllocError>
    ensures { IfOk result (λ r. array_tree expr_tree r ≡ array_tree expr_tree n.now) }
{
    let elems = copy_elements(&n.elems)?;
    Ok(ArrayLit {
        span: n.span,
        elems,
    })
}

#[cycle(clone)]
pub(crate) fn copy_object(n: &ObjectLit) -> Result<ObjectLit, AllocError>
    ensures { IfOk result (λ r. object_tree prop_or_spread_tree r ≡ object_tree prop_or_spread_tree n.now) }
{
    let props = copy_properties(&n.props)?;
    Ok(ObjectLit {
        span: n.span,
        props,
    })
}

#[cycle(clone)]
pub(crate) fn copy_fn_expr(n: &FnExpr) -> Result<FnExpr, AllocError>
    ensures { IfOk result (λ r. fn_expr_tree function_trees r ≡ fn_expr_tree function_trees n.now) }
{
    let ident = copy_option_ident(&n.ident)?;
    let function = copy_boxed_function(&n.function)?;
    Ok(FnExpr { ident, function })
}

#[cycle(clone)]
pub(crate) fn copy_unary(n: &UnaryExpr) -> Result<UnaryExpr, AllocError>
    ensures { IfOk result (λ r. unary_tree expr_tree r ≡ unary_tree expr_tree n.now) }
{
    let arg = copy_boxed(&n.arg)?;
    Ok(UnaryExpr {
        span: n.span,
        op: n.op,
        arg,
    })
}

#[cycle(clone)]
pub(crate) fn copy_bin(n: &BinExpr) -> Result<BinExpr, AllocError>
    ensures { IfOk result (λ r. bin_tree expr_tree r ≡ bin_tree expr_tree n.now) }
{
    let left = copy_boxed(&n.left)?;
    let right = copy_boxed(&n.right)?;
    Ok(BinExpr {
        span: n.span,
        op: n.op,
        left,
        right,
    })
}

#[cycle(clone)]
pub(crate) fn copy_cond(n: &CondExpr) -> Result<CondExpr, AllocError>
    ensures { IfOk result (λ r. cond_tree expr_tree r ≡ cond_tree expr_tree n.now) }
{
    let test = copy_boxed(&n.test)?;
    let cons = copy_boxed(&n.cons)?;
    let alt = copy_boxed(&n.alt)?;
    Ok(CondExpr {
        span: n.span,
        test,
        cons,
        alt,
    })
}

#[cycle(clone)]
pub(crate) fn copy_call(n: &CallExpr) -> Result<CallExpr, AllocError>
    ensures { IfOk result (λ r. call_tree expr_tree r ≡ call_tree expr_tree n.now) }
{
    let callee = copy_boxed(&n.callee)?;
    let args = copy_exprs(&n.args)?;
    Ok(CallExpr {
        span: n.span,
        callee,
        args,
    })
}

#[cycle(clone)]
pub(crate) fn copy_new(n: &NewExpr) -> Result<NewExpr, AllocError>
    ensures { IfOk result (λ r. new_tree expr_tree r ≡ new_tree expr_tree n.now) }
{
    let callee = copy_boxed(&n.callee)?;
    let args = copy_exprs(&n.args)?;
    Ok(NewExpr {
        span: n.span,
        callee,
        args,
    })
}

#[cycle(clone)]
pub(crate) fn copy_seq(n: &SeqExpr) -> Result<SeqExpr, AllocError>
    ensures { IfOk result (λ r. seq_tree expr_tree r ≡ seq_tree expr_tree n.now) }
{
    let exprs = copy_exprs(&n.exprs)?;
    Ok(SeqExpr {
        span: n.span,
        exprs,
    })
}

#[cycle(clone)]
pub(crate) fn copy_tpl(n: &Tpl) -> Result<Tpl, AllocError>
    ensures { IfOk result (λ r. tpl_tree expr_tree r ≡ tpl_tree expr_tree n.now) }
{
    let alloc = *Box::allocator(&n.quasis);
    let texts = copy_quasis(&n.quasis)?;
    let quasis = Box::new(alloc, texts)?;
    let exprs = copy_exprs(&n.exprs)?;
    Ok(Tpl {
        span: n.span,
        quasis,
        exprs,
    })
}

impl Clone for Expr {
    ghost is_clone = { λ x y. expr_tree y ≡ expr_tree x };

    fn clone(&self) -> Result<Expr, AllocError> {
        copy_expr(self)
    }
}

impl Clone for ExprOrSpread {
    ghost is_clone = { λ x y. element_node y.spread (expr_tree y.expr.value) ≡ element_node x.spread (expr_tree x.expr.value) };

    fn clone(&self) -> Result<ExprOrSpread, AllocError> {
        copy_item(self)
    }
}

impl Clone for ArrayLit {
    ghost is_clone = { λ x y. array_tree expr_tree y ≡ array_tree expr_tree x };

    fn clone(&self) -> Result<ArrayLit, AllocError> {
        copy_array(self)
    }
}

impl Clone for ObjectLit {
    ghost is_clone = { λ x y. object_tree prop_or_spread_tree y ≡ object_tree prop_or_spread_tree x };

    fn clone(&self) -> Result<ObjectLit, AllocError> {
        copy_object(self)
    }
}

impl Clone for FnExpr {
    ghost is_clone = { λ x y. fn_expr_tree function_trees y ≡ fn_expr_tree function_trees x };

    fn clone(&self) -> Result<FnExpr, AllocError> {
        copy_fn_expr(self)
    }
}

impl Clone for UnaryExpr {
    ghost is_clone = { λ x y. unary_tree expr_tree y ≡ unary_tree expr_tree x };

    fn clone(&self) -> Result<UnaryExpr, AllocError> {
        copy_unary(self)
    }
}

impl Clone for BinExpr {
    ghost is_clone = { λ x y. bin_tree expr_tree y ≡ bin_tree expr_tree x };

    fn clone(&self) -> Result<BinExpr, AllocError> {
        copy_bin(self)
    }
}

impl Clone for CondExpr {
    ghost is_clone = { λ x y. cond_tree expr_tree y ≡ cond_tree expr_tree x };

    fn clone(&self) -> Result<CondExpr, AllocError> {
        copy_cond(self)
    }
}

impl Clone for CallExpr {
    ghost is_clone = { λ x y. call_tree expr_tree y ≡ call_tree expr_tree x };

    fn clone(&self) -> Result<CallExpr, AllocError> {
        copy_call(self)
    }
}

impl Clone for NewExpr {
    ghost is_clone = { λ x y. new_tree expr_tree y ≡ new_tree expr_tree x };

    fn clone(&self) -> Result<NewExpr, AllocError> {
        copy_new(self)
    }
}

impl Clone for SeqExpr {
    ghost is_clone = { λ x y. seq_tree expr_tree y ≡ seq_tree expr_tree x };

    fn clone(&self) -> Result<SeqExpr, AllocError> {
        copy_seq(self)
    }
}

impl Clone for Tpl {
    ghost is_clone = { λ x y. tpl_tree expr_tree y ≡ tpl_tree expr_tree x };

    fn clone(&self) -> Result<Tpl, AllocError> {
        copy_tpl(self)
    }
}
