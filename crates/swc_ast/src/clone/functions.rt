//! Copies of functions and arrows, and of their parameters.
ghost use Rattle.std.specs.Prelude.{◌≡◌, IfOk, map};
ghost use Rattle.swc_ast.specs.Expressions.{param_tree};
ghost use Rattle.swc_ast.specs.Views.{expr_tree, function_trees, arrow_tree, arrow_body_tree};
ghost use Rattle.swc_ast.specs.declared.declarations.Pat.TheVariants.{Assign};

use crate::clone::expressions::copy_boxed;
use crate::clone::leaves::copy_ident;
use crate::clone::statements::copy_block;
use crate::declarations::{AssignPat, Function, Pat};
use crate::expressions::{ArrowExpr, BlockStmtOrExpr};
use std::alloc::{AllocError, Global};

#[cycle(clone)]
pub(crate) fn copy_function(f: &Function) -> Result<Function, AllocError>
    ensures { IfOk result (λ r. function_trees r ≡ function_trees f.now) }
{
    let params = copy_params(&f.params)?;
    let body = copy_block(&f.body)?;
    Ok(Function {
        span: f.span,
        params,
        body,
    })
}

#[cycle(clone)]
#[inline(never)]
pub(crate) fn copy_boxed_function(f: &Box<Function>) -> Result<Box<Function>, AllocError>
    ensures { IfOk result (λ r. function_trees r.value ≡ function_trees f.now.value) }
{
    let alloc = *Box::allocator(f);
    let copy = copy_function(f)?;
    Ok(Box::new(alloc, copy)?)
}

#[cycle(clone)]
pub(crate) fn copy_arrow(f: &ArrowExpr) -> Result<ArrowExpr, AllocError>
    ensures { IfOk result (λ r. arrow_tree r ≡ arrow_tree f.now) }
{
    let params = copy_params(&f.params)?;
    let body = copy_arrow_body(&f.body)?;
    Ok(ArrowExpr {
        span: f.span,
        params,
        body,
    })
}

#[cycle(clone)]
#[inline(never)]
pub(crate) fn copy_boxed_arrow(n: &Box<ArrowExpr>) -> Result<Box<ArrowExpr>, AllocError>
    ensures { IfOk result (λ r. arrow_tree r.value ≡ arrow_tree n.now.value) }
{
    let alloc = *Box::allocator(n);
    let copy = copy_arrow(n)?;
    Ok(Box::new(alloc, copy)?)
}

#[cycle(clone)]
pub(crate) fn copy_arrow_body(b: &BlockStmtOrExpr) -> Result<BlockStmtOrExpr, AllocError>
    ensures { IfOk result (λ r. arrow_body_tree r ≡ arrow_body_tree b.now) }
{
    match b {
        BlockStmtOrExpr::BlockStmt(n) => Ok(BlockStmtOrExpr::BlockStmt(copy_block(n)?)),
        BlockStmtOrExpr::Expr(n) => Ok(BlockStmtOrExpr::Expr(copy_boxed(n)?)),
    }
}

#[cycle(clone)]
pub(crate) fn copy_params(ps: &Vec<Pat>) -> Result<Vec<Pat>, AllocError>
    ensures { IfOk result (λ r. map (param_tree expr_tree) r.items ≡ map (param_tree expr_tree) ps.now.items) }
{
    let mut out = Vec::with_capacity(*ps.allocator(), ps.len())?;
    for p in ps {
        out.push(copy_param(p)?)?;
    }
    Ok(out)
}

#[cycle(clone)]
pub(crate) fn copy_param(p: &Pat) -> Result<Pat, AllocError>
    ensures { IfOk result (λ r. param_tree expr_tree r ≡ param_tree expr_tree p.now) }
{
    match p {
        Pat::Ident(n) => Ok(Pat::Ident(copy_ident(n)?)),
        Pat::Assign(n) => Ok(Pat::Assign(copy_default(n)?)),
    }
}

#[cycle(clone)]
pub(crate) fn copy_default(n: &AssignPat) -> Result<AssignPat, AllocError>
    ensures { IfOk result (λ r. param_tree expr_tree (Assign r) ≡ param_tree expr_tree (Assign n.now)) }
{
    let left = copy_ident(&n.left)?;
    let right = copy_boxed(&n.right)?;
    Ok(AssignPat {
        span: n.span,
        left,
        right,
    })
}

impl Clone for Function {
    ghost is_clone = { λ x y. function_trees y ≡ function_trees x };

    fn clone(&self) -> Result<Function, AllocError> {
        copy_function(self)
    }
}

impl Clone for ArrowExpr {
    ghost is_clone = { λ x y. arrow_tree y ≡ arrow_tree x };

    fn clone(&self) -> Result<ArrowExpr, AllocError> {
        copy_arrow(self)
    }
}

impl Clone for BlockStmtOrExpr {
    ghost is_clone = { λ x y. arrow_body_tree y ≡ arrow_body_tree x };

    fn clone(&self) -> Result<BlockStmtOrExpr, AllocError> {
        copy_arrow_body(self)
    }
}

impl Clone for Pat {
    ghost is_clone = { λ x y. param_tree expr_tree y ≡ param_tree expr_tree x };

    fn clone(&self) -> Result<Pat, AllocError> {
        copy_param(self)
    }
}

impl Clone for AssignPat {
    ghost is_clone = { λ x y. param_tree expr_tree (Assign y) ≡ param_tree expr_tree (Assign x) };

    fn clone(&self) -> Result<AssignPat, AllocError> {
        copy_default(self)
    }
}
