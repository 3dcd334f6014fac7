//! Copies of members, of what is written to, and of what writes to it.
ghost use Rattle.std.specs.Prelude.{◌≡◌, IfOk, [], ◌∷◌};
ghost use Rattle.swc_ast.specs.Tree.{node, ComputedKey, ε, ◌⊳◌};
ghost use Rattle.swc_ast.specs.Expressions.{update_tree, assign_tree, target_tree, member_tree};
ghost use Rattle.swc_ast.specs.Nodes.{key_of_member};
ghost use Rattle.swc_ast.specs.Views.{expr_tree};

use crate::clone::expressions::copy_boxed;
use crate::clone::leaves::{copy_ident, copy_word};
use crate::expressions::{
    AssignExpr, AssignTarget, ComputedPropName, MemberExpr, MemberProp, UpdateExpr,
};
use std::alloc::AllocError;

#[cycle(clone)]
pub(crate) fn copy_update(n: &UpdateExpr) -> Result<UpdateExpr, AllocError>
    ensures { IfOk result (λ r. update_tree expr_tree r ≡ update_tree expr_tree n.now) }
{
    let arg = copy_target(&n.arg)?;
    Ok(UpdateExpr {
        span: n.span,
        op: n.op,
        prefix: n.prefix,
        arg,
    })
}

#[cycle(clone)]
#[inline(never)]
pub(crate) fn copy_boxed_update(n: &Box<UpdateExpr>) -> Result<Box<UpdateExpr>, AllocError>
    ensures { IfOk result (λ r. update_tree expr_tree r.value ≡ update_tree expr_tree n.now.value) }
{
    let alloc = *Box::allocator(n);
    let copy = copy_update(n)?;
    Ok(Box::new(alloc, copy)?)
}

#[cycle(clone)]
pub(crate) fn copy_assign(n: &AssignExpr) -> Result<AssignExpr, AllocError>
    ensures { IfOk result (λ r. assign_tree expr_tree r ≡ assign_tree expr_tree n.now) }
{
    let left = copy_target(&n.left)?;
    let right = copy_boxed(&n.right)?;
    Ok(AssignExpr {
        span: n.span,
        op: n.op,
        left,
        right,
    })
}

#[cycle(clone)]
#[inline(never)]
pub(crate) fn copy_boxed_assign(n: &Box<AssignExpr>) -> Result<Box<AssignExpr>, AllocError>
    ensures { IfOk result (λ r. assign_tree expr_tree r.value ≡ assign_tree expr_tree n.now.value) }
{
    let alloc = *Box::allocator(n);
    let copy = copy_assign(n)?;
    Ok(Box::new(alloc, copy)?)
}

#[cycle(clone)]
pub(crate) fn copy_target(t: &AssignTarget) -> Result<AssignTarget, AllocError>
    ensures { IfOk result (λ r. target_tree expr_tree r ≡ target_tree expr_tree t.now) }
{
    match t {
        AssignTarget::Ident(n) => Ok(AssignTarget::Ident(copy_ident(n)?)),
        AssignTarget::Member(n) => Ok(AssignTarget::Member(copy_member(n)?)),
    }
}

#[cycle(clone)]
pub(crate) fn copy_member(n: &MemberExpr) -> Result<MemberExpr, AllocError>
    ensures { IfOk result (λ r. member_tree expr_tree r ≡ member_tree expr_tree n.now) }
{
    let obj = copy_boxed(&n.obj)?;
    let prop = copy_member_prop(&n.prop)?;
    Ok(MemberExpr {
        span: n.span,
        obj,
        prop,
    })
}

#[cycle(clone)]
pub(crate) fn copy_member_prop(p: &MemberProp) -> Result<MemberProp, AllocError>
    ensures { IfOk result (λ r. key_of_member expr_tree r ≡ key_of_member expr_tree p.now) }
{
    match p {
        MemberProp::Ident(n) => Ok(MemberProp::Ident(copy_word(n)?)),
        MemberProp::Computed(n) => Ok(MemberProp::Computed(copy_computed(n)?)),
    }
}

#[cycle(clone)]
pub(crate) fn copy_computed(n: &ComputedPropName) -> Result<ComputedPropName, AllocError>
    ensures { IfOk result (λ r. node ComputedKey (r.span ∷ []) (expr_tree r.expr.value ⊳ ε) ≡ node ComputedKey (n.now.span ∷ []) (expr_tree n.now.expr.value ⊳ ε)) }
{
    let expr = copy_boxed(&n.expr)?;
    Ok(ComputedPropName { span: n.span, expr })
}

impl Clone for UpdateExpr {
    ghost is_clone = { λ x y. update_tree expr_tree y ≡ update_tree expr_tree x };

    fn clone(&self) -> Result<UpdateExpr, AllocError> {
        copy_update(self)
    }
}

impl Clone for AssignExpr {
    ghost is_clone = { λ x y. assign_tree expr_tree y ≡ assign_tree expr_tree x };

    fn clone(&self) -> Result<AssignExpr, AllocError> {
        copy_assign(self)
    }
}

impl Clone for AssignTarget {
    ghost is_clone = { λ x y. target_tree expr_tree y ≡ target_tree expr_tree x };

    fn clone(&self) -> Result<AssignTarget, AllocError> {
        copy_target(self)
    }
}

impl Clone for MemberExpr {
    ghost is_clone = { λ x y. member_tree expr_tree y ≡ member_tree expr_tree x };

    fn clone(&self) -> Result<MemberExpr, AllocError> {
        copy_member(self)
    }
}

impl Clone for MemberProp {
    ghost is_clone = { λ x y. key_of_member expr_tree y ≡ key_of_member expr_tree x };

    fn clone(&self) -> Result<MemberProp, AllocError> {
        copy_member_prop(self)
    }
}

impl Clone for ComputedPropName {
    ghost is_clone = { λ x y. node ComputedKey (y.span ∷ []) (expr_tree y.expr.value ⊳ ε) ≡ node ComputedKey (x.span ∷ []) (expr_tree x.expr.value ⊳ ε) };

    fn clone(&self) -> Result<ComputedPropName, AllocError> {
        copy_computed(self)
    }
}
