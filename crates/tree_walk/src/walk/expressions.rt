//! The walk over expressions and functions.
ghost use Rattle.std.specs.Prelude.{IfOk};
ghost use Rattle.swc_ast.specs.Expressions.{member_tree, key_tree, param_tree, update_tree, assign_tree};
ghost use Rattle.swc_ast.specs.Views.{expr_tree, prop_or_spread_tree, prop_tree, method_tree, function_trees, arrow_tree, arrow_body_tree};
ghost use Rattle.tree_walk.specs.Walks.{Inside, Made, Placed, Each};
ghost use Rattle.tree_walk.specs.Parts.{OptionWalks, ItemWalks, PropWalks, TargetWalks, CalleeWalks, OperandWalks};
ghost use Rattle.tree_walk.specs.StatementParts.{FunctionWalks};

use crate::kinds::{is_member, is_named_typeof, is_plain, operand_place, part_place};
use crate::rules::{Place, Rules};
use crate::walk::statements::walk_body;
use std::alloc::AllocError;
use swc_ast::{
    ArrowExpr, AssignExpr, AssignTarget, BlockStmtOrExpr, Expr, ExprOrSpread, Function, MemberExpr,
    MemberProp, MethodProp, Pat, Prop, PropName, PropOrSpread, UnaryOp, UpdateExpr,
};

/// Walks an expression: the rules in front of its parts, its parts, and then the rules at the expression.
#[cycle(walk)]
pub fn walk_expr<R: Rules>(rules: &R, place: Place, e: &mut Expr) -> Result<bool, AllocError>
    ensures { IfOk result (λ c. Placed (R.pass rules.now) place (expr_tree e.old) (expr_tree e.new) c) }
{
    let opened = rules.enter_expr(place, e)?;
    if !rules.enters_expr(e) {
        return Ok(opened);
    }
    let inside = walk_parts(rules, place, e)?;
    let left = rules.leave_expr(place, e)?;
    Ok(opened | (inside | left))
}

#[cycle(walk)]
#[inline(always)]
pub fn walk_parts<R: Rules>(rules: &R, place: Place, e: &mut Expr) -> Result<bool, AllocError>
    ensures { IfOk result (λ c. Inside (R.pass rules.now) c (expr_tree e.old) (expr_tree e.new)) }
{
    let part = part_place(place);
    match e {
        Expr::Array(n) => {
            let items = walk_items(rules, part, &mut n.elems)?;
            Ok(items)
        }
        Expr::Unary(n) => {
            let arg = walk_operand(rules, place, n.op, &mut n.arg)?;
            Ok(arg)
        }
        Expr::Update(n) => {
            let update = walk_boxed_update(rules, n)?;
            Ok(update)
        }
        Expr::Bin(n) => {
            let left = walk_boxed(rules, part, &mut n.left)?;
            let right = walk_boxed(rules, part, &mut n.right)?;
            Ok(left | right)
        }
        Expr::Assign(n) => {
            let assign = walk_boxed_assign(rules, part, n)?;
            Ok(assign)
        }
        Expr::Member(n) => {
            let member = walk_member(rules, part, n)?;
            Ok(member)
        }
        Expr::Cond(n) => {
            let test = walk_boxed(rules, part, &mut n.test)?;
            let cons = walk_boxed(rules, part, &mut n.cons)?;
            let alt = walk_boxed(rules, part, &mut n.alt)?;
            Ok(test | (cons | alt))
        }
        Expr::Call(n) => {
            let callee = walk_callee(rules, &mut n.callee)?;
            let args = walk_exprs(rules, Place::Value, Place::Value, &mut n.args)?;
            Ok(callee | args)
        }
        Expr::New(n) => {
            let callee = walk_boxed(rules, part, &mut n.callee)?;
            let args = walk_exprs(rules, Place::Value, Place::Value, &mut n.args)?;
            Ok(callee | args)
        }
        Expr::Seq(n) => {
            let exprs = walk_exprs(rules, Place::Value, part, &mut n.exprs)?;
            Ok(exprs)
        }
        Expr::Tpl(n) => {
            let exprs = walk_exprs(rules, part, part, &mut n.exprs)?;
            Ok(exprs)
        }
        Expr::Object(n) => {
            let props = walk_props(rules, part, &mut n.props)?;
            Ok(props)
        }
        Expr::Fn(n) => {
            let function = walk_boxed_function(rules, &mut n.function)?;
            Ok(function)
        }
        Expr::Arrow(n) => {
            let arrow = walk_boxed_arrow(rules, n)?;
            Ok(arrow)
        }
        Expr::This(_) => Ok(false),
        Expr::Ident(_) => Ok(false),
        Expr::Lit(_) => Ok(false),
        Expr::Invalid(_) => Ok(false),
    }
}

#[cycle(walk)]
pub fn walk_boxed<R: Rules>(rules: &R, place: Place, e: &mut Box<Expr>) -> Result<bool, AllocError>
    ensures { IfOk result (λ c. Placed (R.pass rules.now) place (expr_tree e.old.value) (expr_tree e.new.value) c) }
{
    walk_expr(rules, place, e)
}

/// Walks expressions; the last may stand elsewhere than those in front of it.
#[cycle(walk)]
pub fn walk_exprs<R: Rules>(
    rules: &R,
    front: Place,
    last: Place,
    es: &mut Vec<Expr>,
) -> Result<bool, AllocError>
    ensures { IfOk result (λ c. Each (λ x y d. Made (R.pass rules.now) (expr_tree x) (expr_tree y) d) es.old.items es.new.items c) }
{
    let mut changed = false;
    for i in 0..es.len() {
        let place = if i + 1 == es.len() { last } else { front };
        let made = walk_expr(rules, place, &mut es[i])?;
        changed = changed | made;
    }
    Ok(changed)
}

#[cycle(walk)]
pub fn walk_items<R: Rules>(
    rules: &R,
    place: Place,
    es: &mut Vec<Option<ExprOrSpread>>,
) -> Result<bool, AllocError>
    ensures { IfOk result (λ c. Each (ItemWalks (R.pass rules.now)) es.old.items es.new.items c) }
{
    let mut changed = false;
    for i in 0..es.len() {
        let made = walk_item(rules, place, &mut es[i])?;
        changed = changed | made;
    }
    Ok(changed)
}

#[cycle(walk)]
pub fn walk_item<R: Rules>(
    rules: &R,
    place: Place,
    item: &mut Option<ExprOrSpread>,
) -> Result<bool, AllocError>
    ensures { IfOk result (λ c. ItemWalks (R.pass rules.now) item.old item.new c) }
{
    match item {
        Some(n) => {
            let made = walk_boxed(rules, place, &mut n.expr)?;
            Ok(made)
        }
        None => Ok(false),
    }
}

#[cycle(walk)]
pub fn walk_member<R: Rules>(
    rules: &R,
    place: Place,
    n: &mut MemberExpr,
) -> Result<bool, AllocError>
    ensures { IfOk result (λ c. Inside (R.pass rules.now) c (member_tree expr_tree n.old) (member_tree expr_tree n.new)) }
{
    let object = walk_boxed(rules, place, &mut n.obj)?;
    let key = walk_member_prop(rules, place, &mut n.prop)?;
    Ok(object | key)
}

#[cycle(walk)]
pub fn walk_member_prop<R: Rules>(
    rules: &R,
    place: Place,
    p: &mut MemberProp,
) -> Result<bool, AllocError>
    ensures { IfOk result (λ c. PropWalks (R.pass rules.now) p.old p.new c) }
{
    match p {
        MemberProp::Ident(_) => Ok(false),
        MemberProp::Computed(n) => {
            let made = walk_boxed(rules, place, &mut n.expr)?;
            Ok(made)
        }
    }
}

#[cycle(walk)]
pub fn walk_target<R: Rules>(rules: &R, t: &mut AssignTarget) -> Result<bool, AllocError>
    ensures { IfOk result (λ c. TargetWalks (R.pass rules.now) t.old t.new c) }
{
    match t {
        AssignTarget::Ident(_) => Ok(false),
        AssignTarget::Member(n) => {
            let member = walk_member(rules, Place::Part, n)?;
            Ok(member)
        }
    }
}

#[cycle(walk)]
#[inline(always)]
pub fn walk_boxed_update<R: Rules>(rules: &R, n: &mut Box<UpdateExpr>) -> Result<bool, AllocError>
    ensures { IfOk result (λ c. Inside (R.pass rules.now) c (update_tree expr_tree n.old.value) (update_tree expr_tree n.new.value)) }
{
    walk_update(rules, n)
}

#[cycle(walk)]
#[inline(always)]
pub fn walk_update<R: Rules>(rules: &R, n: &mut UpdateExpr) -> Result<bool, AllocError>
    ensures { IfOk result (λ c. Inside (R.pass rules.now) c (update_tree expr_tree n.old) (update_tree expr_tree n.new)) }
{
    let arg = walk_target(rules, &mut n.arg)?;
    Ok(arg)
}

#[cycle(walk)]
#[inline(always)]
pub fn walk_boxed_assign<R: Rules>(
    rules: &R,
    part: Place,
    n: &mut Box<AssignExpr>,
) -> Result<bool, AllocError>
    ensures { IfOk result (λ c. Inside (R.pass rules.now) c (assign_tree expr_tree n.old.value) (assign_tree expr_tree n.new.value)) }
{
    walk_assign(rules, part, n)
}

/// Walks an assignment; its value stands in the place that is given.
#[cycle(walk)]
#[inline(always)]
pub fn walk_assign<R: Rules>(rules: &R, part: Place, n: &mut AssignExpr) -> Result<bool, AllocError>
    ensures { IfOk result (λ c. Inside (R.pass rules.now) c (assign_tree expr_tree n.old) (assign_tree expr_tree n.new)) }
{
    let target = walk_target(rules, &mut n.left)?;
    let right = walk_boxed(rules, part, &mut n.right)?;
    Ok(target | right)
}

#[cycle(walk)]
pub fn walk_callee<R: Rules>(rules: &R, e: &mut Box<Expr>) -> Result<bool, AllocError>
    ensures { IfOk result (λ c. CalleeWalks (R.pass rules.now) (expr_tree e.old.value) (expr_tree e.new.value) c) }
{
    if is_member(e) {
        let parts = walk_parts(rules, Place::Callee, e)?;
        return Ok(parts);
    }
    if !is_plain(e) {
        return Ok(false);
    }
    let made = walk_boxed(rules, Place::Callee, e)?;
    Ok(made)
}

#[cycle(walk)]
pub fn walk_operand<R: Rules>(
    rules: &R,
    place: Place,
    op: UnaryOp,
    e: &mut Box<Expr>,
) -> Result<bool, AllocError>
    ensures { IfOk result (λ c. OperandWalks (R.pass rules.now) op (expr_tree e.old.value) (expr_tree e.new.value) c) }
{
    if is_named_typeof(op, e) {
        return Ok(false);
    }
    let made = walk_boxed(rules, operand_place(op, place), e)?;
    Ok(made)
}

#[cycle(walk)]
pub fn walk_option<R: Rules>(rules: &R, e: &mut Option<Box<Expr>>) -> Result<bool, AllocError>
    ensures { IfOk result (λ c. OptionWalks (R.pass rules.now) expr_tree e.old e.new c) }
{
    match e {
        Some(n) => {
            let made = walk_boxed(rules, Place::Value, n)?;
            Ok(made)
        }
        None => Ok(false),
    }
}

#[cycle(walk)]
pub fn walk_props<R: Rules>(
    rules: &R,
    place: Place,
    ps: &mut Vec<PropOrSpread>,
) -> Result<bool, AllocError>
    ensures { IfOk result (λ c. Each (λ x y d. Made (R.pass rules.now) (prop_or_spread_tree x) (prop_or_spread_tree y) d) ps.old.items ps.new.items c) }
{
    let mut changed = false;
    for i in 0..ps.len() {
        let made = walk_prop_or_spread(rules, place, &mut ps[i])?;
        changed = changed | made;
    }
    Ok(changed)
}

#[cycle(walk)]
pub fn walk_prop_or_spread<R: Rules>(
    rules: &R,
    place: Place,
    p: &mut PropOrSpread,
) -> Result<bool, AllocError>
    ensures { IfOk result (λ c. Made (R.pass rules.now) (prop_or_spread_tree p.old) (prop_or_spread_tree p.new) c) }
{
    match p {
        PropOrSpread::Spread(n) => {
            let made = walk_boxed(rules, place, &mut n.expr)?;
            Ok(made)
        }
        PropOrSpread::Prop(n) => {
            let made = walk_prop(rules, place, n)?;
            Ok(made)
        }
    }
}

#[cycle(walk)]
pub fn walk_prop<R: Rules>(rules: &R, place: Place, p: &mut Prop) -> Result<bool, AllocError>
    ensures { IfOk result (λ c. Made (R.pass rules.now) (prop_tree p.old) (prop_tree p.new) c) }
{
    match p {
        Prop::Shorthand(_) => Ok(false),
        Prop::KeyValue(n) => {
            let key = walk_key(rules, place, &mut n.key)?;
            let value = walk_boxed(rules, place, &mut n.value)?;
            Ok(key | value)
        }
        Prop::Method(n) => {
            let made = walk_method(rules, place, n)?;
            Ok(made)
        }
    }
}

#[cycle(walk)]
pub fn walk_key<R: Rules>(rules: &R, place: Place, k: &mut PropName) -> Result<bool, AllocError>
    ensures { IfOk result (λ c. Made (R.pass rules.now) (key_tree expr_tree k.old) (key_tree expr_tree k.new) c) }
{
    match k {
        PropName::Ident(_) => Ok(false),
        PropName::Str(_) => Ok(false),
        PropName::Num(_) => Ok(false),
        PropName::Computed(n) => {
            let made = walk_boxed(rules, place, &mut n.expr)?;
            Ok(made)
        }
    }
}

#[cycle(walk)]
pub fn walk_method<R: Rules>(
    rules: &R,
    place: Place,
    n: &mut MethodProp,
) -> Result<bool, AllocError>
    ensures { IfOk result (λ c. Made (R.pass rules.now) (method_tree n.old) (method_tree n.new) c) }
{
    let key = walk_key(rules, place, &mut n.key)?;
    let function = walk_boxed_function(rules, &mut n.function)?;
    Ok(key | function)
}

#[cycle(walk)]
pub fn walk_boxed_function<R: Rules>(rules: &R, n: &mut Box<Function>) -> Result<bool, AllocError>
    ensures { IfOk result (λ c. FunctionWalks (R.pass rules.now) (function_trees n.old.value) (function_trees n.new.value) c) }
{
    walk_function(rules, n)
}

#[cycle(walk)]
pub fn walk_function<R: Rules>(rules: &R, n: &mut Function) -> Result<bool, AllocError>
    ensures { IfOk result (λ c. FunctionWalks (R.pass rules.now) (function_trees n.old) (function_trees n.new) c) }
{
    let params = walk_params(rules, &mut n.params)?;
    let body = walk_body(rules, &mut n.body)?;
    Ok(params | body)
}

#[cycle(walk)]
pub fn walk_params<R: Rules>(rules: &R, ps: &mut Vec<Pat>) -> Result<bool, AllocError>
    ensures { IfOk result (λ c. Each (λ x y d. Made (R.pass rules.now) (param_tree expr_tree x) (param_tree expr_tree y) d) ps.old.items ps.new.items c) }
{
    let mut changed = false;
    for i in 0..ps.len() {
        let made = walk_param(rules, &mut ps[i])?;
        changed = changed | made;
    }
    Ok(changed)
}

#[cycle(walk)]
pub fn walk_param<R: Rules>(rules: &R, p: &mut Pat) -> Result<bool, AllocError>
    ensures { IfOk result (λ c. Made (R.pass rules.now) (param_tree expr_tree p.old) (param_tree expr_tree p.new) c) }
{
    let inside = walk_default(rules, p)?;
    let left = rules.leave_param(p)?;
    Ok(inside | left)
}

#[cycle(walk)]
pub fn walk_default<R: Rules>(rules: &R, p: &mut Pat) -> Result<bool, AllocError>
    ensures { IfOk result (λ c. Inside (R.pass rules.now) c (param_tree expr_tree p.old) (param_tree expr_tree p.new)) }
{
    match p {
        Pat::Ident(_) => Ok(false),
        Pat::Assign(n) => {
            let made = walk_boxed(rules, Place::Value, &mut n.right)?;
            Ok(made)
        }
    }
}

#[cycle(walk)]
#[inline(always)]
pub fn walk_boxed_arrow<R: Rules>(rules: &R, n: &mut Box<ArrowExpr>) -> Result<bool, AllocError>
    ensures { IfOk result (λ c. Inside (R.pass rules.now) c (arrow_tree n.old.value) (arrow_tree n.new.value)) }
{
    walk_arrow(rules, n)
}

#[cycle(walk)]
pub fn walk_arrow<R: Rules>(rules: &R, n: &mut ArrowExpr) -> Result<bool, AllocError>
    ensures { IfOk result (λ c. Inside (R.pass rules.now) c (arrow_tree n.old) (arrow_tree n.new)) }
{
    let params = walk_params(rules, &mut n.params)?;
    let body = walk_arrow_body(rules, &mut n.body)?;
    Ok(params | body)
}

#[cycle(walk)]
pub fn walk_arrow_body<R: Rules>(rules: &R, b: &mut BlockStmtOrExpr) -> Result<bool, AllocError>
    ensures { IfOk result (λ c. Made (R.pass rules.now) (arrow_body_tree b.old) (arrow_body_tree b.new) c) }
{
    match b {
        BlockStmtOrExpr::BlockStmt(n) => {
            let made = walk_body(rules, n)?;
            Ok(made)
        }
        BlockStmtOrExpr::Expr(n) => {
            let made = walk_boxed(rules, Place::Value, n)?;
            Ok(made)
        }
    }
}
