//! The walk over expressions and functions.
ghost use Rattle.std.specs.Prelude.{◌≡◌, [], ◌∷◌, IfOk};
ghost use Rattle.swc_ast.specs.Expressions.{assign_tree, member_tree, key_tree, param_tree, unary_tree, update_tree, key_value_tree};
ghost use Rattle.swc_ast.specs.Views.{expr_tree, prop_or_spread_tree, prop_tree, method_tree, function_trees, arrow_tree, arrow_body_tree};
ghost use Rattle.swc_ast.specs.declared.expressions.AssignTarget.TheVariants.{Member};
ghost use Rattle.tree_put.specs.Keys as keys;
ghost use Rattle.tree_put.specs.Walks.{Makes, MakesParts, Each, Goes, EachGoes, OptionGoes, ItemGoes, PropGoes, TargetGoes, FunctionGoes, ShorthandGoes, spot_of};

use crate::rules::{Put, Puts, Scope, Spot};
use crate::walk::statements::put_body;
use std::alloc::{AllocError, Global};
use std::mem;
use swc_ast::{
    ArrowExpr, AssignExpr, AssignTarget, Atom, BlockStmtOrExpr, ComputedPropName, Expr,
    ExprOrSpread, Function, Ident, IdentName, KeyValueProp, Lit, MemberExpr, MemberProp,
    MethodProp, Pat, Prop, PropName, PropOrSpread, Span, Str, UnaryExpr, UnaryOp, UpdateExpr,
};

/// Walks an expression: what takes its place, or its parts.
#[cycle(walk)]
pub fn put_expr<P: Puts>(
    alloc: Global,
    rules: &mut P,
    spot: Spot,
    e: &mut Expr,
) -> Result<(), AllocError>
    ensures { IfOk result (λ u. Makes P.puts (expr_tree e.old) (P.state rules.old) spot (expr_tree e.new) (P.state rules.new)) }
{
    match rules.expression(spot, e)? {
        Put::Enter => {
            put_parts(alloc, rules, e)?;
            Ok(())
        }
        Put::Stay => Ok(()),
        Put::Become(v) => {
            *e = v;
            Ok(())
        }
    }
}

#[cycle(walk)]
fn put_parts<P: Puts>(alloc: Global, rules: &mut P, e: &mut Expr) -> Result<(), AllocError>
    ensures { IfOk result (λ u. MakesParts P.puts (expr_tree e.old) (P.state rules.old) (expr_tree e.new) (P.state rules.new)) }
{
    match e {
        Expr::Array(n) => {
            put_items(alloc, rules, &mut n.elems)?;
            Ok(())
        }
        Expr::Unary(n) => {
            put_unary(alloc, rules, n)?;
            Ok(())
        }
        Expr::Update(n) => {
            put_boxed_update(alloc, rules, n)?;
            Ok(())
        }
        Expr::Bin(n) => {
            put_boxed(alloc, rules, Spot::Here, &mut n.left)?;
            put_boxed(alloc, rules, Spot::Here, &mut n.right)?;
            Ok(())
        }
        Expr::Assign(n) => {
            put_boxed_assign(alloc, rules, n)?;
            Ok(())
        }
        Expr::Member(n) => {
            put_member(alloc, rules, n)?;
            Ok(())
        }
        Expr::Cond(n) => {
            put_boxed(alloc, rules, Spot::Here, &mut n.test)?;
            put_boxed(alloc, rules, Spot::Here, &mut n.cons)?;
            put_boxed(alloc, rules, Spot::Here, &mut n.alt)?;
            Ok(())
        }
        Expr::Call(n) => {
            put_boxed(alloc, rules, Spot::Callee, &mut n.callee)?;
            put_exprs(alloc, rules, &mut n.args)?;
            Ok(())
        }
        Expr::New(n) => {
            put_boxed(alloc, rules, Spot::Here, &mut n.callee)?;
            put_exprs(alloc, rules, &mut n.args)?;
            Ok(())
        }
        Expr::Seq(n) => {
            put_exprs(alloc, rules, &mut n.exprs)?;
            Ok(())
        }
        Expr::Tpl(n) => {
            put_exprs(alloc, rules, &mut n.exprs)?;
            Ok(())
        }
        Expr::Object(n) => {
            put_props(alloc, rules, &mut n.props)?;
            Ok(())
        }
        Expr::Fn(n) => {
            rules.open(Scope::Function(&n.ident, &n.function))?;
            put_boxed_function(alloc, rules, &mut n.function)?;
            rules.close()?;
            Ok(())
        }
        Expr::Arrow(n) => {
            put_boxed_arrow(alloc, rules, n)?;
            Ok(())
        }
        Expr::This(_) => Ok(()),
        Expr::Ident(_) => Ok(()),
        Expr::Lit(_) => Ok(()),
        Expr::Invalid(_) => Ok(()),
    }
}

#[cycle(walk)]
pub fn put_boxed<P: Puts>(
    alloc: Global,
    rules: &mut P,
    spot: Spot,
    e: &mut Box<Expr>,
) -> Result<(), AllocError>
    ensures { IfOk result (λ u. Makes P.puts (expr_tree e.old.value) (P.state rules.old) spot (expr_tree e.new.value) (P.state rules.new)) }
{
    put_expr(alloc, rules, spot, e)
}

#[inline(never)]
#[cycle(walk)]
pub fn put_exprs<P: Puts>(
    alloc: Global,
    rules: &mut P,
    es: &mut Vec<Expr>,
) -> Result<(), AllocError>
    ensures { IfOk result (λ u. EachGoes P.puts expr_tree (P.state rules.old) es.old.items es.new.items (P.state rules.new)) }
{
    for i in 0..es.len() {
        put_expr(alloc, rules, Spot::Here, &mut es[i])?;
    }
    Ok(())
}

#[inline(never)]
#[cycle(walk)]
fn put_items<P: Puts>(
    alloc: Global,
    rules: &mut P,
    es: &mut Vec<Option<ExprOrSpread>>,
) -> Result<(), AllocError>
    ensures { IfOk result (λ u. Each (ItemGoes P.puts) (P.state rules.old) es.old.items es.new.items (P.state rules.new)) }
{
    for i in 0..es.len() {
        put_item(alloc, rules, &mut es[i])?;
    }
    Ok(())
}

#[cycle(walk)]
fn put_item<P: Puts>(
    alloc: Global,
    rules: &mut P,
    item: &mut Option<ExprOrSpread>,
) -> Result<(), AllocError>
    ensures { IfOk result (λ u. ItemGoes P.puts (P.state rules.old) item.old item.new (P.state rules.new)) }
{
    match item {
        Some(n) => {
            put_boxed(alloc, rules, Spot::Here, &mut n.expr)?;
            Ok(())
        }
        None => Ok(()),
    }
}

/// Walks an operand, unless it is deleted.
#[inline(never)]
#[cycle(walk)]
fn put_unary<P: Puts>(alloc: Global, rules: &mut P, n: &mut UnaryExpr) -> Result<(), AllocError>
    ensures { IfOk result (λ u. MakesParts P.puts (unary_tree expr_tree n.old) (P.state rules.old) (unary_tree expr_tree n.new) (P.state rules.new)) }
{
    match operand_spot(n.op) {
        None => Ok(()),
        Some(spot) => {
            put_boxed(alloc, rules, spot, &mut n.arg)?;
            Ok(())
        }
    }
}

/// Where an operand stands. None: it is deleted, and is not walked.
fn operand_spot(op: UnaryOp) -> Option<Spot>
    ensures { result ≡ spot_of op }
{
    match op {
        UnaryOp::TypeOf => Some(Spot::Operand),
        UnaryOp::Delete => None,
        UnaryOp::Minus => Some(Spot::Here),
        UnaryOp::Plus => Some(Spot::Here),
        UnaryOp::Bang => Some(Spot::Here),
        UnaryOp::Tilde => Some(Spot::Here),
        UnaryOp::Void => Some(Spot::Here),
    }
}

#[inline(never)]
#[cycle(walk)]
fn put_member<P: Puts>(alloc: Global, rules: &mut P, n: &mut MemberExpr) -> Result<(), AllocError>
    ensures { IfOk result (λ u. MakesParts P.puts (member_tree expr_tree n.old) (P.state rules.old) (member_tree expr_tree n.new) (P.state rules.new)) }
{
    put_boxed(alloc, rules, Spot::Here, &mut n.obj)?;
    put_member_prop(alloc, rules, &mut n.prop)?;
    Ok(())
}

#[cycle(walk)]
fn put_member_prop<P: Puts>(
    alloc: Global,
    rules: &mut P,
    p: &mut MemberProp,
) -> Result<(), AllocError>
    ensures { IfOk result (λ u. PropGoes P.puts (P.state rules.old) p.old p.new (P.state rules.new)) }
{
    match p {
        MemberProp::Ident(_) => Ok(()),
        MemberProp::Computed(n) => {
            put_boxed(alloc, rules, Spot::Here, &mut n.expr)?;
            Ok(())
        }
    }
}

/// Walks the parts of what is written to.
#[cycle(walk)]
fn put_target<P: Puts>(alloc: Global, rules: &mut P, t: &mut AssignTarget) -> Result<(), AllocError>
    ensures { IfOk result (λ u. TargetGoes P.puts (P.state rules.old) t.old t.new (P.state rules.new)) }
{
    match t {
        AssignTarget::Ident(_) => Ok(()),
        AssignTarget::Member(n) => {
            put_target_member(alloc, rules, n)?;
            Ok(())
        }
    }
}

#[inline(never)]
#[cycle(walk)]
fn put_boxed_update<P: Puts>(
    alloc: Global,
    rules: &mut P,
    n: &mut Box<UpdateExpr>,
) -> Result<(), AllocError>
    ensures { IfOk result (λ u. MakesParts P.puts (update_tree expr_tree n.old.value) (P.state rules.old) (update_tree expr_tree n.new.value) (P.state rules.new)) }
{
    put_update(alloc, rules, n)
}

#[cycle(walk)]
fn put_update<P: Puts>(alloc: Global, rules: &mut P, n: &mut UpdateExpr) -> Result<(), AllocError>
    ensures { IfOk result (λ u. MakesParts P.puts (update_tree expr_tree n.old) (P.state rules.old) (update_tree expr_tree n.new) (P.state rules.new)) }
{
    put_target(alloc, rules, &mut n.arg)?;
    Ok(())
}

#[inline(never)]
#[cycle(walk)]
fn put_boxed_assign<P: Puts>(
    alloc: Global,
    rules: &mut P,
    n: &mut Box<AssignExpr>,
) -> Result<(), AllocError>
    ensures { IfOk result (λ u. MakesParts P.puts (assign_tree expr_tree n.old.value) (P.state rules.old) (assign_tree expr_tree n.new.value) (P.state rules.new)) }
{
    put_assign(alloc, rules, n)
}

#[cycle(walk)]
fn put_assign<P: Puts>(alloc: Global, rules: &mut P, n: &mut AssignExpr) -> Result<(), AllocError>
    ensures { IfOk result (λ u. MakesParts P.puts (assign_tree expr_tree n.old) (P.state rules.old) (assign_tree expr_tree n.new) (P.state rules.new)) }
{
    put_target(alloc, rules, &mut n.left)?;
    put_boxed(alloc, rules, Spot::Here, &mut n.right)?;
    Ok(())
}

#[cycle(walk)]
fn put_target_member<P: Puts>(
    alloc: Global,
    rules: &mut P,
    n: &mut MemberExpr,
) -> Result<(), AllocError>
    ensures { IfOk result (λ u. TargetGoes P.puts (P.state rules.old) (Member n.old) (Member n.new) (P.state rules.new)) }
{
    put_boxed(alloc, rules, Spot::Here, &mut n.obj)?;
    put_member_prop(alloc, rules, &mut n.prop)?;
    Ok(())
}

#[cycle(walk)]
pub fn put_option<P: Puts>(
    alloc: Global,
    rules: &mut P,
    e: &mut Option<Box<Expr>>,
) -> Result<(), AllocError>
    ensures { IfOk result (λ u. OptionGoes P.puts expr_tree (P.state rules.old) e.old e.new (P.state rules.new)) }
{
    match e {
        Some(n) => {
            put_boxed(alloc, rules, Spot::Here, n)?;
            Ok(())
        }
        None => Ok(()),
    }
}

#[inline(never)]
#[cycle(walk)]
fn put_props<P: Puts>(
    alloc: Global,
    rules: &mut P,
    ps: &mut Vec<PropOrSpread>,
) -> Result<(), AllocError>
    ensures { IfOk result (λ u. EachGoes P.puts prop_or_spread_tree (P.state rules.old) ps.old.items ps.new.items (P.state rules.new)) }
{
    for i in 0..ps.len() {
        put_prop_or_spread(alloc, rules, &mut ps[i])?;
    }
    Ok(())
}

#[cycle(walk)]
fn put_prop_or_spread<P: Puts>(
    alloc: Global,
    rules: &mut P,
    p: &mut PropOrSpread,
) -> Result<(), AllocError>
    ensures { IfOk result (λ u. Goes P.puts prop_or_spread_tree (P.state rules.old) p.old p.new (P.state rules.new)) }
{
    match p {
        PropOrSpread::Spread(n) => {
            put_boxed(alloc, rules, Spot::Here, &mut n.expr)?;
            Ok(())
        }
        PropOrSpread::Prop(n) => {
            put_prop(alloc, rules, n)?;
            Ok(())
        }
    }
}

#[cycle(walk)]
fn put_prop<P: Puts>(alloc: Global, rules: &mut P, p: &mut Prop) -> Result<(), AllocError>
    ensures { IfOk result (λ u. Goes P.puts prop_tree (P.state rules.old) p.old p.new (P.state rules.new)) }
{
    match p {
        Prop::Shorthand(n) => {
            let made = put_shorthand(alloc, rules, n)?;
            if let Some(q) = made {
                *p = q;
            }
            Ok(())
        }
        Prop::KeyValue(n) => {
            put_key_value(alloc, rules, n)?;
            Ok(())
        }
        Prop::Method(n) => {
            put_method(alloc, rules, n)?;
            Ok(())
        }
    }
}

/// A property that is only a name becomes a key and a value, where there is one.
#[inline(never)]
fn put_shorthand<P: Puts>(
    alloc: Global,
    rules: &mut P,
    n: &mut Ident,
) -> Result<Option<Prop>, AllocError>
    ensures { IfOk result (λ o. ShorthandGoes P.puts (P.state rules.old) n.old n.new o (P.state rules.new)) }
{
    match rules.property(n)? {
        Put::Enter => Ok(None),
        Put::Stay => Ok(None),
        Put::Become(value) => {
            let sym = mem::replace(&mut n.sym, Atom::new());
            let key = property_key(alloc, n.span, sym)?;
            let value = Box::new(alloc, value)?;
            Ok(Some(Prop::KeyValue(KeyValueProp { key, value })))
        }
    }
}

/// Whether a plain key of this text sets the prototype.
fn is_proto(name: &Atom) -> bool
    ensures { result ≡ keys.is_proto name.now }
{
    name.as_str() == "__proto__"
}

/// The key of a property that was only a name: `['__proto__']` for the name `__proto__`, since `__proto__: value` would set
/// the prototype.
fn property_key(alloc: Global, span: Span, sym: Atom) -> Result<PropName, AllocError>
    ensures { IfOk result (λ k. key_tree expr_tree k ≡ keys.property_key sym (span ∷ [])) }
{
    if !is_proto(&sym) {
        return Ok(PropName::Ident(IdentName { span, sym }));
    }
    let value = String::from_str(alloc, sym.as_str())?;
    let expr = Box::new(alloc, Expr::Lit(Lit::Str(Str { span, value })))?;
    Ok(PropName::Computed(ComputedPropName { span, expr }))
}

#[inline(never)]
#[cycle(walk)]
fn put_key_value<P: Puts>(
    alloc: Global,
    rules: &mut P,
    n: &mut KeyValueProp,
) -> Result<(), AllocError>
    ensures { IfOk result (λ u. Goes P.puts (key_value_tree expr_tree) (P.state rules.old) n.old n.new (P.state rules.new)) }
{
    put_key(alloc, rules, &mut n.key)?;
    put_boxed(alloc, rules, Spot::Here, &mut n.value)?;
    Ok(())
}

#[inline(never)]
#[cycle(walk)]
fn put_key<P: Puts>(alloc: Global, rules: &mut P, k: &mut PropName) -> Result<(), AllocError>
    ensures { IfOk result (λ u. Goes P.puts (key_tree expr_tree) (P.state rules.old) k.old k.new (P.state rules.new)) }
{
    match k {
        PropName::Ident(_) => Ok(()),
        PropName::Str(_) => Ok(()),
        PropName::Num(_) => Ok(()),
        PropName::Computed(n) => {
            put_boxed(alloc, rules, Spot::Here, &mut n.expr)?;
            Ok(())
        }
    }
}

#[inline(never)]
#[cycle(walk)]
fn put_method<P: Puts>(alloc: Global, rules: &mut P, n: &mut MethodProp) -> Result<(), AllocError>
    ensures { IfOk result (λ u. Goes P.puts method_tree (P.state rules.old) n.old n.new (P.state rules.new)) }
{
    put_key(alloc, rules, &mut n.key)?;
    rules.open(Scope::Method(&n.function))?;
    put_boxed_function(alloc, rules, &mut n.function)?;
    rules.close()?;
    Ok(())
}

/// Walks a function whose scope is open.
#[inline(never)]
#[cycle(walk)]
pub fn put_boxed_function<P: Puts>(
    alloc: Global,
    rules: &mut P,
    n: &mut Box<Function>,
) -> Result<(), AllocError>
    ensures { IfOk result (λ u. FunctionGoes P.puts (P.state rules.old) (function_trees n.old.value) (function_trees n.new.value) (P.state rules.new)) }
{
    put_function(alloc, rules, n)
}

#[cycle(walk)]
fn put_function<P: Puts>(alloc: Global, rules: &mut P, n: &mut Function) -> Result<(), AllocError>
    ensures { IfOk result (λ u. FunctionGoes P.puts (P.state rules.old) (function_trees n.old) (function_trees n.new) (P.state rules.new)) }
{
    put_params(alloc, rules, &mut n.params)?;
    put_body(alloc, rules, &mut n.body)?;
    Ok(())
}

#[cycle(walk)]
fn put_params<P: Puts>(alloc: Global, rules: &mut P, ps: &mut Vec<Pat>) -> Result<(), AllocError>
    ensures { IfOk result (λ u. EachGoes P.puts (param_tree expr_tree) (P.state rules.old) ps.old.items ps.new.items (P.state rules.new)) }
{
    for i in 0..ps.len() {
        put_param(alloc, rules, &mut ps[i])?;
    }
    Ok(())
}

#[cycle(walk)]
fn put_param<P: Puts>(alloc: Global, rules: &mut P, p: &mut Pat) -> Result<(), AllocError>
    ensures { IfOk result (λ u. Goes P.puts (param_tree expr_tree) (P.state rules.old) p.old p.new (P.state rules.new)) }
{
    match p {
        Pat::Ident(_) => Ok(()),
        Pat::Assign(n) => {
            put_boxed(alloc, rules, Spot::Here, &mut n.right)?;
            Ok(())
        }
    }
}

#[inline(never)]
#[cycle(walk)]
fn put_boxed_arrow<P: Puts>(
    alloc: Global,
    rules: &mut P,
    n: &mut Box<ArrowExpr>,
) -> Result<(), AllocError>
    ensures { IfOk result (λ u. MakesParts P.puts (arrow_tree n.old.value) (P.state rules.old) (arrow_tree n.new.value) (P.state rules.new)) }
{
    put_arrow(alloc, rules, n)
}

#[cycle(walk)]
fn put_arrow<P: Puts>(alloc: Global, rules: &mut P, n: &mut ArrowExpr) -> Result<(), AllocError>
    ensures { IfOk result (λ u. MakesParts P.puts (arrow_tree n.old) (P.state rules.old) (arrow_tree n.new) (P.state rules.new)) }
{
    rules.open(Scope::Arrow(n))?;
    put_params(alloc, rules, &mut n.params)?;
    put_arrow_body(alloc, rules, &mut n.body)?;
    rules.close()?;
    Ok(())
}

#[cycle(walk)]
fn put_arrow_body<P: Puts>(
    alloc: Global,
    rules: &mut P,
    b: &mut BlockStmtOrExpr,
) -> Result<(), AllocError>
    ensures { IfOk result (λ u. Goes P.puts arrow_body_tree (P.state rules.old) b.old b.new (P.state rules.new)) }
{
    match b {
        BlockStmtOrExpr::BlockStmt(n) => {
            put_body(alloc, rules, n)?;
            Ok(())
        }
        BlockStmtOrExpr::Expr(n) => {
            put_boxed(alloc, rules, Spot::Here, n)?;
            Ok(())
        }
    }
}
