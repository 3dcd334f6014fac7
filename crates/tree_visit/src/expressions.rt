//! What an expression is and what its children are.
#![tactic(auto, unfolding(crate::specs::Nodes::children_forest))]

ghost use Rattle.std.specs.Prelude.{[]};
ghost use Rattle.swc_ast.specs.Tree.{node, Unary, ε, ◌⊳◌};
ghost use Rattle.swc_ast.specs.Expressions.{key_tree, member_tree, param_tree, unary_tree, update_tree, assign_tree, call_tree};
ghost use Rattle.swc_ast.specs.Parts.{lit_tree};
ghost use Rattle.swc_ast.specs.Views.{expr_tree, prop_or_spread_tree, prop_tree};
ghost use Rattle.tree_visit.specs.Nodes.{Opens, IsPart};

use crate::children::Children;
use crate::kind::Kind;
use crate::lists::NodeList;
use crate::node::Node;
use crate::opened::Opened;
use swc_ast::{
    AssignExpr, AssignTarget, CallExpr, Expr, Ident, Lit, MemberExpr, MemberProp, Pat, Prop,
    PropName, PropOrSpread, UnaryExpr, UnaryOp, UpdateExpr,
};

/// What an expression is where it may be part of the node round it.
#[derive(Clone, Copy)]
pub(crate) enum Part<'a> {
    Name(&'a Ident),
    Member(&'a MemberExpr),
    Whole,
}

#[tactic(auto, using(swc_ast::proofs::Equations::forms))]
pub(crate) fn part_of<'a>(e: &'a Expr) -> Part<'a>
    ensures { IsPart result (expr_tree e.now) }
{
    match e {
        Expr::Ident(n) => Part::Name(n),
        Expr::Member(n) => Part::Member(n),
        Expr::Unary(_) => Part::Whole,
        Expr::Call(_) => Part::Whole,
        Expr::Update(_) => Part::Whole,
        Expr::Assign(_) => Part::Whole,
        Expr::Lit(_) => Part::Whole,
        Expr::This(_)
        | Expr::Array(_)
        | Expr::Object(_)
        | Expr::Fn(_)
        | Expr::Bin(_)
        | Expr::Cond(_)
        | Expr::New(_)
        | Expr::Seq(_)
        | Expr::Tpl(_)
        | Expr::Arrow(_)
        | Expr::Invalid(_) => Part::Whole,
    }
}

/// What an expression is, and its children.
#[tactic(auto, using(swc_ast::proofs::Equations::forms), unfolding(crate::specs::Nodes::children_forest))]
#[inline(always)]
pub fn open_expr<'a>(e: &'a Expr) -> Opened<'a>
    ensures { Opens (expr_tree e.now) result }
{
    match e {
        Expr::This(_) => Opened::leaf(Kind::This),
        Expr::Array(n) => Opened::new(Kind::Array(&n.elems), Children::Items(&n.elems, 0)),
        Expr::Object(n) => Opened::listed(Kind::Object, NodeList::Props(&n.props)),
        Expr::Fn(n) => Opened::new(
            Kind::Fn(&n.ident),
            Children::Function(&n.function.params, &n.function.body),
        ),
        Expr::Unary(n) => open_unary(n),
        Expr::Update(n) => open_update(n),
        Expr::Bin(n) => Opened::new(Kind::Binary(n.op), Children::Two(&n.left, &n.right)),
        Expr::Assign(n) => open_assign(n),
        Expr::Member(n) => open_member(n),
        Expr::Cond(n) => Opened::new(Kind::Cond, Children::Three(&n.test, &n.cons, &n.alt)),
        Expr::Call(n) => open_call(n),
        Expr::New(n) => Opened::new(Kind::New, Children::Call(&n.callee, &n.args)),
        Expr::Seq(n) => Opened::listed(Kind::Seq, NodeList::Exprs(&n.exprs)),
        Expr::Ident(n) => Opened::leaf(Kind::Read(n)),
        Expr::Lit(n) => open_lit(n),
        Expr::Tpl(n) => Opened::listed(Kind::Template(&n.quasis), NodeList::Exprs(&n.exprs)),
        Expr::Arrow(n) => Opened::new(Kind::Arrow, Children::Arrow(&n.params, &n.body)),
        Expr::Invalid(_) => Opened::leaf(Kind::Invalid),
    }
}

fn open_lit<'a>(n: &'a Lit) -> Opened<'a>
    ensures { Opens (lit_tree n.now) result }
{
    match n {
        Lit::Str(n) => Opened::leaf(Kind::StrLit(n)),
        Lit::Bool(n) => Opened::leaf(Kind::BoolLit(n.value)),
        Lit::Null(_) => Opened::leaf(Kind::NullLit),
        Lit::Num(n) => Opened::leaf(Kind::NumLit(n.value)),
    }
}

fn open_unary<'a>(n: &'a UnaryExpr) -> Opened<'a>
    ensures { Opens (unary_tree expr_tree n.now) result }
{
    match n.op {
        UnaryOp::TypeOf => match part_of(&n.arg) {
            Part::Name(i) => Opened::leaf(Kind::TypeOfName(i)),
            Part::Member(_) => operand(n),
            Part::Whole => operand(n),
        },
        UnaryOp::Minus => operand(n),
        UnaryOp::Plus => operand(n),
        UnaryOp::Bang => operand(n),
        UnaryOp::Tilde => operand(n),
        UnaryOp::Void => operand(n),
        UnaryOp::Delete => operand(n),
    }
}

fn operand<'a>(n: &'a UnaryExpr) -> Opened<'a>
    ensures { Opens (node (Unary n.now.op) [] (expr_tree n.now.arg.value ⊳ ε)) result }
{
    Opened::new(Kind::Unary(n.op), Children::One(Node::Expr(&n.arg)))
}

fn open_update<'a>(n: &'a UpdateExpr) -> Opened<'a>
    ensures { Opens (update_tree expr_tree n.now) result }
{
    match &n.arg {
        AssignTarget::Ident(i) => Opened::leaf(Kind::Update(n.op, n.prefix, i)),
        AssignTarget::Member(m) => match &m.prop {
            MemberProp::Ident(k) => Opened::new(
                Kind::UpdateDot(n.op, n.prefix, k),
                Children::One(Node::Expr(&m.obj)),
            ),
            MemberProp::Computed(k) => Opened::new(
                Kind::UpdateIndex(n.op, n.prefix),
                Children::Two(&m.obj, &k.expr),
            ),
        },
    }
}

fn open_assign<'a>(n: &'a AssignExpr) -> Opened<'a>
    ensures { Opens (assign_tree expr_tree n.now) result }
{
    match &n.left {
        AssignTarget::Ident(i) => Opened::new(
            Kind::Assign(n.op, i),
            Children::One(Node::Expr(&n.right)),
        ),
        AssignTarget::Member(m) => match &m.prop {
            MemberProp::Ident(k) => Opened::new(
                Kind::AssignDot(n.op, k),
                Children::Two(&m.obj, &n.right),
            ),
            MemberProp::Computed(k) => Opened::new(
                Kind::AssignIndex(n.op),
                Children::Three(&m.obj, &k.expr, &n.right),
            ),
        },
    }
}

fn open_member<'a>(n: &'a MemberExpr) -> Opened<'a>
    ensures { Opens (member_tree expr_tree n.now) result }
{
    match &n.prop {
        MemberProp::Ident(k) => Opened::new(Kind::Dot(k), Children::One(Node::Expr(&n.obj))),
        MemberProp::Computed(k) => Opened::new(Kind::Index, Children::Two(&n.obj, &k.expr)),
    }
}

fn open_call<'a>(n: &'a CallExpr) -> Opened<'a>
    ensures { Opens (call_tree expr_tree n.now) result }
{
    match part_of(&n.callee) {
        Part::Member(m) => match &m.prop {
            MemberProp::Ident(k) => Opened::new(Kind::CallDot(k), Children::Call(&m.obj, &n.args)),
            MemberProp::Computed(k) => Opened::new(
                Kind::CallIndex,
                Children::CallIndex(&m.obj, &k.expr, &n.args),
            ),
        },
        Part::Name(i) => {
            if i.sym.as_str() == "eval" {
                Opened::listed(Kind::CallEval(i), NodeList::Exprs(&n.args))
            } else {
                Opened::new(Kind::Call, Children::Call(&n.callee, &n.args))
            }
        }
        Part::Whole => Opened::new(Kind::Call, Children::Call(&n.callee, &n.args)),
    }
}

#[tactic(auto, using(swc_ast::proofs::Equations::forms), unfolding(crate::specs::Nodes::children_forest))]
pub(crate) fn open_prop_or_spread<'a>(n: &'a PropOrSpread) -> Opened<'a>
    ensures { Opens (prop_or_spread_tree n.now) result }
{
    match n {
        PropOrSpread::Spread(n) => Opened::new(
            Kind::SpreadRecord,
            Children::One(Node::Expr(&n.expr)),
        ),
        PropOrSpread::Prop(n) => open_prop(n),
    }
}

#[tactic(auto, using(swc_ast::proofs::Equations::forms), unfolding(crate::specs::Nodes::children_forest))]
fn open_prop<'a>(n: &'a Prop) -> Opened<'a>
    ensures { Opens (prop_tree n.now) result }
{
    match n {
        Prop::Shorthand(n) => Opened::leaf(Kind::Shorthand(n)),
        Prop::KeyValue(n) => Opened::new(Kind::KeyValue, Children::KeyValue(&n.key, &n.value)),
        Prop::Method(n) => Opened::new(
            Kind::Method,
            Children::Method(&n.key, &n.function.params, &n.function.body),
        ),
    }
}

pub(crate) fn open_key<'a>(n: &'a PropName) -> Opened<'a>
    ensures { Opens (key_tree expr_tree n.now) result }
{
    match n {
        PropName::Ident(n) => Opened::leaf(Kind::NameKey(n)),
        PropName::Str(n) => Opened::leaf(Kind::TextKey(n)),
        PropName::Num(n) => Opened::leaf(Kind::NumberKey(n.value)),
        PropName::Computed(n) => Opened::new(Kind::ComputedKey, Children::One(Node::Expr(&n.expr))),
    }
}

pub(crate) fn open_param<'a>(n: &'a Pat) -> Opened<'a>
    ensures { Opens (param_tree expr_tree n.now) result }
{
    match n {
        Pat::Ident(n) => Opened::leaf(Kind::Param(n)),
        Pat::Assign(n) => Opened::new(Kind::Param(&n.left), Children::One(Node::Expr(&n.right))),
    }
}
