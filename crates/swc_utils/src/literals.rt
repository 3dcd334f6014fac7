//! Expressions that are literals throughout.
ghost use Rattle.std.specs.Prelude.{◌≡◌, ◌&&◌, map};
ghost use Rattle.swc_ast.specs.Parts.{list_trees};
ghost use Rattle.swc_ast.specs.Expressions.{item_kind, item_trees};
ghost use Rattle.swc_ast.specs.Views.{expr_tree, prop_or_spread_tree};
ghost use Rattle.swc_utils.specs.Literals.{is_literal as tree_is_literal, all_plain, all_literal, is_plain_key, literal_property, literal_properties};

use crate::purity::has_no_exprs;
use swc_ast::{Expr, ExprOrSpread, KeyValueProp, Prop, PropName, PropOrSpread};

/// Returns whether an expression is a number, string, boolean or null literal, a template without expressions, or an array without
/// holes and spreads or an object of `key: value` without computed keys, of such.
#[cycle(literals)]
#[tactic(auto, using(swc_ast::proofs::Equations::forms, crate::proofs::LiteralNodes::literal_nodes))]
pub fn is_literal(e: &Expr) -> bool
    ensures { result ≡ tree_is_literal (expr_tree e.now) }
{
    match e {
        Expr::Lit(_) => true,
        Expr::Tpl(n) => has_no_exprs(&n.exprs),
        Expr::Array(n) => are_items_literal(&n.elems),
        Expr::Object(n) => are_props_literal(&n.props),
        Expr::Unary(_) => false,
        Expr::Call(_) => false,
        Expr::Update(_) => false,
        Expr::Assign(_) => false,
        Expr::Member(_) => false,
        Expr::This(_)
        | Expr::Fn(_)
        | Expr::Bin(_)
        | Expr::Cond(_)
        | Expr::New(_)
        | Expr::Seq(_)
        | Expr::Ident(_)
        | Expr::Arrow(_)
        | Expr::Invalid(_) => false,
    }
}

#[cycle(literals)]
fn are_items_literal(items: &[Option<ExprOrSpread>]) -> bool
    ensures { result ≡ (all_plain (map item_kind items.now) && all_literal (item_trees expr_tree items.now)) }
{
    for item in items {
        match item {
            None => return false,
            Some(item) => {
                if let Some(_) = item.spread {
                    return false;
                }
                if !is_literal(&item.expr) {
                    return false;
                }
            }
        }
    }
    true
}

#[cycle(literals)]
fn are_props_literal(props: &[PropOrSpread]) -> bool
    ensures { result ≡ literal_properties (list_trees prop_or_spread_tree props.now) }
{
    for prop in props {
        if !is_prop_literal(prop) {
            return false;
        }
    }
    true
}

#[cycle(literals)]
#[tactic(auto, using(swc_ast::proofs::Equations::forms, crate::proofs::LiteralNodes::literal_key_value))]
fn is_prop_literal(prop: &PropOrSpread) -> bool
    ensures { result ≡ literal_property (prop_or_spread_tree prop.now) }
{
    match prop {
        PropOrSpread::Spread(_) => false,
        PropOrSpread::Prop(prop) => match prop {
            Prop::Shorthand(_) => false,
            Prop::KeyValue(n) => has_plain_key(n) && is_literal(&n.value),
            Prop::Method(_) => false,
        },
    }
}

fn has_plain_key(prop: &KeyValueProp) -> bool
    ensures { result ≡ is_plain_key prop.now.key }
{
    match &prop.key {
        PropName::Ident(_) | PropName::Str(_) | PropName::Num(_) => true,
        PropName::Computed(_) => false,
    }
}
