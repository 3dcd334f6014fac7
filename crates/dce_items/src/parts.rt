//! The name with which an item goes, and the rest of the item.
ghost use Rattle.std.specs.Prelude.{◌≡◌, IfSome, Some, None};
ghost use Rattle.swc_utils.specs.Globals.{unresolved};
ghost use Rattle.tree_visit.specs.Kinds.{kind_label};
ghost use Rattle.tree_visit.specs.Nodes.{children_forest};
ghost use Rattle.dce_layer_proofs.specs.Goers.{is_pure_init};
ghost use Rattle.dce_items.specs.Gathered.{Divides, DividesAt};

use crate::kinds::is_empty;
use swc_ast::Ident;
use swc_utils::{ExprCtx, ExprExt};
use tree_visit::{Children, Kind, Node, Opened};

/// The name with which an item goes, if there is one, and the node below which other names are declared in the item.
#[derive(Clone, Copy)]
pub(crate) struct Parts<'a> {
    pub(crate) name: Option<&'a Ident>,
    pub(crate) inner: Opened<'a>,
}

impl<'a> Parts<'a> {
    /// An item that goes with no name.
    fn whole(item: Opened<'a>) -> Parts<'a>
        ensures name { result.name ≡ None }
        ensures inner { result.inner ≡ item.entry }
    {
        Parts {
            name: None,
            inner: item,
        }
    }

    /// An item that goes with a name.
    fn named(name: &'a Ident, inner: Opened<'a>) -> Parts<'a>
        ensures name { result.name ≡ Some name.entry }
        ensures inner { result.inner ≡ inner.entry }
    {
        Parts {
            name: Some(name),
            inner,
        }
    }
}

/// Whether the first value of a variable is left out or pure, if that is known.
#[tactic(auto, using(crate::proofs::Dividing::no_init, crate::proofs::Dividing::many_inits, crate::proofs::Dividing::one_init))]
fn has_pure_init(ctx: &ExprCtx, init: Children<'_>) -> Option<bool>
    ensures { IfSome result (λ b. b ≡ is_pure_init (unresolved ctx.now) (children_forest init.entry)) }
{
    let Some((value, rest)) = init.next() else {
        return Some(true);
    };
    if !is_empty(rest) {
        return Some(false);
    }
    match value {
        Node::Expr(value) => Some(!value.may_have_side_effects(ctx)),
        _ => None,
    }
}

/// The parts of a declaration of one variable, if they are known.
fn parts_of_variable<'a>(ctx: &ExprCtx, item: Opened<'a>, variable: Opened<'a>) -> Option<Parts<'a>>
    ensures { IfSome result (DividesAt (unresolved ctx.now) item.entry variable.entry) }
{
    let Kind::Declarator(_, name) = variable.kind else {
        return Some(Parts::whole(item));
    };
    if has_pure_init(ctx, variable.children)? {
        Some(Parts::named(name, variable))
    } else {
        Some(Parts::whole(item))
    }
}

/// The parts of an item, if they are known.
pub(crate) fn parts_of<'a>(ctx: &ExprCtx, item: Opened<'a>) -> Option<Parts<'a>>
    ensures { IfSome result (Divides (unresolved ctx.now) (kind_label item.entry.kind) (children_forest item.entry.children)) }
{
    match item.kind {
        Kind::FnDecl(name) => Some(Parts::named(name, item)),
        Kind::VarDecl(_) => {
            let Some((variable, rest)) = item.children.next() else {
                return Some(Parts::whole(item));
            };
            if is_empty(rest) {
                parts_of_variable(ctx, item, variable.open())
            } else {
                Some(Parts::whole(item))
            }
        }
        _ => Some(Parts::whole(item)),
    }
}
