//! Functions: their parameters and their bodies.
ghost use Rattle.std.specs.Prelude.{◌≡◌};
ghost use Rattle.swc_ast.specs.Resolved.{has_default as has_default_among};
ghost use Rattle.swc_ast.specs.Scope.{is_function as is_function_label};
ghost use Rattle.tree_visit.specs.Kinds.{kind_label};
ghost use Rattle.tree_visit.specs.Nodes.{children_forest};
ghost use Rattle.swc_resolved.specs.Scopes.{half_of as half_among, is_half as is_half_label, is_defaulted as is_defaulted_param};

use tree_visit::{Children, Kind};

/// What a function has.
#[derive(Clone, Copy)]
pub enum Half {
    Params,
    Body,
}

/// Whether a node is a function.
#[inline(always)]
pub(crate) fn is_function(kind: Kind<'_>) -> bool
    ensures { result ≡ is_function_label (kind_label kind.entry) }
{
    match kind {
        Kind::Fn(_) | Kind::Arrow | Kind::Method | Kind::FnDecl(_) | Kind::ExportDefaultFn(_) => {
            true
        }
        _ => false,
    }
}

/// The parameters or the statements among a function's children.
#[tactic(auto, using(tree_visit::proofs::Caps::rest_falls, crate::proofs::Halves::no_half))]
pub fn half_of<'a>(children: Children<'a>, half: Half) -> Children<'a>
    ensures { children_forest result ≡ half_among half (children_forest children.entry) }
{
    let mut left = children;
    while let Some((child, rest)) = left.next() {
        let opened = child.open();
        if is_half(opened.kind, half) {
            return opened.children;
        }
        left = rest;
    }
    left
}

fn is_half(kind: Kind<'_>, half: Half) -> bool
    ensures { result ≡ is_half_label half (kind_label kind.entry) }
{
    match half {
        Half::Params => match kind {
            Kind::Params => true,
            _ => false,
        },
        Half::Body => match kind {
            Kind::Body => true,
            _ => false,
        },
    }
}

/// Whether a parameter has a default.
#[tactic(auto, using(tree_visit::proofs::Caps::rest_falls, crate::proofs::Halves::default_here))]
pub fn has_default(params: Children<'_>) -> bool
    ensures { result ≡ has_default_among (children_forest params.entry) }
{
    let mut left = params;
    while let Some((child, rest)) = left.next() {
        let opened = child.open();
        if is_defaulted(opened.kind, opened.children) {
            return true;
        }
        left = rest;
    }
    false
}

fn is_defaulted(kind: Kind<'_>, children: Children<'_>) -> bool
    ensures { result ≡ is_defaulted_param (kind_label kind.entry) (children_forest children.entry) }
{
    match kind {
        Kind::Param(_) => match children.next() {
            None => false,
            Some(_) => true,
        },
        _ => false,
    }
}
