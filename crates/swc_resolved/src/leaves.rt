//! Names and literals, whose trees bind nothing and hold no jump.
ghost use Rattle.std.specs.Prelude.{◌≡◌, true};
ghost use Rattle.swc_ast.specs.Parts.{lit_tree};
ghost use Rattle.tree_leaves.specs.Leaves.{leaf_tree};
ghost use Rattle.swc_resolved.specs.Asked.{fit};

use crate::here::is_in_range;
use swc_ast::Lit;
use swc_debug::has_good_names;
use tree_leaves::Leaf;
use tree_visit::Kind;

/// Whether a name or a literal is as validity and the core want it, where this is asked for.
#[inline(always)]
#[tactic(auto, using(crate::proofs::Plain::name_fit))]
pub(crate) fn is_leaf_fit(leaf: Leaf<'_>, core_too: bool) -> bool
    ensures { result ≡ fit core_too (leaf_tree leaf.entry) }
{
    if !core_too {
        return true;
    }
    match leaf {
        Leaf::Name(n) => has_good_names(Kind::Read(n)),
        Leaf::Literal(n) => is_literal_fit(n),
    }
}

/// Whether a literal is as validity and the core want it.
#[inline(always)]
#[tactic(auto, using(crate::proofs::Plain::number_fit))]
fn is_literal_fit(n: &Lit) -> bool
    ensures { result ≡ fit true (lit_tree n.now) }
{
    match n {
        Lit::Num(n) => is_in_range(n.value),
        Lit::Str(_) | Lit::Bool(_) | Lit::Null(_) => true,
    }
}
