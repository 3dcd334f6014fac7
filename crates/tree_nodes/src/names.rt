//! Names.
ghost use Rattle.std.specs.Prelude.{◌≡◌, not, IsTrue};
ghost use Rattle.swc_ast.specs.Meaning.{is_unresolved};
ghost use Rattle.swc_ast.specs.Parts.{ident_name};
ghost use Rattle.swc_utils.specs.Globals.{unresolved};

use swc_ast::{Ident, SyntaxContext};
use swc_utils::ExprCtx;

/// Whether a scope of the program binds a name.
pub fn is_bound(ctx: &ExprCtx, name: &Ident) -> bool
    ensures { result ≡ not (is_unresolved (unresolved ctx.now) (ident_name name.now)) }
{
    name.ctxt != SyntaxContext::empty() && name.ctxt != ctx.unresolved_ctxt
}

/// Whether two names are one: their texts and their contexts are equal.
pub fn is_same_name(a: &Ident, b: &Ident) -> bool
    ensures { IsTrue result → ident_name a.now ≡ ident_name b.now }
{
    a.ctxt == b.ctxt && a.sym == b.sym
}
