//! What is known of the module that is walked.
ghost use Rattle.std.specs.Prelude.{◌≡◌};
ghost use Rattle.swc_ast.specs.Meaning.{is_unresolved};
ghost use Rattle.swc_ast.specs.Parts.{ident_name};
ghost use Rattle.swc_utils.specs.Globals.{unresolved};
ghost use Rattle.dce_code.specs.Knowledge.{is_inner, is_inward, may_go, shaker};

use dce_uses::{Retained, Uses};
use swc_ast::{Ident, SyntaxContext};
use swc_utils::ExprCtx;

/// What is known of the module or the script that is walked.
#[derive(Drop)]
pub struct Known<'a> {
    /// How it uses its names.
    pub uses: &'a Uses,
    /// The texts of names that stay.
    pub retained: Retained<'a>,
    /// Which names are unresolved.
    pub ctx: ExprCtx,
    /// Whether names of the top level go too.
    pub top_level: bool,
    /// Whether an import goes of which no specifier is left.
    pub drops_imports: bool,
}

/// Whether a name is unresolved.
fn is_unresolved(ctx: ExprCtx, name: &Ident) -> bool
    ensures { result ≡ is_unresolved (unresolved ctx) (ident_name name.now) }
{
    name.ctxt == SyntaxContext::empty() || name.ctxt == ctx.unresolved_ctxt
}

impl<'a> Known<'a> {
    /// Whether a name may go: its text isn't retained.
    fn may_go(&self, name: &Ident) -> bool
        ensures { result ≡ may_go self.now (ident_name name.now) }
    {
        !self.retained.has(&name.sym)
    }

    /// Whether a name is declared below the top level, where names of the top level stay.
    fn is_inner(&self, name: &Ident) -> bool
        ensures { result ≡ is_inner self.now (ident_name name.now) }
    {
        self.top_level || !self.uses.is_held(name)
    }

    /// Whether only declarations of functions speak of a name, where names of the top level stay. No further look at where
    /// an assignment stands is needed: in such a declaration it stands inside a block, as which a function counts.
    fn is_inward(&self, name: &Ident) -> bool
        ensures { result ≡ is_inward self.now (ident_name name.now) }
    {
        self.top_level || !self.uses.is_abroad(name)
    }

    /// Whether a name goes, with what declares it.
    pub fn is_free(&self, name: &Ident) -> bool
        ensures { result ≡ (shaker self.now).free (ident_name name.now) }
    {
        self.uses.is_free(name) && self.is_inner(name) && self.may_go(name)
    }

    /// Whether plain assignments to a name go.
    pub fn is_unread(&self, name: &Ident) -> bool
        ensures { result ≡ (shaker self.now).unread (ident_name name.now) }
    {
        self.uses.is_unread(name)
            && !is_unresolved(self.ctx, name)
            && self.is_inward(name)
            && self.may_go(name)
    }
}
