//! What a look at a specifier tells.
ghost use Rattle.std.specs.Prelude.{◌≡◌};
ghost use Rattle.swc_ast.specs.Modules.{import_specifier_tree};
ghost use Rattle.dce_rules.specs.Shakes.{goes_plainly};
ghost use Rattle.dce_code.specs.Knowledge.{shaker};

use crate::known::Known;
use swc_ast::ImportSpecifier;

impl<'a> Known<'a> {
    /// Whether a specifier of an import goes.
    pub(crate) fn specifier_goes(&self, s: &ImportSpecifier) -> bool
        ensures { result ≡ goes_plainly (shaker self.now) (import_specifier_tree s.now) }
    {
        match s {
            ImportSpecifier::Named(n) => self.is_free(&n.local),
            ImportSpecifier::Default(n) => self.is_free(&n.local),
            ImportSpecifier::Namespace(n) => self.is_free(&n.local),
        }
    }
}
