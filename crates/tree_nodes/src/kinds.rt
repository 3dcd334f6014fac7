//! Kinds of declarations.
ghost use Rattle.std.specs.Prelude.{◌≡◌};
ghost use Rattle.static_proofs.specs.Shaped as shaped;

use swc_ast::VarDeclKind;

/// Whether a kind is `let` or `const`.
pub fn is_lexical(kind: VarDeclKind) -> bool
    ensures { result ≡ shaped.is_lexical kind }
{
    match kind {
        VarDeclKind::Var => false,
        VarDeclKind::Let | VarDeclKind::Const => true,
    }
}
