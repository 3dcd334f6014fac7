//! Names that stand where names may.
ghost use Rattle.std.specs.Prelude.{◌≡◌};
ghost use Rattle.swc_ast.specs.Parts.{option_ident_name, option_word_text};
ghost use Rattle.swc_ast.specs.Valid.{good_names, is_optional_name, is_optional_identifier, is_optional_word};
ghost use Rattle.tree_visit.specs.Kinds.{kind_label};

use crate::words::{is_identifier, is_word};
use swc_ast::{Ident, IdentName};
use tree_visit::Kind;

/// Whether the names that a node holds are identifiers (ECMA-262, 12.7), or words where any word may stand: what validity asks
/// of the node's names.
#[inline(always)]
pub fn has_good_names(kind: Kind<'_>) -> bool
    ensures { result ≡ good_names (kind_label kind.entry) }
{
    match kind {
        Kind::Read(n)
        | Kind::Shorthand(n)
        | Kind::Param(n)
        | Kind::TypeOfName(n)
        | Kind::CallEval(n)
        | Kind::Assign(_, n)
        | Kind::Update(_, _, n)
        | Kind::Declarator(_, n)
        | Kind::FnDecl(n)
        | Kind::ImportDefault(n)
        | Kind::ImportStar(n) => is_identifier(&n.sym),
        Kind::Labeled(n) => is_identifier(&n.sym),
        Kind::NameKey(n)
        | Kind::Dot(n)
        | Kind::CallDot(n)
        | Kind::AssignDot(_, n)
        | Kind::UpdateDot(_, _, n) => is_word(&n.sym),
        Kind::Fn(name) | Kind::ExportDefaultFn(name) => is_good_name(name),
        Kind::Break(label) | Kind::Continue(label) => is_good_label(label),
        Kind::Try(handler) => match handler {
            None => true,
            Some(clause) => is_good_name(&clause.param),
        },
        Kind::ImportNamed(n) => is_identifier(&n.local.sym) && is_good_word(&n.imported),
        Kind::ExportSpecifier(n) => is_identifier(&n.orig.sym) && is_good_word(&n.exported),
        Kind::NumLit(_)
        | Kind::StrLit(_)
        | Kind::BoolLit(_)
        | Kind::NullLit
        | Kind::This
        | Kind::Invalid
        | Kind::Template(_)
        | Kind::Array(_)
        | Kind::Object
        | Kind::SpreadRecord
        | Kind::KeyValue
        | Kind::Method
        | Kind::TextKey(_)
        | Kind::NumberKey(_)
        | Kind::ComputedKey
        | Kind::Arrow
        | Kind::Params
        | Kind::Body
        | Kind::Unary(_)
        | Kind::Binary(_)
        | Kind::Cond
        | Kind::Seq
        | Kind::Index
        | Kind::Call
        | Kind::New
        | Kind::CallIndex
        | Kind::AssignIndex(_)
        | Kind::UpdateIndex(_, _)
        | Kind::Block
        | Kind::Empty
        | Kind::Throw
        | Kind::ExprStmt
        | Kind::Return
        | Kind::If
        | Kind::While
        | Kind::DoWhile
        | Kind::For
        | Kind::Absent
        | Kind::Switch(_)
        | Kind::CaseBody
        | Kind::VarDecl(_)
        | Kind::Module
        | Kind::Script
        | Kind::Import(_)
        | Kind::ExportDecl
        | Kind::ExportNamed
        | Kind::ExportDefaultExpr => true,
    }
}

fn is_good_name(name: &Option<Ident>) -> bool
    ensures { result ≡ is_optional_name (option_ident_name name.now) }
{
    match name {
        None => true,
        Some(n) => is_identifier(&n.sym),
    }
}

fn is_good_label(label: &Option<IdentName>) -> bool
    ensures { result ≡ is_optional_identifier (option_word_text label.now) }
{
    match label {
        None => true,
        Some(n) => is_identifier(&n.sym),
    }
}

fn is_good_word(word: &Option<IdentName>) -> bool
    ensures { result ≡ is_optional_word (option_word_text word.now) }
{
    match word {
        None => true,
        Some(n) => is_word(&n.sym),
    }
}
