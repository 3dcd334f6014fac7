//! What nodes are to what is carried.
ghost use Rattle.std.specs.Prelude.{◌≡◌};
ghost use Rattle.swc_ast.specs.Scope as scope;
ghost use Rattle.carry_rules.specs.Carry as carry;
ghost use Rattle.swc_names.specs.Ids.{optional};
ghost use Rattle.tree_visit.specs.Kinds.{kind_label};
ghost use Rattle.tree_visit.specs.Nodes.{children_forest};
ghost use Rattle.carry_parts.specs.Carries.{pass_of, puts_of};
ghost use Rattle.carry_parts.specs.Reads as reads;
ghost use Rattle.carry_reads.specs.Declarations.{leaf_put};

use carry_parts::{Carry, Pass};
use swc_ast::{Ident, UnaryOp};
use tree_visit::{Children, Kind};

/// The name that a node reads, where something may be put for it.
pub(crate) fn asked<'a>(pass: Pass, kind: Kind<'a>) -> Option<&'a Ident>
    ensures { optional result ≡ reads.asked (pass_of pass) (kind_label kind.entry) }
{
    match kind {
        Kind::Read(name) | Kind::TypeOfName(name) => Some(name),
        Kind::Shorthand(name) => match pass {
            Pass::Constants => Some(name),
            Pass::Inlines => None,
        },
        _ => None,
    }
}

/// Whether nothing is put in a node.
pub(crate) fn is_exempt(pass: Pass, kind: Kind<'_>) -> bool
    ensures { result ≡ carry.is_exempt (pass_of pass) (kind_label kind.entry) }
{
    match kind {
        Kind::Unary(op) => match op {
            UnaryOp::Delete => true,
            _ => false,
        },
        Kind::Import(_) => true,
        Kind::Assign(_, _)
        | Kind::AssignDot(_, _)
        | Kind::AssignIndex(_)
        | Kind::Update(_, _, _)
        | Kind::UpdateDot(_, _, _)
        | Kind::UpdateIndex(_, _) => match pass {
            Pass::Constants => true,
            Pass::Inlines => false,
        },
        _ => false,
    }
}

/// Whether a node is a function or an arrow.
pub(crate) fn is_function(kind: Kind<'_>) -> bool
    ensures { result ≡ scope.is_function (kind_label kind.entry) }
{
    match kind {
        Kind::Fn(_) | Kind::Arrow | Kind::Method | Kind::FnDecl(_) | Kind::ExportDefaultFn(_) => {
            true
        }
        _ => false,
    }
}

/// Whether a node is a declaration of variables, or `export` before a declaration.
pub(crate) fn groups(kind: Kind<'_>) -> bool
    ensures { result ≡ carry.groups (kind_label kind.entry) }
{
    match kind {
        Kind::VarDecl(_) | Kind::ExportDecl => true,
        _ => false,
    }
}

/// Whether a node is such a declaration or a declarator.
pub(crate) fn is_declaration(kind: Kind<'_>) -> bool
    ensures { result ≡ carry.is_declaring (kind_label kind.entry) }
{
    match kind {
        Kind::VarDecl(_) | Kind::Declarator(_, _) | Kind::ExportDecl => true,
        _ => false,
    }
}

/// Whether the children of a node stand in a list.
pub(crate) fn lists(kind: Kind<'_>, listed: bool) -> bool
    ensures { result ≡ carry.lists (kind_label kind.entry) listed }
{
    match kind {
        Kind::Block | Kind::Body | Kind::CaseBody | Kind::Module | Kind::Script => true,
        _ => is_declaration(kind) && listed,
    }
}

/// Whether names that are ready stay so behind a node.
pub(crate) fn keeps_names(kind: Kind<'_>) -> bool
    ensures { result ≡ carry.keeps_names (kind_label kind.entry) }
{
    match kind {
        Kind::Params | Kind::CaseBody => true,
        _ => groups(kind),
    }
}

/// The literal that a node is, where the pass carries it.
fn literal<'a>(pass: Pass, kind: Kind<'a>) -> Option<Carry<'a>>
    ensures { puts_of result ≡ carry.literal_put (pass_of pass) (kind_label kind.entry) }
{
    match kind {
        Kind::NumLit(value) => Some(Carry::Num(value)),
        Kind::StrLit(text) => match pass {
            Pass::Constants => None,
            Pass::Inlines => Some(Carry::Text(text)),
        },
        Kind::BoolLit(value) => Some(Carry::Truth(value)),
        Kind::NullLit => Some(Carry::Null),
        _ => None,
    }
}

/// The literal that a node is, with its children.
pub(crate) fn leaf<'a>(pass: Pass, kind: Kind<'a>, children: Children<'a>) -> Option<Carry<'a>>
    ensures { puts_of result ≡ leaf_put (pass_of pass) (kind_label kind.entry) (children_forest children.entry) }
{
    match children.next() {
        Some(_) => None,
        None => literal(pass, kind),
    }
}
