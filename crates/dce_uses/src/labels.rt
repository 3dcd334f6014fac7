//! What a node says of names.
ghost use Rattle.std.specs.Prelude.{◌≡◌};
ghost use Rattle.swc_ast.specs.Labels.{is_params};
ghost use Rattle.swc_ast.specs.Reach.{named_by};
ghost use Rattle.swc_ast.specs.Scope.{is_function as is_function_label};
ghost use Rattle.tree_visit.specs.Kinds.{kind_label};
ghost use Rattle.swc_names.specs.Ids.{optional};
ghost use Rattle.dce_rules.specs.Uses as uses;
ghost use Rattle.dce_uses.specs.Noted as noted;

use swc_ast::{AssignOp, Ident};
use tree_visit::Kind;

#[inline(always)]
fn is_plain(op: AssignOp) -> bool
    ensures { result ≡ noted.is_plain_assignment op }
{
    match op {
        AssignOp::Assign => true,
        _ => false,
    }
}

/// Whether a node that names something reads it: all but plain assignments do.
#[inline(always)]
pub fn is_read(kind: Kind<'_>) -> bool
    ensures { result ≡ noted.reads (kind_label kind.entry) }
{
    match kind {
        Kind::Assign(op, _) => !is_plain(op),
        _ => true,
    }
}

/// Whether a node that names something writes it.
#[inline(always)]
pub(crate) fn is_written(kind: Kind<'_>) -> bool
    ensures { result ≡ noted.writes (kind_label kind.entry) }
{
    match kind {
        Kind::Assign(_, _) | Kind::Update(_, _, _) => true,
        _ => false,
    }
}

/// The name that a node itself reads, writes or exports.
#[inline(always)]
pub fn named<'a>(kind: Kind<'a>) -> Option<&'a Ident>
    ensures { optional result ≡ named_by (kind_label kind.entry) }
{
    match kind {
        Kind::Read(name)
        | Kind::CallEval(name)
        | Kind::Shorthand(name)
        | Kind::TypeOfName(name)
        | Kind::Assign(_, name)
        | Kind::Update(_, _, name) => Some(name),
        Kind::ExportSpecifier(n) => Some(&n.orig),
        _ => None,
    }
}

/// The name that a node itself declares.
#[inline(always)]
pub fn declared_name<'a>(kind: Kind<'a>) -> Option<&'a Ident>
    ensures { optional result ≡ uses.declared_by_node (kind_label kind.entry) }
{
    match kind {
        Kind::Declarator(_, name)
        | Kind::Param(name)
        | Kind::FnDecl(name)
        | Kind::ImportDefault(name)
        | Kind::ImportStar(name) => Some(name),
        Kind::Fn(name) | Kind::ExportDefaultFn(name) => name.as_ref(),
        Kind::ImportNamed(n) => Some(&n.local),
        Kind::Try(handler) => match handler {
            Some(clause) => clause.param.as_ref(),
            None => None,
        },
        _ => None,
    }
}

/// The name of a function that a node declares.
#[inline(always)]
pub fn function_name<'a>(kind: Kind<'a>) -> Option<&'a Ident>
    ensures { optional result ≡ noted.function_name (kind_label kind.entry) }
{
    match kind {
        Kind::FnDecl(name) => Some(name),
        Kind::ExportDefaultFn(name) => name.as_ref(),
        _ => None,
    }
}

/// Whether a node is a function or an arrow.
#[inline(always)]
pub(crate) fn is_function(kind: Kind<'_>) -> bool
    ensures { result ≡ is_function_label (kind_label kind.entry) }
{
    match kind {
        Kind::Fn(_) | Kind::Arrow | Kind::Method | Kind::FnDecl(_) | Kind::ExportDefaultFn(_) => {
            true
        }
        _ => false,
    }
}

/// Whether a node is a function that has its own `arguments`.
#[inline(always)]
pub(crate) fn has_arguments(kind: Kind<'_>) -> bool
    ensures { result ≡ uses.has_arguments (kind_label kind.entry) }
{
    match kind {
        Kind::Fn(_) | Kind::Method | Kind::FnDecl(_) | Kind::ExportDefaultFn(_) => true,
        _ => false,
    }
}

/// Whether a node is the declaration of a function.
#[inline(always)]
pub(crate) fn is_declaration(kind: Kind<'_>) -> bool
    ensures { result ≡ noted.is_function_declaration (kind_label kind.entry) }
{
    match kind {
        Kind::FnDecl(_) => true,
        _ => false,
    }
}

/// Whether a node is a direct call of `eval`.
#[inline(always)]
pub(crate) fn is_eval(kind: Kind<'_>) -> bool
    ensures { result ≡ uses.is_eval (kind_label kind.entry) }
{
    match kind {
        Kind::CallEval(_) => true,
        _ => false,
    }
}

/// Whether a node names `arguments`.
#[inline(always)]
pub(crate) fn is_arguments(kind: Kind<'_>) -> bool
    ensures { result ≡ uses.is_arguments (named_by (kind_label kind.entry)) }
{
    match named(kind) {
        Some(name) => name.sym.as_str() == "arguments",
        None => false,
    }
}

/// Whether a node is a block or the body of a function.
#[inline(always)]
pub(crate) fn is_block(kind: Kind<'_>) -> bool
    ensures { result ≡ noted.is_block_or_function (kind_label kind.entry) }
{
    match kind {
        Kind::Block => true,
        _ => is_function(kind),
    }
}

/// Whether a node holds the parameters of a function.
#[inline(always)]
pub(crate) fn is_params(kind: Kind<'_>) -> bool
    ensures { result ≡ is_params (kind_label kind.entry) }
{
    match kind {
        Kind::Params => true,
        _ => false,
    }
}
