//! Children that stand where they may.
ghost use Rattle.std.specs.Prelude.{◌≡◌, map, nat_le};
ghost use Rattle.swc_ast.specs.Expressions.{quasi_text};
ghost use Rattle.swc_ast.specs.Tree.{Forest};
ghost use Rattle.swc_ast.specs.Valid.{good_shape, good_texts, count, is_last_absent as ends_absent, none_listed as lists_none, last_not_listed as ends_unlisted};
ghost use Rattle.tree_visit.specs.Nodes.{children_forest};
ghost use Rattle.tree_visit.specs.Kinds.{kind_label};
ghost use Rattle.swc_debug.specs.Shape.{fits};

use swc_ast::TplElement;
use tree_visit::{Children, Kind};

/// What validity asks of the children of a node, beside their own validity.
#[derive(Clone, Copy)]
enum Shape<'a> {
    /// nothing
    Any,
    /// what no children are
    Never,
    /// one less than these texts, of which the last one alone is marked as such
    Texts(&'a [TplElement]),
    /// at least one
    One,
    /// at least two
    Two,
    /// that the last isn't left out
    LastThere,
    /// that none is a declaration, which stands in a list
    NoneListed,
    /// that the last is none
    LastNotListed,
}

/// What validity asks of the children of a node of a kind.
#[inline(always)]
fn shape_of<'a>(kind: Kind<'a>) -> Shape<'a>
    ensures { (cs : Forest) → fits result cs ≡ good_shape (kind_label kind.entry) cs }
{
    match kind {
        Kind::Invalid => Shape::Never,
        Kind::Template(quasis) => Shape::Texts(quasis),
        Kind::Seq => Shape::Two,
        Kind::VarDecl(_) => Shape::One,
        Kind::Try(handler) => match handler {
            None => Shape::LastThere,
            Some(_) => Shape::Any,
        },
        Kind::If | Kind::While | Kind::DoWhile | Kind::Labeled(_) => Shape::NoneListed,
        Kind::For => Shape::LastNotListed,
        Kind::NumLit(_)
        | Kind::StrLit(_)
        | Kind::BoolLit(_)
        | Kind::NullLit
        | Kind::This
        | Kind::Read(_)
        | Kind::Array(_)
        | Kind::Object
        | Kind::SpreadRecord
        | Kind::KeyValue
        | Kind::Shorthand(_)
        | Kind::Method
        | Kind::NameKey(_)
        | Kind::TextKey(_)
        | Kind::NumberKey(_)
        | Kind::ComputedKey
        | Kind::Fn(_)
        | Kind::Arrow
        | Kind::Params
        | Kind::Body
        | Kind::Param(_)
        | Kind::Unary(_)
        | Kind::TypeOfName(_)
        | Kind::Binary(_)
        | Kind::Cond
        | Kind::Dot(_)
        | Kind::Index
        | Kind::Call
        | Kind::New
        | Kind::CallEval(_)
        | Kind::CallDot(_)
        | Kind::CallIndex
        | Kind::Assign(_, _)
        | Kind::AssignDot(_, _)
        | Kind::AssignIndex(_)
        | Kind::Update(_, _, _)
        | Kind::UpdateDot(_, _, _)
        | Kind::UpdateIndex(_, _)
        | Kind::Block
        | Kind::Empty
        | Kind::Throw
        | Kind::ExprStmt
        | Kind::Return
        | Kind::Absent
        | Kind::Break(_)
        | Kind::Continue(_)
        | Kind::Switch(_)
        | Kind::CaseBody
        | Kind::Declarator(_, _)
        | Kind::FnDecl(_)
        | Kind::Module
        | Kind::Script
        | Kind::Import(_)
        | Kind::ImportNamed(_)
        | Kind::ImportDefault(_)
        | Kind::ImportStar(_)
        | Kind::ExportDecl
        | Kind::ExportNamed
        | Kind::ExportSpecifier(_)
        | Kind::ExportDefaultFn(_)
        | Kind::ExportDefaultExpr => Shape::Any,
    }
}

/// Whether a node has the children that its kind asks for: what validity asks of the node beside its names and beside the
/// validity of the children.
#[inline(always)]
pub fn has_good_shape(kind: Kind<'_>, children: Children<'_>) -> bool
    ensures { result ≡ good_shape (kind_label kind.entry) (children_forest children.entry) }
{
    match shape_of(kind) {
        Shape::Any => true,
        shape => fits(shape, children),
    }
}

/// Whether children are what is asked. (It isn't inlined, so that what walks a tree keeps one copy of the children for it.)
#[inline(never)]
fn fits(shape: Shape<'_>, children: Children<'_>) -> bool
    ensures { result ≡ fits shape.entry (children_forest children.entry) }
{
    match shape {
        Shape::Any => true,
        Shape::Never => false,
        Shape::Texts(quasis) => has_good_texts(quasis, children),
        Shape::One => has_one(children),
        Shape::Two => has_two(children),
        Shape::LastThere => !is_last_absent(children),
        Shape::NoneListed => none_listed(children),
        Shape::LastNotListed => last_not_listed(children),
    }
}

fn has_one(children: Children<'_>) -> bool
    ensures { result ≡ nat_le 1 (count (children_forest children.entry)) }
{
    match children.next() {
        None => false,
        Some(_) => true,
    }
}

fn has_two(children: Children<'_>) -> bool
    ensures { result ≡ nat_le 2 (count (children_forest children.entry)) }
{
    match children.next() {
        None => false,
        Some((_, rest)) => match rest.next() {
            None => false,
            Some(_) => true,
        },
    }
}

/// One text more than expressions, the last one alone marked as such.
fn has_good_texts(quasis: &[TplElement], children: Children<'_>) -> bool
    ensures { result ≡ good_texts (map quasi_text quasis.now) (children_forest children.entry) }
{
    let mut texts = quasis;
    let mut left = children;
    while let [quasi, more @ ..] = texts {
        match left.next() {
            None => return more.is_empty() && quasi.tail,
            Some((_, rest)) => {
                if more.is_empty() || quasi.tail {
                    return false;
                }
                left = rest;
            }
        }
        texts = more;
    }
    false
}

#[tactic(auto, using(tree_visit::proofs::Caps::rest_falls, crate::proofs::Last::absent_starts, crate::proofs::Last::absent_goes_on))]
fn is_last_absent(children: Children<'_>) -> bool
    ensures { result ≡ ends_absent (children_forest children.entry) }
{
    let mut left = children;
    let mut is_absent = false;
    while let Some((child, rest)) = left.next() {
        is_absent = child.is_absent();
        left = rest;
    }
    is_absent
}

#[tactic(auto, using(tree_visit::proofs::Caps::rest_falls))]
fn none_listed(children: Children<'_>) -> bool
    ensures { result ≡ lists_none (children_forest children.entry) }
{
    let mut left = children;
    while let Some((child, rest)) = left.next() {
        if child.is_listed() {
            return false;
        }
        left = rest;
    }
    true
}

#[tactic(auto, using(tree_visit::proofs::Caps::rest_falls, crate::proofs::Last::unlisted_starts, crate::proofs::Last::unlisted_goes_on))]
fn last_not_listed(children: Children<'_>) -> bool
    ensures { result ≡ ends_unlisted (children_forest children.entry) }
{
    let mut left = children;
    let mut is_listed = false;
    while let Some((child, rest)) = left.next() {
        is_listed = child.is_listed();
        left = rest;
    }
    !is_listed
}
