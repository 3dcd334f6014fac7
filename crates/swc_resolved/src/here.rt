//! What the core asks of a node by itself.
ghost use Rattle.std.specs.Prelude.{◌≡◌, ◌&&◌, IfOk};
ghost use Rattle.swc_ast.specs.Core.{in_range, numbers_fit, good_body, good_list, good_scope, none_in};
ghost use Rattle.swc_ast.specs.Meaning.{head_names, first_tree};
ghost use Rattle.swc_ast.specs.Resolved.{first_names, params_of, body_of};
ghost use Rattle.swc_ast.specs.Scope.{param_names, vars_all};
ghost use Rattle.swc_ast.specs.Tree as tree;
ghost use Rattle.tree_visit.specs.Kinds.{kind_label};
ghost use Rattle.tree_visit.specs.Nodes.{children_forest};
ghost use Rattle.swc_resolved.specs.Here.{distinct, named_once, own_core};
ghost use Rattle.swc_resolved.specs.Names.{names as names_of};
ghost use Rattle.swc_resolved.specs.Parts.{forest_names};

use crate::declared::{Part, add_head, add_names};
use crate::distinct::{are_apart, are_distinct};
use crate::functions::{Half, half_of};
use crate::names::Name;
use std::alloc::{AllocError, Global};
use tree_visit::{Children, Kind};

/// 2^53 - 1: each whole number up to it is one that a double holds (ECMA-262, 21.1.2.8).
const GREATEST: u64 = 9007199254740991;

/// Returns whether a node's number is in range, and the scope that it opens declares no name twice, as far as the names of that
/// scope tell. Fails if memory runs out.
#[inline(always)]
pub fn is_own_core(
    kind: Kind<'_>,
    children: Children<'_>,
    alloc: Global,
) -> Result<bool, AllocError>
    ensures { IfOk result (λ b. b ≡ own_core (kind_label kind.entry) (children_forest children.entry)) }
{
    if !has_number_in_range(kind) {
        return Ok(false);
    }
    let is_good = is_named_once(kind, children, alloc)?;
    Ok(is_good)
}

#[inline(always)]
pub(crate) fn has_number_in_range(kind: Kind<'_>) -> bool
    ensures { result ≡ numbers_fit (kind_label kind.entry) }
{
    match kind {
        Kind::NumLit(z) => is_in_range(z),
        Kind::NumberKey(z) => is_in_range(z),
        _ => true,
    }
}

pub(crate) fn is_in_range(z: i64) -> bool
    ensures { result ≡ in_range z }
{
    z.unsigned_abs() <= GREATEST
}

#[inline(always)]
fn is_named_once(kind: Kind<'_>, children: Children<'_>, alloc: Global) -> Result<bool, AllocError>
    ensures { IfOk result (λ b. b ≡ named_once (kind_label kind.entry) (children_forest children.entry)) }
{
    match kind {
        Kind::Block => are_declared_once(Part::Declarations, children, alloc),
        Kind::Switch(_) => are_declared_once(Part::Cases, children, alloc),
        Kind::For => is_head_good(children, alloc),
        Kind::Module => is_module_good(children, alloc),
        Kind::Script => is_list_good(children, alloc),
        Kind::Fn(_) => is_function_good(children, alloc),
        Kind::Arrow => is_function_good(children, alloc),
        Kind::Method => is_function_good(children, alloc),
        Kind::FnDecl(_) => is_function_good(children, alloc),
        Kind::ExportDefaultFn(_) => is_function_good(children, alloc),
        _ => Ok(true),
    }
}

/// The names that a list of nodes gives. Fails where memory is refused.
fn names_in<'a>(
    part: Part,
    children: Children<'a>,
    alloc: Global,
) -> Result<Vec<Name<'a>>, AllocError>
    ensures { IfOk result (λ v. names_of v.items ≡ forest_names part (children_forest children.entry)) }
{
    let mut names = Vec::new(alloc);
    add_names(&mut names, children, part)?;
    Ok(names)
}

/// Whether a list of nodes gives no name twice.
fn are_declared_once(part: Part, children: Children<'_>, alloc: Global) -> Result<bool, AllocError>
    ensures { IfOk result (λ b. b ≡ distinct (forest_names part (children_forest children.entry))) }
{
    let names = names_in(part, children, alloc)?;
    let is_good = are_distinct(&names, alloc)?;
    Ok(is_good)
}

/// The names that a `for` declares.
fn is_head_good(children: Children<'_>, alloc: Global) -> Result<bool, AllocError>
    ensures { IfOk result (λ b. b ≡ distinct (first_names (head_names (first_tree (children_forest children.entry))))) }
{
    let mut names = Vec::new(alloc);
    add_head(&mut names, children)?;
    let is_good = are_distinct(&names, alloc)?;
    Ok(is_good)
}

/// Whether names stand once each, and none of them is a `var`'s in a list.
fn are_apart_from_vars<'a>(
    names: &[Name<'a>],
    list: Children<'a>,
    alloc: Global,
) -> Result<bool, AllocError>
    ensures { IfOk result (λ b. b ≡ (distinct (names_of names.now) && none_in (names_of names.now) (vars_all (children_forest list.entry)))) }
{
    if names.is_empty() {
        return Ok(true);
    }
    let vars = names_in(Part::Vars, list, alloc)?;
    let is_good = are_apart(names, &vars, alloc)?;
    Ok(is_good)
}

fn is_list_good(list: Children<'_>, alloc: Global) -> Result<bool, AllocError>
    ensures { IfOk result (λ b. b ≡ good_list (children_forest list.entry)) }
{
    let names = names_in(Part::Declarations, list, alloc)?;
    let is_good = are_apart_from_vars(&names, list, alloc)?;
    Ok(is_good)
}

fn is_function_good(children: Children<'_>, alloc: Global) -> Result<bool, AllocError>
    ensures { IfOk result (λ b. b ≡ good_body (param_names (params_of (children_forest children.entry))) (body_of (children_forest children.entry))) }
{
    let params = names_in(Part::Params, half_of(children, Half::Params), alloc)?;
    let is_good = is_body_good(&params, half_of(children, Half::Body), alloc)?;
    Ok(is_good)
}

/// A body whose scope has other names too.
fn is_body_good<'a>(
    others: &[Name<'a>],
    body: Children<'a>,
    alloc: Global,
) -> Result<bool, AllocError>
    ensures { IfOk result (λ b. b ≡ good_body (names_of others.now) (children_forest body.entry)) }
{
    let names = names_in(Part::Declarations, body, alloc)?;
    let is_list = are_apart_from_vars(&names, body, alloc)?;
    if !is_list {
        return Ok(false);
    }
    let is_good = are_apart(others, &names, alloc)?;
    Ok(is_good)
}

fn is_module_good(items: Children<'_>, alloc: Global) -> Result<bool, AllocError>
    ensures { IfOk result (λ b. b ≡ good_scope tree.Module (children_forest items.entry)) }
{
    let imports = names_in(Part::Imports, items, alloc)?;
    let names = names_in(Part::Declarations, items, alloc)?;
    let vars = names_in(Part::Vars, items, alloc)?;
    let is_list = are_apart(&names, &vars, alloc)?;
    if !is_list {
        return Ok(false);
    }
    let is_body = are_apart(&imports, &names, alloc)?;
    if !is_body {
        return Ok(false);
    }
    let is_good = are_apart(&imports, &vars, alloc)?;
    Ok(is_good)
}
