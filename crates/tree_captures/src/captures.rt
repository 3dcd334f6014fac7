//! The first captured name of a tree, in the order of the text, and whether the tree is valid.
ghost use Rattle.std.specs.Prelude.{◌≡◌, ◌&&◌, Bool, true, false, List, IfOk};
ghost use Rattle.swc_ast.specs.Modules.{module_tree, script_tree};
ghost use Rattle.swc_ast.specs.Tree.{Name as TreeName, label_of};
ghost use Rattle.swc_ast.specs.Valid.{good_names, good_shape, valid, valid_all};
ghost use Rattle.tree_captures.specs.Captured.{reach as label_reach, spelled as label_spelled, no_scope, if_captured, captured, captured_in, first_of, seen};
ghost use Rattle.tree_captures.specs.Places.{round, within};
ghost use Rattle.tree_captures.specs.Views.{told, sight, Tells, captures};
ghost use Rattle.tree_captures.specs.declared.reach.Reach.TheVariants.{Each};
ghost use Rattle.tree_leaves.specs.Leaves.{leaf_tree};
ghost use Rattle.tree_visit.specs.Kinds.{kind_label};
ghost use Rattle.tree_visit.specs.Nodes.{node_tree, children_forest};

use crate::scopes::{Place, Scopes, own_table};
use crate::table::Table;
use std::alloc::{AllocError, Global};
use swc_ast::{Ident, Module, Script};
use swc_debug::{has_good_names, has_good_shape};
use swc_resolved::Name;
use tree_leaves::{Leaf, leaf_of};
use tree_visit::{Children, Kind, Node};

/// The reason why a tree can't be printed.
#[derive(Clone, Copy)]
pub enum Fault<'a> {
    /// The text of a name would be read as a name of another scope.
    Captured(&'a Ident),
    /// The tree isn't valid.
    Invalid,
}

/// What is seen of nodes: the first captured name, if any, and else whether the nodes are valid.
#[derive(Clone, Copy)]
pub(crate) struct Seen<'a> {
    captured: Option<&'a Ident>,
    is_valid: bool,
}

/// Returns why a module can't be printed, if so: the first name, in the order of the text, whose text
/// would be read as another name, since the innermost scope that binds a name of this text doesn't
/// bind the name itself; else that the module isn't valid. Where one scope binds two names of one
/// text, neither is captured there. Fails if memory runs out.
pub fn first_fault(alloc: Global, m: &Module) -> Result<Option<Fault<'_>>, AllocError>
    ensures { IfOk result (Tells (captured no_scope (module_tree m.now)) (valid (module_tree m.now))) }
{
    let seen = first_in_whole(Node::Module(m), alloc)?;
    Ok(fault_of(seen))
}

/// The same for a script.
pub fn first_fault_of_script(alloc: Global, s: &Script) -> Result<Option<Fault<'_>>, AllocError>
    ensures { IfOk result (Tells (captured no_scope (script_tree s.now)) (valid (script_tree s.now))) }
{
    let seen = first_in_whole(Node::Script(s), alloc)?;
    Ok(fault_of(seen))
}

/// The fault in what is seen.
#[tactic(auto, using(crate::proofs::First::caught, crate::proofs::First::uncaught))]
fn fault_of<'a>(s: Seen<'a>) -> Option<Fault<'a>>
    ensures { (xs : List TreeName) (v : Bool) → sight s.entry ≡ seen xs v → Tells xs v result }
{
    match s.captured {
        Some(name) => Some(Fault::Captured(name)),
        None => {
            if s.is_valid {
                None
            } else {
                Some(Fault::Invalid)
            }
        }
    }
}

/// The first captured name of a node that no scope is round and whose own scope is round each of its children, and whether the
/// node is valid. Its own scope is open from the start and to the end.
fn first_in_whole<'a>(n: Node<'a>, alloc: Global) -> Result<Seen<'a>, AllocError>
    requires { label_reach (label_of (node_tree n)) ≡ Each }
    ensures { IfOk result (λ s. sight s ≡ seen (captured no_scope (node_tree n.entry)) (valid (node_tree n.entry))) }
{
    let opened = n.open();
    let mut table = own_table(opened.kind, opened.children, alloc)?;
    let is_good = stays_valid(true, opened.kind, opened.children);
    let scopes = Scopes::none(opened.kind, opened.children, alloc);
    first_below(scopes, opened.children, &mut table, is_good, alloc)
}

/// The first captured name of a node, and whether the node is valid where those in front are. Where none is captured, the table
/// is as it was.
#[cycle(captures)]
#[inline(always)]
fn first_in<'a>(
    n: Node<'a>,
    table: &mut Table<'a>,
    is_valid: bool,
    alloc: Global,
) -> Result<Seen<'a>, AllocError>
    ensures sight { IfOk result (λ s. sight s ≡ seen (captured (captures table.old) (node_tree n.entry)) (is_valid && valid (node_tree n.entry))) }
    ensures kept { IfOk result (λ s. s.captured ≡ None → captures table.new ≡ captures table.old) }
{
    match leaf_of(n) {
        Some(leaf) => Ok(leaf_seen(leaf, &*table, is_valid)),
        None => first_in_opened(n, table, is_valid, alloc),
    }
}

/// What is seen of a name or a literal.
#[inline(always)]
#[tactic(auto, using(crate::proofs::Plain::name_sight, crate::proofs::Plain::literal_sight))]
fn leaf_seen<'a>(leaf: Leaf<'a>, table: &Table<'a>, is_valid: bool) -> Seen<'a>
    ensures { sight result ≡ seen (captured (captures table.now) (leaf_tree leaf.entry)) (is_valid && valid (leaf_tree leaf.entry)) }
{
    match leaf {
        Leaf::Name(name) => Seen {
            captured: own_captured(Kind::Read(name), table),
            is_valid: is_valid && has_good_names(Kind::Read(name)),
        },
        Leaf::Literal(_) => Seen {
            captured: None,
            is_valid,
        },
    }
}

/// The same of what is neither a name nor a literal, by what the node is and its children.
#[inline(never)]
#[cycle(captures)]
#[tactic(auto, using(crate::proofs::First::children_fall, crate::proofs::First::found_here))]
fn first_in_opened<'a>(
    n: Node<'a>,
    table: &mut Table<'a>,
    is_valid: bool,
    alloc: Global,
) -> Result<Seen<'a>, AllocError>
    ensures sight { IfOk result (λ s. sight s ≡ seen (captured (captures table.old) (node_tree n.entry)) (is_valid && valid (node_tree n.entry))) }
    ensures kept { IfOk result (λ s. s.captured ≡ None → captures table.new ≡ captures table.old) }
{
    let opened = n.open();
    let own = own_captured(opened.kind, &*table);
    if own.is_some() {
        return Ok(Seen {
            captured: own,
            is_valid,
        });
    }
    let is_good = stays_valid(is_valid, opened.kind, opened.children);
    let scopes = Scopes::of(opened.kind, opened.children, alloc);
    first_below(scopes, opened.children, table, is_good, alloc)
}

/// The same among the children of a node, given its scopes, none of which is open.
#[cycle(captures)]
#[inline(always)]
#[tactic(auto, using(swc_resolved::proofs::Sizes::rest_within, crate::proofs::First::child_falls, crate::proofs::First::found_among, crate::proofs::First::ends))]
fn first_below<'a>(
    mut scopes: Scopes<'a>,
    children: Children<'a>,
    table: &mut Table<'a>,
    is_valid: bool,
    alloc: Global,
) -> Result<Seen<'a>, AllocError>
    requires { captures table.old ≡ round scopes table.old }
    ensures sight { IfOk result (λ s. sight s ≡ seen (captured_in (within scopes.entry (captures table.old)) (children_forest children.entry)) (is_valid && valid_all (children_forest children.entry))) }
    ensures kept { IfOk result (λ s. s.captured ≡ None → captures table.new ≡ captures table.old) }
{
    let mut place = Place::First;
    let mut left = children;
    let mut so_far = is_valid;
    while let Some((child, rest)) = left.next() {
        scopes.go_to(place, &mut *table, alloc)?;
        let found = first_in(child, &mut *table, so_far, alloc)?;
        if found.captured.is_some() {
            return Ok(found);
        }
        so_far = found.is_valid;
        place = place.next();
        left = rest;
    }
    scopes.close(table, alloc)?;
    Ok(Seen {
        captured: None,
        is_valid: so_far,
    })
}

/// Whether nodes stay valid with one more, its children aside.
#[inline(always)]
fn stays_valid(is_valid: bool, kind: Kind<'_>, children: Children<'_>) -> bool
    ensures { result ≡ (is_valid && (good_names (kind_label kind.entry) && good_shape (kind_label kind.entry) (children_forest children.entry))) }
{
    is_valid && has_good_names(kind) && has_good_shape(kind, children)
}

/// The name that a node itself spells, where it is captured.
#[inline(always)]
fn own_captured<'a>(kind: Kind<'a>, table: &Table<'a>) -> Option<&'a Ident>
    ensures { told result ≡ first_of (if_captured (captures table.now) (label_spelled (kind_label kind.entry))) }
{
    match spelled(kind) {
        None => None,
        Some(name) => {
            if table.captures(Name::of(name)) {
                Some(name)
            } else {
                None
            }
        }
    }
}

/// The name that a node spells; a function expression's own name and the parameter of a `catch`
/// are left out, since they stand in scopes that bind nothing else.
#[inline(always)]
fn spelled<'a>(kind: Kind<'a>) -> Option<&'a Ident>
    ensures { told result ≡ label_spelled (kind_label kind.entry) }
{
    match kind {
        Kind::Read(name)
        | Kind::Shorthand(name)
        | Kind::Param(name)
        | Kind::TypeOfName(name)
        | Kind::CallEval(name)
        | Kind::Assign(_, name)
        | Kind::Update(_, _, name)
        | Kind::Declarator(_, name)
        | Kind::FnDecl(name)
        | Kind::ImportDefault(name)
        | Kind::ImportStar(name) => Some(name),
        Kind::ExportDefaultFn(name) => name.as_ref(),
        Kind::ImportNamed(n) => Some(&n.local),
        Kind::ExportSpecifier(n) => Some(&n.orig),
        _ => None,
    }
}
