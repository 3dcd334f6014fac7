//! One walk over a tree, from the top down, with the names that the scopes round a place declare, up to the function's body. So
//! each `var` is looked up once.
ghost use Rattle.std.specs.Prelude.{◌≡◌, ◌&&◌, not, true, false, IfOk};
ghost use Rattle.swc_ast.specs.Core.{fits, fits_all};
ghost use Rattle.swc_ast.specs.Scope.{own_vars};
ghost use Rattle.tree_visit.specs.Kinds.{kind_label};
ghost use Rattle.tree_visit.specs.Nodes.{node_tree, children_forest};
ghost use Rattle.swc_resolved.specs.Names.{names as names_of};
ghost use Rattle.swc_resolved.specs.Scopes.{own_names};
ghost use Rattle.core_trees.specs.Inside.{declares, with_names, undeclared, fits_inside, all_inside, some_fit, some_inside as some_of_inside, vars_apart, opens_inner, is_switch as is_switch_label, is_asked as is_asked_label, Tells};

use crate::declared::Declared;
use std::alloc::{AllocError, Global};
use swc_ast::VarDeclKind;
use swc_resolved::{Name, add_own_names, is_own_core};
use tree_visit::{Children, Kind, Node};

/// Whether a node opens a scope inside a function's body.
#[inline(always)]
fn opens_inner(kind: Kind<'_>) -> bool
    ensures { result ≡ opens_inner (kind_label kind.entry) }
{
    match kind {
        Kind::Block => true,
        Kind::For => true,
        Kind::Switch(_) => true,
        Kind::Try(_) => true,
        _ => false,
    }
}

/// Whether a child of a `switch` is the body of a case, or else whether it is none.
fn is_asked(kind: Kind<'_>, bodies: bool) -> bool
    ensures { result ≡ is_asked_label bodies (kind_label kind.entry) }
{
    match kind {
        Kind::CaseBody => bodies,
        _ => !bodies,
    }
}

fn is_switch(kind: Kind<'_>) -> bool
    ensures { result ≡ is_switch_label (kind_label kind.entry) }
{
    match kind {
        Kind::Switch(_) => true,
        _ => false,
    }
}

/// Whether a node is a declarator of a `var` whose name is declared.
fn is_declared_var<'a>(kind: Kind<'a>, round: &Declared<'a>) -> bool
    ensures { result ≡ not (undeclared (declares round.now) (own_vars (kind_label kind.entry))) }
{
    match kind {
        Kind::Declarator(kind, name) => match kind {
            VarDeclKind::Var => round.contains(Name::of(name)),
            VarDeclKind::Let | VarDeclKind::Const => false,
        },
        _ => false,
    }
}

/// Whether the numbers of a tree are in range and no scope in it declares a name twice. Fails where memory is refused.
#[cycle(walk)]
pub(crate) fn is_fit<'a>(n: Node<'a>, alloc: Global) -> Result<bool, AllocError>
    ensures { IfOk result (λ b. b ≡ fits (node_tree n.entry)) }
{
    let opened = n.open();
    if !is_own_core(opened.kind, opened.children, alloc)? {
        return Ok(false);
    }
    if opens_inner(opened.kind) {
        let is_fit = is_scope_fit(opened.kind, opened.children, alloc)?;
        return Ok(is_fit);
    }
    let is_fit = are_fit(opened.children, alloc)?;
    Ok(is_fit)
}

/// The same of each of some trees.
#[cycle(walk)]
#[tactic(auto, using(tree_visit::proofs::Caps::rest_falls))]
fn are_fit<'a>(children: Children<'a>, alloc: Global) -> Result<bool, AllocError>
    ensures { IfOk result (λ b. b ≡ fits_all (children_forest children.entry)) }
{
    let mut left = children;
    while let Some((child, rest)) = left.next() {
        if !is_fit(child, alloc)? {
            return Ok(false);
        }
        left = rest;
    }
    Ok(true)
}

/// Whether each of a node's children fits, and no `var` in the scope that the node opens inside a body has a name of that scope.
#[cycle(walk)]
fn is_scope_fit<'a>(
    kind: Kind<'a>,
    children: Children<'a>,
    alloc: Global,
) -> Result<bool, AllocError>
    ensures { IfOk result (λ b. opens_inner (kind_label kind.entry) ≡ true → b ≡ (vars_apart (kind_label kind.entry) (children_forest children.entry) && fits_all (children_forest children.entry))) }
{
    let mut names = Vec::new(alloc);
    add_own_names(&mut names, kind, children)?;
    if names.is_empty() {
        let is_fit = are_fit(children, alloc)?;
        return Ok(is_fit);
    }
    let mut round = Declared::new(alloc);
    let is_fit = is_entered_fit(kind, &names, children, &mut round, alloc)?;
    Ok(is_fit)
}

/// Whether a tree fits, and no `var` in it has a name that the scopes round it declare. Fails where memory is refused.
#[cycle(walk)]
fn is_inside<'a>(n: Node<'a>, round: &mut Declared<'a>, alloc: Global) -> Result<bool, AllocError>
    ensures { IfOk result (λ b. Tells b (fits_inside (declares round.old) (node_tree n.entry)) (declares round.old) (declares round.new)) }
{
    let opened = n.open();
    if !is_own_core(opened.kind, opened.children, alloc)? {
        return Ok(false);
    }
    if opens_inner(opened.kind) {
        let is_fit = is_scope_inside(opened.kind, opened.children, round, alloc)?;
        return Ok(is_fit);
    }
    if opened.kind.holds_statements() {
        let is_fit = are_inside(opened.children, round, alloc)?;
        return Ok(is_fit);
    }
    if is_declared_var(opened.kind, round) {
        return Ok(false);
    }
    let is_fit = are_fit(opened.children, alloc)?;
    Ok(is_fit)
}

/// The same of each of some trees.
#[cycle(walk)]
#[tactic(auto, using(tree_visit::proofs::Caps::rest_falls))]
fn are_inside<'a>(
    children: Children<'a>,
    round: &mut Declared<'a>,
    alloc: Global,
) -> Result<bool, AllocError>
    ensures { IfOk result (λ b. Tells b (all_inside (declares round.old) (children_forest children.entry)) (declares round.old) (declares round.new)) }
{
    let mut left = children;
    while let Some((child, rest)) = left.next() {
        if !is_inside(child, round, alloc)? {
            return Ok(false);
        }
        left = rest;
    }
    Ok(true)
}

/// The same of the bodies of cases alone, or of all but those.
#[cycle(walk)]
#[tactic(auto, using(tree_visit::proofs::Caps::rest_falls))]
fn some_inside<'a>(
    children: Children<'a>,
    bodies: bool,
    round: &mut Declared<'a>,
    alloc: Global,
) -> Result<bool, AllocError>
    ensures { IfOk result (λ b. Tells b (some_of_inside bodies (declares round.old) (children_forest children.entry)) (declares round.old) (declares round.new)) }
{
    let mut left = children;
    while let Some((child, rest)) = left.next() {
        if !is_any_inside(child, bodies, round, alloc)? {
            return Ok(false);
        }
        left = rest;
    }
    Ok(true)
}

/// The same of one of them.
#[cycle(walk)]
fn is_any_inside<'a>(
    child: Node<'a>,
    bodies: bool,
    round: &mut Declared<'a>,
    alloc: Global,
) -> Result<bool, AllocError>
    ensures { IfOk result (λ b. Tells b (some_fit bodies (declares round.old) (node_tree child.entry)) (declares round.old) (declares round.new)) }
{
    let opened = child.open();
    if !is_asked(opened.kind, bodies) {
        return Ok(true);
    }
    let is_fit = is_inside(child, round, alloc)?;
    Ok(is_fit)
}

/// The same, where scopes stand round the node whose names no `var` may have either.
#[cycle(walk)]
fn is_scope_inside<'a>(
    kind: Kind<'a>,
    children: Children<'a>,
    round: &mut Declared<'a>,
    alloc: Global,
) -> Result<bool, AllocError>
    ensures { IfOk result (λ b. opens_inner (kind_label kind.entry) ≡ true → Tells b (vars_apart (kind_label kind.entry) (children_forest children.entry) && all_inside (declares round.old) (children_forest children.entry)) (declares round.old) (declares round.new)) }
{
    let mut names = Vec::new(alloc);
    add_own_names(&mut names, kind, children)?;
    let is_fit = is_entered_fit(kind, &names, children, round, alloc)?;
    Ok(is_fit)
}

/// The same, where `names` are those that the scope declares.
#[cycle(walk)]
fn is_entered_fit<'a>(
    kind: Kind<'a>,
    names: &[Name<'a>],
    children: Children<'a>,
    round: &mut Declared<'a>,
    alloc: Global,
) -> Result<bool, AllocError>
    ensures { IfOk result (λ b. opens_inner (kind_label kind.entry) ≡ true → names_of names.now ≡ own_names (kind_label kind.entry) (children_forest children.entry) → Tells b (vars_apart (kind_label kind.entry) (children_forest children.entry) && all_inside (declares round.old) (children_forest children.entry)) (declares round.old) (declares round.new)) }
{
    if is_switch(kind) {
        let is_fit = are_cases_inside(names, children, round, alloc)?;
        return Ok(is_fit);
    }
    let is_fit = are_within(names, children, round, alloc)?;
    Ok(is_fit)
}

/// Whether each of some trees fits, and no `var` in it has one of the names or one that the scopes round it declare.
#[cycle(walk)]
fn are_within<'a>(
    names: &[Name<'a>],
    children: Children<'a>,
    round: &mut Declared<'a>,
    alloc: Global,
) -> Result<bool, AllocError>
    ensures { IfOk result (λ b. Tells b (all_inside (with_names (names_of names.now) (declares round.old)) (children_forest children.entry)) (declares round.old) (declares round.new)) }
{
    let new = round.open(names, alloc)?;
    if !are_inside(children, round, alloc)? {
        return Ok(false);
    }
    round.close(&new);
    Ok(true)
}

/// The same of the children of a `switch`, where the names are declared for the bodies of cases alone.
#[cycle(walk)]
fn are_cases_inside<'a>(
    names: &[Name<'a>],
    children: Children<'a>,
    round: &mut Declared<'a>,
    alloc: Global,
) -> Result<bool, AllocError>
    ensures { IfOk result (λ b. Tells b (some_of_inside false (declares round.old) (children_forest children.entry) && some_of_inside true (with_names (names_of names.now) (declares round.old)) (children_forest children.entry)) (declares round.old) (declares round.new)) }
{
    if !some_inside(children, false, round, alloc)? {
        return Ok(false);
    }
    let new = round.open(names, alloc)?;
    if !some_inside(children, true, round, alloc)? {
        return Ok(false);
    }
    round.close(&new);
    Ok(true)
}
