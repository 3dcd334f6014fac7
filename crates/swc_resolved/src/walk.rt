//! One walk over a tree: what its scopes bind, whether jumps have targets and parameters stand apart, and what the core asks of
//! each node where it is asked for.
ghost use Rattle.std.specs.Prelude.{◌≡◌, IfOk};
ghost use Rattle.swc_ast.specs.Resolved.{below, in_loop, own_scopes, scopes, scopes_all};
ghost use Rattle.swc_ast.specs.Parts.{word_text};
ghost use Rattle.swc_ast.specs.Tree.{Labeled};
ghost use Rattle.tree_visit.specs.Kinds.{kind_label};
ghost use Rattle.tree_visit.specs.Nodes.{node_tree, children_forest};
ghost use Rattle.swc_resolved.specs.Jumps.{targets};
ghost use Rattle.swc_resolved.specs.Names.{is_taken};
ghost use Rattle.swc_resolved.specs.Asked.{own_fit, own_good, own_named, good, good_all, Passes};

use crate::apart::is_own_apart;
use crate::here::has_number_in_range;
use crate::jumps::{Targets, is_jump_aimed, joined};
use crate::leaves::is_leaf_fit;
use crate::names::Taken;
use crate::scopes::Bound;
use std::alloc::{AllocError, Global};
use swc_ast::IdentName;
use swc_debug::{has_good_names, has_good_shape};
use tree_leaves::leaf_of;
use tree_visit::{Children, Kind, Node};

/// Whether the node's names and its children are as validity wants them and its number is in range, where this is asked for.
#[inline(always)]
fn is_own_fit(kind: Kind<'_>, children: Children<'_>, core_too: bool) -> bool
    ensures { result ≡ own_fit core_too (kind_label kind.entry) (children_forest children.entry) }
{
    if !core_too {
        return true;
    }
    if !(has_good_names(kind) && has_good_shape(kind, children)) {
        return false;
    }
    has_number_in_range(kind)
}

/// Whether a node that is a jump has a target, a function with a default declares no text of a parameter in its body, and, where
/// the core is asked for, the node is as validity and the core want it, the names of its scope aside. Fails where memory is refused.
#[inline(always)]
pub(crate) fn is_own_good(
    kind: Kind<'_>,
    children: Children<'_>,
    core_too: bool,
    g: &Targets<'_>,
    alloc: Global,
) -> Result<bool, AllocError>
    ensures { IfOk result (λ b. b ≡ own_good core_too (targets g.now) (kind_label kind.entry) (children_forest children.entry)) }
{
    if !is_own_fit(kind, children, core_too) {
        return Ok(false);
    }
    if !is_jump_aimed(kind, *g) {
        return Ok(false);
    }
    let is_apart = is_own_apart(kind, children, alloc)?;
    Ok(is_apart)
}

impl<'a> Taken<'a> {
    /// Binds the scopes that a node opens, those of its children aside, and says whether none binds a name that was taken and,
    /// where the core is asked for, none declares one twice. Fails where memory is refused.
    #[inline(always)]
    pub(crate) fn bind_named(
        &mut self,
        kind: Kind<'a>,
        children: Children<'a>,
        core_too: bool,
        alloc: Global,
    ) -> Result<bool, AllocError>
        ensures { IfOk result (λ b. Passes b (own_named core_too (kind_label kind.entry) (children_forest children.entry)) (is_taken self.old) (is_taken self.new) (λ x. own_scopes x (kind_label kind.entry) (children_forest children.entry))) }
    {
        match self.bind_own(kind, children, alloc)? {
            Bound::Once => Ok(true),
            Bound::Again => Ok(!core_too),
            Bound::Taken => Ok(false),
        }
    }

    /// Binds each scope of a tree where jumps may go to `g`, and says whether none binds a name that was taken and the tree is
    /// good. Fails where memory is refused.
    #[cycle(walk)]
    #[inline(always)]
    fn walk(
        &mut self,
        n: Node<'a>,
        core_too: bool,
        g: &Targets<'_>,
        alloc: Global,
    ) -> Result<bool, AllocError>
        ensures { IfOk result (λ b. Passes b (good core_too (targets g.now) (node_tree n.entry)) (is_taken self.old) (is_taken self.new) (λ x. scopes x (node_tree n.entry))) }
    {
        match leaf_of(n) {
            Some(leaf) => Ok(is_leaf_fit(leaf, core_too)),
            None => self.walk_opened(n, core_too, g, alloc),
        }
    }

    /// The same, by what the tree is and its children.
    #[cycle(walk)]
    #[inline(always)]
    fn walk_opened(
        &mut self,
        n: Node<'a>,
        core_too: bool,
        g: &Targets<'_>,
        alloc: Global,
    ) -> Result<bool, AllocError>
        ensures { IfOk result (λ b. Passes b (good core_too (targets g.now) (node_tree n.entry)) (is_taken self.old) (is_taken self.new) (λ x. scopes x (node_tree n.entry))) }
    {
        let opened = n.open();
        if !is_own_good(opened.kind, opened.children, core_too, g, alloc)? {
            return Ok(false);
        }
        if !self.bind_named(opened.kind, opened.children, core_too, alloc)? {
            return Ok(false);
        }
        self.walk_below(opened.kind, opened.children, core_too, g, alloc)
    }

    /// The same of the children of a node, where jumps at the node may go to `g`.
    #[cycle(walk)]
    #[inline(always)]
    pub(crate) fn walk_below(
        &mut self,
        kind: Kind<'a>,
        children: Children<'a>,
        core_too: bool,
        g: &Targets<'_>,
        alloc: Global,
    ) -> Result<bool, AllocError>
        ensures { IfOk result (λ b. Passes b (good_all core_too (below (kind_label kind.entry) (targets g.now)) (children_forest children.entry)) (is_taken self.old) (is_taken self.new) (λ x. scopes_all x (children_forest children.entry))) }
    {
        match kind {
            Kind::Labeled(name) => self.walk_labeled(name, children, core_too, g, alloc),
            Kind::While | Kind::DoWhile | Kind::For => {
                self.walk_loop(children, core_too, g, alloc)
            }
            _ => {
                let inner = g.inside(kind);
                self.walk_all(children, core_too, &inner, alloc)
            }
        }
    }

    /// The same of a statement with a label.
    #[inline(never)]
    #[cycle(walk)]
    fn walk_labeled(
        &mut self,
        label: &IdentName,
        children: Children<'a>,
        core_too: bool,
        g: &Targets<'_>,
        alloc: Global,
    ) -> Result<bool, AllocError>
        ensures { IfOk result (λ b. Passes b (good_all core_too (below (Labeled (word_text label.now)) (targets g.now)) (children_forest children.entry)) (is_taken self.old) (is_taken self.new) (λ x. scopes_all x (children_forest children.entry))) }
    {
        let labels = joined(&[&*label.sym], g.labels, alloc)?;
        let own = joined(&[&*label.sym], g.own, alloc)?;
        let inner = Targets {
            labels: &labels,
            own: &own,
            ..*g
        };
        self.walk_all(children, core_too, &inner, alloc)
    }

    /// The same of a loop.
    #[inline(never)]
    #[cycle(walk)]
    fn walk_loop(
        &mut self,
        children: Children<'a>,
        core_too: bool,
        g: &Targets<'_>,
        alloc: Global,
    ) -> Result<bool, AllocError>
        ensures { IfOk result (λ b. Passes b (good_all core_too (in_loop (targets g.now)) (children_forest children.entry)) (is_taken self.old) (is_taken self.new) (λ x. scopes_all x (children_forest children.entry))) }
    {
        let loops = joined(g.own, g.loops, alloc)?;
        let inner = Targets {
            labels: g.labels,
            loops: &loops,
            can_break: true,
            can_continue: true,
            own: &[],
        };
        self.walk_all(children, core_too, &inner, alloc)
    }

    /// The same of each of some trees.
    #[cycle(walk)]
    #[tactic(auto, using(tree_visit::proofs::Caps::rest_falls, crate::proofs::Sizes::rest_within, crate::proofs::Good::first_fails, crate::proofs::Good::rest_decides, crate::proofs::Good::rest_binds, crate::proofs::Good::ends))]
    fn walk_all(
        &mut self,
        children: Children<'a>,
        core_too: bool,
        g: &Targets<'_>,
        alloc: Global,
    ) -> Result<bool, AllocError>
        ensures { IfOk result (λ b. Passes b (good_all core_too (targets g.now) (children_forest children.entry)) (is_taken self.old) (is_taken self.new) (λ x. scopes_all x (children_forest children.entry))) }
    {
        let mut left = children;
        while let Some((child, rest)) = left.next() {
            if !self.walk(child, core_too, g, alloc)? {
                return Ok(false);
            }
            left = rest;
        }
        Ok(true)
    }
}
