//! The walk that counts.
ghost use Rattle.std.specs.Prelude.{◌≡◌, ◌&&◌, OnOk, IfOk};
ghost use Rattle.tree_visit.specs.Kinds.{kind_label};
ghost use Rattle.tree_visit.specs.Nodes.{node_tree, children_forest};
ghost use Rattle.swc_ast.specs.Parts.{ident_tree};
ghost use Rattle.tree_leaves.specs.Leaves.{leaf_tree};
ghost use Rattle.swc_names.specs.Ids.{optional};
ghost use Rattle.dce_rules.specs.Uses.{declared_among};
ghost use Rattle.dce_uses.specs.Noted as noted;
ghost use Rattle.dce_uses.specs.Sights.{Sees, SeesAmong};
ghost use Rattle.dce_uses.specs.Tables.{Notes, IsBefore, holds};
ghost use Rattle.dce_uses.specs.declared.tally.Fact as facts;

use crate::labels::{
    declared_name, function_name, has_arguments, is_function, is_read, is_written, named,
};
use crate::listed::Part;
use crate::place::Place;
use crate::scans::params_of;
use crate::seen::Seen;
use crate::table::Table;
use crate::tally::{Fact, Tally};
use std::alloc::AllocError;
use swc_ast::Ident;
use tree_leaves::{Leaf, leaf_of};
use tree_visit::{Children, Kind, Node, Opened};

/// What a node says of the name that it reads or writes.
#[inline(always)]
fn naming(kind: Kind<'_>, place: Place) -> Tally
    ensures { (f : facts.Fact) → holds result f ≡ noted.naming f place (kind_label kind.entry) }
{
    Tally::empty()
        .with(Fact::Used, is_read(kind))
        .with(Fact::Written, is_written(kind))
        .with(Fact::Abroad, !place.in_declaration)
}

/// What a node says of the name that it declares.
#[inline(always)]
fn declaring(kind: Kind<'_>, place: Place) -> Tally
    ensures { (f : facts.Fact) → holds result f ≡ noted.declaring f place (kind_label kind.entry) }
{
    Tally::empty()
        .with(Fact::Declared, true)
        .with(Fact::Held, !place.lets_go(kind))
}

impl Table {
    /// Notes what a tree says of names. Gives what is seen in it beside that.
    #[cycle(count)]
    pub(crate) fn count(&mut self, n: Node<'_>, place: Place) -> Result<Seen, AllocError>
        ensures notes { OnOk result (Notes self.old self.new (λ f x. noted.noted f x place (node_tree n.entry))) }
        ensures seen { IfOk result (λ s. Sees s (node_tree n.entry)) }
    {
        match leaf_of(n) {
            Some(leaf) => self.count_leaf(leaf, place),
            None => self.count_node(n, place),
        }
    }

    /// The same, by what the tree is and its children.
    #[cycle(count)]
    #[inline(always)]
    fn count_node(&mut self, n: Node<'_>, place: Place) -> Result<Seen, AllocError>
        ensures notes { OnOk result (Notes self.old self.new (λ f x. noted.noted f x place (node_tree n.entry))) }
        ensures seen { IfOk result (λ s. Sees s (node_tree n.entry)) }
    {
        self.count_opened(n.open(), place)
    }

    /// The same of a name or a literal.
    #[inline(always)]
    #[tactic(auto, using(crate::proofs::Plain::literal_noted, crate::proofs::Plain::literal_seen))]
    fn count_leaf(&mut self, leaf: Leaf<'_>, place: Place) -> Result<Seen, AllocError>
        ensures notes { OnOk result (Notes self.old self.new (λ f x. noted.noted f x place (leaf_tree leaf.entry))) }
        ensures seen { IfOk result (λ s. Sees s (leaf_tree leaf.entry)) }
    {
        match leaf {
            Leaf::Name(name) => self.count_name(name, place),
            Leaf::Literal(_) => Ok(Seen::nothing()),
        }
    }

    /// The same of a name that is read.
    #[inline(always)]
    #[tactic(auto, using(crate::proofs::Plain::name_noted, crate::proofs::Plain::name_seen))]
    fn count_name(&mut self, name: &Ident, place: Place) -> Result<Seen, AllocError>
        ensures notes { OnOk result (Notes self.old self.new (λ f x. noted.noted f x place (ident_tree name.now))) }
        ensures seen { IfOk result (λ s. Sees s (ident_tree name.now)) }
    {
        self.note_named(Kind::Read(name), place)?;
        Ok(Seen::nothing().with(Kind::Read(name)))
    }

    /// The same of a node that was opened.
    #[cycle(count)]
    #[inline(always)]
    pub(crate) fn count_opened(
        &mut self,
        opened: Opened<'_>,
        place: Place,
    ) -> Result<Seen, AllocError>
        ensures notes { OnOk result (Notes self.old self.new (λ f x. noted.noted f x place (noted.opened_tree opened.entry))) }
        ensures seen { IfOk result (λ s. Sees s (noted.opened_tree opened.entry)) }
    {
        let function = function_name(opened.kind);
        let before = self.tally_before(function);
        self.note(opened.kind, place)?;
        let inside = self.count_all(opened.children, place.below(opened.kind))?;
        self.note_unnamed(opened.kind, opened.children, place, inside)?;
        self.restore(function, before)?;
        Ok(inside.with(opened.kind))
    }

    /// Notes what trees say of names. Gives what is seen in them.
    #[cycle(count)]
    #[inline(always)]
    fn count_all(&mut self, children: Children<'_>, place: Place) -> Result<Seen, AllocError>
        ensures notes { OnOk result (Notes self.old self.new (λ f x. noted.noted_among f x place (children_forest children.entry))) }
        ensures seen { IfOk result (λ s. SeesAmong s (children_forest children.entry)) }
    {
        let mut seen = Seen::nothing();
        let mut left = children;
        while let Some((child, rest)) = left.next() {
            let more = self.count(child, place)?;
            seen = seen.or(more);
            left = rest;
        }
        Ok(seen)
    }

    /// Notes what a node says by itself.
    #[inline(always)]
    fn note(&mut self, kind: Kind<'_>, place: Place) -> Result<(), AllocError>
        ensures { OnOk result (Notes self.old self.new (λ f x. noted.own f x place (kind_label kind.entry))) }
    {
        self.note_named(kind, place)?;
        self.note_declared(kind, place)
    }

    /// Notes the name that a node reads or writes.
    #[inline(always)]
    fn note_named(&mut self, kind: Kind<'_>, place: Place) -> Result<(), AllocError>
        ensures { OnOk result (Notes self.old self.new (λ f x. noted.by_naming f x place (kind_label kind.entry))) }
    {
        match named(kind) {
            Some(name) => self.add_tally(name, naming(kind, place)),
            None => Ok(()),
        }
    }

    /// Notes the name that a node declares.
    #[inline(always)]
    fn note_declared(&mut self, kind: Kind<'_>, place: Place) -> Result<(), AllocError>
        ensures { OnOk result (Notes self.old self.new (λ f x. noted.by_declaring f x place (kind_label kind.entry))) }
    {
        match declared_name(kind) {
            Some(name) => self.add_tally(name, declaring(kind, place)),
            None => Ok(()),
        }
    }

    /// Notes the names that a function uses without naming them, by what is seen among its children.
    #[inline(always)]
    fn note_unnamed(
        &mut self,
        kind: Kind<'_>,
        children: Children<'_>,
        place: Place,
        inside: Seen,
    ) -> Result<(), AllocError>
        requires { SeesAmong inside (children_forest children) }
        ensures { OnOk result (Notes self.old self.new (λ f x. noted.unnamed f x place (kind_label kind.entry) (children_forest children.entry))) }
    {
        self.note_arguments(kind, children, inside)?;
        self.note_seen(kind, children, place, inside)
    }

    /// Notes the parameters of a function that names `arguments`.
    #[inline(always)]
    fn note_arguments(
        &mut self,
        kind: Kind<'_>,
        children: Children<'_>,
        inside: Seen,
    ) -> Result<(), AllocError>
        requires { SeesAmong inside (children_forest children) }
        ensures { OnOk result (Notes self.old self.new (λ f x. noted.by_arguments f x (kind_label kind.entry) (children_forest children.entry))) }
    {
        if has_arguments(kind) && inside.arguments {
            self.note_listed(params_of(children), Part::Params)
        } else {
            Ok(())
        }
    }

    /// Notes the names that are declared in a function that calls `eval`, unless it stands in another.
    #[inline(always)]
    fn note_seen(
        &mut self,
        kind: Kind<'_>,
        children: Children<'_>,
        place: Place,
        inside: Seen,
    ) -> Result<(), AllocError>
        requires { SeesAmong inside (children_forest children) }
        ensures { OnOk result (Notes self.old self.new (λ f x. noted.by_eval f x place (kind_label kind.entry) (children_forest children.entry))) }
    {
        if !place.is_inside && is_function(kind) && inside.eval {
            self.hide_declared(children)
        } else {
            Ok(())
        }
    }

    /// Notes that the names which trees declare are used without being named.
    #[cycle(hide_declared)]
    fn hide_declared(&mut self, children: Children<'_>) -> Result<(), AllocError>
        ensures { OnOk result (Notes self.old self.new (λ f x. noted.is_hiding f && declared_among x (children_forest children.entry))) }
    {
        let mut left = children;
        while let Some((child, rest)) = left.next() {
            let opened = child.open();
            self.hide(declared_name(opened.kind))?;
            self.hide_declared(opened.children)?;
            left = rest;
        }
        Ok(())
    }

    /// What was noted of a function's name in front of its declaration.
    #[inline(always)]
    fn tally_before(&self, function: Option<&Ident>) -> Tally
        ensures { IsBefore self.now (optional function.entry) result }
    {
        match function {
            Some(name) => self.tally(name),
            None => Tally::empty(),
        }
    }
}
