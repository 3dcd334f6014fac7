//! The scopes of a node that are open while its children are walked.
ghost use Rattle.std.specs.Prelude.{◌≡◌, if◌then◌else◌, ◌++◌, [], IfOk, OnOk};
ghost use Rattle.swc_ast.specs.Resolved.{has_default as has_default_among, params_of};
ghost use Rattle.swc_resolved.specs.Names.{names as names_of};
ghost use Rattle.swc_resolved.specs.Scopes.{own_names};
ghost use Rattle.tree_captures.specs.Captured.{each, inside, no_scope, round_params, with_body, with_scope};
ghost use Rattle.tree_captures.specs.Places.{SameNode, at, before, next, round, within};
ghost use Rattle.tree_captures.specs.Views.{captures};
ghost use Rattle.tree_visit.specs.Kinds.{kind_label};
ghost use Rattle.tree_visit.specs.Nodes.{children_forest};

use crate::reach::Reach;
use crate::table::{Outer, Table};
use std::alloc::{AllocError, Global};
use std::mem;
use swc_resolved::{Half, Name, Part, add_body, add_names, add_own_names, half_of, has_default};
use tree_visit::{Children, Kind};

/// Which child of a node comes next.
#[derive(Clone, Copy)]
pub(crate) enum Place {
    First,
    Second,
    Third,
    /// one behind the third
    Later,
}

impl Place {
    /// The place behind it.
    #[inline(always)]
    pub(crate) fn next(self) -> Place
        ensures { result ≡ next self }
    {
        match self {
            Place::First => Place::Second,
            Place::Second => Place::Third,
            Place::Third | Place::Later => Place::Later,
        }
    }
}

/// The table inside the scope of a node's own names, where no other scope is round the node. Fails where memory is refused.
pub(crate) fn own_table<'a>(
    kind: Kind<'a>,
    children: Children<'a>,
    alloc: Global,
) -> Result<Table<'a>, AllocError>
    ensures { IfOk result (λ t. captures t ≡ with_scope (own_names (kind_label kind.entry) (children_forest children.entry)) no_scope) }
{
    let mut names = Vec::new(alloc);
    add_own_names(&mut names, kind, children)?;
    Table::with(&names, alloc)
}

/// The scopes of a node, and what texts stood for outside those that are open.
#[derive(Drop)]
pub(crate) struct Scopes<'a> {
    reach: Reach,
    kind: Kind<'a>,
    children: Children<'a>,
    outer: Vec<Outer<'a>>,
}

impl<'a> Scopes<'a> {
    /// Those of a node, none of which is open.
    #[inline(always)]
    pub(crate) fn of(kind: Kind<'a>, children: Children<'a>, alloc: Global) -> Scopes<'a>
        ensures within { within result ≡ inside (kind_label kind.entry) (children_forest children.entry) }
        ensures outer { result.outer.items ≡ [] }
    {
        Scopes {
            reach: Reach::of(kind),
            kind,
            children,
            outer: Vec::new(alloc),
        }
    }

    /// None: the children of a node stand in the scopes that are open.
    pub(crate) fn none(kind: Kind<'a>, children: Children<'a>, alloc: Global) -> Scopes<'a>
        ensures within { within result ≡ each }
        ensures outer { result.outer.items ≡ [] }
    {
        let mut scopes = Scopes::of(kind, children, alloc);
        scopes.reach = Reach::Nothing;
        scopes
    }

    /// Goes to the child at a place from the one in front of it: closes and opens scopes. Fails where memory is refused.
    #[inline(always)]
    pub(crate) fn go_to(
        &mut self,
        place: Place,
        table: &mut Table<'a>,
        alloc: Global,
    ) -> Result<(), AllocError>
        requires { captures table.old ≡ before (round self.old table.old) (within self.old (round self.old table.old)) place }
        ensures here { OnOk result (captures table.new ≡ at (within self.old (round self.old table.old)) place) }
        ensures round { OnOk result (round self.new table.new ≡ round self.old table.old) }
        ensures within { OnOk result (within self.new ≡ within self.old) }
    {
        match self.reach {
            Reach::Nothing => Ok(()),
            _ => self.open_at(place, table, alloc),
        }
    }

    /// The same where the node may have scopes.
    #[inline(never)]
    fn open_at(
        &mut self,
        place: Place,
        table: &mut Table<'a>,
        alloc: Global,
    ) -> Result<(), AllocError>
        requires { captures table.old ≡ before (round self.old table.old) (within self.old (round self.old table.old)) place }
        ensures here { OnOk result (captures table.new ≡ at (within self.old (round self.old table.old)) place) }
        ensures round { OnOk result (round self.new table.new ≡ round self.old table.old) }
        ensures within { OnOk result (within self.new ≡ within self.old) }
    {
        match (self.reach, place) {
            (Reach::Each, Place::First)
            | (Reach::BehindFirst, Place::Second)
            | (Reach::Second, Place::Second) => self.open_own(table, alloc),
            (Reach::Second, Place::Third) => self.close(table, alloc),
            (Reach::Function, Place::First) | (Reach::Method, Place::Second) => {
                self.open_own(table, alloc)?;
                self.open_params(table, alloc)
            }
            (Reach::Function, Place::Second) | (Reach::Method, Place::Third) => {
                self.open_body(table, alloc)
            }
            _ => Ok(()),
        }
    }

    /// Opens a scope that binds some names.
    fn open(
        &mut self,
        names: &[Name<'a>],
        table: &mut Table<'a>,
        alloc: Global,
    ) -> Result<(), AllocError>
        ensures opened { OnOk result (captures table.new ≡ with_scope (names_of names.now) (captures table.old)) }
        ensures round { OnOk result (round self.new table.new ≡ round self.old table.old) }
        ensures node { SameNode self.old self.new }
    {
        let mut outer = table.open(names, alloc)?;
        if self.outer.is_empty() {
            self.outer = outer;
        } else {
            self.outer.append(&mut outer)?;
        }
        Ok(())
    }

    /// Opens the scope of the node's own names.
    fn open_own(&mut self, table: &mut Table<'a>, alloc: Global) -> Result<(), AllocError>
        ensures opened { OnOk result (captures table.new ≡ with_scope (own_names (kind_label self.old.kind) (children_forest self.old.children)) (captures table.old)) }
        ensures round { OnOk result (round self.new table.new ≡ round self.old table.old) }
        ensures node { SameNode self.old self.new }
    {
        let mut names = Vec::new(alloc);
        add_own_names(&mut names, self.kind, self.children)?;
        self.open(&names, table, alloc)
    }

    /// Opens the scope of a function's parameters, which is that of its body too but beside a default (10.2.11).
    fn open_params(&mut self, table: &mut Table<'a>, alloc: Global) -> Result<(), AllocError>
        ensures opened { OnOk result (captures table.new ≡ round_params (children_forest self.old.children) (captures table.old)) }
        ensures round { OnOk result (round self.new table.new ≡ round self.old table.old) }
        ensures node { SameNode self.old self.new }
    {
        let params = half_of(self.children, Half::Params);
        let mut names = Vec::new(alloc);
        add_names(&mut names, params, Part::Params)?;
        if has_default(params) {
            return self.open(&names, table, alloc);
        }
        add_body(&mut names, half_of(self.children, Half::Body))?;
        self.open(&names, table, alloc)
    }

    /// Opens the scope that a function's body has beside a default.
    fn open_body(&mut self, table: &mut Table<'a>, alloc: Global) -> Result<(), AllocError>
        ensures opened { OnOk result (captures table.new ≡ (if has_default_among (params_of (children_forest self.old.children)) then with_body (children_forest self.old.children) (captures table.old) else captures table.old)) }
        ensures round { OnOk result (round self.new table.new ≡ round self.old table.old) }
        ensures node { SameNode self.old self.new }
    {
        if !has_default(half_of(self.children, Half::Params)) {
            return Ok(());
        }
        let mut names = Vec::new(alloc);
        add_body(&mut names, half_of(self.children, Half::Body))?;
        self.open(&names, table, alloc)
    }

    /// Closes the scopes that are open.
    #[inline(always)]
    pub(crate) fn close(&mut self, table: &mut Table<'a>, alloc: Global) -> Result<(), AllocError>
        ensures closed { OnOk result (captures table.new ≡ round self.old table.old) }
        ensures round { OnOk result (round self.new table.new ≡ round self.old table.old) }
        ensures within { within self.new ≡ within self.old }
    {
        let outer = mem::replace(&mut self.outer, Vec::new(alloc));
        table.close(outer)
    }
}
