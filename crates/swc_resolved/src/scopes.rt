//! Scopes, and the names that they bind.
ghost use Rattle.std.specs.Prelude.{◌≡◌, ◌≤◌, ◌++◌, ◌&&◌, ◌||◌, not, length, IfOk, OnOk};
ghost use Rattle.swc_ast.specs.Core.{good_body};
ghost use Rattle.swc_ast.specs.Resolved.{one_if, declared_names, params_of, body_of, function_scopes, own_scopes};
ghost use Rattle.swc_ast.specs.Scope.{has_name, param_names};
ghost use Rattle.swc_ast.specs.Tree as tree;
ghost use Rattle.swc_ast.specs.Tree.{same_name, Module};
ghost use Rattle.tree_visit.specs.Kinds.{kind_label};
ghost use Rattle.tree_visit.specs.Nodes.{children_forest};
ghost use Rattle.swc_resolved.specs.Names.{name, names as names_of, members, is_taken};
ghost use Rattle.swc_resolved.specs.Here.{named_once, stand_apart};
ghost use Rattle.swc_resolved.specs.Scopes.{Binds, BindsNamed, both, opens_scope};

use crate::declared::{Part, add_names, add_own_names};
use crate::distinct::stand_apart;
use crate::functions::{Half, half_of, has_default, is_function};
use crate::names::{Name, NameSet, Taken};
use std::alloc::{AllocError, Global};
use tree_visit::{Children, Kind};

/// How scopes were bound.
#[derive(Clone, Copy)]
pub(crate) enum Bound {
    /// no name was taken, and none of them declares one twice
    Once,
    /// no name was taken, but one of them declares one twice
    Again,
    /// a name was taken
    Taken,
}

impl Bound {
    /// How scopes were bound and, behind them, others.
    fn and(self, other: Bound) -> Bound
        ensures { result ≡ both self other }
    {
        match self {
            Bound::Once => other,
            Bound::Again => match other {
                Bound::Once => Bound::Again,
                Bound::Again => Bound::Again,
                Bound::Taken => Bound::Taken,
            },
            Bound::Taken => Bound::Taken,
        }
    }
}

/// Whether a node opens a scope.
#[inline(always)]
fn opens_scope(kind: Kind<'_>) -> bool
    ensures { result ≡ opens_scope (kind_label kind.entry) }
{
    match kind {
        Kind::Module | Kind::Script => true,
        Kind::Block | Kind::For | Kind::Switch(_) | Kind::Try(_) => true,
        Kind::Fn(_) | Kind::Arrow | Kind::Method | Kind::FnDecl(_) | Kind::ExportDefaultFn(_) => {
            true
        }
        _ => false,
    }
}

impl<'a> Taken<'a> {
    /// Binds the names of a scope, and says how: as many as `strict` in front may stand there once each, and so may those behind as
    /// many as `loose`, of which none may be in front too. Fails where memory is refused.
    fn bind_scope(
        &mut self,
        names: &[Name<'a>],
        strict: usize,
        loose: usize,
        alloc: Global,
    ) -> Result<Bound, AllocError>
        requires strict { strict ≤ length names.now }
        requires loose { loose ≤ length names.now }
        ensures { IfOk result (λ b. BindsNamed b (is_taken self.old) (is_taken self.new) (λ x. one_if (has_name x (names_of names.now))) (stand_apart strict loose (names_of names.now))) }
    {
        self.make_room(names.len());
        let mut left = names;
        while let [name, rest @ ..] = left {
            if !self.add(*name)? {
                let done = &names[..names.len() - left.len()];
                if !self.bind_others(left, done, alloc)? {
                    return Ok(Bound::Taken);
                }
                if !stand_apart(names, strict, loose, alloc)? {
                    return Ok(Bound::Again);
                }
                return Ok(Bound::Once);
            }
            left = rest;
        }
        Ok(Bound::Once)
    }

    /// Binds the names of a scope that are not among those that it has bound already, and says whether none of them was taken.
    /// Fails where memory is refused.
    #[inline(never)]
    fn bind_others(
        &mut self,
        names: &[Name<'a>],
        done: &[Name<'a>],
        alloc: Global,
    ) -> Result<bool, AllocError>
        ensures { IfOk result (λ b. Binds b (is_taken self.old) (is_taken self.new) (λ x. one_if (has_name x (names_of names.now) && not (has_name x (names_of done.now))))) }
    {
        let mut own = NameSet::of(done, alloc)?;
        let mut left = names;
        while let [name, rest @ ..] = left {
            if !self.bind_other(&mut own, *name)? {
                return Ok(false);
            }
            left = rest;
        }
        Ok(true)
    }

    /// Puts a name in a set and, if the set has not had it, binds it, and says whether it was not taken then. Fails where memory
    /// is refused.
    fn bind_other(&mut self, own: &mut NameSet<'a>, x: Name<'a>) -> Result<bool, AllocError>
        ensures binds { IfOk result (λ b. Binds b (is_taken self.old) (is_taken self.new) (λ y. one_if (same_name y (name x.entry) && not (has_name y (members own.old))))) }
        ensures names { OnOk result ((y : tree.Name) → has_name y (members own.new) ≡ (has_name y (members own.old) || same_name y (name x.entry))) }
    {
        if !own.insert(x)? {
            return Ok(true);
        }
        let is_new = self.add(x)?;
        Ok(is_new)
    }

    /// Binds the scope of other names and those that a body declares.
    #[inline(never)]
    fn bind_list(
        &mut self,
        others: Vec<Name<'a>>,
        body: Children<'a>,
        alloc: Global,
    ) -> Result<Bound, AllocError>
        ensures { IfOk result (λ b. BindsNamed b (is_taken self.old) (is_taken self.new) (λ x. one_if (has_name x (names_of others.entry.items ++ declared_names (children_forest body.entry)))) (good_body (names_of others.entry.items) (children_forest body.entry))) }
    {
        let mut names = others;
        let strict = names.len();
        add_names(&mut names, body, Part::Vars)?;
        let loose = names.len();
        add_names(&mut names, body, Part::Declarations)?;
        self.bind_scope(&names, strict, loose, alloc)
    }

    /// Binds the scope of a module. (Its imports stand behind the names of `var`s, which may not declare them again.)
    #[inline(never)]
    fn bind_module(&mut self, items: Children<'a>, alloc: Global) -> Result<Bound, AllocError>
        ensures { IfOk result (λ b. BindsNamed b (is_taken self.old) (is_taken self.new) (λ x. own_scopes x Module (children_forest items.entry)) (named_once Module (children_forest items.entry))) }
    {
        let mut names = Vec::new(alloc);
        add_names(&mut names, items, Part::Vars)?;
        let loose = names.len();
        add_names(&mut names, items, Part::Imports)?;
        add_names(&mut names, items, Part::Declarations)?;
        self.bind_scope(&names, 0, loose, alloc)
    }

    /// Binds the scopes of a function's parameters and body: one, or two beside a default.
    #[inline(never)]
    fn bind_function(&mut self, children: Children<'a>, alloc: Global) -> Result<Bound, AllocError>
        ensures { IfOk result (λ b. BindsNamed b (is_taken self.old) (is_taken self.new) (λ x. function_scopes x (children_forest children.entry)) (good_body (param_names (params_of (children_forest children.entry))) (body_of (children_forest children.entry)))) }
    {
        let params = half_of(children, Half::Params);
        let body = half_of(children, Half::Body);
        let mut names = Vec::new(alloc);
        add_names(&mut names, params, Part::Params)?;
        if !has_default(params) {
            return self.bind_list(names, body, alloc);
        }
        let outer_bound = self.bind_scope(&names, 0, 0, alloc)?;
        let inner_bound = self.bind_list(Vec::new(alloc), body, alloc)?;
        Ok(outer_bound.and(inner_bound))
    }

    /// Binds the scopes that a node opens, those of its children aside.
    #[inline(always)]
    pub(crate) fn bind_own(
        &mut self,
        kind: Kind<'a>,
        children: Children<'a>,
        alloc: Global,
    ) -> Result<Bound, AllocError>
        ensures { IfOk result (λ b. BindsNamed b (is_taken self.old) (is_taken self.new) (λ x. own_scopes x (kind_label kind.entry) (children_forest children.entry)) (named_once (kind_label kind.entry) (children_forest children.entry))) }
    {
        if !opens_scope(kind) {
            return Ok(Bound::Once);
        }
        self.bind_opened(kind, children, alloc)
    }

    /// The same of a node that opens one.
    #[inline(never)]
    fn bind_opened(
        &mut self,
        kind: Kind<'a>,
        children: Children<'a>,
        alloc: Global,
    ) -> Result<Bound, AllocError>
        ensures { IfOk result (λ b. BindsNamed b (is_taken self.old) (is_taken self.new) (λ x. own_scopes x (kind_label kind.entry) (children_forest children.entry)) (named_once (kind_label kind.entry) (children_forest children.entry))) }
    {
        match kind {
            Kind::Module => self.bind_module(children, alloc),
            Kind::Script => self.bind_list(Vec::new(alloc), children, alloc),
            _ => {
                let mut names = Vec::new(alloc);
                add_own_names(&mut names, kind, children)?;
                let own_bound = self.bind_scope(&names, 0, 0, alloc)?;
                if !is_function(kind) {
                    return Ok(own_bound);
                }
                let function_bound = self.bind_function(children, alloc)?;
                Ok(own_bound.and(function_bound))
            }
        }
    }
}
