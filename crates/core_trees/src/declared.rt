//! Names that scopes declare.
ghost use Rattle.std.specs.Prelude.{◌≡◌, ◌&&◌, ◌||◌, not, [], IfOk, OnOk};
ghost use Rattle.swc_ast.specs.Scope.{has_name};
ghost use Rattle.swc_ast.specs.Tree as tree;
ghost use Rattle.swc_ast.specs.Tree.{same_name};
ghost use Rattle.swc_resolved.specs.Names.{name, names as names_of};
ghost use Rattle.core_trees.specs.Inside.{members, declares, with_names, without};

use std::alloc::{AllocError, Global};
use std::collections::HashSet;
use swc_resolved::Name;

/// Names that scopes declare.
#[derive(Drop)]
pub(crate) struct Declared<'a> {
    names: HashSet<Name<'a>>,
}

impl<'a> Declared<'a> {
    /// No names.
    pub(crate) fn new(alloc: Global) -> Declared<'a>
        ensures { members result ≡ [] }
    {
        Declared {
            names: HashSet::new(alloc),
        }
    }

    /// Whether a name is among them.
    pub(crate) fn contains(&self, x: Name<'a>) -> bool
        ensures { result ≡ has_name (name x.entry) (members self.now) }
    {
        self.names.contains(&x)
    }

    /// Puts a name in, and says whether it is new. Fails where memory is refused.
    fn insert(&mut self, x: Name<'a>) -> Result<bool, AllocError>
        ensures added { IfOk result (λ b. b ≡ not (has_name (name x.entry) (members self.old))) }
        ensures names { OnOk result ((y : tree.Name) → has_name y (members self.new) ≡ (has_name y (members self.old) || same_name y (name x.entry))) }
    {
        Ok(self.names.insert(x)?)
    }

    /// Takes a name out.
    fn remove(&mut self, x: Name<'a>)
        ensures { (y : tree.Name) → has_name y (members self.new) ≡ (has_name y (members self.old) && not (same_name y (name x.entry))) }
    {
        self.names.remove(&x);
    }

    /// Goes into a scope that declares some names. Gives what `close` has to take out again. Fails where memory is refused.
    pub(crate) fn open(
        &mut self,
        names: &[Name<'a>],
        alloc: Global,
    ) -> Result<Vec<Name<'a>>, AllocError>
        ensures inside { OnOk result (declares self.new ≡ with_names (names_of names.now) (declares self.old)) }
        ensures outside { IfOk result (λ new. without (names_of new.items) (declares self.new) ≡ declares self.old) }
    {
        let mut new = Vec::new(alloc);
        let mut left = names;
        while let [name, rest @ ..] = left {
            self.add(*name, &mut new)?;
            left = rest;
        }
        Ok(new)
    }

    /// Puts a name in, and into a list too if it is new.
    fn add(&mut self, x: Name<'a>, new: &mut Vec<Name<'a>>) -> Result<(), AllocError>
        ensures inside { OnOk result ((y : tree.Name) → has_name y (members self.new) ≡ (has_name y (members self.old) || same_name y (name x.entry))) }
        ensures outside { OnOk result ((y : tree.Name) → without (names_of new.new.items) (declares self.new) y ≡ without (names_of new.old.items) (declares self.old) y) }
    {
        if !self.insert(x)? {
            return Ok(());
        }
        new.push(x)?;
        Ok(())
    }

    /// Goes out of a scope again: takes out what `open` gave.
    pub(crate) fn close(&mut self, names: &[Name<'a>])
        ensures { declares self.new ≡ without (names_of names.now) (declares self.old) }
    {
        let mut left = names;
        while let [name, rest @ ..] = left {
            self.remove(*name);
            left = rest;
        }
    }
}
