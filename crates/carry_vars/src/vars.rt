//! The names of a tree.
ghost use Rattle.std.specs.Prelude.{◌≡◌, IfOk};
ghost use Rattle.swc_ast.specs.Modules.{module_tree, script_tree};
ghost use Rattle.swc_ast.specs.Parts.{ident_name};
ghost use Rattle.swc_ast.specs.Scope.{default_name};
ghost use Rattle.swc_ast.specs.Tree.{same_name};
ghost use Rattle.carry_rules.specs.Carry.{how_many, how_many_in, one};
ghost use Rattle.tree_visit.specs.Kinds.{kind_label};
ghost use Rattle.tree_visit.specs.Nodes.{node_tree, children_forest};
ghost use Rattle.carry_vars.specs.Told.{Notes, holds, tells_of, counted_if};
ghost use Rattle.carry_vars.specs.Counts.{counted};
ghost use Rattle.carry_vars.specs.Facts as told;

use crate::tally::{Tally, told_name};
use carry_tables::NameTable;
use std::alloc::{AllocError, Global};
use swc_ast::{Ident, Module, Script, SyntaxContext};
use swc_names::Names;
use tree_visit::{Children, Kind, Node};

/// What a module or a script says of its names.
#[derive(Drop)]
pub struct Vars<'a> {
    table: NameTable<'a, Tally>,
}

/// Whether a name is that of a default export that has no other.
fn is_default(name: &Ident) -> bool
    ensures { result ≡ same_name (ident_name name.now) default_name }
{
    name.ctxt == SyntaxContext::empty() && name.sym.as_str() == "*default*"
}

impl<'a> Vars<'a> {
    /// Reads a module, whose names are given. Fails where memory is refused.
    pub fn of_module(alloc: Global, names: &'a Names, m: &Module) -> Result<Vars<'a>, AllocError>
        requires { told.AreNamesOf names.now (module_tree m.now) }
        ensures { IfOk result (λ v. told.Tells v (module_tree m.now)) }
    {
        let mut table = NameTable::new(alloc, names, Tally::empty())?;
        count(&mut table, Node::Module(m));
        Ok(Vars { table })
    }

    /// Reads a script, whose names are given. Fails where memory is refused.
    pub fn of_script(alloc: Global, names: &'a Names, s: &Script) -> Result<Vars<'a>, AllocError>
        requires { told.AreNamesOf names.now (script_tree s.now) }
        ensures { IfOk result (λ v. told.Tells v (script_tree s.now)) }
    {
        let mut table = NameTable::new(alloc, names, Tally::empty())?;
        count(&mut table, Node::Script(s));
        Ok(Vars { table })
    }

    /// The names of the tree.
    pub fn names(&self) -> &'a Names
        ensures { result.now ≡ self.now.table.names.now }
    {
        self.table.names()
    }

    /// Whether a name stands for what it holds once it holds it.
    pub fn is_steady(&self, name: &Ident) -> bool
        ensures { result ≡ told.steady_of self.now (ident_name name.now) }
    {
        let Some(t) = self.table.get(name) else {
            return false;
        };
        !is_default(name)
            && t.declared.is_one()
            && t.written.is_zero()
            && t.variable.is_zero()
            && t.imported.is_zero()
    }

    /// Whether one `const` declares a name, and nothing else does.
    pub fn is_constant(&self, name: &Ident) -> bool
        ensures { result ≡ told.constant_of self.now (ident_name name.now) }
    {
        let Some(t) = self.table.get(name) else {
            return false;
        };
        !is_default(name) && t.declared.is_one() && t.constant.is_one()
    }

    /// Whether one `var` declares a name, and nothing else does, and nothing writes it.
    pub fn is_variable(&self, name: &Ident) -> bool
        ensures { result ≡ told.variable_of self.now (ident_name name.now) }
    {
        let Some(t) = self.table.get(name) else {
            return false;
        };
        !is_default(name) && t.declared.is_one() && t.written.is_zero() && t.variable.is_one()
    }

    /// Whether a name is never set: one `let` or some `var`s declare it without initialisers, and nothing writes it.
    pub fn is_unset(&self, name: &Ident) -> bool
        ensures { result ≡ told.unset_of self.now (ident_name name.now) }
    {
        let Some(t) = self.table.get(name) else {
            return false;
        };
        !is_default(name)
            && t.written.is_zero()
            && !t.unset.is_zero()
            && t.set.is_zero()
            && (t.declared.is_one() || t.lexical.is_zero())
    }
}

/// Counts what a tree tells.
#[cycle(count)]
fn count(table: &mut NameTable<'_, Tally>, n: Node<'_>)
    ensures { Notes table.old table.new (λ f x. counted (how_many (tells_of f x) (node_tree n.entry))) }
{
    let opened = n.open_apart();
    note(table, opened.kind, opened.children);
    count_all(table, opened.children);
}

/// Notes what a node tells by itself. (Inlined, it would double what a level of the tree takes of the stack.)
#[inline(never)]
fn note(table: &mut NameTable<'_, Tally>, kind: Kind<'_>, children: Children<'_>)
    ensures { Notes table.old table.new (λ f x. counted (one (tells_of f x (kind_label kind.entry) (children_forest children.entry)))) }
{
    if let Some(name) = told_name(kind) {
        add(table, name, Tally::of(kind, children));
    }
}

/// Counts what trees tell.
#[cycle(count)]
fn count_all(table: &mut NameTable<'_, Tally>, children: Children<'_>)
    ensures { Notes table.old table.new (λ f x. counted (how_many_in (tells_of f x) (children_forest children.entry))) }
{
    let mut left = children;
    while let Some((child, rest)) = left.next() {
        count(table, child);
        left = rest;
    }
}

/// Notes more of a name.
fn add(table: &mut NameTable<'_, Tally>, name: &Ident, more: Tally)
    ensures { Notes table.old table.new (λ f x. counted_if (same_name x (ident_name name.now)) (holds more f)) }
{
    if let Some(tally) = table.get(name) {
        table.set(name, tally.and(more));
    }
}
