//! Reads a tree once.
ghost use Rattle.std.specs.Prelude.{◌≡◌, ◌≤◌, [], ◌∷◌, ◌++◌, OnOk, length};
ghost use Rattle.swc_ast.specs.Parts.{ident_name, optional_trees};
ghost use Rattle.swc_ast.specs.Statements.{declarator_tree};
ghost use Rattle.swc_ast.specs.Views.{expr_tree};
ghost use Rattle.swc_ast.specs.declared.VarDeclKind.TheVariants as declared;
ghost use Rattle.carry_rules.specs.Carry as carry;
ghost use Rattle.tree_visit.specs.Kinds.{kind_label};
ghost use Rattle.tree_visit.specs.Nodes.{node_tree, children_forest};
ghost use Rattle.carry_parts.specs.Carries.{pass_of, puts_of};
ghost use Rattle.carry_parts.specs.Reads.{own_reads};
ghost use Rattle.carry_reads.specs.States.{facts_of, value_at, state_of, Fits};
ghost use Rattle.carry_reads.specs.Walks.{behind_tree, puts, Steps, Walks, WalksAll};

use crate::declaration::{Declares, declaration, is_nowhere};
use crate::front::add_front;
use crate::kinds::asked;
use crate::place::Place;
use crate::ready::add;
use crate::tables::Tables;
use crate::values::{add_value, value};
use carry_parts::{Carry, Pass, either};
use carry_vars::Vars;
use std::alloc::AllocError;
use swc_ast::{Ident, VarDeclKind, VarDeclarator};
use tree_visit::{Children, Kind, Node};

/// Reads for a pass, by what a tree says of its names.
#[derive(Drop)]
pub(crate) struct Reader<'a> {
    pub(crate) pass: Pass,
    pub(crate) vars: Vars<'a>,
}

impl<'a> Reader<'a> {
    /// What is carried of a name from the start.
    fn starting(&self, name: &Ident) -> Option<Carry<'a>>
        ensures { puts_of result ≡ (carry.starting (pass_of self.now.pass) (facts_of self.now.vars)).values (ident_name name.now) }
    {
        match self.pass {
            Pass::Constants => None,
            Pass::Inlines => {
                if self.vars.is_unset(name) {
                    Some(Carry::Void)
                } else {
                    None
                }
            }
        }
    }

    /// What is carried of a name of `let` or `const`, or of one that is never set.
    pub(crate) fn value(&self, tables: &Tables<'a>, name: &Ident) -> Option<Carry<'a>>
        ensures { puts_of result ≡ value_at self.now tables.now (ident_name name.now) }
    {
        either(self.starting(name), value(&tables.values, name))
    }

    /// What is carried of a name.
    pub(crate) fn carried(
        &self,
        tables: &Tables<'a>,
        place: Place,
        name: &Ident,
    ) -> Option<Carry<'a>>
        ensures { puts_of result ≡ carry.carried (state_of self.now tables.now place) (ident_name name.now) }
    {
        if place.quiet {
            None
        } else {
            either(
                self.value(tables, name),
                tables.settled.get(place.base, name),
            )
        }
    }

    /// Whether something may be carried of a name of `let` or `const`.
    fn may_carry(&self, name: &Ident) -> bool
        ensures { result ≡ carry.may_carry (pass_of self.now.pass) (facts_of self.now.vars) (ident_name name.now) }
    {
        match self.pass {
            Pass::Constants => self.vars.is_constant(name),
            Pass::Inlines => self.vars.is_steady(name),
        }
    }

    /// Whether something may be carried of a variable.
    fn may_settle(&self, name: &Ident) -> bool
        ensures { result ≡ carry.may_settle (pass_of self.now.pass) (facts_of self.now.vars) (pass_of self.now.pass) (ident_name name.now) }
    {
        match self.pass {
            Pass::Constants => false,
            Pass::Inlines => self.vars.is_variable(name),
        }
    }

    /// What is carried of the name of a declarator of `let` or `const`.
    fn entry(&self, tables: &Tables<'a>, place: Place, n: &'a VarDeclarator) -> Option<Carry<'a>>
        ensures { puts_of result ≡ carry.entry (pass_of self.now.pass) (facts_of self.now.vars) (state_of self.now tables.now place) (ident_name n.now.name) (n.now.span ∷ n.now.name.span ∷ []) (optional_trees expr_tree n.now.init) }
    {
        if place.quiet || !self.may_carry(&n.name) {
            None
        } else {
            self.initial(tables, place, n)
        }
    }

    /// What is carried of the name of a declarator of `var`.
    fn settling(&self, tables: &Tables<'a>, place: Place, n: &'a VarDeclarator) -> Option<Carry<'a>>
        ensures { puts_of result ≡ carry.settling (pass_of self.now.pass) (facts_of self.now.vars) (state_of self.now tables.now place) (ident_name n.now.name) (n.now.span ∷ n.now.name.span ∷ []) (optional_trees expr_tree n.now.init) }
    {
        if place.quiet || !(place.listed && self.may_settle(&n.name)) {
            None
        } else {
            self.initial(tables, place, n)
        }
    }

    /// Carries what a declarator of `let` or `const` gives its name.
    fn carry(
        &self,
        tables: &mut Tables<'a>,
        place: Place,
        n: &'a VarDeclarator,
    ) -> Result<(), AllocError>
        requires { Fits self.now.vars tables.old }
        ensures { OnOk result (Steps self.now place tables.old tables.new (behind_tree (pass_of self.now.pass) (facts_of self.now.vars) (declarator_tree expr_tree declared.Let n.now) (state_of self.now tables.old place))) }
    {
        let carry = self.entry(tables, place, n);
        add_value(&mut tables.values, &n.name, carry);
        add(&self.vars, &mut tables.ready, &n.name)?;
        Ok(())
    }

    /// Carries what a declarator of `var` gives its name.
    fn settle(
        &self,
        tables: &mut Tables<'a>,
        place: Place,
        n: &'a VarDeclarator,
    ) -> Result<(), AllocError>
        requires fits { Fits self.now.vars tables.old }
        requires room { place.base ≤ length tables.old.settled.carries.items }
        ensures { OnOk result (Steps self.now place tables.old tables.new (behind_tree (pass_of self.now.pass) (facts_of self.now.vars) (declarator_tree expr_tree declared.Var n.now) (state_of self.now tables.old place))) }
    {
        match self.settling(tables, place, n) {
            Some(carry) => {
                tables.settled.add(place.base, &n.name, carry)?;
                Ok(())
            }
            None => Ok(()),
        }
    }

    /// Carries what a declarator gives its name.
    #[inline(never)]
    fn behind(&self, tables: &mut Tables<'a>, n: Node<'a>, place: Place) -> Result<(), AllocError>
        requires fits { Fits self.now.vars tables.old }
        requires room { place.base ≤ length tables.old.settled.carries.items }
        ensures { OnOk result (Steps self.now place tables.old tables.new (behind_tree (pass_of self.now.pass) (facts_of self.now.vars) (node_tree n.entry) (state_of self.now tables.old place))) }
    {
        match declaration(n) {
            Declares::One(kind, n) => match kind {
                VarDeclKind::Var => self.settle(tables, place, n),
                VarDeclKind::Let | VarDeclKind::Const => self.carry(tables, place, n),
            },
            _ => Ok(()),
        }
    }

    /// Lists what is put for the name that a node reads.
    fn note(
        &self,
        tables: &Tables<'a>,
        reads: &mut Vec<Option<Carry<'a>>>,
        kind: Kind<'a>,
        place: Place,
    ) -> Result<(), AllocError>
        ensures { OnOk result (puts reads.new.items ≡ puts reads.old.items ++ own_reads (pass_of self.now.pass) (facts_of self.now.vars) (state_of self.now tables.now place) (kind_label kind.entry)) }
    {
        if place.quiet {
            return Ok(());
        }
        if let Some(name) = asked(self.pass, kind) {
            reads.push(self.carried(tables, place, name))?;
        }
        Ok(())
    }

    /// Reads a tree.
    #[cycle(node)]
    pub(crate) fn node(
        &self,
        tables: &mut Tables<'a>,
        reads: &mut Vec<Option<Carry<'a>>>,
        n: Node<'a>,
        place: Place,
    ) -> Result<(), AllocError>
        requires fits { Fits self.now.vars tables.old }
        requires room { place.base ≤ length tables.old.settled.carries.items }
        ensures { OnOk result (Walks self.now place tables.old tables.new (puts reads.old.items) (puts reads.new.items) (node_tree n.entry)) }
    {
        let opened = n.open_apart();
        self.note(tables, reads, opened.kind, place)?;
        let mark = tables.mark();
        add_front(&self.vars, &mut tables.ready, n)?;
        let next = tables.settled.next();
        let below = place.below(self.pass, opened.kind, is_nowhere(n), next);
        self.nodes(tables, reads, opened.children, below)?;
        tables.leave(opened.kind, place.listed, mark);
        self.behind(tables, n, place)
    }

    /// Reads trees, one after another.
    #[cycle(node)]
    fn nodes(
        &self,
        tables: &mut Tables<'a>,
        reads: &mut Vec<Option<Carry<'a>>>,
        children: Children<'a>,
        place: Place,
    ) -> Result<(), AllocError>
        requires fits { Fits self.now.vars tables.old }
        requires room { place.base ≤ length tables.old.settled.carries.items }
        ensures { OnOk result (WalksAll self.now place tables.old tables.new (puts reads.old.items) (puts reads.new.items) (children_forest children.entry)) }
    {
        let mut left = children;
        while let Some((child, rest)) = left.next() {
            self.node(tables, reads, child, place)?;
            left = rest;
        }
        Ok(())
    }
}
