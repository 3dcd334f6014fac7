//! The items of a module.
ghost use Rattle.std.specs.Prelude.{◌≡◌, IfOk, IfErr, OnOk};
ghost use Rattle.swc_ast.specs.Modules.{item_tree, module_tree};
ghost use Rattle.swc_ast.specs.declared.errors.PassError.TheVariants.{OutOfMemory};
ghost use Rattle.swc_pass.specs.Pass.{TellsChange};
ghost use Rattle.swc_utils.specs.Globals.{unresolved};
ghost use Rattle.tree_walk.specs.Walks as walks;
ghost use Rattle.tree_walk.specs.Walks.{Each, WholeMade};
ghost use Rattle.dce_rules.specs.Shakes.{shake_pass};
ghost use Rattle.dce_code.specs.Knowledge.{shaker};
ghost use Rattle.swc_dce.specs.Shaken.{Shaken};
ghost use Rattle.dce_uses.specs.Said.{Register, register_of};
ghost use Rattle.round_units.specs.Cleared.{Cleared, ItemCleared};
ghost use Rattle.round_units.specs.Rests.{AllKnown, AllSay, items_in};
ghost use Rattle.round_units.specs.Trees.{units_tree, tree_of};
ghost use Rattle.swc_ast.specs.declared.Span.{Span as TheSpan};

use crate::unit::Unit;
use branch_lists::tidy_items;
use dce_code::begins_with_asm;
use dce_uses::Uses;
use std::alloc::{AllocError, Global};
use std::marker::Model;
use std::mem;
use swc_ast::{Module, ModuleItem, PassError, Span};
use swc_branch::BranchRules;
use swc_dce::{ShakeRules, TreeShaker};
use swc_expr::ExprRules;
use swc_pass::{Made, Pass};

/// A module, as its items, with what is known of each of them.
#[derive(Drop)]
pub struct Units {
    span: Span,
    items: Vec<Unit>,
    /// The numbers of the names, by which is known what items say.
    uses: Uses,
}

impl Model for Units {
    ghost use Rattle.round_units.specs.Held.{Held};
    ghost use Rattle.std.specs.Coded.{codes};
    ghost use Rattle.swc_ast.specs.contracts.declarations.Decl as d;
    ghost use Rattle.swc_ast.specs.contracts.expressions.Expr as e;
    ghost use Rattle.swc_ast.specs.contracts.statements.Stmt as s;

    ghost Value = { Held };

    ghost coded = { Prim.hlevel (codes, d.the_row.coded, e.the_row.coded, s.the_row.coded) };

    ghost use Rattle.round_units.specs.Rests.{AllKnown, AllSay, items_in};
    ghost use Rattle.dce_uses.specs.Said.{register_of};

    ghost view = { λ u. record { span = u.span; items = items_in u.items.items } };

    ghost invariant = { λ u. AllKnown u.items.items × AllSay (register_of u.uses) u.items.items };
}

/// Items of which nothing is known.
fn units_of(alloc: Global, items: Vec<ModuleItem>) -> Result<Vec<Unit>, AllocError>
    ensures items { IfOk result (λ r. items_in r.items ≡ items.items) }
    ensures known { IfOk result (λ r. AllKnown r.items) }
    ensures said { IfOk result (λ r. (g : Register) → AllSay g r.items) }
{
    let mut out = Vec::with_capacity(alloc, items.len())?;
    for item in items {
        out.push(Unit::new(item))?;
    }
    Ok(out)
}

/// The items of units.
fn items_of(alloc: Global, units: Vec<Unit>) -> Result<Vec<ModuleItem>, AllocError>
    ensures { IfOk result (λ r. r.items ≡ items_in units.items) }
{
    let mut out = Vec::with_capacity(alloc, units.len())?;
    for unit in units {
        out.push(unit.into_item())?;
    }
    Ok(out)
}

/// Walks each unit by the expression simplifier and then by the remover of dead branches, and notes what it says of names then:
/// so the three read it while it is at hand.
fn clear_units(
    expressions: &ExprRules,
    branches: &BranchRules,
    uses: &mut Uses,
    items: &mut Vec<Unit>,
) -> Result<bool, AllocError>
    requires known { AllKnown items.old.items }
    requires said { AllSay (register_of uses.old) items.old.items }
    ensures cleared { IfOk result (λ c. Each (λ x y d. ItemCleared (unresolved expressions.now.ctx) (unresolved branches.now.ctx) x.item y.item d) items.old.items items.new.items c) }
    ensures known { OnOk result (AllKnown items.new.items) }
    ensures said { OnOk result (AllSay (register_of uses.new) items.new.items) }
{
    uses.forget();
    let mut changed = false;
    for i in 0..items.len() {
        let made = items[i].clear(expressions, branches, uses)?;
        changed = changed | made;
    }
    Ok(changed)
}

/// Walks units by the tree shaker.
fn shake_units(rules: &ShakeRules<'_>, items: &mut Vec<Unit>) -> Result<bool, AllocError>
    requires known { AllKnown items.old.items }
    requires said { AllSay (register_of rules.now.known.uses.now) items.old.items }
    ensures walked { IfOk result (λ c. Each (λ x y d. walks.Made (shake_pass (shaker rules.now.known)) (item_tree x.item) (item_tree y.item) d) items.old.items items.new.items c) }
    ensures known { OnOk result (AllKnown items.new.items) }
    ensures said { OnOk result ((g : Register) → AllSay g items.old.items → AllSay g items.new.items) }
{
    let mut changed = false;
    for i in 0..items.len() {
        let made = items[i].shake(rules)?;
        changed = changed | made;
    }
    Ok(changed)
}

/// Runs the tree shaker over units by its rules.
fn shake_by(rules: ShakeRules<'_>, items: &mut Vec<Unit>) -> Result<bool, AllocError>
    requires known { AllKnown items.old.items }
    requires said { AllSay (register_of rules.known.uses.now) items.old.items }
    ensures shaken { IfOk result (λ c. (s : TheSpan) → WholeMade (shake_pass (shaker rules.entry.known)) (tree_of s items.old.items) (tree_of s items.new.items) c) }
    ensures known { OnOk result (AllKnown items.new.items) }
    ensures said { OnOk result ((g : Register) → AllSay g items.old.items → AllSay g items.new.items) }
{
    if begins_with_asm(items) {
        return Ok(false);
    }
    let inside = shake_units(&rules, items)?;
    let left = rules.known.drop_items(items);
    Ok(inside | left)
}

impl Units {
    /// Takes a module apart. Fails if memory runs out.
    pub fn of(alloc: Global, module: Module) -> Result<Units, AllocError>
        ensures { IfOk result (λ u. units_tree u ≡ module_tree «module») }
    {
        let mut module = module;
        let body = mem::replace(&mut module.body, Vec::new(alloc));
        Ok(Units {
            span: module.span,
            items: units_of(alloc, body)?,
            uses: Uses::nothing(alloc),
        })
    }

    /// Puts the module together. Fails if memory runs out.
    pub fn into_module(self, alloc: Global) -> Result<Module, AllocError>
        ensures { IfOk result (λ m. module_tree m ≡ units_tree self) }
    {
        let Units {
            span,
            items,
            uses: _,
        } = self;
        Ok(Module {
            span,
            body: items_of(alloc, items)?,
        })
    }

    /// The same. Where most of what items said is of what they say no more, all that is known is forgotten, so that it doesn't pile
    /// up. Fails if memory runs out.
    fn uncrowded(self, alloc: Global) -> Result<Units, AllocError>
        ensures { IfOk result (λ u. units_tree u ≡ units_tree self) }
    {
        if !self.uses.is_crowded() {
            return Ok(self);
        }
        let whole = self.into_module(alloc)?;
        Units::of(alloc, whole)
    }

    /// Runs the expression simplifier and then the remover of dead branches by their rules. Returns what they made, and whether
    /// anything changed. Fails if memory runs out.
    pub fn clear(
        self,
        expressions: &ExprRules,
        branches: &BranchRules,
    ) -> Result<Made<Units>, AllocError>
        ensures { IfOk result (λ r. Cleared (unresolved expressions.now.ctx) (unresolved branches.now.ctx) (units_tree self) (units_tree r.whole) r.changed) }
    {
        let whole = self.uncrowded(branches.alloc)?;
        whole.clear_all(expressions, branches)
    }

    /// The same, with all that is known.
    fn clear_all(
        self,
        expressions: &ExprRules,
        branches: &BranchRules,
    ) -> Result<Made<Units>, AllocError>
        ensures { IfOk result (λ r. Cleared (unresolved expressions.now.ctx) (unresolved branches.now.ctx) (units_tree self) (units_tree r.whole) r.changed) }
    {
        let Units {
            span,
            mut items,
            mut uses,
        } = self;
        let inside = clear_units(expressions, branches, &mut uses, &mut items)?;
        let left = tidy_items(branches.alloc, &mut items)?;
        let whole = Units { span, items, uses };
        Ok(Made {
            whole,
            changed: inside | left,
        })
    }

    /// Runs the tree shaker. Returns what it made, and whether anything changed. Fails if memory runs out.
    pub fn shake(self, alloc: Global, names: &TreeShaker) -> Result<Made<Units>, PassError>
        ensures shaken { IfOk result (λ r. Shaken (⟦<TreeShaker as Pass>⟧.settings names.now) (units_tree self) (units_tree r.whole)) }
        ensures changed { IfOk result (λ r. TellsChange r.changed (units_tree self) (units_tree r.whole)) }
        ensures memory { IfErr result (λ e. e ≡ OutOfMemory) }
    {
        let Units {
            span,
            mut items,
            mut uses,
        } = self;
        uses.tell(&items)?;
        let rules = names.rules(alloc, &uses)?;
        let changed = shake_by(rules, &mut items)?;
        let whole = Units { span, items, uses };
        Ok(Made { whole, changed })
    }
}
