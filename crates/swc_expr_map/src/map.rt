//! A map with expressions for keys.
ghost use Rattle.std.specs.Prelude.{◌≡◌, ◌+◌, [], length, is_some, Some, option_map, if◌then◌else◌, IfErr, OnOk, OnErr};
ghost use Rattle.swc_ast.specs.Tree.{Tree};
ghost use Rattle.swc_ast.specs.Views.{expr_tree};
ghost use Rattle.swc_ast.specs.declared.errors.PassError.TheVariants.{OutOfMemory};
ghost use Rattle.swc_expr_map.specs.Order.{same_key};
ghost use Rattle.swc_expr_map.specs.Entries.{found, number_of, value_at, name_at};

use crate::leading::leading_name;
use crate::search_tree::SearchTree;
use std::alloc::Global;
use std::marker::Model;
use swc_ast::{Expr, PassError};
use tree_visit::open_expr;

/// Values by expressions. Keys are compared without spans and contexts, and have numbers from 0 on in their order.
#[derive(Drop)]
pub struct GlobalExprMap {
    alloc: Global,
    entries: SearchTree,
}

/// More entries than memory can hold.
const MOST_ENTRIES: usize = 1 << 60;

impl Model for GlobalExprMap {
    ghost use Rattle.std.specs.Coded.{codes};
    ghost use Rattle.swc_ast.specs.contracts.expressions.Expr as e;
    ghost use Rattle.std.specs.Prelude.{List};
    ghost use Rattle.swc_expr_map.specs.Entries.{IsSorted};
    ghost use Rattle.swc_expr_map.specs.declared.entry.Entry.{Entry};

    ghost Value = { List Entry };

    ghost coded = { Prim.hlevel (codes, e.the_row.coded) };

    ghost view = { λ m. m.entries };

    ghost invariant = { λ m. IsSorted m.entries };
}

impl GlobalExprMap {
    /// Returns a map without keys.
    pub fn new(alloc: Global) -> GlobalExprMap
        ensures { result ≡ [] }
    {
        GlobalExprMap {
            alloc,
            entries: SearchTree::new(),
        }
    }

    /// Inserts a value at a key, in place of the one that is there. Fails if memory runs out, and then changes nothing.
    pub fn insert(&mut self, key: Expr, value: Expr) -> Result<(), PassError>
        ensures get { OnOk result ((t : Tree) → found t self.new ≡ (if same_key t (expr_tree key) then Some (expr_tree value) else found t self.old)) }
        ensures count { OnOk result (length self.new ≡ (if is_some (found (expr_tree key) self.old) then length self.old else length self.old + 1)) }
        ensures unchanged { OnErr result (self.new ≡ self.old) }
        ensures memory { IfErr result (λ e. e ≡ OutOfMemory) }
    {
        if self.entries.len() >= MOST_ENTRIES {
            return Err(PassError::OutOfMemory);
        }
        Ok(self.entries.insert(self.alloc, key, value)?)
    }

    /// Returns the value at a key, if there is one.
    pub fn get(&self, key: &Expr) -> Option<&Expr>
        ensures { option_map (λ e. expr_tree e.now) result ≡ found (expr_tree key.now) self.now }
    {
        self.entries.get(key)
    }

    /// Returns how many keys there are. Their numbers are those below.
    pub fn len(&self) -> usize
        ensures { result ≡ length self.now }
    {
        self.entries.len()
    }

    /// Returns the number of a key, if the map has it.
    pub fn number(&self, key: &Expr) -> Option<usize>
        ensures { result ≡ number_of (expr_tree key.now) self.now }
    {
        self.entries.number(key)
    }

    /// Returns the value at the key of a number, if there is such a key.
    pub fn value(&self, number: usize) -> Option<&Expr>
        ensures { option_map (λ e. expr_tree e.now) result ≡ value_at self.now number }
    {
        Some(&self.entries.entry(number)?.value)
    }

    /// Returns the text of the name that the key of a number begins with: `None` where the key is no chain of members from a name
    /// on, and where no key has the number.
    pub fn name(&self, number: usize) -> Option<&str>
        ensures { option_map (λ s. s.now) result ≡ name_at self.now number }
    {
        leading_name(open_expr(&self.entries.entry(number)?.key))
    }
}
