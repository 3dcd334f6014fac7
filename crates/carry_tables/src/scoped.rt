//! Numbers that last until a scope ends.
ghost use Rattle.std.specs.Prelude.{◌≡◌, IfOk, OnOk, if◌then◌else◌, option_map, position};
ghost use Rattle.swc_ast.specs.Parts.{ident_name};
ghost use Rattle.swc_ast.specs.Tree.{Name, same_name};
ghost use Rattle.carry_tables.specs.Tables.{item_of, height, Keeps, Rewinds};

use crate::table::NameTable;
use std::alloc::{AllocError, Global};
use swc_ast::Ident;
use swc_names::Names;

/// A table of numbers, which become again what they were at the head of a scope.
#[derive(Drop)]
pub struct Scoped<'a> {
    table: NameTable<'a, usize>,
    /// the names whose items were changed, with the items of before
    log: Vec<(&'a Ident, usize)>,
}

impl<'a> Scoped<'a> {
    /// The same item for each name. Fails where memory is refused.
    pub fn new(alloc: Global, names: &'a Names, item: usize) -> Result<Scoped<'a>, AllocError>
        ensures items { IfOk result (λ u. (x : Name) → item_of u x ≡ option_map (λ n. item) (position (same_name x) names.now)) }
        ensures height { IfOk result (λ u. height u ≡ 0) }
    {
        let table = NameTable::new(alloc, names, item)?;
        Ok(Scoped {
            table,
            log: Vec::new(alloc),
        })
    }

    /// The item of a name, if the tree has the name.
    pub fn get(&self, name: &Ident) -> Option<usize>
        ensures { result ≡ item_of self.now (ident_name name.now) }
    {
        self.table.get(name)
    }

    /// How many changes there were.
    pub fn height(&self) -> usize
        ensures { result ≡ height self.now }
    {
        self.log.len()
    }

    /// Changes the item of a name, if the tree has the name. Fails where memory is refused.
    pub fn set(&mut self, name: &'a Ident, item: usize) -> Result<(), AllocError>
        ensures items { OnOk result ((x : Name) → item_of self.new x ≡ option_map (λ t. if same_name (ident_name name.now) x then item else t) (item_of self.old x)) }
        ensures keeps { OnOk result (Keeps self.old self.new) }
    {
        let Some(old) = self.table.get(name) else {
            return Ok(());
        };
        self.log.push((name, old))?;
        self.table.set(name, item);
        Ok(())
    }

    /// Undoes the changes behind the first `height`.
    pub fn rewind(&mut self, height: usize)
        ensures { Rewinds height self.old self.new }
    {
        while self.log.len() > height {
            if let Some((name, old)) = self.log.pop() {
                self.table.set(name, old);
            }
        }
    }
}
