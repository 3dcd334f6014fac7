//! One item for each name.
ghost use Rattle.std.specs.Prelude.{◌≡◌, IfOk, if◌then◌else◌, option_map, position};
ghost use Rattle.swc_ast.specs.Parts.{ident_name};
ghost use Rattle.swc_ast.specs.Tree.{Name, same_name};
ghost use Rattle.carry_tables.specs.Tables.{at};

use std::alloc::{AllocError, Global};
use swc_ast::Ident;
use swc_names::Names;

/// A table with an item for each name of a tree.
#[derive(Drop)]
pub struct NameTable<'n, T: Copy> {
    names: &'n Names,
    items: Vec<T>,
}

impl<'n, T: Copy> NameTable<'n, T> {
    /// The same item for each name. Fails where memory is refused.
    pub fn new(alloc: Global, names: &'n Names, item: T) -> Result<NameTable<'n, T>, AllocError>
        ensures { IfOk result (λ u. (x : Name) → at u x ≡ option_map (λ n. item) (position (same_name x) names.now)) }
    {
        let len = names.len();
        let mut items = Vec::with_capacity(alloc, len)?;
        while items.len() < len {
            items.push(item)?;
        }
        Ok(NameTable { names, items })
    }

    /// The names of the tree.
    pub fn names(&self) -> &'n Names
        ensures { result.now ≡ self.now.names.now }
    {
        self.names
    }

    /// The item of a name, if the tree has the name.
    pub fn get(&self, name: &Ident) -> Option<T>
        ensures { result ≡ at self.now (ident_name name.now) }
    {
        let number = self.names.number_of(name)?;
        if number < self.items.len() {
            Some(self.items[number])
        } else {
            None
        }
    }

    /// Changes the item of a name, if the tree has the name.
    pub fn set(&mut self, name: &Ident, item: T)
        ensures { (x : Name) → at self.new x ≡ option_map (λ t. if same_name (ident_name name.now) x then item else t) (at self.old x) }
    {
        let Some(number) = self.names.number_of(name) else {
            return;
        };
        if number < self.items.len() {
            self.items[number] = item;
        }
    }
}
