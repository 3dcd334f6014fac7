//! Names by number.
ghost use Rattle.std.specs.Prelude.{◌≡◌, IfOk, IfErr, OnOk, IfSome, Some, [], length, position, slice_get, option_map};
ghost use Rattle.swc_ast.specs.Modules.{item_tree};
ghost use Rattle.swc_ast.specs.Parts.{ident_name, list_trees};
ghost use Rattle.swc_ast.specs.Tree.{same_name};
ghost use Rattle.swc_ast.specs.declared.errors.PassError.TheVariants.{OutOfMemory};
ghost use Rattle.swc_names.specs.Ids.{id_name, ids, idents};
ghost use Rattle.swc_names.specs.Names.{mentioned, with_name, distinct};

use crate::gather::{Choice, gather};
use crate::keys::Key;
use indexmap::IndexSet;
use std::alloc::{AllocError, Global};
use std::marker::Model;
use stmt_like::StmtLike;
use swc_ast::{Id, Ident, PassError};

/// The names of a tree, with numbers from 0 on in the order in which they first stand in the text.
#[derive(Drop)]
pub struct Names {
    set: IndexSet<Id>,
}

impl Model for Names {
    ghost use Rattle.std.specs.Prelude.{List};
    ghost use Rattle.swc_ast.specs.Tree as tree;
    ghost use Rattle.swc_names.specs.Ids.{ids};

    ghost Value = { List tree.Name };

    ghost view = { λ n. ids n.set.keys };
}

impl Names {
    /// Returns the names of the items of a module, or of statements. Fails if memory runs out.
    pub fn new<T: StmtLike>(alloc: Global, items: &[T]) -> Result<Names, PassError>
        ensures names { IfOk result (λ n. n ≡ distinct (mentioned (list_trees (λ x. item_tree (T.item x)) items.now))) }
        ensures memory { IfErr result (λ e. e ≡ OutOfMemory) }
    {
        let names = gather(alloc, items, Choice::Every)?;
        let set = set_of(alloc, &names)?;
        Ok(Names { set })
    }

    /// Returns an empty table, to which `add` adds.
    pub fn empty(alloc: Global) -> Names
        ensures { result ≡ [] }
    {
        Names {
            set: IndexSet::new(alloc),
        }
    }

    /// The number of an identifier's name. A name that has none gets the next, behind those of the others. Fails where memory is
    /// refused.
    #[inline(always)]
    pub fn add(&mut self, name: &Ident) -> Result<usize, AllocError>
        ensures names { OnOk result (self.new ≡ with_name self.old (ident_name name.now)) }
        ensures number { IfOk result (λ n. position (same_name (ident_name name.now)) self.new ≡ Some n) }
    {
        if let Some(number) = self.set.get_index_of(Key::of(name)) {
            return Ok(number);
        }
        let (number, _) = self.set.insert_full(name.to_id()?)?;
        Ok(number)
    }

    /// Returns the number of a name, if it is in the tree.
    pub fn number(&self, id: &Id) -> Option<usize>
        ensures number { result ≡ position (same_name (id_name id.now)) self.now }
        ensures named { IfSome result (λ n. slice_get self.now n ≡ Some (id_name id.now)) }
    {
        self.set.get_index_of(id)
    }

    /// Returns the number of an identifier's name, if it is in the tree.
    pub fn number_of(&self, name: &Ident) -> Option<usize>
        ensures number { result ≡ position (same_name (ident_name name.now)) self.now }
        ensures named { IfSome result (λ n. slice_get self.now n ≡ Some (ident_name name.now)) }
    {
        self.set.get_index_of(Key::of(name))
    }

    /// Returns the name of a number, if there is one.
    pub fn id(&self, number: usize) -> Option<&Id>
        ensures name { option_map (λ i. id_name i.now) result ≡ slice_get self.now number }
        ensures numbered { IfSome result (λ i. position (same_name (id_name i.now)) self.now ≡ Some number) }
    {
        self.set.as_slice().get(number)
    }

    /// Returns how many names there are. Their numbers are those below.
    pub fn len(&self) -> usize
        ensures { result ≡ length self.now }
    {
        self.set.len()
    }
}

/// The set of names, in their order.
fn set_of(alloc: Global, names: &[&Ident]) -> Result<IndexSet<Id>, AllocError>
    ensures { IfOk result (λ s. ids s.keys ≡ distinct (idents names.now)) }
{
    let mut set = IndexSet::new(alloc);
    let mut left = names;
    while let [name, rest @ ..] = left {
        add(&mut set, name)?;
        left = rest;
    }
    Ok(set)
}

/// Adds a name, if it isn't there yet.
fn add(set: &mut IndexSet<Id>, name: &Ident) -> Result<(), AllocError>
    ensures { OnOk result (ids set.new.keys ≡ with_name (ids set.old.keys) (ident_name name.now)) }
{
    if !set.contains(Key::of(name)) {
        set.insert(name.to_id()?)?;
    }
    Ok(())
}
