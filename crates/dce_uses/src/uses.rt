//! How the names of a tree are used.
ghost use Rattle.std.specs.Prelude.{◌≡◌, true, false, List, [], IfSome, IfOk, IfErr, OnOk, IsTrue, length, nat_lt, vec_len, ◌/◌, ◌≤◌};
ghost use Rattle.swc_ast.specs.Modules.{item_tree, module_tree, script_tree};
ghost use Rattle.swc_ast.specs.Parts.{ident_name, list_trees};
ghost use Rattle.swc_ast.specs.Scope.{default_name, has_name};
ghost use Rattle.swc_ast.specs.Tree as trees;
ghost use Rattle.swc_ast.specs.Tree.{same_name, node, ε, ◌⊳◌};
ghost use Rattle.swc_ast.specs.declared.Span.{Span};
ghost use Rattle.swc_ast.specs.declared.errors.PassError.TheVariants.{OutOfMemory};
ghost use Rattle.swc_names.specs.Ids.{ids};
ghost use Rattle.tree_visit.specs.Kinds.{kind_label};
ghost use Rattle.tree_visit.specs.Nodes.{node_tree, children_forest};
ghost use Rattle.dce_uses.specs.Tables as tables;
ghost use Rattle.dce_uses.specs.Items.{IsUnused, NotesItem, NotesTree};
ghost use Rattle.dce_uses.specs.Said.{Adds, AllSaid, AreNumbered, Grows, IsWithin, OnlyFree, Says, frees, is_number, register_of, row_says, rows_of};
ghost use Rattle.dce_uses.specs.Tables.{names_of};
ghost use Rattle.dce_uses.specs.declared.tally.Fact.TheVariants as fact;

use crate::exports::is_nameless;
use crate::gone::is_one_of;
use crate::place::Place;
use crate::said::{Row, Said, Speaks};
use crate::table::Table;
use crate::tally::Fact;
use std::alloc::{AllocError, Global};
use stmt_like::StmtLike;
use swc_ast::{Id, Ident, Module, PassError, Script, SyntaxContext};
use swc_names::open_item;
use tree_visit::{Node, Opened};

/// How the names of a module or a script are used, in all its places.
#[derive(Drop)]
pub struct Uses {
    table: Table,
    exports_default: bool,
    /// What items said.
    rows: Vec<Row>,
    /// How many of these rows were noted, since all was forgotten.
    told: usize,
}

/// Whether a name is that of a default export that has no other.
pub fn is_default(name: &Ident) -> bool
    ensures { result ≡ same_name (ident_name name.now) default_name }
{
    name.ctxt == SyntaxContext::empty() && name.sym.as_str() == "*default*"
}

/// The place behind rows. Fails if there are more than a `u32` counts.
fn place(rows: &Vec<Row>) -> Result<u32, AllocError>
    ensures { IfOk result (λ n. n ≡ vec_len rows.now) }
{
    match u32::try_from(rows.len()) {
        Ok(place) => Ok(place),
        Err(_) => Err(AllocError),
    }
}

impl Uses {
    /// Uses of which nothing was noted.
    pub fn nothing(alloc: Global) -> Uses
        ensures { IsUnused result }
    {
        Uses {
            table: Table::new(alloc),
            exports_default: false,
            rows: Vec::new(alloc),
            told: 0,
        }
    }

    /// Notes how an item of a module uses names.
    fn note_item(&mut self, item: Opened<'_>) -> Result<(), AllocError>
        ensures notes { OnOk result (NotesItem self.old self.new (kind_label item.entry.kind) (children_forest item.entry.children)) }
        ensures rows { self.new.rows ≡ self.old.rows }
    {
        self.table.count_opened(item, Place::top())?;
        self.table.note_exported(item.kind, item.children)?;
        self.exports_default = self.exports_default | is_nameless(item.kind);
        Ok(())
    }

    /// Forgets what was noted. Names keep their numbers.
    pub fn forget(&mut self)
        ensures unused { IsUnused self.new }
        ensures register { register_of self.new ≡ register_of self.old }
    {
        self.table.forget();
        self.exports_default = false;
        self.told = 0;
    }

    /// Whether most rows are of what no item says any more: seven eighths of them weren't noted.
    pub fn is_crowded(&self) -> bool
        ensures { result ≡ nat_lt self.now.told (vec_len self.now.rows / 8) }
    {
        self.told < self.rows.len() / 8
    }

    /// What an item says by itself. Nothing of it stays noted.
    pub fn said<T: StmtLike>(&mut self, item: &T) -> Result<Said, AllocError>
        requires { IsUnused self.old }
        ensures unused { OnOk result (IsUnused self.new) }
        ensures grows { OnOk result (Grows (register_of self.old) (register_of self.new)) }
        ensures says { IfOk result (λ s. Says (register_of self.new) s (item_tree (T.item item.now))) }
    {
        self.note_item(open_item(item))?;
        let exports_default = self.exports_default;
        self.exports_default = false;
        let start = place(&self.rows)?;
        self.table.take_rows(&mut self.rows)?;
        let end = place(&self.rows)?;
        Ok(Said {
            start,
            end,
            exports_default,
        })
    }

    /// Notes what an item says.
    fn add(&mut self, said: Said) -> Result<(), AllocError>
        requires within { IsWithin (register_of self.old) said }
        requires numbers { AreNumbered (names_of self.old) (rows_of (register_of self.old) said) }
        ensures adds { OnOk result (Adds self.old self.new said) }
        ensures rows { self.new.rows ≡ self.old.rows }
    {
        let rows = &self.rows[said.start as usize..said.end as usize];
        self.told = self.told.saturating_add(rows.len());
        self.table.add_rows(rows)?;
        self.exports_default = self.exports_default | said.exports_default;
        Ok(())
    }

    /// Notes what an item says, by what is known of it or by a count.
    fn add_item<T: Speaks>(&mut self, item: &T) -> Result<(), AllocError>
        requires { IfSome (T.tells item.now) (λ s. Says (register_of self.old) s (item_tree (T.item item.now))) }
        ensures notes { OnOk result (NotesTree self.old self.new (item_tree (T.item item.now))) }
        ensures rows { self.new.rows ≡ self.old.rows }
    {
        match item.said() {
            Some(said) => self.add(said),
            None => self.note_item(open_item(item)),
        }
    }

    /// Notes what the items of a module say, by what is known of them or by a count. Refuses where memory is refused.
    pub fn tell<T: Speaks>(&mut self, items: &[T]) -> Result<(), PassError>
        requires said { AllSaid (register_of self.old) T.item T.tells items.now }
        ensures tells { OnOk result ((ss : List Span) → tables.Tells self.new (node trees.Module ss (list_trees (λ x. item_tree (T.item x)) items.now))) }
        ensures grows { OnOk result (Grows (register_of self.old) (register_of self.new)) }
        ensures memory { IfErr result (λ e. e ≡ OutOfMemory) }
    {
        self.forget();
        let mut left = items;
        while let [item, rest @ ..] = left {
            self.add_item(item)?;
            left = rest;
        }
        Ok(())
    }

    /// How a module uses its names. Refuses where memory is refused.
    pub fn of_module(alloc: Global, m: &Module) -> Result<Uses, PassError>
        ensures tells { IfOk result (λ u. tables.Tells u (module_tree m.now)) }
        ensures memory { IfErr result (λ e. e ≡ OutOfMemory) }
    {
        let mut uses = Uses::nothing(alloc);
        uses.tell(&m.body)?;
        Ok(uses)
    }

    /// How a script uses its names: it exports nothing. Refuses where memory is refused.
    pub fn of_script(alloc: Global, s: &Script) -> Result<Uses, PassError>
        ensures tells { IfOk result (λ u. tables.Tells u (script_tree s.now)) }
        ensures memory { IfErr result (λ e. e ≡ OutOfMemory) }
    {
        let mut uses = Uses::nothing(alloc);
        uses.table.count(Node::Script(s), Place::top())?;
        Ok(uses)
    }

    /// How an item of a module's list uses its names, by itself. Refuses where memory is refused.
    pub fn of_item(alloc: Global, item: Node<'_>) -> Result<Uses, PassError>
        ensures tells { IfOk result (λ u. tables.Tells u (node trees.Module [] (node_tree item.entry ⊳ ε))) }
        ensures memory { IfErr result (λ e. e ≡ OutOfMemory) }
    {
        let mut uses = Uses::nothing(alloc);
        uses.note_item(item.open())?;
        Ok(uses)
    }

    /// Whether a name is neither used nor written: inside the declaration of a function its own name doesn't count.
    pub fn is_free(&self, name: &Ident) -> bool
        ensures { result ≡ tables.is_free self.now (ident_name name.now) }
    {
        let tally = self.table.tally(name);
        let is_hidden = tally.has(Fact::Hidden) || self.exports_default && is_default(name);
        !(tally.has(Fact::Used) || tally.has(Fact::Written) || is_hidden)
    }

    /// Whether a name is declared and never read: inside the declaration of a function its own name doesn't count.
    pub fn is_unread(&self, name: &Ident) -> bool
        ensures { result ≡ tables.is_unused self.now (ident_name name.now) }
    {
        let tally = self.table.tally(name);
        let is_hidden = tally.has(Fact::Hidden) || self.exports_default && is_default(name);
        tally.has(Fact::Declared) && !(tally.has(Fact::Used) || is_hidden)
    }

    /// Whether a name is declared at the top level: a function or `var` outside functions, others outside blocks.
    pub fn is_held(&self, name: &Ident) -> bool
        ensures { result ≡ tables.is_held self.now (ident_name name.now) }
    {
        self.table.tally(name).has(Fact::Held)
    }

    /// Whether a name occurs outside the declarations of functions.
    pub fn is_abroad(&self, name: &Ident) -> bool
        ensures { result ≡ tables.is_abroad self.now (ident_name name.now) }
    {
        self.table.tally(name).has(Fact::Abroad)
    }

    /// Whether a row tells of no declaration of a name that is free, and of no plain assignment that goes: its name is read, or
    /// declared nowhere.
    fn leaves_row(&self, row: &Row) -> bool
        ensures { IsTrue result → (x : trees.Name) → row_says (names_of self.now) row.now fact.Declared x ≡ true → tables.is_free self.now x ≡ false }
    {
        if !row.tally.has(Fact::Declared) && !row.tally.has(Fact::Written) {
            return true;
        }
        let now = self.table.tally_at(row.number as usize);
        if now.has(Fact::Used) || now.has(Fact::Hidden) {
            return true;
        }
        if row.tally.has(Fact::Declared) {
            now.has(Fact::Written) && !row.tally.has(Fact::Written)
        } else {
            !now.has(Fact::Declared)
        }
    }

    /// Whether a number is that of one of some names.
    #[tactic(auto, using(crate::proofs::Leaving::one_of))]
    fn is_among(&self, number: usize, names: &[Id]) -> bool
        ensures { IsTrue result → (x : trees.Name) → is_number (names_of self.now) x number ≡ true → has_name x (ids names.now) ≡ true }
    {
        match self.table.name(number) {
            Some(name) => is_one_of(name, names),
            None => false,
        }
    }

    /// Whether a row tells of no declaration of a name that is free, those that are `gone` aside, and of no plain assignment that
    /// goes.
    fn passes_row(&self, row: &Row, gone: &[Id]) -> bool
        ensures { IsTrue result → (x : trees.Name) → row_says (names_of self.now) row.now fact.Declared x ≡ true → tables.is_free self.now x ≡ true → has_name x (ids gone.now) ≡ true }
    {
        self.leaves_row(row) || self.is_among(row.number as usize, gone)
    }

    /// Whether the tree shaker has nothing to do at an item that it left once, where names went that it declares and that are
    /// `gone`, by what the item says: no other name that it declares is free, and each that it writes is read, or declared
    /// nowhere.
    pub fn leaves(&self, said: Said, gone: &[Id]) -> bool
        requires { IsWithin (register_of self.now) said }
        ensures { IsTrue result → (t : trees.Tree) → Says (register_of self.now) said t → OnlyFree self.now (ids gone.now) t }
    {
        let mut left: &[Row] = &self.rows[said.start as usize..said.end as usize];
        while let [row, rest @ ..] = left {
            if !self.passes_row(row, gone) {
                return false;
            }
            left = rest;
        }
        true
    }

    /// Whether a row tells of a declaration of a name that is neither read nor written, nor used without being named.
    fn frees_row(&self, row: &Row) -> bool
        ensures { result ≡ frees self.now.table row.now }
    {
        if !row.tally.has(Fact::Declared) {
            return false;
        }
        let now = self.table.tally_at(row.number as usize);
        !(now.has(Fact::Used) || now.has(Fact::Written) || now.has(Fact::Hidden))
    }

    /// The names that an item declares and that may be free, by what the item says: nothing where there are more than `most`.
    /// Fails where memory is refused.
    pub fn touched(
        &self,
        alloc: Global,
        said: Said,
        most: usize,
    ) -> Result<Option<Vec<Id>>, AllocError>
        requires { IsWithin (register_of self.now) said }
        ensures { IfOk result (λ o. IfSome o (λ r. length r.items ≤ most)) }
    {
        let mut touched = Vec::new(alloc);
        for row in &self.rows[said.start as usize..said.end as usize] {
            if !self.frees_row(row) {
                continue;
            }
            if let Some(name) = self.table.name(row.number as usize) {
                if touched.len() == most {
                    return Ok(None);
                }
                touched.push(name.clone()?)?;
            }
        }
        Ok(Some(touched))
    }
}
