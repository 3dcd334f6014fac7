//! What is promised of uses of names, and of what goes by them, for edits that must fail: each function here makes the uses of a tree
//! and asks them, under what follows from both contracts, or calls the method that it is named after, under its contract.
#![tactic(auto)]

mod shakes;

ghost use Rattle.std.specs.Prelude.{◌≡◌, List, [], IfOk, IfErr, OnOk, IsTrue};
ghost use Rattle.swc_ast.specs.Modules.{item_tree, module_tree, script_tree};
ghost use Rattle.swc_ast.specs.Parts.{ident_name, list_trees};
ghost use Rattle.swc_ast.specs.Tree as trees;
ghost use Rattle.swc_ast.specs.Tree.{node};
ghost use Rattle.swc_ast.specs.declared.Span.{Span};
ghost use Rattle.swc_ast.specs.declared.errors.PassError.TheVariants.{OutOfMemory};
ghost use Rattle.dce_rules.specs.Uses.{free_to_go, is_unread};
ghost use Rattle.dce_uses.specs.Items.{IsUnused};
ghost use Rattle.dce_uses.specs.Said.{AllSaid, Grows, IsWithin, OnlyFree, Says, register_of};
ghost use Rattle.swc_names.specs.Ids.{ids};
ghost use Rattle.dce_uses.specs.Tables as tables;

use dce_uses::{Said, Speaks, Uses};
pub use shakes::{drop_items, drop_specifiers, give_object, open_expr, open_stmt};
use std::alloc::{AllocError, Global};
use stmt_like::StmtLike;
use swc_ast::{Id, Ident, Module, PassError, Script};

/// `Uses::is_free` in a module.
pub fn is_free_in(alloc: Global, m: &Module, name: &Ident) -> Result<bool, PassError>
    ensures { IfOk result (λ b. b ≡ free_to_go [] (module_tree m.now) (ident_name name.now)) }
{
    let uses = Uses::of_module(alloc, m)?;
    Ok(uses.is_free(name))
}

/// The same in a script.
pub fn is_free_in_script(alloc: Global, s: &Script, name: &Ident) -> Result<bool, PassError>
    ensures { IfOk result (λ b. b ≡ free_to_go [] (script_tree s.now) (ident_name name.now)) }
{
    let of_script = Uses::of_script(alloc, s)?;
    Ok(of_script.is_free(name))
}

/// `Uses::is_unread` in a module.
pub fn is_unread_in(alloc: Global, m: &Module, name: &Ident) -> Result<bool, PassError>
    ensures { IfOk result (λ b. b ≡ is_unread [] (module_tree m.now) (ident_name name.now)) }
{
    let uses = Uses::of_module(alloc, m)?;
    Ok(uses.is_unread(name))
}

/// `Uses::is_held`
pub fn is_held(uses: &Uses, name: &Ident) -> bool
    ensures { result ≡ tables.is_held uses.now (ident_name name.now) }
{
    uses.is_held(name)
}

/// `Uses::is_abroad`
pub fn is_abroad(uses: &Uses, name: &Ident) -> bool
    ensures { result ≡ tables.is_abroad uses.now (ident_name name.now) }
{
    uses.is_abroad(name)
}

/// `Uses::said`
pub fn said<T: StmtLike>(uses: &mut Uses, item: &T) -> Result<Said, AllocError>
    requires { IsUnused uses.old }
    ensures unused { OnOk result (IsUnused uses.new) }
    ensures grows { OnOk result (Grows (register_of uses.old) (register_of uses.new)) }
    ensures says { IfOk result (λ s. Says (register_of uses.new) s (item_tree (T.item item.now))) }
{
    uses.said(item)
}

/// `Uses::tell`
pub fn tell<T: Speaks>(uses: &mut Uses, items: &[T]) -> Result<(), PassError>
    requires said { AllSaid (register_of uses.old) T.item T.tells items.now }
    ensures tells { OnOk result ((ss : List Span) → tables.Tells uses.new (node trees.Module ss (list_trees (λ x. item_tree (T.item x)) items.now))) }
    ensures grows { OnOk result (Grows (register_of uses.old) (register_of uses.new)) }
    ensures memory { IfErr result (λ e. e ≡ OutOfMemory) }
{
    uses.tell(items)
}

/// `Uses::leaves`
pub fn leaves(uses: &Uses, said: Said, gone: &[Id]) -> bool
    requires { IsWithin (register_of uses.now) said }
    ensures { IsTrue result → (t : trees.Tree) → Says (register_of uses.now) said t → OnlyFree uses.now (ids gone.now) t }
{
    uses.leaves(said, gone)
}
