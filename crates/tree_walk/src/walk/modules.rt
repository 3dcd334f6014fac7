//! The walk over modules and scripts.
ghost use Rattle.std.specs.Prelude.{IfOk};
ghost use Rattle.swc_ast.specs.Modules.{item_tree, module_decl_tree, module_tree, script_tree};
ghost use Rattle.tree_walk.specs.Walks.{Made, Ready, WholeMade, Each};

use crate::rules::{ListPlace, Place, Rules};
use crate::walk::expressions::{walk_boxed, walk_boxed_function};
use crate::walk::statements::{walk_decl, walk_list, walk_stmt};
use std::alloc::AllocError;
use swc_ast::{Module, ModuleDecl, ModuleItem, Script};

/// Walks a script, if it is entered: its statements, and then the list of them.
pub fn walk_script<R: Rules>(rules: &R, n: &mut Script) -> Result<bool, AllocError>
    ensures { IfOk result (λ c. WholeMade (R.pass rules.now) (script_tree n.old) (script_tree n.new) c) }
{
    if !rules.enters_list(ListPlace::Script, &n.body) {
        return Ok(false);
    }
    let made = walk_list(rules, ListPlace::Script, &mut n.body)?;
    Ok(made)
}

/// Walks a module, if it is entered: its items, and then the list of them.
pub fn walk_module<R: Rules>(rules: &R, n: &mut Module) -> Result<bool, AllocError>
    ensures { IfOk result (λ c. WholeMade (R.pass rules.now) (module_tree n.old) (module_tree n.new) c) }
{
    if !rules.enters_items(&n.body) {
        return Ok(false);
    }
    let inside = walk_module_items(rules, &mut n.body)?;
    let left = rules.leave_items(&mut n.body)?;
    Ok(inside | left)
}

fn walk_module_items<R: Rules>(rules: &R, items: &mut Vec<ModuleItem>) -> Result<bool, AllocError>
    ensures { IfOk result (λ c. Each (λ x y d. Made (R.pass rules.now) (item_tree x) (item_tree y) d) items.old.items items.new.items c) }
{
    let mut changed = false;
    for i in 0..items.len() {
        let made = walk_module_item(rules, &mut items[i])?;
        changed = changed | made;
    }
    Ok(changed)
}

/// Walks an item of a module, if it is entered: its parts, and then the item, if it is no statement. Returns whether a rule
/// changed something. It fails where a rule does.
pub fn walk_module_item<R: Rules>(rules: &R, item: &mut ModuleItem) -> Result<bool, AllocError>
    ensures { IfOk result (λ c. Made (R.pass rules.now) (item_tree item.old) (item_tree item.new) c) }
{
    if !rules.enters_item(item) {
        return Ok(false);
    }
    match item {
        ModuleItem::ModuleDecl(n) => {
            let inside = walk_module_decl(rules, n)?;
            let left = rules.leave_item(item)?;
            Ok(inside | left)
        }
        ModuleItem::Stmt(n) => {
            let made = walk_stmt(rules, n)?;
            Ok(made)
        }
    }
}

fn walk_module_decl<R: Rules>(rules: &R, d: &mut ModuleDecl) -> Result<bool, AllocError>
    ensures { IfOk result (λ c. Ready (R.pass rules.now) (module_decl_tree d.old) (module_decl_tree d.new) c) }
{
    match d {
        ModuleDecl::Import(_) => Ok(false),
        ModuleDecl::ExportDecl(n) => {
            let made = walk_decl(rules, &mut n.decl)?;
            Ok(made)
        }
        ModuleDecl::ExportNamed(_) => Ok(false),
        ModuleDecl::ExportDefaultDecl(n) => {
            let made = walk_boxed_function(rules, &mut n.decl.function)?;
            Ok(made)
        }
        ModuleDecl::ExportDefaultExpr(n) => {
            let made = walk_boxed(rules, Place::Value, &mut n.expr)?;
            Ok(made)
        }
    }
}
