//! Lists of statements, and items of modules.
ghost use Rattle.std.specs.Prelude.{IfOk, OnOk};
ghost use Rattle.swc_ast.specs.Parts.{list_trees};
ghost use Rattle.swc_ast.specs.Tree.{Module};
ghost use Rattle.swc_ast.specs.Views.{stmt_tree};
ghost use Rattle.stmt_like.specs.Kept.{Kept};
ghost use Rattle.branch_rules.specs.Lists.{kept_names};
ghost use Rattle.branch_lists.specs.Tidy.{ListTidied, nothing_kept};
ghost use Rattle.branch_lists.specs.Swept.{trees};

use crate::cut::cut;
use crate::exports::exported_names;
use crate::looks::is_untidy;
use crate::sweep::sweep;
use std::alloc::{AllocError, Global};
use std::mem;
use stmt_like::StmtLike;
use swc_ast::Stmt;

/// Tidies the items of a module, or what stands for them: empty statements go and blocks that declare nothing are flattened,
/// once each; then what stands behind the first statement that ends the list goes, off functions and module declarations, and
/// its names of `var`, and those of `let` and `const` that the module exports, stand in front of that statement. False: the
/// list is as it was, and there is nothing to tidy. Fails where memory is refused.
pub fn tidy_items<T: StmtLike + Drop>(alloc: Global, items: &mut Vec<T>) -> Result<bool, AllocError>
    ensures tidied { IfOk result (λ changed. ListTidied (kept_names Module (trees T.item items.old.items)) changed (trees T.item items.old.items) (trees T.item items.new.items)) }
    ensures kept { OnOk result (Kept T.made items.old.items items.new.items) }
{
    if !is_untidy(items) {
        return Ok(false);
    }
    let kept = exported_names(alloc, items)?;
    let old = mem::replace(items, Vec::new(alloc));
    let swept = sweep(alloc, old)?;
    *items = cut(alloc, swept, &kept)?;
    Ok(true)
}

/// The same of the statements of a block, a body, a case or a script: they export nothing.
pub fn tidy_statements(alloc: Global, stmts: &mut Vec<Stmt>) -> Result<bool, AllocError>
    ensures { IfOk result (λ changed. ListTidied nothing_kept changed (list_trees stmt_tree stmts.old.items) (list_trees stmt_tree stmts.new.items)) }
{
    tidy_items(alloc, stmts)
}
