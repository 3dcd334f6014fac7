//! What becomes of lists.
ghost use Rattle.std.specs.Prelude.{IfOk, OnOk};
ghost use Rattle.swc_ast.specs.Tree.{Module};
ghost use Rattle.stmt_like.specs.Kept.{Kept};
ghost use Rattle.branch_rules.specs.Lists.{kept_names};
ghost use Rattle.branch_lists.specs.Swept.{trees};
ghost use Rattle.branch_lists.specs.Tidy.{ListTidied};

use std::alloc::{AllocError, Global};
use stmt_like::StmtLike;

/// `branch_lists::tidy_items`
pub fn tidy_items<T: StmtLike + Drop>(alloc: Global, items: &mut Vec<T>) -> Result<bool, AllocError>
    ensures tidied { IfOk result (λ changed. ListTidied (kept_names Module (trees T.item items.old.items)) changed (trees T.item items.old.items) (trees T.item items.new.items)) }
    ensures kept { OnOk result (Kept T.made items.old.items items.new.items) }
{
    branch_lists::tidy_items(alloc, items)
}
