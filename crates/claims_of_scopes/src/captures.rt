//! Captured names.
ghost use Rattle.std.specs.Prelude.{IfOk};
ghost use Rattle.swc_ast.specs.Modules.{module_tree};
ghost use Rattle.swc_ast.specs.Valid.{valid};
ghost use Rattle.tree_captures.specs.Captured.{captured, no_scope};
ghost use Rattle.tree_captures.specs.Views.{Tells};

use std::alloc::{AllocError, Global};
use swc_ast::Module;
use tree_captures::Fault;

/// `tree_captures::first_fault`
pub fn first_fault(alloc: Global, m: &Module) -> Result<Option<Fault<'_>>, AllocError>
    ensures { IfOk result (Tells (captured no_scope (module_tree m.now)) (valid (module_tree m.now))) }
{
    tree_captures::first_fault(alloc, m)
}
