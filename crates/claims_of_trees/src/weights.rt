//! How heavy a tree is.
ghost use Rattle.std.specs.Prelude.{◌≡◌, ◌-◌, ◌^◌, min};
ghost use Rattle.swc_ast.specs.Modules.{module_tree};
ghost use Rattle.swc_ast.specs.Weight.{weight as tree_weight};

use swc_ast::Module;

/// `swc_weight::weight`
pub fn weight(m: &Module) -> u64
    ensures { result ≡ min (tree_weight (module_tree m.now)) (2 ^ 64 - 1) }
{
    swc_weight::weight(m)
}
