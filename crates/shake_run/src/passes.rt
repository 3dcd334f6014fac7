//! The passes that can be run.
ghost use Rattle.std.specs.Prelude.{◌≡◌, ◌≢◌, true, None, map, string_bytes, IfOk, IfErr};
ghost use Rattle.swc_ast.specs.Core.{IsCore};
ghost use Rattle.swc_ast.specs.Marks.{mark_number};
ghost use Rattle.swc_ast.specs.Modules.{module_tree};
ghost use Rattle.swc_ast.specs.Resolved.{IsResolved};
ghost use Rattle.swc_ast.specs.Run.{Same};
ghost use Rattle.swc_ast.specs.Valid.{valid};
ghost use Rattle.swc_ast.specs.declared.errors.PassError.TheVariants.{OutOfMemory};
ghost use Rattle.shake_options.specs.declared.options.PassName.TheVariants.{Json};
ghost use Rattle.shake_run.specs.Passes.{pass_by};

use shake_options::{Options, PassName};
use std::alloc::Global;
use swc_ast::{Mark, Module, PassError};
use swc_branch::dead_branch_remover;
use swc_const_propagation::constant_propagation;
use swc_dce::dce;
use swc_expr::expr_simplifier;
use swc_inlining::inlining;
use swc_json_parse::json_parse;
use swc_optimization::{optimizer, simplifier};
use swc_pass::Pass;

/// What the tree shaker is told.
fn shaking(options: Options, top_retain: Vec<String>) -> swc_dce::Config
    ensures module_mark { result.module_mark ≡ None }
    ensures top_level { result.top_level ≡ options.top_level }
    ensures top_retain { result.top_retain ≡ top_retain }
    ensures imports { result.preserve_imports_with_side_effects ≡ options.preserve_imports_with_side_effects }
{
    swc_dce::Config {
        module_mark: None,
        top_level: options.top_level,
        top_retain,
        preserve_imports_with_side_effects: options.preserve_imports_with_side_effects,
    }
}

/// What the simplifier is told.
fn simplifying(options: Options, retained: Vec<String>) -> swc_optimization::Config
    ensures top_level { result.dce.top_level ≡ options.top_level }
    ensures top_retain { result.dce.top_retain ≡ retained }
    ensures imports { result.dce.preserve_imports_with_side_effects ≡ options.preserve_imports_with_side_effects }
    ensures max_rounds { result.max_rounds ≡ options.max_rounds }
{
    swc_optimization::Config {
        dce: shaking(options, retained),
        inlining: swc_inlining::Config {},
        expr: swc_expr::Config {},
        max_rounds: options.max_rounds,
    }
}

/// What the pass that is named makes of a module whose unresolved names bear the mark. Names with the texts given are retained.
/// Refuses where memory is refused.
pub(crate) fn named_pass(
    alloc: Global,
    options: Options,
    retained: Vec<String>,
    mark: Mark,
    module: Module,
) -> Result<Module, PassError>
    ensures answers { IfOk result (λ r. (pass_by mark options (map string_bytes retained.items)).answers (module_tree «module») (module_tree r)) }
    // Of a module that is resolved and in the core, the answer of each pass but `json` does the same in each world.
    ensures same { IfOk result (λ r. options.pass ≢ Json → IsResolved (mark_number mark) (module_tree «module») → IsCore (module_tree «module») → Same (mark_number mark) (pass_by mark options (map string_bytes retained.items)).loads (module_tree «module») (module_tree r)) }
    ensures resolved { IfOk result (λ r. IsResolved (mark_number mark) (module_tree «module») → IsResolved (mark_number mark) (module_tree r)) }
    ensures valid { IfOk result (λ r. IsResolved (mark_number mark) (module_tree «module») → valid (module_tree «module») ≡ true → valid (module_tree r) ≡ true) }
    ensures core { IfOk result (λ r. IsResolved (mark_number mark) (module_tree «module») → IsCore (module_tree «module») → IsCore (module_tree r)) }
    ensures memory { IfErr result (λ e. e ≡ OutOfMemory) }
{
    match options.pass {
        PassName::Expr => {
            let mut pass = expr_simplifier(mark, swc_expr::Config {});
            pass.fold_module(alloc, module)
        }
        PassName::Branch => {
            let mut pass = dead_branch_remover(mark);
            pass.fold_module(alloc, module)
        }
        PassName::Dce => {
            let mut pass = dce(shaking(options, retained), mark);
            pass.fold_module(alloc, module)
        }
        PassName::Simplify => {
            let mut pass = simplifier(mark, simplifying(options, retained));
            pass.fold_module(alloc, module)
        }
        PassName::Optimize => {
            let mut pass = optimizer(mark, simplifying(options, retained));
            pass.fold_module(alloc, module)
        }
        PassName::Const => {
            let mut pass = constant_propagation();
            pass.fold_module(alloc, module)
        }
        PassName::Inline => {
            let mut pass = inlining(swc_inlining::Config {});
            pass.fold_module(alloc, module)
        }
        PassName::Json => {
            let mut pass = json_parse(options.min_cost);
            pass.fold_module(alloc, module)
        }
    }
}
