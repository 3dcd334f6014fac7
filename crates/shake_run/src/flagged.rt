//! A pass behind its flags.
ghost use Rattle.std.specs.Prelude.{◌≡◌, ◌≢◌, [], true, map, string_bytes, IfOk, IfErr};
ghost use Rattle.swc_ast.specs.Core.{IsCore};
ghost use Rattle.swc_ast.specs.Marks.{mark_number};
ghost use Rattle.swc_ast.specs.Modules.{module_tree};
ghost use Rattle.swc_ast.specs.Resolved.{IsResolved};
ghost use Rattle.swc_ast.specs.Run.{Same};
ghost use Rattle.swc_ast.specs.Valid.{valid};
ghost use Rattle.shake_options.specs.Flags.{flag_texts};
ghost use Rattle.shake_options.specs.declared.options.PassName.TheVariants.{Json};
ghost use Rattle.shake_given.specs.Prepared.{SameFlagged};
ghost use Rattle.shake_run.specs.Flagged.{Answers, Refuses};
ghost use Rattle.shake_run.specs.Passes.{pass_by};

use crate::fault::Fault;
use crate::passes::named_pass;
use shake_given::prepare;
use shake_options::{Flag, Options};
use std::alloc::Global;
use swc_ast::{Mark, Module};
use swc_pass::given_laws;

/// What the pass that is named makes of a module whose unresolved names bear the mark, once what the flags give is put. Names
/// with the texts given are retained. Refuses what `prepare` does, and where memory is refused.
pub fn run_pass(
    alloc: Global,
    options: Options,
    retained: Vec<String>,
    flags: &[Flag<'_>],
    mark: Mark,
    module: Module,
) -> Result<Module, Fault>
    ensures answers { IfOk result (λ r. Answers (map flag_texts flags.now) mark (pass_by mark options (map string_bytes retained.items)) (module_tree «module») (module_tree r)) }
    // Of a module that is resolved and in the core, the answer of each pass but `json` does in each world what the module does in
    // the world with answers; without flags this is the same world.
    ensures same { IfOk result (λ r. options.pass ≢ Json → IsResolved (mark_number mark) (module_tree «module») → IsCore (module_tree «module») → SameFlagged (map flag_texts flags.now) mark (pass_by mark options (map string_bytes retained.items)).loads (module_tree «module») (module_tree r)) }
    ensures resolved { IfOk result (λ r. IsResolved (mark_number mark) (module_tree «module») → IsResolved (mark_number mark) (module_tree r)) }
    ensures valid { IfOk result (λ r. IsResolved (mark_number mark) (module_tree «module») → valid (module_tree «module») ≡ true → valid (module_tree r) ≡ true) }
    ensures core { IfOk result (λ r. IsResolved (mark_number mark) (module_tree «module») → IsCore (module_tree «module») → IsCore (module_tree r)) }
    ensures unflagged_answers { IfOk result (λ r. flags.now ≡ [] → (pass_by mark options (map string_bytes retained.items)).answers (module_tree «module») (module_tree r)) }
    ensures unflagged_same { IfOk result (λ r. flags.now ≡ [] → options.pass ≢ Json → IsResolved (mark_number mark) (module_tree «module») → IsCore (module_tree «module») → Same (mark_number mark) (pass_by mark options (map string_bytes retained.items)).loads (module_tree «module») (module_tree r)) }
    ensures refused { IfErr result (Refuses flags.now) }
{
    given_laws();
    let prepared = match prepare(alloc, flags, mark, module) {
        Ok(prepared) => prepared,
        Err(fault) => return Err(Fault::Given(fault)),
    };
    match named_pass(alloc, options, retained, mark, prepared) {
        Ok(answer) => Ok(answer),
        Err(fault) => Err(Fault::Pass(fault)),
    }
}
