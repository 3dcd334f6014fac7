//! The work of the program, and a pass that it makes.
ghost use Rattle.std.specs.Prelude.{◌≡◌, ◌≢◌, ◌≤◌, ◌↔◌, [], true, false, map, string_bytes, IsNone, IfOk, IfErr};
ghost use Rattle.swc_ast.specs.Core.{IsCore};
ghost use Rattle.swc_ast.specs.Marks.{mark_number};
ghost use Rattle.swc_ast.specs.Modules.{module_tree};
ghost use Rattle.swc_ast.specs.Resolved.{IsResolved};
ghost use Rattle.swc_ast.specs.Run.{Same};
ghost use Rattle.swc_ast.specs.Valid.{valid};
ghost use Rattle.shake_options.specs.CommandLine.{command_line};
ghost use Rattle.shake_options.specs.Flags.{flag_texts};
ghost use Rattle.shake_options.specs.declared.options.PassName.TheVariants.{Json};
ghost use Rattle.shake_given.specs.Prepared.{SameFlagged};
ghost use Rattle.shake_run.specs.Done.{Done};
ghost use Rattle.shake_run.specs.Flagged.{Answers, Refuses};
ghost use Rattle.shake_run.specs.Passes.{pass_by};

use shake_options::{Flag, Options};
use shake_run::Fault;
use std::alloc::Global;
use std::io::{Read, Write};
use swc_ast::{Mark, Module};
use swc_json_parse::JsonParse;
use swc_pass::Repeated;

/// `shake_run::run`
pub fn run<R: Read, W: Write, E: Write>(
    alloc: Global,
    args: &[String],
    reader: &mut R,
    writer: &mut W,
    errors: &mut E,
) -> u8
    ensures status { result ≤ 2 }
    ensures arguments { (result ≡ 2) ↔ IsNone (command_line (map string_bytes args.now)) }
    ensures unread { result ≡ 2 → reader.new ≡ reader.old }
    ensures unwritten { result ≡ 2 → writer.new ≡ writer.old }
    ensures silent { result ≡ 0 → errors.new ≡ errors.old }
    ensures done { result ≡ 0 → Done (map string_bytes args.now) (R.remaining reader.old) (W.contents writer.old) (W.contents writer.new) }
{
    shake_run::run(alloc, args, reader, writer, errors)
}

/// `shake_run::run_pass`
pub fn run_pass(
    alloc: Global,
    options: Options,
    retained: Vec<String>,
    flags: &[Flag<'_>],
    mark: Mark,
    module: Module,
) -> Result<Module, Fault>
    ensures answers { IfOk result (λ r. Answers (map flag_texts flags.now) mark (pass_by mark options (map string_bytes retained.items)) (module_tree «module») (module_tree r)) }
    ensures same { IfOk result (λ r. options.pass ≢ Json → IsResolved (mark_number mark) (module_tree «module») → IsCore (module_tree «module») → SameFlagged (map flag_texts flags.now) mark (pass_by mark options (map string_bytes retained.items)).loads (module_tree «module») (module_tree r)) }
    ensures resolved { IfOk result (λ r. IsResolved (mark_number mark) (module_tree «module») → IsResolved (mark_number mark) (module_tree r)) }
    ensures valid { IfOk result (λ r. IsResolved (mark_number mark) (module_tree «module») → valid (module_tree «module») ≡ true → valid (module_tree r) ≡ true) }
    ensures core { IfOk result (λ r. IsResolved (mark_number mark) (module_tree «module») → IsCore (module_tree «module») → IsCore (module_tree r)) }
    ensures unflagged_answers { IfOk result (λ r. flags.now ≡ [] → (pass_by mark options (map string_bytes retained.items)).answers (module_tree «module») (module_tree r)) }
    ensures unflagged_same { IfOk result (λ r. flags.now ≡ [] → options.pass ≢ Json → IsResolved (mark_number mark) (module_tree «module») → IsCore (module_tree «module») → Same (mark_number mark) (pass_by mark options (map string_bytes retained.items)).loads (module_tree «module») (module_tree r)) }
    ensures refused { IfErr result (Refuses flags.now) }
{
    shake_run::run_pass(alloc, options, retained, flags, mark, module)
}

/// `swc_json_parse::json_parse`
pub fn json_parse(min_cost: usize) -> JsonParse
    ensures min_cost { result.min_cost ≡ min_cost }
    ensures changed { ⟦<JsonParse as Repeated>⟧.is_changed result ≡ false }
{
    swc_json_parse::json_parse(min_cost)
}
