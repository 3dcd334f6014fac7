//! What becomes of a text.
ghost use Rattle.std.specs.Prelude.{map, string_bytes, IfOk, IfErr};
ghost use Rattle.swc_ast.specs.Modules.{module_tree};
ghost use Rattle.shake_options.specs.Flags.{flag_texts};
ghost use Rattle.shake_run.specs.Done.{Becomes, Unanswered};

use crate::fault::Fault;
use crate::flagged::run_pass;
use shake_options::{Flag, Options};
use std::alloc::Global;
use swc_ast::{Mark, Module};
use swc_text::read_module;

/// What the pass that is named makes of the module that a text is read as, once what the flags give is put. Names with the texts
/// given are retained. Refuses a text that isn't read, and what `run_pass` does.
pub(crate) fn answer(
    alloc: Global,
    options: Options,
    retained: Vec<String>,
    flags: &[Flag<'_>],
    mark: Mark,
    text: &str,
) -> Result<Module, Fault>
    ensures becomes { IfOk result (λ r. Becomes (map flag_texts flags.now) mark options (map string_bytes retained.items) text.now (module_tree r)) }
    ensures unanswered { IfErr result (Unanswered flags.now) }
{
    let module = match read_module(alloc, text, mark) {
        Ok(module) => module,
        Err(fault) => return Err(Fault::Read(fault)),
    };
    match run_pass(alloc, options, retained, flags, mark, module) {
        Ok(answer) => Ok(answer),
        Err(fault) => Err(fault),
    }
}
