//! The pass.
ghost use Rattle.std.specs.Prelude.{◌≡◌, IfOk, IfErr};
ghost use Rattle.swc_ast.specs.declared.errors.PassError.TheVariants.{OutOfMemory};
ghost use Rattle.carry_proofs.specs.Propagation.{Propagates};
ghost use Rattle.swc_pass.specs.Pass.{TellsChange};
ghost use Rattle.carry_parts.specs.Carries.{pass_of};

use crate::readable::Readable;
use carry_parts::Pass;
use std::alloc::Global;
use swc_ast::PassError;
use swc_pass::{Made, settle};

/// What a pass makes of a module or a script that it takes: the input itself where it changes nothing but spans. Refuses where
/// memory is refused.
pub fn propagate<W: Readable>(alloc: Global, pass: Pass, input: W) -> Result<Made<W>, PassError>
    ensures answer { IfOk result (λ m. Propagates (pass_of pass) (W.tree input) (W.tree m.whole)) }
    ensures changed { IfOk result (λ m. TellsChange m.changed (W.tree input) (W.tree m.whole)) }
    ensures memory { IfErr result (λ e. e ≡ OutOfMemory) }
{
    let answer = written(alloc, pass, &input)?;
    Ok(settle(input, answer))
}

/// What a pass makes of a copy.
fn written<W: Readable>(alloc: Global, pass: Pass, input: &W) -> Result<W, PassError>
    ensures answer { IfOk result (λ w. Propagates (pass_of pass) (W.tree input.now) (W.tree w)) }
    ensures memory { IfErr result (λ e. e ≡ OutOfMemory) }
{
    let names = input.names(alloc)?;
    let reading = input.read(alloc, &names, pass)?;
    let mut copy = input.copy()?;
    copy.put(alloc, pass, &reading.reads)?;
    copy.export(alloc, pass, input, &reading)?;
    Ok(copy)
}
