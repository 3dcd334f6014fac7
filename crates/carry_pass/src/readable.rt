//! What the passes go through: modules and scripts.
ghost use Rattle.std.specs.Prelude.{◌≡◌, IfOk, IfErr, OnOk};
ghost use Rattle.swc_ast.specs.Tree.{bare};
ghost use Rattle.swc_ast.specs.declared.errors.PassError.TheVariants.{OutOfMemory};
ghost use Rattle.carry_proofs.specs.Laws.{IsWhole};
ghost use Rattle.carry_parts.specs.Carries.{pass_of};
ghost use Rattle.carry_vars.specs.Facts.{AreNamesOf};
ghost use Rattle.carry_reads.specs.Readings.{Tells, value_of};
ghost use Rattle.carry_pass.specs.Made.{exported};

use crate::exports::Exports;
use carry_parts::Pass;
use carry_puts::Walked;
use carry_reads::Reading;
use std::alloc::{AllocError, Global};
use swc_ast::{Module, PassError, Script};
use swc_names::Names;

/// A module or a script.
pub trait Readable: Walked {
    /// Its names. Refuses where memory is refused.
    fn names(&self, alloc: Global) -> Result<Names, PassError>
        ensures whole { IsWhole (Self.tree self.now) }
        ensures names { IfOk result (λ n. AreNamesOf n (Self.tree self.now)) }
        ensures memory { IfErr result (λ e. e ≡ OutOfMemory) };

    /// What is put at its reads. Fails where memory is refused.
    fn read<'a>(
        &'a self,
        alloc: Global,
        names: &'a Names,
        pass: Pass,
    ) -> Result<Reading<'a>, AllocError>
        requires { AreNamesOf names.now (Self.tree self.now) }
        ensures { IfOk result (λ r. Tells (pass_of pass) r (Self.tree self.now)) };

    /// Lets exports name what their names stand for, where the pass does that: those of what was made of an input that was read.
    /// Fails where memory is refused.
    fn export<'a>(
        &mut self,
        alloc: Global,
        pass: Pass,
        input: &'a Self,
        reading: &Reading<'a>,
    ) -> Result<(), AllocError>
        ensures { OnOk result (bare (exported (pass_of pass) (value_of reading.now) (Self.tree input.now) (Self.tree self.old)) ≡ bare (Self.tree self.new)) };
}

impl Readable for Module {
    fn names(&self, alloc: Global) -> Result<Names, PassError> {
        Names::new(alloc, &self.body)
    }

    fn read<'a>(
        &'a self,
        alloc: Global,
        names: &'a Names,
        pass: Pass,
    ) -> Result<Reading<'a>, AllocError> {
        Reading::of_module(alloc, names, pass, self)
    }

    fn export<'a>(
        &mut self,
        alloc: Global,
        pass: Pass,
        input: &'a Module,
        reading: &Reading<'a>,
    ) -> Result<(), AllocError> {
        match pass {
            Pass::Constants => {
                let exports = Exports::of(alloc, input, reading)?;
                exports.rename_all(&mut self.body)
            }
            Pass::Inlines => Ok(()),
        }
    }
}

impl Readable for Script {
    fn names(&self, alloc: Global) -> Result<Names, PassError> {
        Names::new(alloc, &self.body)
    }

    fn read<'a>(
        &'a self,
        alloc: Global,
        names: &'a Names,
        pass: Pass,
    ) -> Result<Reading<'a>, AllocError> {
        Reading::of_script(alloc, names, pass, self)
    }

    fn export<'a>(
        &mut self,
        _alloc: Global,
        _pass: Pass,
        _input: &'a Script,
        _reading: &Reading<'a>,
    ) -> Result<(), AllocError> {
        Ok(())
    }
}
