//! What a module or a script becomes.
ghost use Rattle.std.specs.Prelude.{map, OnOk};
ghost use Rattle.carry_parts.specs.Carries.{pass_of, puts_of};
ghost use Rattle.carry_puts.specs.Values.{IsPut};

use crate::putting::Putting;
use carry_parts::{Carry, Pass};
use std::alloc::{AllocError, Global};
use swc_ast::{Module, Script};
use swc_pass::Whole;
use tree_put::{put_module, put_script};

/// What the walk goes through: a module or a script.
pub trait Walked: Whole {
    /// Puts what is carried at each read, one after another in the order of the text. Fails where memory is refused.
    fn put(
        &mut self,
        alloc: Global,
        pass: Pass,
        reads: &Vec<Option<Carry<'_>>>,
    ) -> Result<(), AllocError>
        ensures { OnOk result (IsPut (pass_of pass) (map puts_of reads.now.items) (Self.tree self.old) (Self.tree self.new)) };
}

impl Walked for Module {
    fn put(
        &mut self,
        alloc: Global,
        pass: Pass,
        reads: &Vec<Option<Carry<'_>>>,
    ) -> Result<(), AllocError> {
        let mut rules = Putting {
            alloc,
            pass,
            reads,
            at: 0,
        };
        put_module(alloc, &mut rules, self)
    }
}

impl Walked for Script {
    fn put(
        &mut self,
        alloc: Global,
        pass: Pass,
        reads: &Vec<Option<Carry<'_>>>,
    ) -> Result<(), AllocError> {
        let mut rules = Putting {
            alloc,
            pass,
            reads,
            at: 0,
        };
        put_script(alloc, &mut rules, self)
    }
}
