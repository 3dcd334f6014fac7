//! How many levels of expressions and statements there are once what is given is put, told before it is put.
ghost use Rattle.std.specs.Prelude.{ℕ, ◌≡◌, ◌<◌, ◌∷◌, [], length, IfOk, OnOk};
ghost use Rattle.swc_ast.specs.Modules.{module_tree};
ghost use Rattle.given_globals.specs.Globals.{answers_of};
ghost use Rattle.swc_inline_globals.specs.Nesting.{IsBegun, Told, AreTold, BegunLead, IfCounted, IsFewer, TellsOfTree, TellsBehind, TellsOfValue};
ghost use Rattle.swc_inline_globals.specs.Walking.{AllInRange};

use crate::finals::Frame;
use crate::gather::Gathering;
use given_globals::Lookup;
use std::alloc::{AllocError, Global};
use swc_ast::Module;
use swc_levels::{levels_of_expr, levels_of_module};
use tree_put::put_module;

/// How many levels of expressions and statements there are once what is given is put.
#[derive(Clone, Copy, Debug, PartialEq, Eq)]
pub enum Nesting {
    /// At most so many.
    Levels(u32),
    /// More than were asked for.
    TooMany,
    /// A value leads back to itself.
    Cyclic,
}

/// What is known of a value.
#[derive(Clone, Copy)]
pub(crate) enum Seen {
    /// It wasn't met yet.
    New,
    /// What is met in it is looked at.
    Begun,
    /// It has so many levels.
    Done(u32),
}

/// A walk over values that counts their levels.
#[derive(Drop)]
pub(crate) struct Counting<'l> {
    alloc: Global,
    lookup: &'l Lookup<'l>,
    seen: Vec<Seen>,
}

/// How many levels a module has once what is given is put.
pub(crate) fn count_levels(
    alloc: Global,
    lookup: &Lookup<'_>,
    module: &mut Module,
    most: u32,
) -> Result<Nesting, AllocError>
    ensures same { OnOk result (module_tree «module».new ≡ module_tree «module».old) }
    ensures nesting { IfOk result (TellsOfTree (answers_of lookup.now.settings) (module_tree «module».old) most) }
{
    let Some(own) = levels_of_module(module, most) else {
        return Ok(Nesting::TooMany);
    };
    let mut gathering = Gathering::new(alloc, lookup);
    put_module(alloc, &mut gathering, module)?;
    let mut counting = Counting::new(alloc, lookup)?;
    match counting.of_all(&gathering.met, most - own)? {
        Nesting::Levels(behind) => Ok(Nesting::Levels(own + behind)),
        other => Ok(other),
    }
}

impl<'l> Counting<'l> {
    /// Nothing is known yet. Fails where memory is refused.
    fn new(alloc: Global, lookup: &'l Lookup<'l>) -> Result<Counting<'l>, AllocError>
        ensures lookup { IfOk result (λ l. l.lookup ≡ lookup.entry) }
        ensures told { IfOk result (λ l. Told (answers_of lookup.now.settings) l.seen.items) }
        ensures begun { IfOk result (λ l. (i : ℕ) → IsBegun l.seen.items i → ⊥) }
    {
        let mut seen = Vec::new(alloc);
        for _ in 0..lookup.len() {
            seen.push(Seen::New)?;
        }
        Ok(Counting {
            alloc,
            lookup,
            seen,
        })
    }

    /// The most levels of one of the values of these numbers, with one for the brackets round it.
    #[cycle(levels)]
    fn of_all(&mut self, numbers: &[usize], most: u32) -> Result<Nesting, AllocError>
        requires told { AreTold self.old }
        requires in_range { AllInRange (length (answers_of self.old.lookup.now.settings).values) numbers.now }
        requires leads { BegunLead self.old numbers.now }
        ensures lookup { OnOk result (self.new.lookup ≡ self.old.lookup) }
        ensures told { OnOk result (AreTold self.new) }
        ensures fewer { IfOk result (λ r. IfCounted r (IsFewer self.old self.new)) }
        ensures nesting { IfOk result (TellsBehind (answers_of self.old.lookup.now.settings) numbers.now most) }
    {
        let mut highest = 0;
        for i in 0..numbers.len() {
            match self.of_met(numbers[i], most)? {
                Nesting::Levels(levels) => highest = levels.max(highest),
                other => return Ok(other),
            }
        }
        Ok(Nesting::Levels(highest))
    }

    /// The same of one value.
    #[cycle(levels)]
    fn of_met(&mut self, number: usize, most: u32) -> Result<Nesting, AllocError>
        requires told { AreTold self.old }
        requires in_range { number < length (answers_of self.old.lookup.now.settings).values }
        requires leads { BegunLead self.old (number ∷ []) }
        ensures lookup { OnOk result (self.new.lookup ≡ self.old.lookup) }
        ensures told { OnOk result (AreTold self.new) }
        ensures fewer { IfOk result (λ r. IfCounted r (IsFewer self.old self.new)) }
        ensures nesting { IfOk result (TellsBehind (answers_of self.old.lookup.now.settings) (number ∷ []) most) }
    {
        if most == 0 {
            return Ok(Nesting::TooMany);
        }
        match self.seen[number] {
            Seen::Begun => Ok(Nesting::Cyclic),
            Seen::Done(levels) if levels < most => Ok(Nesting::Levels(levels + 1)),
            Seen::Done(_) => Ok(Nesting::TooMany),
            Seen::New => match self.of_value(number, most - 1)? {
                Nesting::Levels(levels) => Ok(Nesting::Levels(levels + 1)),
                other => Ok(other),
            },
        }
    }

    /// The same of one that wasn't met yet, without the brackets.
    #[cycle(levels)]
    fn of_value(&mut self, number: usize, most: u32) -> Result<Nesting, AllocError>
        requires told { AreTold self.old }
        requires in_range { number < length (answers_of self.old.lookup.now.settings).values }
        requires leads { BegunLead self.old (number ∷ []) }
        ensures lookup { OnOk result (self.new.lookup ≡ self.old.lookup) }
        ensures told { OnOk result (AreTold self.new) }
        ensures fewer { IfOk result (λ r. IfCounted r (IsFewer self.old self.new)) }
        ensures nesting { IfOk result (TellsOfValue (answers_of self.old.lookup.now.settings) number most) }
    {
        self.seen[number] = Seen::Begun;
        let frame = Frame::new(self.alloc, self.lookup, number)?;
        let Some(own) = levels_of_expr(&frame.value, most) else {
            return Ok(Nesting::TooMany);
        };
        match self.of_all(&frame.needs, most - own)? {
            Nesting::Levels(behind) => {
                self.seen[number] = Seen::Done(own + behind);
                Ok(Nesting::Levels(own + behind))
            }
            other => Ok(other),
        }
    }
}
