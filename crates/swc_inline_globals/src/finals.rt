//! Values with what is given put in their places: each value once that is met, after those that are met in it.
ghost use Rattle.std.specs.Prelude.{◌≡◌, ◌<◌, true, [], length, None, IfOk, IfErr, OnOk, IfSome};
ghost use Rattle.swc_ast.specs.declared.errors.PassError.TheVariants.{OutOfMemory};
ghost use Rattle.given_rules.specs.Cycles.{is_among};
ghost use Rattle.given_globals.specs.Globals.{answers_of};
ghost use Rattle.swc_inline_globals.specs.Walking.{AllDone, AllInRange, AreMade, IsFresh, IsReady, IsNeed, SameFrame, Stands, Settles, Steps, Begins, Finishes, TellsName, RefusedFrom};

use crate::gather::Gathering;
use crate::put::Putting;
use given_globals::Lookup;
use std::alloc::{AllocError, Global};
use swc_ast::{Expr, PassError};
use tree_put::{Spot, put_expr};

/// A value that is walked.
#[derive(Drop)]
pub(crate) struct Frame {
    number: usize,
    pub(crate) value: Expr,
    /// What is met in it.
    pub(crate) needs: Vec<usize>,
    /// How many of those are done.
    next: usize,
}

impl Frame {
    /// A copy of the value of a number, with what is met in it. Fails where memory is refused.
    pub(crate) fn new(
        alloc: Global,
        lookup: &Lookup<'_>,
        number: usize,
    ) -> Result<Frame, AllocError>
        requires { number < length (answers_of lookup.now.settings).values }
        ensures { IfOk result (λ r. IsFresh (answers_of lookup.now.settings) number r) }
    {
        let mut value = lookup.value(number).unwrap().clone()?;
        let mut gathering = Gathering::new(alloc, lookup);
        put_expr(alloc, &mut gathering, Spot::Here, &mut value)?;
        Ok(Frame {
            number,
            value,
            needs: gathering.met,
            next: 0,
        })
    }

    /// The next number that is met in the value and isn't done.
    fn next_need(&mut self, finals: &[Option<Expr>]) -> Option<usize>
        requires in_range { AllInRange (length finals.now) self.old.needs.items }
        requires ready { IsReady finals.now self.old }
        ensures same { SameFrame self.old self.new }
        ensures ready { IsReady finals.now self.new }
        ensures need { IfSome result (λ n. IsNeed finals.now self.new.needs.items n) }
        ensures done { result ≡ None → AllDone finals.now self.new.needs.items }
    {
        while self.next < self.needs.len() {
            let need = self.needs[self.next];
            if finals[need].is_none() {
                return Some(need);
            }
            self.next += 1;
        }
        None
    }
}

/// The walk over values, depth first.
#[derive(Drop)]
pub(crate) struct Walk<'l> {
    alloc: Global,
    lookup: &'l Lookup<'l>,
    /// The numbers that are asked for.
    roots: &'l [usize],
    /// What was made of values.
    finals: Vec<Option<Expr>>,
    /// Which values are walked or were walked.
    begun: Vec<bool>,
    /// The values that are walked: each is met in the one in front of it.
    stack: Vec<Frame>,
}

/// What is put for the values of some numbers and for those that are met in them. Refuses where one is met while it is walked,
/// or memory runs out.
pub(crate) fn finals(
    alloc: Global,
    lookup: &Lookup<'_>,
    roots: &[usize],
) -> Result<Vec<Option<Expr>>, PassError>
    requires { AllInRange (length (answers_of lookup.now.settings).values) roots.now }
    ensures made { IfOk result (λ r. AreMade (answers_of lookup.now.settings) roots.now r.items) }
    ensures refused { IfErr result (RefusedFrom lookup.now.settings roots.now) }
{
    let mut walk = Walk::new(alloc, lookup, roots)?;
    for i in 0..roots.len() {
        walk.settle(roots[i])?;
    }
    Ok(walk.finals)
}

impl<'l> Walk<'l> {
    /// A walk that has made nothing yet. Fails where memory is refused.
    fn new(
        alloc: Global,
        lookup: &'l Lookup<'l>,
        roots: &'l [usize],
    ) -> Result<Walk<'l>, AllocError>
        ensures lookup { IfOk result (λ w. w.lookup ≡ lookup.entry) }
        ensures roots { IfOk result (λ w. w.roots ≡ roots.entry) }
        ensures stack { IfOk result (λ w. w.stack.items ≡ []) }
        ensures stands { IfOk result Stands }
    {
        let mut finals = Vec::new(alloc);
        let mut begun = Vec::new(alloc);
        for _ in 0..lookup.len() {
            finals.push(None)?;
            begun.push(false)?;
        }
        Ok(Walk {
            alloc,
            lookup,
            roots,
            finals,
            begun,
            stack: Vec::new(alloc),
        })
    }

    /// Walks the value of a number, unless it is done.
    fn settle(&mut self, number: usize) -> Result<(), PassError>
        requires stands { Stands self.old }
        requires stack { self.old.stack.items ≡ [] }
        requires among { is_among number self.old.roots.now ≡ true }
        requires in_range { number < length self.old.finals.items }
        ensures settled { OnOk result (Settles number self.old self.new) }
        ensures refused { IfErr result (RefusedFrom self.old.lookup.now.settings self.old.roots.now) }
    {
        if self.finals[number].is_some() {
            return Ok(());
        }
        self.begin(number)?;
        while !self.stack.is_empty() {
            self.step()?;
        }
        Ok(())
    }

    /// Goes on with the value that was begun last: one that is met in it is begun, or it is done.
    fn step(&mut self) -> Result<(), PassError>
        requires stands { Stands self.old }
        requires stack { 0 < length self.old.stack.items }
        ensures steps { OnOk result (Steps self.old self.new) }
        ensures refused { IfErr result (RefusedFrom self.old.lookup.now.settings self.old.roots.now) }
    {
        let Some(mut frame) = self.stack.pop() else {
            return Ok(());
        };
        let Some(need) = frame.next_need(&self.finals) else {
            return self.finish(frame);
        };
        self.stack.push(frame)?;
        if self.begun[need] {
            return Err(self.cyclic(need)?);
        }
        self.begin(need)
    }

    /// Begins the value of a number.
    fn begin(&mut self, number: usize) -> Result<(), PassError>
        requires in_range { number < length (answers_of self.old.lookup.now.settings).values }
        requires begun { length self.old.begun.items ≡ length (answers_of self.old.lookup.now.settings).values }
        ensures begins { OnOk result (Begins number self.old self.new) }
        ensures memory { IfErr result (λ e. e ≡ OutOfMemory) }
    {
        let frame = Frame::new(self.alloc, self.lookup, number)?;
        self.stack.push(frame)?;
        self.begun[number] = true;
        Ok(())
    }

    /// Puts what is given into a value.
    fn finish(&mut self, frame: Frame) -> Result<(), PassError>
        requires in_range { frame.number < length self.old.finals.items }
        ensures finishes { OnOk result (Finishes frame self.old self.new) }
        ensures memory { IfErr result (λ e. e ≡ OutOfMemory) }
    {
        let mut value = frame.value;
        let mut putting = Putting {
            alloc: self.alloc,
            lookup: self.lookup,
            finals: &self.finals,
        };
        put_expr(self.alloc, &mut putting, Spot::Here, &mut value)?;
        self.finals[frame.number] = Some(value);
        Ok(())
    }

    /// The refusal that tells the name of a value. Fails where memory is refused.
    fn cyclic(&self, number: usize) -> Result<PassError, AllocError>
        requires { number < length (answers_of self.now.lookup.now.settings).values }
        ensures { IfOk result (TellsName self.now.lookup.now.settings number) }
    {
        Ok(PassError::CyclicGlobals {
            name: String::from_str(self.alloc, self.lookup.name(number))?,
        })
    }
}
