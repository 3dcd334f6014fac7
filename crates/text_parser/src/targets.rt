//! What a jump may lead to: loops, switches and labels of the innermost function.
use std::alloc::{AllocError, Global};
use std::collections::HashMap;

/// What a jump without a label may lead to.
#[derive(Clone, Copy)]
pub(crate) enum Target {
    Loop,
    Switch,
}

/// How many loops and switches are open in a function.
#[derive(Clone, Copy)]
pub(crate) struct Unnamed {
    loops: u32,
    switches: u32,
}

const NONE: Unnamed = Unnamed {
    loops: 0,
    switches: 0,
};

/// The statements that are open.
#[derive(Drop)]
pub(crate) struct Targets<'a> {
    /// each label, by how many functions are round it: whether it is a loop's
    labels: HashMap<(u32, &'a str), bool>,
    unnamed: Unnamed,
    functions: u32,
}

impl<'a> Targets<'a> {
    pub(crate) fn new(alloc: Global) -> Targets<'a> {
        Targets {
            labels: HashMap::new(alloc),
            unnamed: NONE,
            functions: 0,
        }
    }

    pub(crate) fn push(&mut self, target: Target) {
        let Unnamed { loops, switches } = self.unnamed;
        match target {
            Target::Loop => self.unnamed.loops = loops.saturating_add(1),
            Target::Switch => self.unnamed.switches = switches.saturating_add(1),
        }
    }

    pub(crate) fn pop(&mut self, target: Target) {
        let Unnamed { loops, switches } = self.unnamed;
        match target {
            Target::Loop => self.unnamed.loops = loops.saturating_sub(1),
            Target::Switch => self.unnamed.switches = switches.saturating_sub(1),
        }
    }

    #[inline(never)]
    pub(crate) fn push_label(&mut self, name: &'a str, of_loop: bool) -> Result<(), AllocError> {
        self.labels.insert((self.functions, name), of_loop)?;
        Ok(())
    }

    #[inline(never)]
    pub(crate) fn pop_label(&mut self, name: &'a str) {
        self.labels.remove(&(self.functions, name));
    }

    /// Begins a function; the answer ends it.
    pub(crate) fn enter(&mut self) -> Unnamed {
        let outer = self.unnamed;
        self.unnamed = NONE;
        self.functions = self.functions.saturating_add(1);
        outer
    }

    pub(crate) fn leave(&mut self, outer: Unnamed) {
        self.unnamed = outer;
        self.functions = self.functions.saturating_sub(1);
    }

    pub(crate) fn is_in_function(&self) -> bool {
        self.functions > 0
    }

    pub(crate) fn has_label(&self, label: &'a str) -> bool {
        self.labels.contains_key(&(self.functions, label))
    }

    /// Whether `break` leads somewhere, or `continue`.
    pub(crate) fn is_target(&self, label: Option<&'a str>, is_break: bool) -> bool {
        match label {
            Some(name) => match self.labels.get(&(self.functions, name)) {
                Some(of_loop) => is_break || *of_loop,
                None => false,
            },
            None => self.unnamed.loops > 0 || (is_break && self.unnamed.switches > 0),
        }
    }
}
