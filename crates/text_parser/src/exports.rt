//! What a module exports.
use std::alloc::{AllocError, Global};
use std::collections::HashSet;

/// The names that were exported so far.
#[derive(Drop)]
pub(crate) struct Exports<'a> {
    names: HashSet<&'a str>,
    /// the names of the module that specifiers export, each with its offset
    pub(crate) locals: Vec<(&'a str, u32)>,
}

impl<'a> Exports<'a> {
    pub(crate) fn new(alloc: Global) -> Exports<'a> {
        Exports {
            names: HashSet::new(alloc),
            locals: Vec::new(alloc),
        }
    }

    /// Exports a name, and says whether it is exported for the first time.
    pub(crate) fn add(&mut self, name: &'a str) -> Result<bool, AllocError> {
        Ok(self.names.insert(name)?)
    }
}
