//! What texts are given to.
use std::alloc::Global;
use swc_ast::{Module, PassError, Script};
use swc_inline_globals::InlineGlobals;
use swc_pass::Repeated;

/// What texts are given to.
pub trait TextPass {
    /// What becomes of a module.
    fn run(&mut self, alloc: Global, module: &Module) -> Result<Module, PassError>;

    /// What becomes of a script.
    fn run_script(&mut self, alloc: Global, script: &Script) -> Result<Script, PassError>;

    /// Whether the last run changed something.
    fn changed(&self) -> bool;

    /// How many rounds the last run had, and whether the last one of them changed nothing, if it has rounds.
    fn rounds(&self) -> Option<(usize, bool)>;

    /// Whether it does nothing, so that texts are only read and printed.
    fn is_printer(&self) -> bool;
}

impl TextPass for InlineGlobals<'_> {
    fn run(&mut self, alloc: Global, module: &Module) -> Result<Module, PassError> {
        InlineGlobals::run(self, alloc, module)
    }

    fn run_script(&mut self, alloc: Global, script: &Script) -> Result<Script, PassError> {
        InlineGlobals::run_script(self, alloc, script)
    }

    fn changed(&self) -> bool {
        Repeated::changed(self)
    }

    fn rounds(&self) -> Option<(usize, bool)> {
        None
    }

    fn is_printer(&self) -> bool {
        false
    }
}
