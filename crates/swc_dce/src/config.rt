//! What the tree shaker may be told.
ghost use Rattle.std.specs.Prelude.{◌≡◌, true, [], None};
ghost use Rattle.swc_dce.specs.Configured.{IsCopy};

use std::alloc::{AllocError, Global};
use swc_ast::Mark;

/// Options of the tree shaker.
#[derive(Debug, PartialEq, Eq, Hash, Drop)]
pub struct Config {
    /// A mark of modules inside the module. It is kept, and nothing reads it.
    pub module_mark: Option<Mark>,
    /// Whether names of the top level are removed too.
    pub top_level: bool,
    /// The texts of names that are kept.
    pub top_retain: Vec<String>,
    /// Whether an import is kept whose specifiers are all removed.
    pub preserve_imports_with_side_effects: bool,
}

impl Config {
    /// Returns the default options: names of the top level are removed too, none is retained, and imports are kept.
    pub fn new(alloc: Global) -> Config
        ensures module_mark { result.module_mark ≡ None }
        ensures top_level { result.top_level ≡ true }
        ensures top_retain { result.top_retain.items ≡ [] }
        ensures imports { result.preserve_imports_with_side_effects ≡ true }
    {
        Config {
            module_mark: None,
            top_level: true,
            top_retain: Vec::new(alloc),
            preserve_imports_with_side_effects: true,
        }
    }
}

impl Clone for Config {
    ghost is_clone = { IsCopy };

    fn clone(&self) -> Result<Config, AllocError> {
        Ok(Config {
            module_mark: self.module_mark,
            top_level: self.top_level,
            top_retain: self.top_retain.clone()?,
            preserve_imports_with_side_effects: self.preserve_imports_with_side_effects,
        })
    }
}
