//! Modules whose exports are known.
ghost use Rattle.std.specs.Prelude.{◌≡◌, option_copied};
ghost use Rattle.const_imports.specs.Views.{is_given, value_of};

use std::collections::BTreeMap;

/// Modules that are given: of each module the values of its exports, by their names.
#[derive(Drop)]
pub struct GivenModules<V: Drop> {
    pub modules: BTreeMap<String, BTreeMap<String, V>>,
}

impl<V: Drop> GivenModules<V> {
    /// Whether a module is given.
    pub fn is_given(&self, source: &str) -> bool
        ensures { result ≡ is_given self.now source.now }
    {
        self.modules.get(source).is_some()
    }

    /// The value of an export of a module, if it is given and has one of this name.
    pub fn export(&self, source: &str, name: &str) -> Option<&V>
        ensures { option_copied result ≡ value_of self.now source.now name.now }
    {
        match self.modules.get(source) {
            Some(exports) => exports.get(name),
            None => None,
        }
    }
}
