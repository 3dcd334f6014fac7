//! What is wrong with a text.
ghost use Rattle.std.specs.Prelude.{◌≡◌, Some};
ghost use Rattle.text_lexer.specs.Words.{construct_word};
ghost use Rattle.text_lexer.specs.declared.fault.Fault.TheVariants.{OutOfMemory};

use std::alloc::{AllocError, AllocFailed};
use std::fmt;

/// What is JavaScript and no core text. Its text is its name.
#[derive(Clone, Copy, Debug, PartialEq, Eq)]
pub enum Construct {
    /// a number that is not written in plain decimal
    Number,
    /// a name past ASCII, or with an escape
    Name,
    /// a template with a tag
    Template,
    Class,
    /// an asynchronous function, or `await`
    Async,
    Generator,
    /// destructuring
    Pattern,
    /// a rest parameter
    Rest,
    ForIn,
    ForOf,
    /// `f(...a)`
    CallSpread,
    /// a getter or a setter
    Accessor,
    BigInt,
    Regex,
    /// `a?.b`
    OptChain,
    With,
    Debugger,
    /// `export .. from`
    ReExport,
    /// an imported or exported name written as a text
    TextName,
    /// a text declared twice in one scope, or a `var` inside a narrower scope that binds its text
    Redeclared,
    /// half of a surrogate pair
    Surrogate,
    /// `import()`, `import.meta`, `new.target`, `super`, import attributes, a `#!` line
    Meta,
}

impl Construct {
    /// The construct's name, as it is told.
    pub fn word(self) -> &'static str
        ensures { result.now ≡ construct_word self }
    {
        match self {
            Construct::Number => "Number",
            Construct::Name => "Name",
            Construct::Template => "Template",
            Construct::Class => "Class",
            Construct::Async => "Async",
            Construct::Generator => "Generator",
            Construct::Pattern => "Pattern",
            Construct::Rest => "Rest",
            Construct::ForIn => "ForIn",
            Construct::ForOf => "ForOf",
            Construct::CallSpread => "CallSpread",
            Construct::Accessor => "Accessor",
            Construct::BigInt => "BigInt",
            Construct::Regex => "Regex",
            Construct::OptChain => "OptChain",
            Construct::With => "With",
            Construct::Debugger => "Debugger",
            Construct::ReExport => "ReExport",
            Construct::TextName => "TextName",
            Construct::Redeclared => "Redeclared",
            Construct::Surrogate => "Surrogate",
            Construct::Meta => "Meta",
        }
    }
}

impl fmt::Display for Construct {
    ghost output = { λ what. Some (construct_word what) };

    fn fmt<W: fmt::Write>(&self, f: &mut fmt::Formatter<W>) -> fmt::Result {
        f.write_str(self.word())
    }
}

/// Why a text of an admitted length is not read, and the byte where the refused token begins.
#[derive(Clone, Copy, Debug, PartialEq, Eq)]
pub enum Fault {
    Syntax { at: u32 },
    OutOfCore { at: u32, what: Construct },
    NumberRange { at: u32 },
    TooDeep,
    OutOfMemory,
}

impl From<AllocError> for Fault {
    ghost from_gives = { λ _ e. e ≡ OutOfMemory };

    fn from(_error: AllocError) -> Fault {
        Fault::OutOfMemory
    }
}

impl<T: Drop> From<AllocFailed<T>> for Fault {
    ghost from_gives = { λ _ e. e ≡ OutOfMemory };

    fn from(_error: AllocFailed<T>) -> Fault {
        Fault::OutOfMemory
    }
}
