//! What the pass may be told, and the kinds of scopes.
ghost use Rattle.std.specs.Prelude.{◌≡◌, false};
ghost use Rattle.swc_inlining.specs.declared.config.ScopeKind.TheVariants.{Fn};

/// Options of the pass: there are none.
#[derive(Debug, Default, Drop)]
pub struct Config {}

/// A kind of scope.
#[derive(Debug, Clone, Copy, PartialEq, Eq)]
pub enum ScopeKind {
    /// A branch of a condition.
    Cond,
    /// The body of a loop.
    Loop,
    /// A block.
    Block,
    /// A function, by a name or without one.
    Fn { named: bool },
}

impl Default for ScopeKind {
    /// A function without a name.
    fn default() -> ScopeKind
        ensures { result ≡ Fn false }
    {
        ScopeKind::Fn { named: false }
    }
}
