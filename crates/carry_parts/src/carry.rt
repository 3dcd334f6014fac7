//! What is carried of a name.
ghost use Rattle.std.specs.Prelude.{◌≡◌};
ghost use Rattle.carry_rules.specs.Carry.{or_put};
ghost use Rattle.carry_parts.specs.Carries.{puts_of};

use swc_ast::{Ident, Str};

/// The two passes.
#[derive(Clone, Copy)]
pub enum Pass {
    /// Carries literals of `const`, and names where they stand nowhere in a text.
    Constants,
    /// Carries literals and names.
    Inlines,
}

/// What stands for a name.
#[derive(Clone, Copy)]
pub enum Carry<'a> {
    Name(&'a Ident),
    Num(i64),
    Text(&'a Str),
    Truth(bool),
    Null,
    /// The value of a name that is never set.
    Void,
}

/// The first of two.
pub fn either<'a>(first: Option<Carry<'a>>, second: Option<Carry<'a>>) -> Option<Carry<'a>>
    ensures { puts_of result ≡ or_put (puts_of first.entry) (puts_of second.entry) }
{
    match first {
        Some(carry) => Some(carry),
        None => second,
    }
}
