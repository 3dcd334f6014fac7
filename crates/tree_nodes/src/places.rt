//! Expressions moved out of their places.
ghost use Rattle.std.specs.Prelude.{◌≡◌};

use std::mem;
use swc_ast::{DUMMY_SP, Expr, Invalid};

/// Moves an expression out of its place, and leaves one there that means nothing.
pub fn take(place: &mut Expr) -> Expr
    ensures { result ≡ place.old }
{
    mem::replace(place, Expr::Invalid(Invalid { span: DUMMY_SP }))
}
