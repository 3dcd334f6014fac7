//! Which children of a node its own scope is round.
ghost use Rattle.std.specs.Prelude.{◌≡◌};
ghost use Rattle.tree_captures.specs.Captured.{reach as label_reach};
ghost use Rattle.tree_visit.specs.Kinds.{kind_label};

use tree_visit::Kind;

/// Which children of a node its own scope is round.
#[derive(Clone, Copy)]
pub(crate) enum Reach {
    Nothing,
    Each,
    /// each child but the first
    BehindFirst,
    /// the second child alone
    Second,
    /// the parameters and the body of a function
    Function,
    /// the same behind a key
    Method,
}

impl Reach {
    #[inline(always)]
    pub(crate) fn of(kind: Kind<'_>) -> Reach
        ensures { result ≡ label_reach (kind_label kind.entry) }
    {
        match kind {
            Kind::Block | Kind::For | Kind::Module | Kind::Script => Reach::Each,
            Kind::Switch(_) => Reach::BehindFirst,
            Kind::Try(_) => Reach::Second,
            Kind::Fn(_) | Kind::Arrow | Kind::FnDecl(_) | Kind::ExportDefaultFn(_) => {
                Reach::Function
            }
            Kind::Method => Reach::Method,
            _ => Reach::Nothing,
        }
    }
}
