//! Counters that tell none, one and more apart.
ghost use Rattle.std.specs.Prelude.{◌≡◌};
ghost use Rattle.carry_vars.specs.Counts as counts;

/// How often something is, as far as one can matter.
#[derive(Clone, Copy)]
pub(crate) enum Count {
    Zero,
    One,
    More,
}

impl Count {
    /// One where it is so, else none.
    pub(crate) fn of(is: bool) -> Count
        ensures { result ≡ counts.count_if is }
    {
        if is { Count::One } else { Count::Zero }
    }

    /// Both together.
    pub(crate) fn plus(self, other: Count) -> Count
        ensures { result ≡ counts.plus self other }
    {
        match self {
            Count::Zero => other,
            Count::One | Count::More => match other {
                Count::Zero => self,
                Count::One | Count::More => Count::More,
            },
        }
    }

    pub(crate) fn is_zero(self) -> bool
        ensures { result ≡ counts.is_zero self }
    {
        match self {
            Count::Zero => true,
            Count::One | Count::More => false,
        }
    }

    pub(crate) fn is_one(self) -> bool
        ensures { result ≡ counts.is_one self }
    {
        match self {
            Count::One => true,
            Count::Zero | Count::More => false,
        }
    }
}
