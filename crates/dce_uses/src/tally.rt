//! What is noted of one name.
ghost use Rattle.std.specs.Prelude.{◌≡◌, ◌&&◌, ◌||◌, false, if◌then◌else◌};
ghost use Rattle.dce_uses.specs.Tables.{holds, is_blank, is_same, place_of};
ghost use Rattle.dce_uses.specs.Noted.{is_counted};
ghost use Rattle.dce_uses.specs.declared.tally.Fact as facts;

/// A fact that a tree may tell of a name.
#[derive(Clone, Copy)]
pub(crate) enum Fact {
    /// It is read outside the declarations of functions of that name.
    Used,
    /// It is written there.
    Written,
    /// It occurs outside all declarations of functions.
    Abroad,
    /// It is declared.
    Declared,
    /// It is declared at the top level.
    Held,
    /// It is used without being named: exported, reached through `arguments`, or seen by `eval`.
    Hidden,
}

impl Fact {
    /// The place of its bit.
    #[inline(always)]
    fn place(self) -> u32
        ensures { result ≡ place_of self }
    {
        match self {
            Fact::Used => 0,
            Fact::Written => 1,
            Fact::Abroad => 2,
            Fact::Declared => 3,
            Fact::Held => 4,
            Fact::Hidden => 5,
        }
    }
}

/// The bits of uses and writes.
const COUNTED: u8 = 0b11;

/// What was noted of a name: a bit for each fact. All that is asked of uses and writes is whether there are any.
#[derive(Clone, Copy)]
pub(crate) struct Tally {
    facts: u8,
}

impl Tally {
    /// Nothing was noted.
    #[inline(always)]
    pub(crate) fn empty() -> Tally
        ensures { (f : facts.Fact) → holds result f ≡ false }
    {
        Tally { facts: 0 }
    }

    /// Whether a fact was noted.
    #[inline(always)]
    pub(crate) fn has(self, fact: Fact) -> bool
        ensures { result ≡ holds self fact }
    {
        (self.facts >> fact.place()) & 1 == 1
    }

    /// The same with a fact, if that is so.
    #[inline(always)]
    pub(crate) fn with(self, fact: Fact, is_so: bool) -> Tally
        ensures { (f : facts.Fact) → holds result f ≡ (holds self f || is_same fact f && is_so) }
    {
        Tally {
            facts: self.facts | u8::from(is_so) << fact.place(),
        }
    }

    /// What was noted in either of two.
    #[inline(always)]
    pub(crate) fn and(self, other: Tally) -> Tally
        ensures { (f : facts.Fact) → holds result f ≡ (holds self f || holds other f) }
    {
        Tally {
            facts: self.facts | other.facts,
        }
    }

    /// Whether nothing was noted.
    #[inline(always)]
    pub(crate) fn is_empty(self) -> bool
        ensures { result ≡ is_blank self }
    {
        !(self.has(Fact::Used)
            || self.has(Fact::Written)
            || self.has(Fact::Abroad)
            || self.has(Fact::Declared)
            || self.has(Fact::Held)
            || self.has(Fact::Hidden))
    }

    /// The same with the uses and writes of another.
    #[inline(always)]
    pub(crate) fn counted_as(self, other: Tally) -> Tally
        ensures { (f : facts.Fact) → holds result f ≡ (if is_counted f then holds other f else holds self f) }
    {
        Tally {
            facts: self.facts & !COUNTED | other.facts & COUNTED,
        }
    }
}
