//! Texts of names. Most of them are short: a text of at most 14 bytes stands in the value itself and asks for no memory.
#![tactic(auto)]

ghost use Rattle.std.specs.Prelude.{◌≡◌, [], Some, IfOk, bytes_eq, refl};
ghost use Rattle.std.specs.Ordering.{nat_cmp};
ghost use Rattle.std.specs.Cmp.{partial_equiv_from_equiv};
ghost use Rattle.std.specs.Cmp.Lexicographic.{slice_cmp, nat_list_eq_equiv, nat_list_cmp_total, texts_po, texts_ties};
ghost use Rattle.std.specs.Cmp.Rules.{hashing};
ghost use Rattle.std.specs.Hash as fed;
ghost use Rattle.std.proofs.Common.{rules};

mod short;

use short::Short;
use std::alloc::{AllocError, Global};
use std::cmp::Ordering;
use std::convert::AsStr;
use std::fmt;
use std::hash::{Hash, Hasher};
use std::marker::Model;
use std::ops::DerefStr;

/// Where a text stands. A longer one is in a box, so that an atom takes 16 bytes.
#[derive(Drop)]
enum Text {
    Short(Short),
    Long(Box<String>),
}

/// The text of a name. A contract sees it as its bytes, which are UTF-8.
#[derive(Drop)]
pub struct Atom {
    text: Text,
}

impl Model for Atom {
    ghost use Rattle.std.specs.Prelude.{ℕ, List};

    ghost Value = { List ℕ };

    ghost use Rattle.swc_atoms.specs.Bytes.{bytes_of};

    ghost view = { λ a. bytes_of a.text };
}

impl Atom {
    /// The text of no bytes.
    pub fn new() -> Atom
        ensures { result ≡ [] }
    {
        Atom {
            text: Text::Short(Short::empty()),
        }
    }

    /// A copy of a text. Fails where the memory for a text of more than 14 bytes is refused.
    pub fn from_str(alloc: Global, text: &str) -> Result<Atom, AllocError>
        ensures ok { IfOk result (λ a. a ≡ text.now) }
    {
        let text = match Short::copy(text) {
            Some(short) => Text::Short(short),
            None => Text::Long(Box::new(alloc, String::from_str(alloc, text)?)?),
        };
        Ok(Atom { text })
    }

    /// The text.
    #[inline(always)]
    pub fn as_str(&self) -> &str
        ensures value { result.now ≡ self.now }
    {
        match &self.text {
            Text::Short(short) => short.as_str(),
            Text::Long(long) => long.as_str(),
        }
    }
}

impl Clone for Atom {
    ghost is_clone = { λ a b. b ≡ a };

    fn clone(&self) -> Result<Atom, AllocError> {
        let text = match &self.text {
            Text::Short(short) => Text::Short(short.again()),
            Text::Long(long) => Text::Long(long.clone()?),
        };
        Ok(Atom { text })
    }
}

impl DerefStr for Atom {
    ghost deref_gives = { λ a bytes. bytes ≡ a };

    #[inline(always)]
    fn deref(&self) -> &str {
        self.as_str()
    }
}

impl AsStr for Atom {
    ghost text = { λ a. a };

    fn as_str(&self) -> &str {
        self.as_str()
    }
}

impl PartialEq for Atom {
    ghost eq = { bytes_eq };

    ghost laws = { partial_equiv_from_equiv nat_list_eq_equiv };

    fn eq(&self, other: &Atom) -> bool {
        self.as_str() == other.as_str()
    }
}

impl Eq for Atom {
    ghost laws = { nat_list_eq_equiv };
}

impl PartialOrd for Atom {
    ghost partial_cmp = { λ a b. Some (slice_cmp nat_cmp a b) };

    ghost laws = { texts_po };

    fn partial_cmp(&self, other: &Atom) -> Option<Ordering> {
        Some(self.cmp(other))
    }
}

impl Ord for Atom {
    ghost cmp = { slice_cmp nat_cmp };

    ghost total = { nat_list_cmp_total };

    ghost matches_partial_cmp = { λ a b. refl };

    ghost matches_eq = { texts_ties };

    fn cmp(&self, other: &Atom) -> Ordering {
        self.as_str().cmp(other.as_str())
    }
}

impl Hash for Atom {
    ghost hash_input = { λ a. fed.str a };

    ghost respects_eq = { Prim.search (hashing, rules) };

    fn hash<H: Hasher>(&self, state: &mut H) {
        self.as_str().hash(state);
    }
}

impl fmt::Debug for Atom {
    fn fmt<W: fmt::Write>(&self, f: &mut fmt::Formatter<W>) -> fmt::Result {
        fmt::Debug::fmt(&self.as_str(), f)
    }
}
