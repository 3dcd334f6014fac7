//! Texts that stand in place.
ghost use Rattle.std.specs.Prelude.{◌≡◌, ◌≤◌, [], IfSome};

use std::marker::Model;
use std::str;

/// The longest text that stands in place, in bytes.
pub(crate) const SHORT: usize = 14;

/// A text of at most `SHORT` bytes.
#[derive(Drop)]
pub(crate) struct Short {
    len: u8,
    bytes: [u8; SHORT],
}

impl Model for Short {
    ghost use Rattle.std.specs.Prelude.{◌≡◌, ◌≤◌, ℕ, List, length, take, IsUtf8};

    ghost Value = { List ℕ };

    ghost view = { λ s. take s.len s.bytes };

    ghost invariant = { λ s. (s.len ≤ 14) × (length s.bytes ≡ 14) × IsUtf8 (take s.len s.bytes) };
}

impl Short {
    /// The text of no bytes.
    pub(crate) fn empty() -> Short
        ensures { result ≡ [] }
    {
        Short {
            len: 0,
            bytes: [0; SHORT],
        }
    }

    /// A copy of `text` if it has at most `SHORT` bytes.
    #[inline(always)]
    pub(crate) fn copy(text: &str) -> Option<Short>
        ensures some { IfSome result (λ s. s ≡ text.now) }
    {
        let len = text.len();
        if len > SHORT {
            return None;
        }
        let mut bytes = [0; SHORT];
        bytes[..len].copy_from_slice(text.as_bytes());
        Some(Short {
            len: len as u8,
            bytes,
        })
    }

    /// A copy of the text.
    #[inline(always)]
    pub(crate) fn again(&self) -> Short
        ensures { result ≡ self.now }
    {
        Short {
            len: self.len,
            bytes: self.bytes,
        }
    }

    /// The text.
    #[inline(always)]
    pub(crate) fn as_str(&self) -> &str
        ensures value { result.now ≡ self.now }
    {
        unsafe { str::from_utf8_unchecked(&self.bytes[..self.len as usize]) }
    }
}
