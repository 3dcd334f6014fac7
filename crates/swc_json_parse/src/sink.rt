//! What takes a text in pieces.
ghost use Rattle.std.specs.Prelude.{◌≡◌, ◌+◌, ◌++◌, List, [], ℕ, nat_lt, length, OnOk, string_bytes};
ghost use Rattle.json.specs.Print.{quoted, escape_letter, escape_byte};
ghost use Rattle.swc_json_parse.specs.Joins.{lengths_rest, texts_rest, lengths_join, texts_join};

use serde_json::Value;
use std::alloc::{AllocError, Global};

/// What takes a text in pieces.
pub(crate) trait Out {
    /// A state, a text that is taken, and the state behind it.
    ghost takes: { Self → List ℕ → Self → Type 0 };

    /// Takes a text. Fails where memory is refused.
    fn push(&mut self, text: &str) -> Result<(), AllocError>
        ensures { OnOk result (takes self.old text.now self.new) };

    /// Takes a text as JSON writes it, in quotes. Fails where memory is refused.
    fn push_quoted(&mut self, text: &str) -> Result<(), AllocError>
        ensures { OnOk result (takes self.old (quoted text.now) self.new) };

    ghost rests: { (a : Self) → takes a [] a };

    ghost joins: { (a b c : Self) (xs ys : List ℕ) → takes a xs b → takes b ys c → takes a (xs ++ ys) c };
}

/// How many bytes a text has.
#[derive(Drop)]
pub(crate) struct Length {
    pub(crate) bytes: usize,
}

impl Length {
    /// Some bytes more. Fails where no memory could hold so many.
    fn add(&mut self, more: usize) -> Result<(), AllocError>
        ensures { OnOk result (self.new.bytes ≡ self.old.bytes + more) }
    {
        match self.bytes.checked_add(more) {
            Some(bytes) => {
                self.bytes = bytes;
                Ok(())
            }
            None => Err(AllocError),
        }
    }
}

/// Whether a letter behind a backslash stands in quotes for a byte.
fn has_letter(byte: u8) -> bool
    ensures { result ≡ nat_lt 0 (escape_letter byte) }
{
    byte == b'"'
        || byte == b'\\'
        || byte == 8
        || byte == 12
        || byte == b'\n'
        || byte == b'\r'
        || byte == b'\t'
}

/// How many bytes stand in quotes for a byte.
fn escaped_len(byte: u8) -> usize
    ensures { result ≡ length (escape_byte byte) }
{
    if has_letter(byte) {
        return 2;
    }
    if byte < 32 {
        return 6;
    }
    1
}

impl Out for Length {
    ghost takes = { λ a xs b. b.bytes ≡ a.bytes + length xs };

    fn push(&mut self, text: &str) -> Result<(), AllocError> {
        self.add(text.len())
    }

    fn push_quoted(&mut self, text: &str) -> Result<(), AllocError> {
        self.add(2)?;
        for byte in text.as_bytes() {
            self.add(escaped_len(*byte))?;
        }
        Ok(())
    }

    ghost rests = { λ a. lengths_rest a.bytes };

    ghost joins = { λ a b c. lengths_join a.bytes b.bytes c.bytes };
}

/// A text that is written.
#[derive(Drop)]
pub(crate) struct Written {
    pub(crate) alloc: Global,
    pub(crate) text: String,
}

impl Out for Written {
    ghost takes = { λ a xs b. string_bytes b.text ≡ string_bytes a.text ++ xs };

    fn push(&mut self, text: &str) -> Result<(), AllocError> {
        self.text.push_str(text)
    }

    fn push_quoted(&mut self, text: &str) -> Result<(), AllocError> {
        let quoted = Value::try_from_str(self.alloc, text)?.to_string(self.alloc)?;
        self.text.push_str(&quoted)
    }

    ghost rests = { λ a. texts_rest (string_bytes a.text) };

    ghost joins = { λ a b c. texts_join (string_bytes a.text) (string_bytes b.text) (string_bytes c.text) };
}
