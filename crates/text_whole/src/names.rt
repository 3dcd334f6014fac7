//! Names that a text doesn't have.
use std::alloc::{AllocError, Global};

/// How long rows of `$` are in a text, behind each letter that a fresh name begins with.
#[derive(Clone, Copy)]
pub(crate) struct Rows {
    unit: usize,
    other: usize,
    value: usize,
}

impl Rows {
    pub(crate) fn new() -> Rows {
        Rows {
            unit: 0,
            other: 0,
            value: 0,
        }
    }

    /// Takes account of a text.
    pub(crate) fn note(&mut self, text: &str) {
        let mut letter = 0;
        let mut len: usize = 0;
        for byte in text.as_bytes() {
            if *byte == b'$' {
                len = len.saturating_add(1);
                self.note_row(letter, len);
            } else {
                letter = *byte;
                len = 0;
            }
        }
    }

    fn note_row(&mut self, letter: u8, len: usize) {
        match letter {
            b'k' => self.unit = self.unit.max(len),
            b'j' => self.other = self.other.max(len),
            b'v' => self.value = self.value.max(len),
            _ => {}
        }
    }
}

/// What the names of stand-ins begin with: no word of the text does.
#[derive(Drop)]
pub(crate) struct Fresh {
    /// of the function that stands for a unit
    pub(crate) unit: String,
    /// of what else such a unit does: later values and jumps
    pub(crate) other: String,
    /// the parameter of a function that writes
    pub(crate) value: String,
    /// whether a unit is shown to write each name that it mentions
    pub(crate) pinned: bool,
}

/// A letter and more `$` than there are in a row.
fn prefix(alloc: Global, letter: char, row: usize) -> Result<String, AllocError> {
    let mut name = String::new(alloc);
    name.push(letter)?;
    for _ in 0..=row {
        name.push('$')?;
    }
    Ok(name)
}

impl Fresh {
    pub(crate) fn new(alloc: Global, rows: Rows, pinned: bool) -> Result<Fresh, AllocError> {
        Ok(Fresh {
            unit: prefix(alloc, 'k', rows.unit)?,
            other: prefix(alloc, 'j', rows.unit.max(rows.other))?,
            value: prefix(alloc, 'v', rows.value)?,
            pinned,
        })
    }
}

/// The number behind a prefix, where a word is nothing else.
pub(crate) fn number_behind(word: &str, prefix: &str) -> Option<usize> {
    let digits = word.strip_prefix(prefix)?;
    if digits.as_bytes().iter().all(|byte| byte.is_ascii_digit()) {
        digits.parse::<usize>().ok()
    } else {
        None
    }
}
