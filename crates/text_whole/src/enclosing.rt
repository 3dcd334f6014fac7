//! From a module to its core text.
use crate::around::Surroundings;
use crate::error::WholeError;
use crate::names::{Fresh, Rows};
use crate::restoring::restored;
use crate::splices::{Cut, splice};
use crate::stand_in::{Enclosed, Shape, stand_in};
use crate::words::{apart, byte_at, byte_before};
use std::alloc::{AllocError, Global};
use text_outline::{Outline, Unit, outline};

/// A module whose units, which are what isn't core in it, have stand-ins.
#[derive(Drop)]
pub struct Whole<'a> {
    pub(crate) text: &'a str,
    pub(crate) outline: Outline<'a>,
    pub(crate) fresh: Fresh,
    /// of each unit
    pub(crate) enclosed: Vec<Enclosed>,
    core: Option<String>,
}

/// The module of a text (ECMA-262, 16.2), with a stand-in for each unit. A `#!` line has spaces in its place. Where `pinned`, a
/// stand-in writes each name that its unit mentions, so that no pass substitutes a value for one of them.
///
/// Refused are a text that is no module (`Outline`), one of 2^31 bytes or more, or whose core text is as long (`TooLong`), and one
/// with a unit that no core text can stand for (`NoStandIn`).
pub fn enclose(alloc: Global, text: &str, pinned: bool) -> Result<Whole<'_>, WholeError> {
    if text.len() >= 0x8000_0000 {
        return Err(WholeError::TooLong);
    }
    let outline = outline(alloc, text)?;
    let fresh = Fresh::new(alloc, rows(text, &outline), pinned)?;
    let mut units = Vec::new(alloc);
    let core = if outline.units.is_empty() {
        None
    } else {
        Some(core_text(alloc, text, &outline, &fresh, &mut units)?)
    };
    Ok(Whole {
        text,
        outline,
        fresh,
        enclosed: units,
        core,
    })
}

/// The rows of `$` in a text, and in the names of its units, whose escapes are resolved.
fn rows(text: &str, outline: &Outline<'_>) -> Rows {
    let mut rows = Rows::new();
    rows.note(text);
    for unit in &outline.units {
        for name in outline.mentions(*unit) {
            rows.note(outline.text(*name));
        }
        for declaration in outline.declared(*unit) {
            rows.note(outline.text(declaration.name));
        }
    }
    rows
}

impl<'a> Whole<'a> {
    /// The core text: the text itself where it has no units.
    pub fn text(&self) -> &str {
        match &self.core {
            Some(core) => core.as_str(),
            None => self.text,
        }
    }

    /// Whether the core text has stand-ins, so that what is made of it has to be restored.
    pub fn has_units(&self) -> bool {
        !self.outline.units.is_empty()
    }

    /// Where the first unit begins that mentions a name, in bytes of the text.
    pub fn mention_of(&self, name: &str) -> Option<u32> {
        for unit in &self.outline.units {
            for mention in self.outline.mentions(*unit) {
                if self.outline.text(*mention) == name {
                    return Some(unit.start);
                }
            }
        }
        None
    }

    /// A text that was printed of a changed core text, with the units' own texts in the place of their stand-ins, and the `#!` line
    /// in front.
    ///
    /// `Lost` where a stand-in was changed so that the unit's text has no place, `TooLong` for a printed text of 2^31 bytes or more.
    pub fn restore(&self, alloc: Global, printed: &str) -> Result<String, WholeError> {
        restored(alloc, self, printed)
    }

    /// The text of a unit.
    pub(crate) fn text_of(&self, unit: Unit) -> &'a str {
        text_of(self.text, unit)
    }
}

fn text_of(text: &str, unit: Unit) -> &str {
    text.get(unit.start as usize..unit.end as usize)
        .unwrap_or("")
}

/// A text with stand-ins for its units, of which what is known is added to a list.
fn core_text(
    alloc: Global,
    text: &str,
    outline: &Outline<'_>,
    fresh: &Fresh,
    units: &mut Vec<Enclosed>,
) -> Result<String, WholeError> {
    let mut round = Surroundings::new(alloc, text, outline.units.as_slice())?;
    let mut cuts = Vec::new(alloc);
    for (number, unit) in outline.units.iter().enumerate() {
        let own = text_of(text, *unit);
        if own.starts_with("#!") {
            units.push(Enclosed {
                shape: Shape::Spaces,
                start: unit.start,
            })?;
            cuts.push(blanked(alloc, *unit)?)?;
            continue;
        }
        let around = round.around(alloc, outline, number, *unit)?;
        let made = stand_in(alloc, outline, fresh, number, *unit, own, &around)?;
        units.push(Enclosed {
            shape: made.shape,
            start: around.start,
        })?;
        cuts.push(placed(alloc, text, around.start, *unit, made.text)?)?;
    }
    match splice(alloc, text, cuts.as_slice())? {
        Some(core) => Ok(core),
        None => Err(WholeError::NoStandIn { at: 0 }),
    }
}

/// A stand-in in the place of a unit, with what is left out in front of it from here on.
fn placed(
    alloc: Global,
    text: &str,
    start: u32,
    unit: Unit,
    stand_in: String,
) -> Result<Cut, AllocError> {
    let from = start as usize;
    let to = unit.end as usize;
    let put = apart(alloc, byte_before(text, from), stand_in, byte_at(text, to))?;
    Ok(Cut { from, to, put })
}

/// Spaces for a unit.
fn blanked(alloc: Global, unit: Unit) -> Result<Cut, AllocError> {
    let mut put = String::new(alloc);
    for _ in unit.start..unit.end {
        put.push(' ')?;
    }
    Ok(Cut {
        from: unit.start as usize,
        to: unit.end as usize,
        put,
    })
}
