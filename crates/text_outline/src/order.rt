//! The order of units.
ghost use Rattle.std.specs.Prelude.{IfNone, IsTrue};
ghost use Rattle.text_outline.specs.Order.{AreUnits, LiesIn};

use crate::units::Unit;

/// Whether a unit isn't empty, and begins and ends at a boundary of characters.
fn lies_in(text: &str, unit: Unit) -> bool
    ensures { IsTrue result → LiesIn text.now unit }
{
    unit.start < unit.end
        && text.is_char_boundary(unit.start as usize)
        && text.is_char_boundary(unit.end as usize)
}

/// Where the first unit begins that doesn't lie in the text behind those before it.
pub(crate) fn misplaced(text: &str, units: &[Unit]) -> Option<u32>
    ensures { IfNone result (AreUnits text.now units.now) }
{
    let mut end = 0;
    for unit in units {
        if unit.start < end || !lies_in(text, *unit) {
            return Some(unit.start);
        }
        end = unit.end;
    }
    None
}
