//! Texts with parts of them replaced.
ghost use Rattle.std.specs.Prelude.{◌≡◌, IfOk, IfSome, string_bytes};
ghost use Rattle.text_whole.specs.Splice.{spliced};

use std::alloc::{AllocError, Global};

/// A part of a text, by the bytes where it begins and ends, and what is put in its place.
#[derive(Drop)]
pub(crate) struct Cut {
    pub(crate) from: usize,
    pub(crate) to: usize,
    pub(crate) put: String,
}

/// A text with other texts in the place of some parts. `None` where the parts don't come in its order, or where one begins or ends
/// within a character.
pub(crate) fn splice(alloc: Global, text: &str, cuts: &[Cut]) -> Result<Option<String>, AllocError>
    ensures { IfOk result (λ made. IfSome made (λ out. string_bytes out ≡ spliced text.now 0 cuts.now)) }
{
    let mut out = String::new(alloc);
    let mut end = 0;
    for cut in cuts {
        let Some(before) = text.get(end..cut.from) else {
            return Ok(None);
        };
        out.push_str(before)?;
        out.push_str(cut.put.as_str())?;
        end = cut.to;
    }
    let Some(rest) = text.get(end..) else {
        return Ok(None);
    };
    out.push_str(rest)?;
    Ok(Some(out))
}
