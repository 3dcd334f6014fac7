//! Texts that are told in one line.
ghost use Rattle.std.specs.Prelude.{Some, encode_utf8_all};
ghost use Rattle.std.specs.Fmt.{WritesOnOk};
ghost use Rattle.shake_given.specs.Told.{told_char, line};

use std::fmt;

/// A text as it is told: a control character in it, a line's end too, by its escape.
#[derive(Clone, Copy)]
pub(crate) struct Line<'a>(pub(crate) &'a str);

impl fmt::Display for Line<'_> {
    ghost output = { λ l. Some (line l.0.now) };

    fn fmt<W: fmt::Write>(&self, f: &mut fmt::Formatter<W>) -> fmt::Result {
        write_line(self.0, f)
    }
}

/// Writes a text as it is told.
fn write_line<W: fmt::Write>(text: &str, f: &mut fmt::Formatter<W>) -> fmt::Result
    ensures { WritesOnOk W.write_str_gives f.old result (line text.now) f.new }
{
    for c in text.chars() {
        write_told(c, f)?;
    }
    Ok(())
}

/// Writes a character as it is told.
fn write_told<W: fmt::Write>(c: char, f: &mut fmt::Formatter<W>) -> fmt::Result
    ensures { WritesOnOk W.write_str_gives f.old result (encode_utf8_all (told_char c)) f.new }
{
    if !c.is_control() {
        return f.write_char(c);
    }
    for told in c.escape_default() {
        f.write_char(told)?;
    }
    Ok(())
}
