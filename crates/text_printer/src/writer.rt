//! The public calls, and what they write with.
use std::alloc::{AllocError, Global};
use swc_ast::{Module, Script};

/// How a text is laid out.
#[derive(Clone, Copy, Debug, PartialEq, Eq)]
pub enum Layout {
    /// Each item of a module or a script is on a line of its own, with a space between words and signs.
    Spaced,
    /// White space and semicolons only where the text would else be read as another tree or not at all, the quotes that need fewer
    /// escapes, and neither parentheses around one parameter nor behind `new` without arguments. The text has no line but for
    /// those of templates, and no `</script`.
    Compact,
}

/// What writes a tree: the text so far, and how it goes on.
#[derive(Drop)]
pub(crate) struct Printer {
    pub(crate) out: String,
    pub(crate) layout: Layout,
    /// whether an `in` here would be read as the one of `for (a in b)`
    pub(crate) in_head: bool,
    /// whether the last statement lacks its semicolon
    lacks_semicolon: bool,
}

/// Whether a byte of UTF-8 may be one of a name, a word or a number.
fn is_word_byte(byte: u8) -> bool {
    byte.is_ascii_alphanumeric() || byte == b'_' || byte == b'$' || byte >= 0x80
}

/// Whether a token is read as another one right behind such a text: two words or two signs are read as one, and scripts have
/// comments that begin with `<!--` or `-->` (ECMA-262, B.1.1).
fn runs_into(text: &[u8], token: &[u8]) -> bool {
    match (text, token) {
        ([.., b'+'], [b'+', ..]) | ([.., b'-'], [b'-', ..]) => true,
        ([.., b'<', b'!'], [b'-', b'-', ..]) | ([.., b'-', b'-'], [b'>', ..]) => true,
        ([.., last], [first, ..]) => is_word_byte(*last) && is_word_byte(*first),
        _ => false,
    }
}

impl Printer {
    fn new(alloc: Global, layout: Layout) -> Printer {
        Printer {
            out: String::new(alloc),
            layout,
            in_head: false,
            lacks_semicolon: false,
        }
    }

    pub(crate) fn is_compact(&self) -> bool {
        self.layout == Layout::Compact
    }

    /// Writes a text as it is: a part of a token, or signs that nothing in front of them runs into.
    pub(crate) fn put(&mut self, text: &str) -> Result<(), AllocError> {
        self.out.push_str(text)?;
        Ok(())
    }

    /// In a compact text, the space in front of a token that would else be read with what is there.
    pub(crate) fn apart(&mut self, token: &str) -> Result<(), AllocError> {
        if self.is_compact() && runs_into(self.out.as_bytes(), token.as_bytes()) {
            self.put(" ")?;
        }
        Ok(())
    }

    pub(crate) fn token(&mut self, token: &str) -> Result<(), AllocError> {
        self.apart(token)?;
        self.put(token)
    }

    /// A space that a compact text doesn't need.
    pub(crate) fn space(&mut self) -> Result<(), AllocError> {
        if self.is_compact() {
            Ok(())
        } else {
            self.put(" ")
        }
    }

    /// A token between two operands or words.
    pub(crate) fn between(&mut self, token: &str) -> Result<(), AllocError> {
        self.space()?;
        self.token(token)?;
        self.space()
    }

    /// A word in front of what belongs to it.
    pub(crate) fn word(&mut self, word: &str) -> Result<(), AllocError> {
        self.token(word)?;
        self.space()
    }

    /// What stands before an item of a list.
    pub(crate) fn comma(&mut self, place: usize) -> Result<(), AllocError> {
        if place > 0 {
            self.put(",")?;
            self.space()?;
        }
        Ok(())
    }

    /// The end of a statement. In a compact text its semicolon waits for a statement behind it.
    pub(crate) fn semicolon(&mut self) -> Result<(), AllocError> {
        self.lacks_semicolon = self.is_compact();
        if self.lacks_semicolon {
            Ok(())
        } else {
            self.put(";")
        }
    }

    /// Something goes on behind a statement: it gets the semicolon that it lacks.
    pub(crate) fn go_on(&mut self) -> Result<(), AllocError> {
        if self.lacks_semicolon {
            self.lacks_semicolon = false;
            self.put(";")?;
        }
        Ok(())
    }

    /// The brace behind the last of some statements, which needs no semicolon then.
    pub(crate) fn close(&mut self) -> Result<(), AllocError> {
        self.lacks_semicolon = false;
        self.space()?;
        self.put("}")
    }

    /// What is behind each item of a module or a script.
    pub(crate) fn line(&mut self) -> Result<(), AllocError> {
        if self.is_compact() {
            Ok(())
        } else {
            self.put("\n")
        }
    }
}

/// The text of a module. An expression that is invalid has no text, and nothing is written for it.
pub fn print(alloc: Global, module: &Module, layout: Layout) -> Result<String, AllocError> {
    let mut printer = Printer::new(alloc, layout);
    printer.module(module)?;
    Ok(printer.out)
}

/// The text of a script, as `print` of a module.
pub fn print_script(alloc: Global, script: &Script, layout: Layout) -> Result<String, AllocError> {
    let mut printer = Printer::new(alloc, layout);
    printer.script(script)?;
    Ok(printer.out)
}
