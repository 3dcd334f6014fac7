//! Literals and names.
use crate::writer::Printer;
use std::alloc::AllocError;
use std::fmt::Write;
use swc_ast::{Ident, Lit};

/// Whether a byte stands for itself in every literal without a double quote.
fn is_plain(b: u8) -> bool {
    b >= 0x20 && b < 0x7F && b != b'\'' && b != b'\\' && b != b'`' && b != b'$' && b != b'<'
}

/// The quotes around a text in which fewer of its characters have to be escaped.
fn rarer_quote(text: &str) -> char {
    let bytes = text.as_bytes();
    let single = bytes.iter().filter(|b| **b == b'\'').count();
    let double = bytes.iter().filter(|b| **b == b'"').count();
    if single < double { '\'' } else { '"' }
}

/// Whether a text has at a place what ends a script in an HTML document.
fn ends_script(text: &str, at: usize) -> bool {
    match text.as_bytes().get(at..) {
        Some([b'<', b'/', rest @ ..]) => match rest.get(..6) {
            Some(word) => word.eq_ignore_ascii_case(b"script"),
            None => false,
        },
        _ => false,
    }
}

impl Printer {
    /// A text in quotes.
    pub(crate) fn text(&mut self, text: &str) -> Result<(), AllocError> {
        let quote = if self.is_compact() {
            rarer_quote(text)
        } else {
            '\''
        };
        self.out.push(quote)?;
        if text.as_bytes().iter().all(|b| is_plain(*b)) {
            self.put(text)?;
        } else {
            for (at, c) in text.char_indices() {
                self.character(c, quote)?;
                self.backslash(text, at)?;
            }
        }
        self.out.push(quote)?;
        Ok(())
    }

    /// In a compact text, the backslash behind the first character of `</script`.
    fn backslash(&mut self, text: &str, at: usize) -> Result<(), AllocError> {
        if self.is_compact() && ends_script(text, at) {
            self.put("\\")?;
        }
        Ok(())
    }

    /// A text of a template: a dollar before a brace would begin an expression.
    pub(crate) fn quasi(&mut self, text: &str) -> Result<(), AllocError> {
        if text.as_bytes().iter().all(|b| is_plain(*b)) {
            return self.put(text);
        }
        let mut dollar = false;
        for (at, c) in text.char_indices() {
            if dollar {
                self.put(if c == '{' { "\\$" } else { "$" })?;
            }
            dollar = c == '$';
            if !dollar {
                self.character(c, '`')?;
                self.backslash(text, at)?;
            }
        }
        if dollar {
            self.put("$")?;
        }
        Ok(())
    }

    /// A character between such quotes.
    fn character(&mut self, c: char, quote: char) -> Result<(), AllocError> {
        match c {
            '\\' => self.put("\\\\"),
            '\n' if self.is_compact() && quote == '`' => self.put("\n"),
            '\t' if self.is_compact() => self.put("\t"),
            '\u{8}' if self.is_compact() => self.put("\\b"),
            '\u{B}' if self.is_compact() => self.put("\\v"),
            '\u{C}' if self.is_compact() => self.put("\\f"),
            '\n' => self.put("\\n"),
            '\r' => self.put("\\r"),
            '\u{2028}' => self.put("\\u2028"),
            '\u{2029}' => self.put("\\u2029"),
            '\0'..='\u{1F}' | '\u{7F}' => {
                let code = c as u32;
                write!(self.out, "\\x{code:02x}")?;
                Ok(())
            }
            _ => {
                if c == quote {
                    self.put("\\")?;
                }
                self.out.push(c)?;
                Ok(())
            }
        }
    }

    pub(crate) fn number(&mut self, value: i64) -> Result<(), AllocError> {
        self.apart(if value < 0 { "-" } else { "0" })?;
        write!(self.out, "{value}")?;
        Ok(())
    }

    pub(crate) fn name(&mut self, name: &Ident) -> Result<(), AllocError> {
        self.token(name.sym.as_str())
    }

    pub(crate) fn literal(&mut self, literal: &Lit) -> Result<(), AllocError> {
        match literal {
            Lit::Str(text) => self.text(text.value.as_str()),
            Lit::Bool(truth) => self.token(if truth.value { "true" } else { "false" }),
            Lit::Null(_) => self.token("null"),
            Lit::Num(number) => self.number(number.value),
        }
    }
}
