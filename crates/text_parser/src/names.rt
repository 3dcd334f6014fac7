//! Names: where they are read, bound and written.
use crate::cursor::{Parser, Read, Refused};
use crate::scopes::Declared;
use swc_ast::{AssignTarget, Atom, Expr, Ident, IdentName};
use text_lexer::{Construct, Fault, Kind, Token, is_word_part};

/// Whether no binding and no write may have this name in strict code.
fn is_restricted(name: &str) -> bool {
    matches!(name.len(), 4 | 9) && (name == "eval" || name == "arguments")
}

impl<'a> Parser<'a> {
    /// What an operand that begins at an offset may be written to as.
    #[inline(never)]
    pub(crate) fn target(&mut self, operand: Box<Expr>, at: u32) -> Read<AssignTarget> {
        match Box::into_inner(operand).into_target() {
            Ok(AssignTarget::Ident(name)) => {
                if is_restricted(name.sym.as_str()) {
                    return Err(self.refuse_at(name.span.lo.saturating_sub(1)));
                }
                Ok(AssignTarget::Ident(name))
            }
            Ok(target) => Ok(target),
            Err(_) => Err(self.refuse_at(at)),
        }
    }

    /// Refuses the second declaration of a name, which begins at an offset.
    pub(crate) fn redeclared(&mut self, at: u32) -> Refused {
        self.refuse_for(Fault::OutOfCore {
            at,
            what: Construct::Redeclared,
        })
    }

    /// A name, which is passed.
    #[inline(always)]
    pub(crate) fn ident(&mut self) -> Read<Ident> {
        let text = self.text_of(self.token());
        self.ident_of(text)
    }

    /// The name here, which is passed and whose text this is.
    #[inline(always)]
    fn ident_of(&mut self, text: &'a str) -> Read<Ident> {
        let start = self.start();
        if !self.take(Kind::Name) {
            return Err(self.no_name());
        }
        let ctxt = self.scopes.mention(text)?;
        Ok(Ident {
            span: self.span_from(start),
            sym: Atom::from_str(self.alloc, text)?,
            ctxt,
        })
    }

    #[cold]
    #[inline(never)]
    fn no_name(&mut self) -> Refused {
        if self.is_at(Kind::WideName) {
            self.leave_out(Construct::Name)
        } else {
            self.refuse()
        }
    }

    /// A name that is declared here, which is passed.
    #[inline(never)]
    pub(crate) fn declared(&mut self, what: Declared) -> Read<Ident> {
        let token = self.token();
        let text = self.text_of(token);
        if is_restricted(text) {
            return Err(self.refuse());
        }
        let mut name = self.ident_of(text)?;
        if !self.scopes.declare(what)? {
            return Err(self.redeclared(token.start));
        }
        name.ctxt = self.scopes.declared_context();
        Ok(name)
    }

    /// Refuses destructuring where a name is declared.
    #[inline(always)]
    pub(crate) fn refuse_destructuring(&mut self) -> Read<()> {
        if matches!(self.kind(), Kind::LeftBrace | Kind::LeftBracket) {
            return Err(self.leave_out(Construct::Pattern));
        }
        Ok(())
    }

    /// A name or a reserved word, which is passed.
    #[inline(never)]
    pub(crate) fn word(&mut self) -> Read<IdentName> {
        let token = self.token();
        if !self.is_word(token) {
            return Err(self.no_name());
        }
        self.bump();
        Ok(IdentName {
            span: self.span_from(token.start),
            sym: Atom::from_str(self.alloc, self.text_of(token))?,
        })
    }

    /// Whether a token is a name or a reserved word.
    #[inline(always)]
    pub(crate) fn is_word(&self, token: Token) -> bool {
        match token.kind {
            Kind::Name => true,
            Kind::WideName => false,
            _ => match self.text_of(token).as_bytes().first() {
                Some(byte) => is_word_part(*byte) && !byte.is_ascii_digit(),
                None => false,
            },
        }
    }

    /// Whether a token is this name, as `of` or `async`.
    #[inline(always)]
    pub(crate) fn is_name(&self, token: Token, name: &str) -> bool {
        matches!(token.kind, Kind::Name)
            && token.end.saturating_sub(token.start) as usize == name.len()
            && self.text_of(token) == name
    }

    /// Passes this name if it comes next.
    pub(crate) fn take_name(&mut self, name: &str) -> bool {
        let found = self.is_name(self.token(), name);
        if found {
            self.bump();
        }
        found
    }

    /// Exports the name that a token spells.
    pub(crate) fn export(&mut self, token: Token) -> Read<()> {
        let name = self.text_of(token);
        if self.exports.add(name)? {
            Ok(())
        } else {
            Err(self.refuse_at(token.start))
        }
    }

    /// Refuses the first specifier that exports what the module does not declare.
    pub(crate) fn refuse_undeclared_exports(&mut self) -> Read<()> {
        match self.undeclared_export() {
            Some(at) => Err(self.refuse_at(at)),
            None => Ok(()),
        }
    }

    /// The offset of the first specifier that exports what the module does not declare.
    fn undeclared_export(&self) -> Option<u32> {
        for local in &self.exports.locals {
            let (name, at) = *local;
            if !self.scopes.is_declared_first(name) {
                return Some(at);
            }
        }
        None
    }
}
