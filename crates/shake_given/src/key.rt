//! Keys, and what is read for them.
ghost use Rattle.std.specs.Prelude.{◌≡◌, IfOk, IfErr, string_bytes};
ghost use Rattle.swc_ast.specs.Views.{expr_tree};
ghost use Rattle.given_rules.specs.Givable.{IsGivable};
ghost use Rattle.shake_given.specs.Keys.{key_text};
ghost use Rattle.shake_given.specs.Reads.{IsChain, IsRead};
ghost use Rattle.shake_given.specs.Refusals.{Unread, RefusesKey, RefusesValue};

use crate::error::GivenError;
use crate::fit::{is_chain, is_givable};
use std::alloc::{AllocError, Global};
use swc_ast::{Expr, Mark};
use swc_text::{ReadError, read_value};

/// The key that a value is given for.
#[derive(Clone, Copy)]
pub(crate) struct Key<'a> {
    /// Of an export, its module.
    pub(crate) module: Option<&'a str>,
    pub(crate) name: &'a str,
}

impl Key<'_> {
    /// The key as the command line has it. Fails where memory is refused.
    fn text(self, alloc: Global) -> Result<String, AllocError>
        ensures { IfOk result (λ text. string_bytes text ≡ key_text self.entry) }
    {
        match self.module {
            None => String::from_str(alloc, self.name),
            Some(module) => {
                let name = self.name;
                format!(in alloc; "{module}:{name}")
            }
        }
    }

    /// The expression of a text. Fails with `Unreadable` where the reader refuses the text, and with `OutOfMemory` where memory
    /// is refused.
    fn read(self, alloc: Global, text: &str, mark: Mark) -> Result<Expr, GivenError>
        ensures read { IfOk result (λ e. IsRead text.now mark (expr_tree e)) }
        ensures unread { IfErr result (Unread (key_text self.entry) text.now) }
    {
        let fault = match read_value(alloc, text, mark) {
            Ok(value) => return Ok(value),
            Err(fault) => fault,
        };
        match fault {
            ReadError::OutOfMemory => Err(GivenError::OutOfMemory),
            _ => Err(GivenError::Unreadable {
                key: self.text(alloc)?,
                fault,
            }),
        }
    }

    /// The value of a text. Fails as `read` does, and with `Unfit` where the value is read, but may not stand everywhere.
    pub(crate) fn value(self, alloc: Global, text: &str, mark: Mark) -> Result<Expr, GivenError>
        ensures read { IfOk result (λ e. IsRead text.now mark (expr_tree e)) }
        ensures givable { IfOk result (λ e. IsGivable (expr_tree e)) }
        ensures refused { IfErr result (RefusesValue (key_text self.entry) text.now mark) }
    {
        let value = self.read(alloc, text, mark)?;
        if is_givable(alloc, &value, mark)? {
            Ok(value)
        } else {
            Err(GivenError::Unfit {
                key: self.text(alloc)?,
            })
        }
    }

    /// The key itself, as a name or a chain of members. Fails as `read` does, and with `NoChain` where the key is read as anything
    /// else.
    pub(crate) fn chain(self, alloc: Global, mark: Mark) -> Result<Expr, GivenError>
        ensures read { IfOk result (λ e. IsRead self.entry.name.now mark (expr_tree e)) }
        ensures chain { IfOk result (λ e. IsChain (expr_tree e)) }
        ensures refused { IfErr result (RefusesKey (key_text self.entry) self.entry.name.now mark) }
    {
        let chain = self.read(alloc, self.name, mark)?;
        if is_chain(&chain) {
            Ok(chain)
        } else {
            Err(GivenError::NoChain {
                key: self.text(alloc)?,
            })
        }
    }
}
