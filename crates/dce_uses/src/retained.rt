//! The texts of names that stay.
ghost use Rattle.std.specs.Prelude.{◌≡◌, map, string_bytes, IfOk};
ghost use Rattle.swc_ast.specs.Run.{has_text};
ghost use Rattle.swc_ast.specs.Tree.{Text};

use std::alloc::{AllocError, Global};
use std::collections::BTreeSet;
use std::marker::Model;

/// The texts of names that stay, in an order in which one is found without a look at most of the others.
#[derive(Drop)]
pub struct Retained<'a> {
    texts: BTreeSet<&'a str>,
}

impl<'a> Model for Retained<'a> {
    ghost use Rattle.std.specs.Prelude.{List, map};
    ghost use Rattle.swc_ast.specs.Tree.{Text};

    ghost Value = { List Text };

    ghost view = { λ r. map (λ k. k.now) r.texts.keys };
}

impl<'a> Retained<'a> {
    /// Puts texts in order, each of them once. Fails where memory is refused.
    pub fn of(alloc: Global, texts: &'a [String]) -> Result<Retained<'a>, AllocError>
        ensures { IfOk result (λ r. (t : Text) → has_text t r ≡ has_text t (map string_bytes texts.now)) }
    {
        let mut ordered = BTreeSet::new(alloc);
        let mut left = texts;
        while let [text, rest @ ..] = left {
            ordered.insert(text.as_str())?;
            left = rest;
        }
        Ok(Retained { texts: ordered })
    }

    /// Whether a text is among them.
    pub fn has(&self, text: &str) -> bool
        ensures { result ≡ has_text text.now self.now }
    {
        self.texts.contains(text)
    }
}
