//! What texts stand for at a place.
ghost use Rattle.std.specs.Prelude.{◌≡◌, ◌∷◌, ◌||◌, if◌then◌else◌, [], IfOk, OnOk, bytes_eq, is_some};
ghost use Rattle.swc_ast.specs.Resolved.{declares_text};
ghost use Rattle.swc_ast.specs.Scope.{has_name};
ghost use Rattle.swc_ast.specs.Tree as tree;
ghost use Rattle.swc_ast.specs.Tree.{Text, same_name};
ghost use Rattle.tree_captures.specs.Captured.{Scopes, no_scope, with_scope};
ghost use Rattle.tree_captures.specs.Views.{contexts, has_context, known_of, binds, captures, restored};
ghost use Rattle.swc_resolved.specs.Names.{name, names as names_of};

use std::alloc::{AllocError, Global};
use std::collections::HashMap;
use swc_ast::SyntaxContext;
use swc_resolved::Name;

/// The contexts of the names of one text that a scope binds: one, but for scopes that bind two
/// names of one text.
#[derive(Drop)]
struct Known {
    first: SyntaxContext,
    others: Vec<SyntaxContext>,
}

impl Known {
    fn contains(&self, context: SyntaxContext) -> bool
        ensures { result ≡ has_context context.0 (contexts self.now) }
    {
        self.first == context || self.others.contains(&context)
    }
}

/// What a text stood for outside a scope that was opened.
#[derive(Drop)]
pub(crate) struct Outer<'a> {
    text: &'a str,
    known: Option<Known>,
}

/// What texts stand for at a place: of each text, the names that the innermost scope binds that
/// binds any.
#[derive(Drop)]
pub(crate) struct Table<'a> {
    known: HashMap<&'a str, Known>,
}

impl<'a> Table<'a> {
    /// Inside one scope, which binds some names. Fails where memory is refused.
    pub(crate) fn with(names: &[Name<'a>], alloc: Global) -> Result<Table<'a>, AllocError>
        ensures { IfOk result (λ t. captures t ≡ with_scope (names_of names.now) no_scope) }
    {
        let known = HashMap::with_capacity(alloc, names.len())?;
        let mut table = Table { known };
        table.put_in(names, alloc)?;
        Ok(table)
    }

    /// Whether the innermost scope that binds a name's text doesn't bind the name.
    pub(crate) fn captures(&self, x: Name<'_>) -> bool
        ensures { result ≡ captures self.now (name x.entry) }
    {
        match self.known.get(x.text) {
            None => false,
            Some(known) => !known.contains(x.context),
        }
    }

    /// Goes into a scope that binds some names. Gives what `close` has to put back. Fails where
    /// memory is refused.
    pub(crate) fn open(
        &mut self,
        names: &[Name<'a>],
        alloc: Global,
    ) -> Result<Vec<Outer<'a>>, AllocError>
        ensures inside { IfOk result (λ _. captures self.new ≡ with_scope (names_of names.now) (captures self.old)) }
        ensures outside { IfOk result (λ outer. restored outer.items (captures self.new) ≡ captures self.old) }
    {
        let outer = self.take_out(names, alloc)?;
        self.put_in(names, alloc)?;
        Ok(outer)
    }

    /// Takes out what the texts of some names stand for. Fails where memory is refused.
    fn take_out(&mut self, names: &[Name<'a>], alloc: Global) -> Result<Vec<Outer<'a>>, AllocError>
        ensures taken { OnOk result ((t : Text) → known_of self.new t ≡ (if declares_text (names_of names.now) t then None else known_of self.old t)) }
        ensures outside { IfOk result (λ outer. (e : Scopes) (x : tree.Name) → restored outer.items e x ≡ (if declares_text (names_of names.now) x.text then captures self.old x else e x)) }
    {
        let mut outer = Vec::new(alloc);
        let mut left = names;
        while let [x, rest @ ..] = left {
            let known = self.known.remove(x.text);
            outer.push(Outer {
                text: x.text,
                known,
            })?;
            left = rest;
        }
        Ok(outer)
    }

    /// Binds names, beside those that are bound. Fails where memory is refused.
    fn put_in(&mut self, names: &[Name<'a>], alloc: Global) -> Result<(), AllocError>
        ensures texts { OnOk result ((t : Text) → is_some (known_of self.new t) ≡ (is_some (known_of self.old t) || declares_text (names_of names.now) t)) }
        ensures names { OnOk result ((y : tree.Name) → binds self.new y ≡ (binds self.old y || has_name y (names_of names.now))) }
    {
        let mut left = names;
        while let [x, rest @ ..] = left {
            self.bind(*x, alloc)?;
            left = rest;
        }
        Ok(())
    }

    /// Binds a name, beside those that are bound. Fails where memory is refused.
    fn bind(&mut self, x: Name<'a>, alloc: Global) -> Result<(), AllocError>
        ensures texts { OnOk result ((t : Text) → is_some (known_of self.new t) ≡ (bytes_eq (name x.entry).text t || is_some (known_of self.old t))) }
        ensures names { OnOk result ((y : tree.Name) → binds self.new y ≡ (binds self.old y || same_name (name x.entry) y)) }
    {
        let alone = Known {
            first: x.context,
            others: Vec::new(alloc),
        };
        if let Some(before) = self.known.insert(x.text, alone)? {
            let mut more = before;
            more.others.push(x.context)?;
            self.known.insert(x.text, more)?;
        }
        Ok(())
    }

    /// Goes out of a scope again: puts back what `open` gave. Fails where memory is refused.
    #[tactic(auto, using(crate::proofs::Tables::one_back, crate::proofs::Tables::all_back))]
    pub(crate) fn close(&mut self, outer: Vec<Outer<'a>>) -> Result<(), AllocError>
        ensures { OnOk result (captures self.new ≡ restored outer.entry.items (captures self.old)) }
    {
        let mut left = outer;
        while let Some(last) = left.pop() {
            self.put_back(last)?;
        }
        Ok(())
    }

    fn put_back(&mut self, outer: Outer<'a>) -> Result<(), AllocError>
        ensures { OnOk result (captures self.new ≡ restored (outer.entry ∷ []) (captures self.old)) }
    {
        let Outer { text, known } = outer;
        match known {
            None => {
                self.known.remove(text);
            }
            Some(known) => {
                self.known.insert(text, known)?;
            }
        }
        Ok(())
    }
}
