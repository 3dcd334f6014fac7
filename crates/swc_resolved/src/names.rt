//! Names, and sets of them.
ghost use Rattle.std.specs.Prelude.{◌≡◌, ◌||◌, ◌&&◌, not, false, [], IfOk, OnOk, bytes_eq};
ghost use Rattle.swc_ast.specs.Marks.{mark_number};
ghost use Rattle.swc_ast.specs.Parts.{ident_name};
ghost use Rattle.swc_ast.specs.Resolved.{declares_text};
ghost use Rattle.swc_ast.specs.Scope.{default_name, has_name};
ghost use Rattle.swc_ast.specs.Tree as tree;
ghost use Rattle.swc_ast.specs.Tree.{same_name};
ghost use Rattle.swc_resolved.specs.Names.{name, names as names_of, members, has_text, is_free, is_taken};

use std::alloc::{AllocError, Global};
use std::collections::HashSet;
use swc_ast::{Ident, Mark, SyntaxContext};

/// For as many names at most room is made one by one.
const MANY: usize = 64;

/// A name: its text, and the context that tells names of one text apart.
#[derive(Clone, Copy, PartialEq, Eq, Hash)]
pub struct Name<'a> {
    pub text: &'a str,
    pub context: SyntaxContext,
}

impl<'a> Name<'a> {
    /// The name of an identifier.
    pub fn of(ident: &'a Ident) -> Name<'a>
        ensures { name result ≡ ident_name ident.now }
    {
        Name {
            text: &ident.sym,
            context: ident.ctxt,
        }
    }

    /// The name that a default export has where it has no other.
    pub(crate) fn of_default() -> Name<'a>
        ensures { name result ≡ default_name }
    {
        Name {
            text: "*default*",
            context: SyntaxContext::empty(),
        }
    }

    /// Whether the name is unresolved for a mark, that of a default export aside.
    pub(crate) fn is_free(self, unresolved_mark: Mark) -> bool
        ensures { result ≡ is_free (mark_number unresolved_mark) (name self.entry) }
    {
        let unresolved = SyntaxContext::empty().apply_mark(unresolved_mark);
        (self.context == SyntaxContext::empty() || self.context == unresolved)
            && self != Name::of_default()
    }
}

/// A set of names.
#[derive(Drop)]
pub struct NameSet<'a> {
    names: HashSet<Name<'a>>,
}

impl<'a> NameSet<'a> {
    /// The set of no names.
    pub fn new(alloc: Global) -> NameSet<'a>
        ensures { members result ≡ [] }
    {
        NameSet {
            names: HashSet::new(alloc),
        }
    }

    /// Whether a name is in the set.
    pub fn contains(&self, x: Name<'a>) -> bool
        ensures { result ≡ has_name (name x.entry) (members self.now) }
    {
        self.names.contains(&x)
    }

    /// Puts a name in, and says whether it is new. Fails where memory is refused.
    pub fn insert(&mut self, x: Name<'a>) -> Result<bool, AllocError>
        ensures added { IfOk result (λ b. b ≡ not (has_name (name x.entry) (members self.old))) }
        ensures names { OnOk result ((y : tree.Name) → has_name y (members self.new) ≡ (has_name y (members self.old) || same_name y (name x.entry))) }
    {
        Ok(self.names.insert(x)?)
    }

    /// Makes room for more names at once, where there is memory for them. (A set without room makes it as names come.)
    #[inline(never)]
    pub(crate) fn make_room(&mut self, more: usize)
        ensures { (y : tree.Name) → has_name y (members self.new) ≡ has_name y (members self.old) }
    {
        let _made = self.names.reserve(more);
    }
}

/// A set of texts.
#[derive(Drop)]
pub(crate) struct TextSet<'a> {
    texts: HashSet<&'a str>,
}

impl<'a> TextSet<'a> {
    fn new(alloc: Global) -> TextSet<'a>
        ensures { (t : tree.Text) → has_text result t ≡ false }
    {
        TextSet {
            texts: HashSet::new(alloc),
        }
    }

    /// The texts of some names. Fails where memory is refused.
    pub(crate) fn of(names: &[Name<'a>], alloc: Global) -> Result<TextSet<'a>, AllocError>
        ensures { IfOk result (λ s. (t : tree.Text) → has_text s t ≡ declares_text (names_of names.now) t) }
    {
        let mut set = TextSet::new(alloc);
        let mut left = names;
        while let [name, rest @ ..] = left {
            set.insert(name.text)?;
            left = rest;
        }
        Ok(set)
    }

    /// Whether a text is in the set.
    pub(crate) fn contains(&self, text: &'a str) -> bool
        ensures { result ≡ has_text self.now text.now }
    {
        self.texts.contains(text)
    }

    fn insert(&mut self, text: &'a str) -> Result<(), AllocError>
        ensures { OnOk result ((t : tree.Text) → has_text self.new t ≡ (has_text self.old t || bytes_eq text.now t)) }
    {
        self.texts.insert(text)?;
        Ok(())
    }
}

/// The names that no scope may bind any more: those that a scope binds, and those that are
/// unresolved.
#[derive(Drop)]
pub(crate) struct Taken<'a> {
    names: NameSet<'a>,
    unresolved_mark: Mark,
}

impl<'a> Taken<'a> {
    /// The names that are unresolved.
    pub(crate) fn new(unresolved_mark: Mark, alloc: Global) -> Taken<'a>
        ensures { (x : tree.Name) → is_taken result x ≡ is_free (mark_number unresolved_mark) x }
    {
        Taken {
            names: NameSet::new(alloc),
            unresolved_mark,
        }
    }

    /// Makes room for the names of a scope, if they are many.
    #[inline(always)]
    pub(crate) fn make_room(&mut self, more: usize)
        ensures { (y : tree.Name) → is_taken self.new y ≡ is_taken self.old y }
    {
        if more <= MANY {
            return;
        }
        self.names.make_room(more);
    }

    /// Whether no scope may bind a name any more.
    pub(crate) fn contains(&self, x: Name<'a>) -> bool
        ensures { result ≡ is_taken self.now (name x.entry) }
    {
        x.is_free(self.unresolved_mark) || self.names.contains(x)
    }

    /// No further scope may bind a name; says whether one could until now. Fails where memory is refused.
    pub(crate) fn add(&mut self, x: Name<'a>) -> Result<bool, AllocError>
        ensures added { IfOk result (λ b. b ≡ not (is_taken self.old (name x.entry))) }
        ensures names { OnOk result ((y : tree.Name) → is_taken self.new y ≡ (is_taken self.old y || same_name y (name x.entry))) }
    {
        if x.is_free(self.unresolved_mark) {
            return Ok(false);
        }
        let is_new = self.names.insert(x)?;
        Ok(is_new)
    }
}
