//! The scopes of a text: what each declares, and where each name is mentioned.
use std::alloc::{AllocError, Global};
use std::collections::HashMap;
use std::collections::hash_map::Entry;
use swc_ast::{Mark, SyntaxContext};

/// A name that is read, written or declared.
#[derive(Clone, Copy)]
pub(crate) struct Mention {
    pub(crate) context: SyntaxContext,
    /// whether what binds it was declared behind it
    pub(crate) is_late: bool,
    /// the mention before that an open scope may still bind, of the same name
    before: Link,
}

/// An item of a list, by how many items the list had with it, or 0.
type Link = u32;

/// What a scope is.
#[derive(Clone, Copy)]
pub(crate) enum ScopeKind {
    /// a module, a script, or a function's parameters and body
    Function,
    /// a function's body beside parameters with a default, and one with them as to what may be declared
    Body,
    /// a block, `for`, `switch`, `catch`, or a function expression's own name
    Block,
    /// the block of a `catch`, and one with it as to what may be declared
    CatchBody,
}

/// What a name is declared as.
#[derive(Clone, Copy)]
pub(crate) enum Declared {
    /// by `var`, in the function
    Var,
    /// a parameter
    Param,
    /// what else is declared: in the innermost scope
    Lexical,
}

/// What binds a name.
#[derive(Clone, Copy)]
struct Binding {
    scope: u32,
    /// whether it is a `var` or a parameter, and not `let`, `const`, a function, an import or a handler's name
    is_var: bool,
    /// how many scopes there were at its last `var`
    opened: u32,
}

/// What is known of a name here.
#[derive(Clone, Copy)]
struct Known {
    binding: Option<Binding>,
    context: SyntaxContext,
    /// its last mention that an open scope may still bind
    last: Link,
}

/// A name that a scope binds.
#[derive(Clone, Copy)]
struct Bound {
    symbol: u32,
    /// what was known of it before
    outer: Known,
    /// the name that the same scope bound before
    before: Link,
}

#[derive(Clone, Copy)]
struct Scope {
    /// the scope that binds what is declared here by `var`
    function: u32,
    /// the scope round this one that is one with it
    beside: Option<u32>,
    /// the name that it bound last
    names: Link,
    /// the last mention before it was opened
    opened_behind: Link,
}

/// The greatest number of a mark.
const LAST_MARK: u64 = 0x7FFF_FFFF;

/// The mark of the scope with a number, which counts from 0: past the last number it goes on at 1, so that no two scopes share
/// one.
fn mark_of(mark: Mark, scope: u32) -> Mark {
    let sum = u64::from(mark.number()) + u64::from(scope) + 1;
    let number = if sum > LAST_MARK {
        sum - LAST_MARK
    } else {
        sum
    };
    Mark::new(u32::try_from(number).unwrap_or(0)).unwrap_or(mark)
}

/// How many names that were met lately are kept.
const RECENT: usize = 1024;

/// Where a name is kept among those that were met lately.
#[inline(always)]
fn place_of(name: &str) -> usize {
    let sum = match name.as_bytes() {
        [first, .., before, last] => {
            3 * usize::from(*first) + 37 * usize::from(*before) + 5 * usize::from(*last)
        }
        [first, last] => 37 * usize::from(*first) + 5 * usize::from(*last),
        [only] => usize::from(*only),
        [] => 0,
    };
    sum % RECENT
}

/// The number of items of a list.
#[inline(always)]
fn count<T>(list: &Vec<T>) -> u32 {
    (list.len() % 4_294_967_296) as u32
}

/// The place of what a link leads to.
#[inline(always)]
fn place_behind(link: Link) -> usize {
    (link as usize).wrapping_sub(1)
}

/// The scopes of a text that were opened so far.
#[derive(Drop)]
pub(crate) struct Scopes<'a> {
    symbols: HashMap<&'a str, u32>,
    /// names that were met lately, with their numbers
    recent: Vec<Option<(&'a str, u32)>>,
    /// what is known of each name here
    known: Vec<Known>,
    scopes: Vec<Scope>,
    /// the scopes that are open
    open: Vec<u32>,
    /// what scopes bind
    bound: Vec<Bound>,
    /// the mark of what no scope binds
    mark: Mark,
    mentions: Vec<Mention>,
    /// the number of the name that was mentioned last, or one that no name has
    mentioned: u32,
}

impl<'a> Scopes<'a> {
    pub(crate) fn new(alloc: Global, mark: Mark) -> Result<Scopes<'a>, AllocError> {
        Ok(Scopes {
            symbols: HashMap::new(alloc),
            recent: vec![in alloc; None; RECENT]?,
            known: Vec::new(alloc),
            scopes: Vec::new(alloc),
            open: Vec::new(alloc),
            bound: Vec::new(alloc),
            mark,
            mentions: Vec::new(alloc),
            mentioned: u32::MAX,
        })
    }

    /// The number of a name.
    #[inline(always)]
    fn symbol(&mut self, name: &'a str) -> Result<u32, AllocError> {
        let place = place_of(name);
        let symbol = match self.recent_symbol(place, name) {
            Some(symbol) => symbol,
            None => self.kept_symbol(name)?,
        };
        // The text that was met last is the nearest to compare with.
        if let Some(kept) = self.recent.get_mut(place) {
            *kept = Some((name, symbol));
        }
        Ok(symbol)
    }

    /// The number of a name that was met lately, if it is kept at this place.
    #[inline(always)]
    fn recent_symbol(&self, place: usize, name: &str) -> Option<u32> {
        match self.recent.get(place) {
            Some(Some((recent, symbol))) if *recent == name => Some(*symbol),
            _ => None,
        }
    }

    /// The number of a name that was met before, or else the next one.
    #[inline(never)]
    fn kept_symbol(&mut self, name: &'a str) -> Result<u32, AllocError> {
        let next = count(&self.known);
        match self.symbols.entry(name)? {
            Entry::Occupied(kept) => Ok(*kept.get()),
            Entry::Vacant(place) => {
                place.insert(next);
                self.known.push(Known {
                    binding: None,
                    context: SyntaxContext::empty().apply_mark(self.mark),
                    last: 0,
                })?;
                Ok(next)
            }
        }
    }

    #[inline(never)]
    pub(crate) fn open(&mut self, kind: ScopeKind) -> Result<(), AllocError> {
        let number = count(&self.scopes);
        let round = self.innermost();
        let function = match kind {
            ScopeKind::Function | ScopeKind::Body => number,
            ScopeKind::Block | ScopeKind::CatchBody => self.function_of(round),
        };
        let beside = match kind {
            ScopeKind::Body | ScopeKind::CatchBody => Some(round),
            ScopeKind::Function | ScopeKind::Block => None,
        };
        self.scopes.push(Scope {
            function,
            beside,
            names: 0,
            opened_behind: count(&self.mentions),
        })?;
        self.open.push(number)?;
        Ok(())
    }

    /// Closes the innermost scope: what was known before of the names that it binds is known again.
    #[inline(never)]
    pub(crate) fn close(&mut self) {
        let closed = self.open.pop().unwrap_or(0);
        let mut link = match self.scopes.get(closed as usize) {
            Some(scope) => scope.names,
            None => 0,
        };
        for _ in 0..self.bound.len() {
            let Some(bound) = self.bound.get(place_behind(link)).copied() else {
                break;
            };
            if let Some(known) = self.known.get_mut(bound.symbol as usize) {
                *known = bound.outer;
            }
            link = bound.before;
        }
    }

    /// A name that is read, written or declared here. The answer is its context by what was declared before it.
    #[inline(always)]
    pub(crate) fn mention(&mut self, name: &'a str) -> Result<SyntaxContext, AllocError> {
        let symbol = self.symbol(name)?;
        self.mentioned = symbol;
        let link = count(&self.mentions).wrapping_add(1);
        let mut mention = Mention {
            context: SyntaxContext::empty(),
            is_late: false,
            before: 0,
        };
        if let Some(known) = self.known.get_mut(symbol as usize) {
            mention.context = known.context;
            mention.before = known.last;
            known.last = link;
        }
        self.mentions.push(mention)?;
        Ok(mention.context)
    }

    /// The context of the name that was mentioned last, which is declared here.
    pub(crate) fn declared_context(&mut self) -> SyntaxContext {
        let context = match self.known.get(self.mentioned as usize) {
            Some(known) => known.context,
            None => SyntaxContext::empty(),
        };
        if let Some(mention) = self.mentions.last_mut() {
            mention.context = context;
        }
        context
    }

    /// The mentions so far, in the order of the text. Those are final that no open scope may still bind.
    pub(crate) fn mentions(&self) -> &[Mention] {
        self.mentions.as_slice()
    }

    /// The innermost scope that is open.
    fn innermost(&self) -> u32 {
        self.open.last().copied().unwrap_or(0)
    }

    /// The scope that binds what is declared in a scope by `var`.
    fn function_of(&self, scope: u32) -> u32 {
        match self.scopes.get(scope as usize) {
            Some(found) => found.function,
            None => scope,
        }
    }

    /// Whether a scope is the one round another that is one with it.
    fn is_beside(&self, round: u32, scope: u32) -> bool {
        match self.scopes.get(scope as usize) {
            Some(found) => found.beside == Some(round),
            None => false,
        }
    }

    /// What binds a name here.
    fn binding(&self, symbol: u32) -> Option<Binding> {
        match self.known.get(symbol as usize) {
            Some(known) => known.binding,
            None => None,
        }
    }

    fn set_binding(&mut self, symbol: u32, binding: Binding) {
        if let Some(known) = self.known.get_mut(symbol as usize) {
            known.binding = Some(binding);
        }
    }

    /// Binds the name that was mentioned last, which the scope of the binding does not bind yet, nor one inside it.
    fn bind(&mut self, binding: Binding) -> Result<(), AllocError> {
        let symbol = self.mentioned;
        let own = mark_of(self.mark, binding.scope);
        let context = SyntaxContext::empty().apply_mark(own);
        let (start, before) = match self.scopes.get(binding.scope as usize) {
            Some(scope) => (scope.opened_behind, scope.names),
            None => (0, 0),
        };
        let Some(known) = self.known.get_mut(symbol as usize) else {
            return Ok(());
        };
        let mut outer = *known;
        known.binding = Some(binding);
        known.context = context;
        outer.last = bind_since(&mut self.mentions, start, context);
        self.bound.push(Bound {
            symbol,
            outer,
            before,
        })?;
        let last = count(&self.bound);
        if let Some(scope) = self.scopes.get_mut(binding.scope as usize) {
            scope.names = last;
        }
        Ok(())
    }

    /// Declares the name that was mentioned last, and says whether it may.
    pub(crate) fn declare(&mut self, what: Declared) -> Result<bool, AllocError> {
        match what {
            Declared::Var => self.declare_var(),
            Declared::Param => self.declare_here(true),
            Declared::Lexical => self.declare_here(false),
        }
    }

    /// Declares the name that was mentioned last in the innermost scope, and says whether it may.
    fn declare_here(&mut self, is_var: bool) -> Result<bool, AllocError> {
        let scope = self.innermost();
        // A `var` that came since the scope was opened stands inside it.
        if let Some(found) = self.binding(self.mentioned)
            && (found.scope == scope
                || found.opened > scope
                || self.is_beside(found.scope, scope))
        {
            return Ok(false);
        }
        self.bind(Binding {
            scope,
            is_var,
            opened: 0,
        })?;
        Ok(true)
    }

    /// Declares the name that was mentioned last by `var`, and says whether it may.
    fn declare_var(&mut self) -> Result<bool, AllocError> {
        let symbol = self.mentioned;
        let scope = self.function_of(self.innermost());
        let binding = Binding {
            scope,
            is_var: true,
            opened: count(&self.scopes),
        };
        match self.binding(symbol) {
            // The function binds it, or a scope inside it that is open.
            Some(found) if found.scope >= scope => {
                self.set_binding(
                    symbol,
                    Binding {
                        is_var: found.is_var,
                        ..binding
                    },
                );
                Ok(found.is_var)
            }
            Some(found) if self.is_beside(found.scope, scope) => Ok(false),
            _ => {
                self.bind(binding)?;
                Ok(true)
            }
        }
    }

    /// Whether the first scope of the text, which is open, declares a name.
    pub(crate) fn is_declared_first(&self, name: &str) -> bool {
        let Some(symbol) = self.symbols.get(name) else {
            return false;
        };
        match self.binding(*symbol) {
            Some(found) => found.scope == 0,
            None => false,
        }
    }
}

/// Gives a context to the mentions behind a place of the name that was mentioned last, but for the last one. The answer is its last
/// mention before them that an open scope may still bind.
fn bind_since(mentions: &mut Vec<Mention>, start: Link, context: SyntaxContext) -> Link {
    let mut link = match mentions.last() {
        Some(last) => last.before,
        None => 0,
    };
    for _ in 0..mentions.len() {
        if link <= start {
            break;
        }
        let Some(mention) = mentions.get_mut(place_behind(link)) else {
            break;
        };
        mention.context = context;
        mention.is_late = true;
        link = mention.before;
    }
    link
}
