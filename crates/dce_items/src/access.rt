//! How items read and write names.
use dce_peel::Access;
use dce_uses::{declared_name, function_name, is_read, named};
use std::alloc::{AllocError, Global};
use swc_ast::Ident;
use swc_names::Names;
use tree_visit::{Children, Kind, Node, Opened};

/// Names by their numbers, while nodes are read.
#[derive(Drop)]
struct Reader<'a> {
    names: &'a Names,
    /// How many declarations of a function of each name stand round the node: inside them the name isn't read.
    around: Vec<usize>,
}

impl<'a> Reader<'a> {
    /// No declaration stands round the first node.
    fn new(alloc: Global, names: &'a Names) -> Result<Reader<'a>, AllocError> {
        Ok(Reader {
            names,
            around: vec![in alloc; 0; names.len()]?,
        })
    }

    /// The number of a name, if there is one.
    fn number(&self, name: Option<&Ident>) -> Option<usize> {
        self.names.number_of(name?)
    }

    /// Whether a declaration of a function of a name stands round the node.
    fn is_inside(&self, number: usize) -> bool {
        number < self.around.len() && self.around[number] > 0
    }

    /// A function's declaration begins.
    fn enter(&mut self, function: Option<usize>) {
        let Some(number) = function else {
            return;
        };
        if number < self.around.len() {
            self.around[number] = self.around[number].saturating_add(1);
        }
    }

    /// It ends.
    fn leave(&mut self, function: Option<usize>) {
        let Some(number) = function else {
            return;
        };
        if number < self.around.len() {
            self.around[number] = self.around[number].saturating_sub(1);
        }
    }

    /// Adds how a node itself uses names.
    fn add_own(&self, kind: Kind<'_>, access: &mut Access) -> Result<(), AllocError> {
        if let Some(number) = self.number(named(kind)) {
            if !is_read(kind) {
                access.writes.push(number)?;
            } else if !self.is_inside(number) {
                access.reads.push(number)?;
            }
        }
        if let Some(number) = self.number(declared_name(kind)) {
            access.declares.push(number)?;
        }
        Ok(())
    }

    /// The same for all nodes among children and below them.
    #[cycle(add_all)]
    #[tactic(auto, using(tree_visit::proofs::Caps::rest_falls, crate::proofs::Sizes::inner_falls, crate::proofs::Sizes::rest_within))]
    fn add_all(&mut self, children: Children<'_>, access: &mut Access) -> Result<(), AllocError> {
        let mut left = children;
        while let Some((child, rest)) = left.next() {
            let opened = child.open();
            let function = self.number(function_name(opened.kind));
            self.enter(function);
            self.add_own(opened.kind, access)?;
            self.add_all(opened.children, access)?;
            self.leave(function);
            left = rest;
        }
        Ok(())
    }

    /// How an item reads, writes and declares names.
    fn access_of(&mut self, alloc: Global, opened: Opened<'_>) -> Result<Access, AllocError> {
        let mut access = Access {
            reads: Vec::new(alloc),
            writes: Vec::new(alloc),
            declares: Vec::new(alloc),
        };
        let function = self.number(function_name(opened.kind));
        self.enter(function);
        self.add_own(opened.kind, &mut access)?;
        self.add_all(opened.children, &mut access)?;
        self.leave(function);
        Ok(access)
    }
}

/// How each of some items reads, writes and declares names; the reads of a function's name inside its declaration aside. Fails
/// where memory is refused.
pub(crate) fn accesses_of(
    alloc: Global,
    names: &Names,
    items: &[Node<'_>],
) -> Result<Vec<Access>, AllocError> {
    let mut reader = Reader::new(alloc, names)?;
    let mut accesses = Vec::new(alloc);
    for item in items {
        accesses.push(reader.access_of(alloc, item.open())?)?;
    }
    Ok(accesses)
}
