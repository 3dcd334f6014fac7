//! The names of a tree, one after another.
ghost use Rattle.std.specs.Prelude.{◌≡◌, ◌++◌, IfOk, OnOk, []};
ghost use Rattle.swc_ast.specs.Modules.{item_tree};
ghost use Rattle.swc_ast.specs.Parts.{list_trees};
ghost use Rattle.tree_visit.specs.Kinds.{kind_label};
ghost use Rattle.tree_visit.specs.Nodes.{Opens, children_forest};
ghost use Rattle.swc_names.specs.Ids.{idents as idents_of, optional};
ghost use Rattle.swc_names.specs.Names.{own_name as label_name, handler_name as label_handler, binds as label_binds, is_var as label_is_var, asks, enters, front_names, behind_names, opened_names, names_among};

use std::alloc::{AllocError, Global};
use stmt_like::StmtLike;
use swc_ast::{Ident, VarDeclKind};
use tree_visit::{Kind, Opened, open_module_decl, open_stmt};

/// Which names of a tree are asked for.
#[derive(Clone, Copy)]
pub(crate) enum Choice {
    /// each name
    Every,
    /// each time that a name is bound
    Bound,
    /// `var` declarations, outside functions
    Vars,
}

impl Choice {
    /// Whether a node's own name is asked for.
    fn asks(self, kind: Kind<'_>) -> bool
        ensures { result ≡ asks self (kind_label kind.entry) }
    {
        match self {
            Choice::Every => true,
            Choice::Bound => binds(kind),
            Choice::Vars => is_var(kind),
        }
    }

    /// Whether names are asked for among a node's children.
    fn enters(self, kind: Kind<'_>) -> bool
        ensures { result ≡ enters self (kind_label kind.entry) }
    {
        match self {
            Choice::Every | Choice::Bound => true,
            Choice::Vars => kind.holds_statements(),
        }
    }

    /// The name of a node in front of its children.
    fn front<'a>(self, kind: Kind<'a>) -> Option<&'a Ident>
        ensures { optional result ≡ front_names self (kind_label kind.entry) }
    {
        if self.asks(kind) {
            own_name(kind)
        } else {
            None
        }
    }

    /// The name of a node behind its first child.
    fn behind<'a>(self, kind: Kind<'a>) -> Option<&'a Ident>
        ensures { optional result ≡ behind_names self (kind_label kind.entry) }
    {
        match self {
            Choice::Every | Choice::Bound => handler_name(kind),
            Choice::Vars => None,
        }
    }
}

/// The name that stands in a node, in front of its children.
fn own_name<'a>(kind: Kind<'a>) -> Option<&'a Ident>
    ensures { optional result ≡ label_name (kind_label kind.entry) }
{
    match kind {
        Kind::Read(name)
        | Kind::Shorthand(name)
        | Kind::Param(name)
        | Kind::TypeOfName(name)
        | Kind::CallEval(name)
        | Kind::Assign(_, name)
        | Kind::Update(_, _, name)
        | Kind::Declarator(_, name)
        | Kind::FnDecl(name)
        | Kind::ImportDefault(name)
        | Kind::ImportStar(name) => Some(name),
        Kind::Fn(name) | Kind::ExportDefaultFn(name) => name.as_ref(),
        Kind::ImportNamed(n) => Some(&n.local),
        Kind::ExportSpecifier(n) => Some(&n.orig),
        _ => None,
    }
}

/// The parameter of a handler.
fn handler_name<'a>(kind: Kind<'a>) -> Option<&'a Ident>
    ensures { optional result ≡ label_handler (kind_label kind.entry) }
{
    match kind {
        Kind::Try(handler) => match handler {
            Some(clause) => clause.param.as_ref(),
            None => None,
        },
        _ => None,
    }
}

/// Whether a node binds its own name.
fn binds(kind: Kind<'_>) -> bool
    ensures { result ≡ label_binds (kind_label kind.entry) }
{
    match kind {
        Kind::Param(_)
        | Kind::Declarator(_, _)
        | Kind::Fn(_)
        | Kind::FnDecl(_)
        | Kind::ExportDefaultFn(_)
        | Kind::ImportNamed(_)
        | Kind::ImportDefault(_)
        | Kind::ImportStar(_) => true,
        _ => false,
    }
}

/// Whether a node is a declarator of `var`.
fn is_var(kind: Kind<'_>) -> bool
    ensures { result ≡ label_is_var (kind_label kind.entry) }
{
    match kind {
        Kind::Declarator(kind, _) => match kind {
            VarDeclKind::Var => true,
            VarDeclKind::Let | VarDeclKind::Const => false,
        },
        _ => false,
    }
}

/// The names of a list that are asked for, in the order of the text. Fails where memory is refused.
pub(crate) fn gather<'a, T: StmtLike>(
    alloc: Global,
    items: &'a [T],
    choice: Choice,
) -> Result<Vec<&'a Ident>, AllocError>
    ensures { IfOk result (λ r. idents_of r.items ≡ names_among choice [] (list_trees (λ x. item_tree (T.item x)) items.now)) }
{
    let mut names = Vec::new(alloc);
    let mut left = items;
    while let [item, rest @ ..] = left {
        add_names(&mut names, open_item(item), choice)?;
        left = rest;
    }
    Ok(names)
}

/// What an item of a list is, and its children.
pub fn open_item<'a, T: StmtLike>(item: &'a T) -> Opened<'a>
    ensures { Opens (item_tree (T.item item.now)) result }
{
    if let Some(s) = item.as_stmt() {
        return open_stmt(s);
    }
    match item.as_module_decl() {
        Some(n) => open_module_decl(n),
        None => unreachable!(),
    }
}

/// Adds the names of a node that are asked for.
fn add_names<'a>(
    names: &mut Vec<&'a Ident>,
    opened: Opened<'a>,
    choice: Choice,
) -> Result<(), AllocError>
    ensures { OnOk result (idents_of names.new.items ≡ idents_of names.old.items ++ opened_names choice (kind_label opened.entry.kind) (children_forest opened.entry.children)) }
{
    add_optional(names, choice.front(opened.kind))?;
    if !choice.enters(opened.kind) {
        return Ok(());
    }
    let mut left = opened.children;
    let mut waiting = choice.behind(opened.kind);
    while let Some((child, rest)) = left.next() {
        add_names(names, child.open(), choice)?;
        add_optional(names, waiting)?;
        waiting = None;
        left = rest;
    }
    add_optional(names, waiting)
}

fn add_optional<'a>(names: &mut Vec<&'a Ident>, name: Option<&'a Ident>) -> Result<(), AllocError>
    ensures { OnOk result (idents_of names.new.items ≡ idents_of names.old.items ++ optional name.entry) }
{
    if let Some(n) = name {
        names.push(n)?;
    }
    Ok(())
}
