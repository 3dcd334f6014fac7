//! The names that trees give to scopes.
ghost use Rattle.std.specs.Prelude.{◌≡◌, ◌++◌, OnOk};
ghost use Rattle.swc_ast.specs.Meaning.{head_names, first_tree};
ghost use Rattle.swc_ast.specs.Parts.{option_ident_name};
ghost use Rattle.swc_ast.specs.Resolved.{first_names, declared_names, catch_name};
ghost use Rattle.swc_ast.specs.Scope.{own_vars, declarator_name as label_declarator, param_name as label_param, imported_name as label_imported, option_name};
ghost use Rattle.swc_ast.specs.Statements.{handler_param};
ghost use Rattle.swc_ast.specs.Tree.{Tree, ε};
ghost use Rattle.tree_visit.specs.Kinds.{kind_label};
ghost use Rattle.tree_visit.specs.Nodes.{Opens, node_tree, children_forest};
ghost use Rattle.swc_resolved.specs.Names.{names as tree_names_of};
ghost use Rattle.swc_resolved.specs.Parts.{optional, tree_names, forest_names, label_names, declaring, is_export as is_export_label, is_lexical as is_lexical_label, is_import as is_import_label, is_case_body as is_case_label};
ghost use Rattle.swc_resolved.specs.Scopes.{own_names};
ghost use Rattle.swc_resolved.specs.declared.declared.Part.TheVariants.{Declarations, Vars};

use crate::names::Name;
use crate::still::is_still;
use std::alloc::AllocError;
use swc_ast::{CatchClause, Ident, VarDeclKind};
use tree_visit::{Children, Kind, Node, Opened};

/// What of a list of nodes gives names to the scope.
#[derive(Clone, Copy)]
pub enum Part {
    /// `var` declarations, outside functions
    Vars,
    /// what stands directly in the list: `let`, `const` and functions
    Declarations,
    /// the declarators of a declaration
    Declarators,
    Params,
    /// the imports of a module
    Imports,
    /// the specifiers of an import
    Specifiers,
    /// what stands directly in the cases of a `switch`
    Cases,
    /// `var` declarations in the cases of a `switch`
    CaseVars,
}

/// Adds the names that a list of nodes gives. Fails where memory is refused.
#[cycle(names)]
#[tactic(auto, using(tree_visit::proofs::Caps::rest_falls, crate::proofs::Sizes::rest_within, crate::proofs::Gathered::goes_on, crate::proofs::Gathered::ends))]
pub fn add_names<'a>(
    names: &mut Vec<Name<'a>>,
    children: Children<'a>,
    part: Part,
) -> Result<(), AllocError>
    ensures { OnOk result (tree_names_of names.new.items ≡ tree_names_of names.old.items ++ forest_names part (children_forest children.entry)) }
{
    let mut left = children;
    while let Some((child, rest)) = left.next() {
        if !is_still(child, part) {
            add_node(names, child, part)?;
        }
        left = rest;
    }
    Ok(())
}

/// Adds the names that a node gives. (`var`s are looked for as deep as statements nest, so they have a function of their own, which
/// takes little of the stack.)
#[cycle(names)]
#[inline(always)]
fn add_node<'a>(names: &mut Vec<Name<'a>>, n: Node<'a>, part: Part) -> Result<(), AllocError>
    ensures { OnOk result (tree_names_of names.new.items ≡ tree_names_of names.old.items ++ tree_names part (node_tree n.entry)) }
{
    match part {
        Part::Vars => add_vars(names, n),
        Part::Declarations => add_declaration(names, n),
        _ => add_names_of(names, n, part),
    }
}

/// Adds the names of the `var`s in a node.
#[cycle(names)]
#[inline(never)]
#[tactic(auto, using(crate::proofs::Gathered::vars_below, crate::proofs::Gathered::vars_alone))]
fn add_vars<'a>(names: &mut Vec<Name<'a>>, n: Node<'a>) -> Result<(), AllocError>
    ensures { OnOk result (tree_names_of names.new.items ≡ tree_names_of names.old.items ++ tree_names Vars (node_tree n.entry)) }
{
    let opened = n.open_apart();
    if opened.kind.holds_statements() {
        return add_names(names, opened.children, Part::Vars);
    }
    add_optional(names, own_var(opened.kind))
}

/// Adds the names that a node gives, by a call: in `add_names` this would make the frame larger that `var`s need at each level.
#[cycle(names)]
#[inline(never)]
#[tactic(auto, using(crate::proofs::Gathered::specifiers, crate::proofs::Gathered::no_import, crate::proofs::Gathered::case_below, crate::proofs::Gathered::no_case, crate::proofs::Gathered::case_vars_below, crate::proofs::Gathered::no_case_vars, crate::proofs::Gathered::declarator, crate::proofs::Gathered::param, crate::proofs::Gathered::imported))]
fn add_names_of<'a>(names: &mut Vec<Name<'a>>, n: Node<'a>, part: Part) -> Result<(), AllocError>
    ensures { OnOk result (tree_names_of names.new.items ≡ tree_names_of names.old.items ++ tree_names part (node_tree n.entry)) }
{
    let opened = n.open();
    match part {
        Part::Vars => add_vars(names, n),
        Part::Declarations => add_declaration(names, n),
        Part::Declarators => add_optional(names, declarator_name(opened.kind)),
        Part::Params => add_optional(names, param_name(opened.kind)),
        Part::Imports => {
            if is_import(opened.kind) {
                return add_names(names, opened.children, Part::Specifiers);
            }
            Ok(())
        }
        Part::Specifiers => add_optional(names, imported_name(opened.kind)),
        Part::Cases => {
            if is_case_body(opened.kind) {
                return add_names(names, opened.children, Part::Declarations);
            }
            Ok(())
        }
        Part::CaseVars => {
            if is_case_body(opened.kind) {
                return add_names(names, opened.children, Part::Vars);
            }
            Ok(())
        }
    }
}

/// Adds the names of what stands directly in a list.
#[cycle(names)]
#[inline(never)]
fn add_declaration<'a>(names: &mut Vec<Name<'a>>, n: Node<'a>) -> Result<(), AllocError>
    ensures { OnOk result (tree_names_of names.new.items ≡ tree_names_of names.old.items ++ tree_names Declarations (node_tree n.entry)) }
{
    let opened = n.open();
    let declaration = declaration(opened);
    if is_lexical(declaration.kind) {
        return add_names(names, declaration.children, Part::Declarators);
    }
    add_optional(names, declared_name(declaration.kind))
}

pub(crate) fn add_optional<'a>(
    names: &mut Vec<Name<'a>>,
    name: Option<Name<'a>>,
) -> Result<(), AllocError>
    ensures { OnOk result (tree_names_of names.new.items ≡ tree_names_of names.old.items ++ optional name.entry) }
{
    if let Some(x) = name {
        names.push(x)?;
    }
    Ok(())
}

/// The declaration that an item of a list is, under `export` too.
#[tactic(auto, using(crate::proofs::Gathered::exported, crate::proofs::Gathered::export_alone, crate::proofs::Gathered::no_export))]
fn declaration<'a>(opened: Opened<'a>) -> Opened<'a>
    ensures { (t : Tree) → Opens t opened.entry → Opens (declaring t) result }
{
    if !is_export(opened.kind) {
        return opened;
    }
    match opened.children.next() {
        None => opened,
        Some((inner, _)) => inner.open(),
    }
}

fn is_export(kind: Kind<'_>) -> bool
    ensures { result ≡ is_export_label (kind_label kind.entry) }
{
    match kind {
        Kind::ExportDecl => true,
        _ => false,
    }
}

fn own_var<'a>(kind: Kind<'a>) -> Option<Name<'a>>
    ensures { optional result ≡ own_vars (kind_label kind.entry) }
{
    match kind {
        Kind::Declarator(kind, name) => match kind {
            VarDeclKind::Var => Some(Name::of(name)),
            VarDeclKind::Let | VarDeclKind::Const => None,
        },
        _ => None,
    }
}

fn is_lexical(kind: Kind<'_>) -> bool
    ensures { result ≡ is_lexical_label (kind_label kind.entry) }
{
    match kind {
        Kind::VarDecl(kind) => match kind {
            VarDeclKind::Var => false,
            VarDeclKind::Let | VarDeclKind::Const => true,
        },
        _ => false,
    }
}

/// The name that a declaration other than `let` and `const` declares.
fn declared_name<'a>(kind: Kind<'a>) -> Option<Name<'a>>
    ensures { optional result ≡ label_names (kind_label kind.entry) ε }
{
    match kind {
        Kind::FnDecl(name) => Some(Name::of(name)),
        Kind::ExportDefaultFn(name) => match name {
            Some(name) => Some(Name::of(name)),
            None => Some(Name::of_default()),
        },
        Kind::ExportDefaultExpr => Some(Name::of_default()),
        _ => None,
    }
}

fn declarator_name<'a>(kind: Kind<'a>) -> Option<Name<'a>>
    ensures { optional result ≡ label_declarator (kind_label kind.entry) }
{
    match kind {
        Kind::Declarator(_, name) => Some(Name::of(name)),
        _ => None,
    }
}

fn param_name<'a>(kind: Kind<'a>) -> Option<Name<'a>>
    ensures { optional result ≡ label_param (kind_label kind.entry) }
{
    match kind {
        Kind::Param(name) => Some(Name::of(name)),
        _ => None,
    }
}

fn imported_name<'a>(kind: Kind<'a>) -> Option<Name<'a>>
    ensures { optional result ≡ label_imported (kind_label kind.entry) }
{
    match kind {
        Kind::ImportNamed(n) => Some(Name::of(&n.local)),
        Kind::ImportDefault(name) | Kind::ImportStar(name) => Some(Name::of(name)),
        _ => None,
    }
}

fn is_import(kind: Kind<'_>) -> bool
    ensures { result ≡ is_import_label (kind_label kind.entry) }
{
    match kind {
        Kind::Import(_) => true,
        _ => false,
    }
}

fn is_case_body(kind: Kind<'_>) -> bool
    ensures { result ≡ is_case_label (kind_label kind.entry) }
{
    match kind {
        Kind::CaseBody => true,
        _ => false,
    }
}

/// Adds what a body declares.
pub fn add_body<'a>(names: &mut Vec<Name<'a>>, body: Children<'a>) -> Result<(), AllocError>
    ensures { OnOk result (tree_names_of names.new.items ≡ tree_names_of names.old.items ++ declared_names (children_forest body.entry)) }
{
    add_names(names, body, Part::Vars)?;
    add_names(names, body, Part::Declarations)
}

/// Adds the names that a node binds in a scope of its own, those of a function's parameters and
/// body aside.
#[tactic(auto, using(crate::proofs::Gathered::nothing_more))]
pub fn add_own_names<'a>(
    names: &mut Vec<Name<'a>>,
    kind: Kind<'a>,
    children: Children<'a>,
) -> Result<(), AllocError>
    ensures { OnOk result (tree_names_of names.new.items ≡ tree_names_of names.old.items ++ own_names (kind_label kind.entry) (children_forest children.entry)) }
{
    match kind {
        Kind::Fn(name) => add_optional(names, optional_name(name)),
        Kind::Block => add_names(names, children, Part::Declarations),
        Kind::For => add_head(names, children),
        Kind::Switch(_) => add_names(names, children, Part::Cases),
        Kind::Try(handler) => add_optional(names, caught_name(handler)),
        Kind::Module => {
            add_names(names, children, Part::Imports)?;
            add_body(names, children)
        }
        Kind::Script => add_body(names, children),
        _ => Ok(()),
    }
}

/// Adds what the first part of a `for` declares.
pub(crate) fn add_head<'a>(
    names: &mut Vec<Name<'a>>,
    children: Children<'a>,
) -> Result<(), AllocError>
    ensures { OnOk result (tree_names_of names.new.items ≡ tree_names_of names.old.items ++ first_names (head_names (first_tree (children_forest children.entry)))) }
{
    match children.next() {
        None => Ok(()),
        Some((head, _)) => add_declaration(names, head),
    }
}

fn optional_name<'a>(name: &'a Option<Ident>) -> Option<Name<'a>>
    ensures { optional result ≡ option_name (option_ident_name name.now) }
{
    match name {
        None => None,
        Some(name) => Some(Name::of(name)),
    }
}

/// The parameter of a handler.
pub(crate) fn caught_name<'a>(handler: &'a Option<CatchClause>) -> Option<Name<'a>>
    ensures { optional result ≡ catch_name (handler_param handler.now) }
{
    match handler {
        None => None,
        Some(clause) => optional_name(&clause.param),
    }
}
