//! Names that are ready at the head of a node.
ghost use Rattle.std.specs.Prelude.{◌≡◌, OnOk};
ghost use Rattle.swc_ast.specs.Tree.{label_of, children_of};
ghost use Rattle.swc_ast.specs.Resolved.{catch_name};
ghost use Rattle.swc_ast.specs.Scope as scope;
ghost use Rattle.swc_ast.specs.Scope.{has_name};
ghost use Rattle.swc_ast.specs.Statements.{handler_param};
ghost use Rattle.carry_rules.specs.Carry as carry;
ghost use Rattle.swc_names.specs.Ids.{optional};
ghost use Rattle.tree_visit.specs.Kinds.{kind_label};
ghost use Rattle.tree_visit.specs.Nodes.{node_tree, children_forest};
ghost use Rattle.carry_reads.specs.Fronts.{names_in, Covers, Adds};

use crate::ready::add_optional;
use carry_tables::Scoped;
use carry_vars::Vars;
use std::alloc::AllocError;
use swc_ast::{CatchClause, Ident};
use tree_visit::{Children, Kind, Node};

/// Makes the names ready that are so at the head of a node. Fails where memory is refused. (It isn't inlined, so that a level of
/// a tree takes less of the stack.)
#[inline(never)]
pub(crate) fn add_front<'a>(
    vars: &Vars<'a>,
    ready: &mut Scoped<'a>,
    n: Node<'a>,
) -> Result<(), AllocError>
    requires { Covers vars.now (names_in ready.old) }
    ensures { OnOk result (Adds vars.now ready.old ready.new (carry.ready_at (label_of (node_tree n.entry)) (children_of (node_tree n.entry)))) }
{
    let opened = n.open();
    add_opened(vars, ready, opened.kind, opened.children)
}

/// The same, by what the node is and its children.
fn add_opened<'a>(
    vars: &Vars<'a>,
    ready: &mut Scoped<'a>,
    kind: Kind<'a>,
    children: Children<'a>,
) -> Result<(), AllocError>
    requires { Covers vars.now (names_in ready.old) }
    ensures { OnOk result (Adds vars.now ready.old ready.new (carry.ready_at (kind_label kind.entry) (children_forest children.entry))) }
{
    match kind {
        Kind::Fn(name) => add_optional(vars, ready, name.as_ref()),
        Kind::Try(handler) => add_optional(vars, ready, handler_name(handler)),
        Kind::Params => add_params(vars, ready, children),
        Kind::Body | Kind::Block | Kind::Module | Kind::Script => {
            add_functions(vars, ready, children)
        }
        Kind::Switch(_) => add_cases(vars, ready, children),
        _ => Ok(()),
    }
}

/// The name of a handler.
fn handler_name<'a>(handler: &'a Option<CatchClause>) -> Option<&'a Ident>
    ensures { optional result ≡ catch_name (handler_param handler.now) }
{
    match handler {
        Some(clause) => clause.param.as_ref(),
        None => None,
    }
}

/// Makes parameters ready.
fn add_params<'a>(
    vars: &Vars<'a>,
    ready: &mut Scoped<'a>,
    children: Children<'a>,
) -> Result<(), AllocError>
    requires { Covers vars.now (names_in ready.old) }
    ensures { OnOk result (Adds vars.now ready.old ready.new (λ x. has_name x (scope.param_names (children_forest children.entry)))) }
{
    let mut left = children;
    while let Some((child, rest)) = left.next() {
        add_optional(vars, ready, param_name(child.open().kind))?;
        left = rest;
    }
    Ok(())
}

fn param_name<'a>(kind: Kind<'a>) -> Option<&'a Ident>
    ensures { optional result ≡ scope.param_name (kind_label kind.entry) }
{
    match kind {
        Kind::Param(name) => Some(name),
        _ => None,
    }
}

/// Makes functions ready that a list declares.
fn add_functions<'a>(
    vars: &Vars<'a>,
    ready: &mut Scoped<'a>,
    children: Children<'a>,
) -> Result<(), AllocError>
    requires { Covers vars.now (names_in ready.old) }
    ensures { OnOk result (Adds vars.now ready.old ready.new (λ x. has_name x (carry.list_functions (children_forest children.entry)))) }
{
    let mut left = children;
    while let Some((child, rest)) = left.next() {
        add_optional(vars, ready, item_function(child))?;
        left = rest;
    }
    Ok(())
}

/// The function that an item of a list declares, under `export` too.
fn item_function<'a>(n: Node<'a>) -> Option<&'a Ident>
    ensures { optional result ≡ carry.item_function (node_tree n.entry) }
{
    let opened = n.open();
    match opened.kind {
        Kind::ExportDecl => match opened.children.next() {
            Some((child, _)) => function_name(child.open().kind),
            None => None,
        },
        kind => function_name(kind),
    }
}

fn function_name<'a>(kind: Kind<'a>) -> Option<&'a Ident>
    ensures { optional result ≡ carry.function_name (kind_label kind.entry) }
{
    match kind {
        Kind::FnDecl(name) => Some(name),
        Kind::ExportDefaultFn(name) => name.as_ref(),
        _ => None,
    }
}

/// Makes functions ready that the cases of a `switch` declare.
fn add_cases<'a>(
    vars: &Vars<'a>,
    ready: &mut Scoped<'a>,
    children: Children<'a>,
) -> Result<(), AllocError>
    requires { Covers vars.now (names_in ready.old) }
    ensures { OnOk result (Adds vars.now ready.old ready.new (λ x. has_name x (carry.list_functions (scope.case_statements (children_forest children.entry))))) }
{
    let mut left = children;
    while let Some((child, rest)) = left.next() {
        add_case(vars, ready, child)?;
        left = rest;
    }
    Ok(())
}

/// Makes functions ready that a case declares.
fn add_case<'a>(vars: &Vars<'a>, ready: &mut Scoped<'a>, n: Node<'a>) -> Result<(), AllocError>
    requires { Covers vars.now (names_in ready.old) }
    ensures { OnOk result (Adds vars.now ready.old ready.new (λ x. has_name x (carry.list_functions (scope.body_statements (label_of (node_tree n.entry)) (children_of (node_tree n.entry)))))) }
{
    let opened = n.open();
    match opened.kind {
        Kind::CaseBody => add_functions(vars, ready, opened.children),
        _ => Ok(()),
    }
}
