//! The walk over modules and scripts.
ghost use Rattle.std.specs.Prelude.{IfOk};
ghost use Rattle.swc_ast.specs.Modules.{item_tree, module_decl_tree, module_tree, script_tree, export_specifier_tree};
ghost use Rattle.tree_put.specs.Walks.{Goes, EachGoes};

use crate::rules::{Puts, Scope, Spot};
use crate::walk::expressions::{put_boxed, put_boxed_function};
use crate::walk::statements::{put_decl, put_stmt, put_stmts};
use std::alloc::{AllocError, Global};
use swc_ast::{ExportNamedSpecifier, Module, ModuleDecl, ModuleItem, Script};

/// Walks a script.
pub fn put_script<P: Puts>(alloc: Global, rules: &mut P, n: &mut Script) -> Result<(), AllocError>
    ensures { IfOk result (λ u. Goes P.puts script_tree (P.state rules.old) n.old n.new (P.state rules.new)) }
{
    rules.open(Scope::Script(&n.body))?;
    put_stmts(alloc, rules, &mut n.body)?;
    rules.close()?;
    Ok(())
}

/// Walks a module.
pub fn put_module<P: Puts>(alloc: Global, rules: &mut P, n: &mut Module) -> Result<(), AllocError>
    ensures { IfOk result (λ u. Goes P.puts module_tree (P.state rules.old) n.old n.new (P.state rules.new)) }
{
    rules.open(Scope::Module(&n.body))?;
    put_items(alloc, rules, &mut n.body)?;
    rules.close()?;
    Ok(())
}

fn put_items<P: Puts>(
    alloc: Global,
    rules: &mut P,
    items: &mut Vec<ModuleItem>,
) -> Result<(), AllocError>
    ensures { IfOk result (λ u. EachGoes P.puts item_tree (P.state rules.old) items.old.items items.new.items (P.state rules.new)) }
{
    for i in 0..items.len() {
        put_item(alloc, rules, &mut items[i])?;
    }
    Ok(())
}

fn put_item<P: Puts>(alloc: Global, rules: &mut P, item: &mut ModuleItem) -> Result<(), AllocError>
    ensures { IfOk result (λ u. Goes P.puts item_tree (P.state rules.old) item.old item.new (P.state rules.new)) }
{
    match item {
        ModuleItem::ModuleDecl(n) => {
            put_module_decl(alloc, rules, n)?;
            Ok(())
        }
        ModuleItem::Stmt(n) => {
            put_stmt(alloc, rules, n)?;
            Ok(())
        }
    }
}

fn put_module_decl<P: Puts>(
    alloc: Global,
    rules: &mut P,
    d: &mut ModuleDecl,
) -> Result<(), AllocError>
    ensures { IfOk result (λ u. Goes P.puts module_decl_tree (P.state rules.old) d.old d.new (P.state rules.new)) }
{
    match d {
        ModuleDecl::Import(_) => Ok(()),
        ModuleDecl::ExportDecl(n) => {
            put_decl(alloc, rules, &mut n.decl)?;
            Ok(())
        }
        ModuleDecl::ExportNamed(n) => {
            put_specifiers(rules, &mut n.specifiers)?;
            Ok(())
        }
        ModuleDecl::ExportDefaultDecl(n) => {
            rules.open(Scope::Function(&n.decl.ident, &n.decl.function))?;
            put_boxed_function(alloc, rules, &mut n.decl.function)?;
            rules.close()?;
            Ok(())
        }
        ModuleDecl::ExportDefaultExpr(n) => {
            put_boxed(alloc, rules, Spot::Here, &mut n.expr)?;
            Ok(())
        }
    }
}

fn put_specifiers<P: Puts>(
    rules: &mut P,
    xs: &mut Vec<ExportNamedSpecifier>,
) -> Result<(), AllocError>
    ensures { IfOk result (λ u. EachGoes P.puts export_specifier_tree (P.state rules.old) xs.old.items xs.new.items (P.state rules.new)) }
{
    for i in 0..xs.len() {
        rules.export(&mut xs[i])?;
    }
    Ok(())
}
