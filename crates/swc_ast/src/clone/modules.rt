//! Copies of modules and scripts.
ghost use Rattle.std.specs.Prelude.{◌≡◌, IfOk};
ghost use Rattle.swc_ast.specs.Modules.{import_specifier_tree, import_tree, export_specifier_tree, named_export_tree, export_decl_tree, export_default_fn_tree, export_default_expr_tree, module_decl_tree, item_tree, module_tree, script_tree};
ghost use Rattle.swc_ast.specs.declared.modules.ImportSpecifier.TheVariants.{Named, Default, Namespace};

use crate::clone::declarations::copy_decl;
use crate::clone::expressions::{copy_boxed, copy_fn_expr};
use crate::clone::leaves::{copy_ident, copy_option_word, copy_str};
use crate::clone::statements::{copy_stmt, copy_stmts};
use crate::modules::{
    ExportDecl, ExportDefaultDecl, ExportDefaultExpr, ExportNamedSpecifier, ImportDecl,
    ImportDefaultSpecifier, ImportNamedSpecifier, ImportSpecifier, ImportStarAsSpecifier, Module,
    ModuleDecl, ModuleItem, NamedExport, Script,
};
use std::alloc::AllocError;

fn copy_named(n: &ImportNamedSpecifier) -> Result<ImportNamedSpecifier, AllocError>
    ensures { IfOk result (λ r. import_specifier_tree (Named r) ≡ import_specifier_tree (Named n.now)) }
{
    let local = copy_ident(&n.local)?;
    let imported = copy_option_word(&n.imported)?;
    Ok(ImportNamedSpecifier {
        span: n.span,
        local,
        imported,
    })
}

fn copy_default_import(n: &ImportDefaultSpecifier) -> Result<ImportDefaultSpecifier, AllocError>
    ensures { IfOk result (λ r. import_specifier_tree (Default r) ≡ import_specifier_tree (Default n.now)) }
{
    let local = copy_ident(&n.local)?;
    Ok(ImportDefaultSpecifier {
        span: n.span,
        local,
    })
}

fn copy_star(n: &ImportStarAsSpecifier) -> Result<ImportStarAsSpecifier, AllocError>
    ensures { IfOk result (λ r. import_specifier_tree (Namespace r) ≡ import_specifier_tree (Namespace n.now)) }
{
    let local = copy_ident(&n.local)?;
    Ok(ImportStarAsSpecifier {
        span: n.span,
        local,
    })
}

fn copy_import_specifier(s: &ImportSpecifier) -> Result<ImportSpecifier, AllocError>
    ensures { IfOk result (λ r. import_specifier_tree r ≡ import_specifier_tree s.now) }
{
    match s {
        ImportSpecifier::Named(n) => Ok(ImportSpecifier::Named(copy_named(n)?)),
        ImportSpecifier::Default(n) => Ok(ImportSpecifier::Default(copy_default_import(n)?)),
        ImportSpecifier::Namespace(n) => Ok(ImportSpecifier::Namespace(copy_star(n)?)),
    }
}

fn copy_import(n: &ImportDecl) -> Result<ImportDecl, AllocError>
    ensures { IfOk result (λ r. import_tree r ≡ import_tree n.now) }
{
    let mut specifiers = Vec::with_capacity(*n.specifiers.allocator(), n.specifiers.len())?;
    for s in &n.specifiers {
        specifiers.push(copy_import_specifier(s)?)?;
    }
    let src = copy_str(&n.src)?;
    Ok(ImportDecl {
        span: n.span,
        specifiers,
        src,
    })
}

fn copy_export_specifier(n: &ExportNamedSpecifier) -> Result<ExportNamedSpecifier, AllocError>
    ensures { IfOk result (λ r. export_specifier_tree r ≡ export_specifier_tree n.now) }
{
    let orig = copy_ident(&n.orig)?;
    let exported = copy_option_word(&n.exported)?;
    Ok(ExportNamedSpecifier {
        span: n.span,
        orig,
        exported,
    })
}

fn copy_named_export(n: &NamedExport) -> Result<NamedExport, AllocError>
    ensures { IfOk result (λ r. named_export_tree r ≡ named_export_tree n.now) }
{
    let mut specifiers = Vec::with_capacity(*n.specifiers.allocator(), n.specifiers.len())?;
    for s in &n.specifiers {
        specifiers.push(copy_export_specifier(s)?)?;
    }
    Ok(NamedExport {
        span: n.span,
        specifiers,
    })
}

fn copy_export_decl(n: &ExportDecl) -> Result<ExportDecl, AllocError>
    ensures { IfOk result (λ r. export_decl_tree r ≡ export_decl_tree n.now) }
{
    let decl = copy_decl(&n.decl)?;
    Ok(ExportDecl { span: n.span, decl })
}

fn copy_default_decl(n: &ExportDefaultDecl) -> Result<ExportDefaultDecl, AllocError>
    ensures { IfOk result (λ r. export_default_fn_tree r ≡ export_default_fn_tree n.now) }
{
    let decl = copy_fn_expr(&n.decl)?;
    Ok(ExportDefaultDecl { span: n.span, decl })
}

fn copy_default_expr(n: &ExportDefaultExpr) -> Result<ExportDefaultExpr, AllocError>
    ensures { IfOk result (λ r. export_default_expr_tree r ≡ export_default_expr_tree n.now) }
{
    let expr = copy_boxed(&n.expr)?;
    Ok(ExportDefaultExpr { span: n.span, expr })
}

fn copy_module_decl(d: &ModuleDecl) -> Result<ModuleDecl, AllocError>
    ensures { IfOk result (λ r. module_decl_tree r ≡ module_decl_tree d.now) }
{
    match d {
        ModuleDecl::Import(n) => Ok(ModuleDecl::Import(copy_import(n)?)),
        ModuleDecl::ExportDecl(n) => Ok(ModuleDecl::ExportDecl(copy_export_decl(n)?)),
        ModuleDecl::ExportNamed(n) => Ok(ModuleDecl::ExportNamed(copy_named_export(n)?)),
        ModuleDecl::ExportDefaultDecl(n) => {
            Ok(ModuleDecl::ExportDefaultDecl(copy_default_decl(n)?))
        }
        ModuleDecl::ExportDefaultExpr(n) => {
            Ok(ModuleDecl::ExportDefaultExpr(copy_default_expr(n)?))
        }
    }
}

fn copy_module_item(i: &ModuleItem) -> Result<ModuleItem, AllocError>
    ensures { IfOk result (λ r. item_tree r ≡ item_tree i.now) }
{
    match i {
        ModuleItem::ModuleDecl(n) => Ok(ModuleItem::ModuleDecl(copy_module_decl(n)?)),
        ModuleItem::Stmt(n) => Ok(ModuleItem::Stmt(copy_stmt(n)?)),
    }
}

fn copy_module(n: &Module) -> Result<Module, AllocError>
    ensures { IfOk result (λ r. module_tree r ≡ module_tree n.now) }
{
    let mut body = Vec::with_capacity(*n.body.allocator(), n.body.len())?;
    for i in &n.body {
        body.push(copy_module_item(i)?)?;
    }
    Ok(Module { span: n.span, body })
}

fn copy_script(n: &Script) -> Result<Script, AllocError>
    ensures { IfOk result (λ r. script_tree r ≡ script_tree n.now) }
{
    let body = copy_stmts(&n.body)?;
    Ok(Script { span: n.span, body })
}

impl Clone for ImportNamedSpecifier {
    ghost is_clone = { λ x y. import_specifier_tree (Named y) ≡ import_specifier_tree (Named x) };

    fn clone(&self) -> Result<ImportNamedSpecifier, AllocError> {
        copy_named(self)
    }
}

impl Clone for ImportDefaultSpecifier {
    ghost is_clone = { λ x y. import_specifier_tree (Default y) ≡ import_specifier_tree (Default x) };

    fn clone(&self) -> Result<ImportDefaultSpecifier, AllocError> {
        copy_default_import(self)
    }
}

impl Clone for ImportStarAsSpecifier {
    ghost is_clone = { λ x y. import_specifier_tree (Namespace y) ≡ import_specifier_tree (Namespace x) };

    fn clone(&self) -> Result<ImportStarAsSpecifier, AllocError> {
        copy_star(self)
    }
}

impl Clone for ImportSpecifier {
    ghost is_clone = { λ x y. import_specifier_tree y ≡ import_specifier_tree x };

    fn clone(&self) -> Result<ImportSpecifier, AllocError> {
        copy_import_specifier(self)
    }
}

impl Clone for ImportDecl {
    ghost is_clone = { λ x y. import_tree y ≡ import_tree x };

    fn clone(&self) -> Result<ImportDecl, AllocError> {
        copy_import(self)
    }
}

impl Clone for ExportNamedSpecifier {
    ghost is_clone = { λ x y. export_specifier_tree y ≡ export_specifier_tree x };

    fn clone(&self) -> Result<ExportNamedSpecifier, AllocError> {
        copy_export_specifier(self)
    }
}

impl Clone for NamedExport {
    ghost is_clone = { λ x y. named_export_tree y ≡ named_export_tree x };

    fn clone(&self) -> Result<NamedExport, AllocError> {
        copy_named_export(self)
    }
}

impl Clone for ExportDecl {
    ghost is_clone = { λ x y. export_decl_tree y ≡ export_decl_tree x };

    fn clone(&self) -> Result<ExportDecl, AllocError> {
        copy_export_decl(self)
    }
}

impl Clone for ExportDefaultDecl {
    ghost is_clone = { λ x y. export_default_fn_tree y ≡ export_default_fn_tree x };

    fn clone(&self) -> Result<ExportDefaultDecl, AllocError> {
        copy_default_decl(self)
    }
}

impl Clone for ExportDefaultExpr {
    ghost is_clone = { λ x y. export_default_expr_tree y ≡ export_default_expr_tree x };

    fn clone(&self) -> Result<ExportDefaultExpr, AllocError> {
        copy_default_expr(self)
    }
}

impl Clone for ModuleDecl {
    ghost is_clone = { λ x y. module_decl_tree y ≡ module_decl_tree x };

    fn clone(&self) -> Result<ModuleDecl, AllocError> {
        copy_module_decl(self)
    }
}

impl Clone for ModuleItem {
    ghost is_clone = { λ x y. item_tree y ≡ item_tree x };

    fn clone(&self) -> Result<ModuleItem, AllocError> {
        copy_module_item(self)
    }
}

impl Clone for Module {
    ghost is_clone = { λ x y. module_tree y ≡ module_tree x };

    fn clone(&self) -> Result<Module, AllocError> {
        copy_module(self)
    }
}

impl Clone for Script {
    ghost is_clone = { λ x y. script_tree y ≡ script_tree x };

    fn clone(&self) -> Result<Script, AllocError> {
        copy_script(self)
    }
}
