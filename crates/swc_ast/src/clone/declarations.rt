//! Copies of declarations.
ghost use Rattle.std.specs.Prelude.{◌≡◌, IfOk, map};
ghost use Rattle.swc_ast.specs.Statements.{declarator_tree, fn_decl_tree, var_tree};
ghost use Rattle.swc_ast.specs.Views.{expr_tree, decl_tree, function_trees};
ghost use Rattle.swc_ast.specs.declared.VarDeclKind.TheVariants.{Var};

use crate::clone::expressions::copy_option;
use crate::clone::functions::copy_boxed_function;
use crate::clone::leaves::copy_ident;
use crate::declarations::{Decl, FnDecl, VarDecl, VarDeclarator};
use std::alloc::{AllocError, Global};

#[cycle(clone)]
pub(crate) fn copy_decl(d: &Decl) -> Result<Decl, AllocError>
    ensures { IfOk result (λ r. decl_tree r ≡ decl_tree d.now) }
{
    match d {
        Decl::Fn(n) => Ok(Decl::Fn(copy_fn_decl(n)?)),
        Decl::Var(n) => Ok(Decl::Var(copy_var(n)?)),
    }
}

#[cycle(clone)]
pub(crate) fn copy_fn_decl(n: &FnDecl) -> Result<FnDecl, AllocError>
    ensures { IfOk result (λ r. fn_decl_tree function_trees r ≡ fn_decl_tree function_trees n.now) }
{
    let ident = copy_ident(&n.ident)?;
    let function = copy_boxed_function(&n.function)?;
    Ok(FnDecl { ident, function })
}

#[cycle(clone)]
pub(crate) fn copy_var(n: &VarDecl) -> Result<VarDecl, AllocError>
    ensures { IfOk result (λ r. var_tree expr_tree r ≡ var_tree expr_tree n.now) }
{
    let decls = copy_declarators(&n.decls)?;
    Ok(VarDecl {
        span: n.span,
        kind: n.kind,
        decls,
    })
}

#[cycle(clone)]
pub(crate) fn copy_declarators(ds: &Vec<VarDeclarator>) -> Result<Vec<VarDeclarator>, AllocError>
    ensures { IfOk result (λ r. map (declarator_tree expr_tree Var) r.items ≡ map (declarator_tree expr_tree Var) ds.now.items) }
{
    let mut out = Vec::with_capacity(*ds.allocator(), ds.len())?;
    for d in ds {
        out.push(copy_declarator(d)?)?;
    }
    Ok(out)
}

#[cycle(clone)]
pub(crate) fn copy_declarator(n: &VarDeclarator) -> Result<VarDeclarator, AllocError>
    ensures { IfOk result (λ r. declarator_tree expr_tree Var r ≡ declarator_tree expr_tree Var n.now) }
{
    let name = copy_ident(&n.name)?;
    let init = copy_option(&n.init)?;
    Ok(VarDeclarator {
        span: n.span,
        name,
        init,
    })
}

impl Clone for Decl {
    ghost is_clone = { λ x y. decl_tree y ≡ decl_tree x };

    fn clone(&self) -> Result<Decl, AllocError> {
        copy_decl(self)
    }
}

impl Clone for FnDecl {
    ghost is_clone = { λ x y. fn_decl_tree function_trees y ≡ fn_decl_tree function_trees x };

    fn clone(&self) -> Result<FnDecl, AllocError> {
        copy_fn_decl(self)
    }
}

impl Clone for VarDecl {
    ghost is_clone = { λ x y. var_tree expr_tree y ≡ var_tree expr_tree x };

    fn clone(&self) -> Result<VarDecl, AllocError> {
        copy_var(self)
    }
}

impl Clone for VarDeclarator {
    ghost is_clone = { λ x y. declarator_tree expr_tree Var y ≡ declarator_tree expr_tree Var x };

    fn clone(&self) -> Result<VarDeclarator, AllocError> {
        copy_declarator(self)
    }
}
