//! Comparison of modules and scripts.
ghost use Rattle.swc_ast.specs.Modules.{import_specifier_tree, import_tree, export_specifier_tree, named_export_tree, export_decl_tree, export_default_fn_tree, export_default_expr_tree, module_decl_tree, item_tree, module_tree, script_tree};
ghost use Rattle.swc_ast.specs.declared.modules.ImportSpecifier.TheVariants.{Named, Default, Namespace};

use crate::modules::{
    ExportDecl, ExportDefaultDecl, ExportDefaultExpr, ExportNamedSpecifier, ImportDecl,
    ImportDefaultSpecifier, ImportNamedSpecifier, ImportSpecifier, ImportStarAsSpecifier, Module,
    ModuleDecl, ModuleItem, NamedExport, Script,
};
use crate::same::{Compare, spans_agree};

impl Compare for ImportNamedSpecifier {
    ghost tree = { λ n. import_specifier_tree (Named n) };

    fn is_same(&self, other: &ImportNamedSpecifier, spans: bool) -> bool {
        match (&self.imported, &other.imported) {
            (Some(a), Some(b)) => {
                (self.local.sym == other.local.sym)
                    & (self.local.ctxt == other.local.ctxt)
                    & (a.sym == b.sym)
                    & spans_agree(
                        spans,
                        &[self.span, a.span, self.local.span],
                        &[other.span, b.span, other.local.span],
                    )
            }
            (None, None) => {
                (self.local.sym == other.local.sym)
                    & (self.local.ctxt == other.local.ctxt)
                    & spans_agree(
                        spans,
                        &[self.span, self.local.span],
                        &[other.span, other.local.span],
                    )
            }
            _ => false,
        }
    }
}

impl Compare for ImportDefaultSpecifier {
    ghost tree = { λ n. import_specifier_tree (Default n) };

    fn is_same(&self, other: &ImportDefaultSpecifier, spans: bool) -> bool {
        (self.local.sym == other.local.sym)
            & (self.local.ctxt == other.local.ctxt)
            & spans_agree(
                spans,
                &[self.span, self.local.span],
                &[other.span, other.local.span],
            )
    }
}

impl Compare for ImportStarAsSpecifier {
    ghost tree = { λ n. import_specifier_tree (Namespace n) };

    fn is_same(&self, other: &ImportStarAsSpecifier, spans: bool) -> bool {
        (self.local.sym == other.local.sym)
            & (self.local.ctxt == other.local.ctxt)
            & spans_agree(
                spans,
                &[self.span, self.local.span],
                &[other.span, other.local.span],
            )
    }
}

impl Compare for ImportSpecifier {
    ghost tree = { λ n. import_specifier_tree n };

    fn is_same(&self, other: &ImportSpecifier, spans: bool) -> bool {
        match (self, other) {
            (ImportSpecifier::Named(a), ImportSpecifier::Named(b)) => a.is_same(b, spans),
            (ImportSpecifier::Default(a), ImportSpecifier::Default(b)) => a.is_same(b, spans),
            (ImportSpecifier::Namespace(a), ImportSpecifier::Namespace(b)) => a.is_same(b, spans),
            _ => false,
        }
    }
}

impl Compare for ImportDecl {
    ghost tree = { λ n. import_tree n };

    fn is_same(&self, other: &ImportDecl, spans: bool) -> bool {
        (self.src.value == other.src.value)
            & spans_agree(
                spans,
                &[self.span, self.src.span],
                &[other.span, other.src.span],
            )
            & self.specifiers.is_same(&other.specifiers, spans)
    }
}

impl Compare for ExportNamedSpecifier {
    ghost tree = { λ n. export_specifier_tree n };

    fn is_same(&self, other: &ExportNamedSpecifier, spans: bool) -> bool {
        match (&self.exported, &other.exported) {
            (Some(a), Some(b)) => {
                (self.orig.sym == other.orig.sym)
                    & (self.orig.ctxt == other.orig.ctxt)
                    & (a.sym == b.sym)
                    & spans_agree(
                        spans,
                        &[self.span, self.orig.span, a.span],
                        &[other.span, other.orig.span, b.span],
                    )
            }
            (None, None) => {
                (self.orig.sym == other.orig.sym)
                    & (self.orig.ctxt == other.orig.ctxt)
                    & spans_agree(
                        spans,
                        &[self.span, self.orig.span],
                        &[other.span, other.orig.span],
                    )
            }
            _ => false,
        }
    }
}

impl Compare for NamedExport {
    ghost tree = { λ n. named_export_tree n };

    fn is_same(&self, other: &NamedExport, spans: bool) -> bool {
        spans_agree(spans, &[self.span], &[other.span])
            & self.specifiers.is_same(&other.specifiers, spans)
    }
}

impl Compare for ExportDecl {
    ghost tree = { λ n. export_decl_tree n };

    fn is_same(&self, other: &ExportDecl, spans: bool) -> bool {
        spans_agree(spans, &[self.span], &[other.span]) & self.decl.is_same(&other.decl, spans)
    }
}

impl Compare for ExportDefaultDecl {
    ghost tree = { λ n. export_default_fn_tree n };

    fn is_same(&self, other: &ExportDefaultDecl, spans: bool) -> bool {
        spans_agree(spans, &[self.span], &[other.span]) & self.decl.is_same(&other.decl, spans)
    }
}

impl Compare for ExportDefaultExpr {
    ghost tree = { λ n. export_default_expr_tree n };

    fn is_same(&self, other: &ExportDefaultExpr, spans: bool) -> bool {
        spans_agree(spans, &[self.span], &[other.span]) & self.expr.is_same(&other.expr, spans)
    }
}

impl Compare for ModuleDecl {
    ghost tree = { λ n. module_decl_tree n };

    fn is_same(&self, other: &ModuleDecl, spans: bool) -> bool {
        match (self, other) {
            (ModuleDecl::Import(a), ModuleDecl::Import(b)) => a.is_same(b, spans),
            (ModuleDecl::ExportDecl(a), ModuleDecl::ExportDecl(b)) => a.is_same(b, spans),
            (ModuleDecl::ExportNamed(a), ModuleDecl::ExportNamed(b)) => a.is_same(b, spans),
            (ModuleDecl::ExportDefaultDecl(a), ModuleDecl::ExportDefaultDecl(b)) => {
                a.is_same(b, spans)
            }
            (ModuleDecl::ExportDefaultExpr(a), ModuleDecl::ExportDefaultExpr(b)) => {
                a.is_same(b, spans)
            }
            _ => false,
        }
    }
}

impl Compare for ModuleItem {
    ghost tree = { λ n. item_tree n };

    fn is_same(&self, other: &ModuleItem, spans: bool) -> bool {
        match (self, other) {
            (ModuleItem::ModuleDecl(a), ModuleItem::ModuleDecl(b)) => a.is_same(b, spans),
            (ModuleItem::Stmt(a), ModuleItem::Stmt(b)) => a.is_same(b, spans),
            _ => false,
        }
    }
}

impl Compare for Module {
    ghost tree = { λ n. module_tree n };

    fn is_same(&self, other: &Module, spans: bool) -> bool {
        spans_agree(spans, &[self.span], &[other.span]) & self.body.is_same(&other.body, spans)
    }
}

impl Compare for Script {
    ghost tree = { λ n. script_tree n };

    fn is_same(&self, other: &Script, spans: bool) -> bool {
        spans_agree(spans, &[self.span], &[other.span]) & self.body.is_same(&other.body, spans)
    }
}
