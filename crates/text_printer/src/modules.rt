//! Modules and scripts.
use crate::precedence::ASSIGNMENT;
use crate::writer::Printer;
use std::alloc::AllocError;
use swc_ast::{
    IdentName, ImportDecl, ImportSpecifier, Module, ModuleDecl, ModuleItem, NamedExport, Script,
};

impl Printer {
    pub(crate) fn module(&mut self, module: &Module) -> Result<(), AllocError> {
        for item in &module.body {
            self.go_on()?;
            match item {
                ModuleItem::ModuleDecl(decl) => self.module_decl(decl)?,
                ModuleItem::Stmt(stmt) => self.stmt(stmt)?,
            }
            self.line()?;
        }
        Ok(())
    }

    pub(crate) fn script(&mut self, script: &Script) -> Result<(), AllocError> {
        for stmt in &script.body {
            self.go_on()?;
            self.stmt(stmt)?;
            self.line()?;
        }
        Ok(())
    }

    fn module_decl(&mut self, decl: &ModuleDecl) -> Result<(), AllocError> {
        match decl {
            ModuleDecl::Import(node) => self.import(node),
            ModuleDecl::ExportDecl(node) => {
                self.word("export")?;
                self.decl(&node.decl)
            }
            ModuleDecl::ExportNamed(node) => self.named_export(node),
            ModuleDecl::ExportDefaultDecl(node) => {
                self.word("export")?;
                self.word("default")?;
                self.function_expr(&node.decl)
            }
            ModuleDecl::ExportDefaultExpr(node) => {
                self.word("export")?;
                self.word("default")?;
                self.expr_alone(&node.expr, ASSIGNMENT)?;
                self.semicolon()
            }
        }
    }

    fn import(&mut self, node: &ImportDecl) -> Result<(), AllocError> {
        self.word("import")?;
        let mut in_braces = false;
        for (i, specifier) in node.specifiers.iter().enumerate() {
            let is_named = matches!(specifier, ImportSpecifier::Named(_));
            if in_braces && !is_named {
                self.put("}")?;
            }
            self.comma(i)?;
            if is_named && !in_braces {
                self.put("{")?;
            }
            in_braces = is_named;
            self.import_specifier(specifier)?;
        }
        if in_braces {
            self.put("}")?;
        }
        if !node.specifiers.is_empty() {
            self.between("from")?;
        }
        self.text(node.src.value.as_str())?;
        self.semicolon()
    }

    fn import_specifier(&mut self, specifier: &ImportSpecifier) -> Result<(), AllocError> {
        match specifier {
            ImportSpecifier::Named(node) => {
                if let Some(imported) = &node.imported {
                    self.put(imported.sym.as_str())?;
                    self.between("as")?;
                }
                self.name(&node.local)
            }
            ImportSpecifier::Default(node) => self.name(&node.local),
            ImportSpecifier::Namespace(node) => {
                self.put("*")?;
                self.between("as")?;
                self.name(&node.local)
            }
        }
    }

    fn named_export(&mut self, node: &NamedExport) -> Result<(), AllocError> {
        self.word("export")?;
        self.put("{")?;
        for (i, specifier) in node.specifiers.iter().enumerate() {
            self.comma(i)?;
            self.name(&specifier.orig)?;
            self.exported_as(&specifier.exported)?;
        }
        self.put("}")?;
        self.semicolon()
    }

    fn exported_as(&mut self, exported: &Option<IdentName>) -> Result<(), AllocError> {
        if let Some(exported) = exported {
            self.between("as")?;
            self.token(exported.sym.as_str())?;
        }
        Ok(())
    }
}
