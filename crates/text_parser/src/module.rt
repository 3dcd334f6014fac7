//! Imports and exports.
use crate::cursor::{Parser, Read};
use crate::scopes::Declared;
use swc_ast::{
    Decl, ExportDecl, ExportDefaultDecl, ExportDefaultExpr, ExportNamedSpecifier, IdentName,
    ImportDecl, ImportDefaultSpecifier, ImportNamedSpecifier, ImportSpecifier,
    ImportStarAsSpecifier, ModuleDecl, ModuleItem, NamedExport,
};
use text_lexer::{Construct, Kind};

impl<'a> Parser<'a> {
    pub(crate) fn module_item(&mut self, room: u32) -> Read<ModuleItem> {
        let is_call = matches!(self.next_kind(), Kind::LeftParen | Kind::Dot);
        match self.kind() {
            Kind::Import if !is_call => Ok(ModuleItem::ModuleDecl(self.import_decl()?)),
            Kind::Export => Ok(ModuleItem::ModuleDecl(self.export_item(room)?)),
            _ => Ok(ModuleItem::Stmt(self.item_stmt(room)?)),
        }
    }

    fn import_decl(&mut self) -> Read<ModuleDecl> {
        let start = self.start();
        self.expect(Kind::Import)?;
        let mut specifiers = Vec::new(self.alloc);
        if !self.is_at(Kind::Text) {
            self.import_clause(&mut specifiers)?;
            if !self.take_name("from") {
                return Err(self.refuse());
            }
            if !self.is_at(Kind::Text) {
                return Err(self.refuse());
            }
        }
        let src = self.text_literal()?;
        if self.is_at(Kind::With) {
            return Err(self.leave_out(Construct::Meta));
        }
        self.semicolon()?;
        let span = self.span_from(start);
        Ok(ModuleDecl::Import(ImportDecl {
            span,
            specifiers,
            src,
        }))
    }

    /// What an import binds, up to `from`.
    fn import_clause(&mut self, specifiers: &mut Vec<ImportSpecifier>) -> Read<()> {
        if !matches!(self.kind(), Kind::Star | Kind::LeftBrace) {
            let start = self.start();
            let local = self.declared(Declared::Lexical)?;
            let span = self.span_from(start);
            let node = ImportDefaultSpecifier { span, local };
            specifiers.push(ImportSpecifier::Default(node))?;
            if !self.take(Kind::Comma) {
                return Ok(());
            }
        }
        let start = self.start();
        if self.take(Kind::Star) {
            if !self.take_name("as") {
                return Err(self.refuse());
            }
            let local = self.declared(Declared::Lexical)?;
            let span = self.span_from(start);
            let node = ImportStarAsSpecifier { span, local };
            specifiers.push(ImportSpecifier::Namespace(node))?;
            return Ok(());
        }
        self.expect(Kind::LeftBrace)?;
        for _ in self.place..self.tokens.len() {
            if self.is_at(Kind::RightBrace) {
                break;
            }
            specifiers.push(self.import_specifier()?)?;
            if !self.take(Kind::Comma) {
                break;
            }
        }
        self.expect(Kind::RightBrace)
    }

    /// `a`, `b as a`
    fn import_specifier(&mut self) -> Read<ImportSpecifier> {
        let start = self.start();
        self.refuse_text_name()?;
        let mut imported: Option<IdentName> = None;
        let next = self.next();
        if self.is_name(next, "as") {
            imported = Some(self.word()?);
            self.bump();
        }
        let local = self.declared(Declared::Lexical)?;
        let span = self.span_from(start);
        Ok(ImportSpecifier::Named(ImportNamedSpecifier {
            span,
            local,
            imported,
        }))
    }

    fn refuse_text_name(&mut self) -> Read<()> {
        if self.is_at(Kind::Text) {
            return Err(self.leave_out(Construct::TextName));
        }
        Ok(())
    }

    fn export_item(&mut self, room: u32) -> Read<ModuleDecl> {
        let start = self.start();
        if self.is_at_re_export() {
            return Err(self.leave_out(Construct::ReExport));
        }
        self.expect(Kind::Export)?;
        match self.kind() {
            Kind::LeftBrace => self.named_export(start),
            Kind::Default => self.default_export(room, start),
            Kind::Var | Kind::Let | Kind::Const => {
                let decl = Decl::Var(self.exported_variables(room)?);
                let span = self.span_from(start);
                Ok(ModuleDecl::ExportDecl(ExportDecl { span, decl }))
            }
            Kind::Function => {
                let decl = Decl::Fn(self.exported_function(room)?);
                let span = self.span_from(start);
                Ok(ModuleDecl::ExportDecl(ExportDecl { span, decl }))
            }
            Kind::Class => Err(self.leave_out(Construct::Class)),
            Kind::Name if self.is_at_async() => Err(self.leave_out(Construct::Async)),
            _ => Err(self.refuse()),
        }
    }

    /// Whether the export here takes its names from another module.
    fn is_at_re_export(&self) -> bool {
        let next = self.next();
        match next.kind {
            Kind::Star => true,
            Kind::LeftBrace => {
                let close = next.closed_by as usize;
                close != 0 && self.is_name(self.token_at(close.saturating_add(1)), "from")
            }
            _ => false,
        }
    }

    fn named_export(&mut self, start: u32) -> Read<ModuleDecl> {
        self.expect(Kind::LeftBrace)?;
        let mut specifiers = Vec::new(self.alloc);
        for _ in self.place..self.tokens.len() {
            if self.is_at(Kind::RightBrace) {
                break;
            }
            specifiers.push(self.export_specifier()?)?;
            if !self.take(Kind::Comma) {
                break;
            }
        }
        self.expect(Kind::RightBrace)?;
        self.semicolon()?;
        let span = self.span_from(start);
        Ok(ModuleDecl::ExportNamed(NamedExport { span, specifiers }))
    }

    /// `a`, `b as c`
    fn export_specifier(&mut self) -> Read<ExportNamedSpecifier> {
        self.refuse_text_name()?;
        let token = self.token();
        let orig = self.ident()?;
        let local = self.text_of(token);
        self.exports.locals.push((local, token.start))?;
        let mut exported: Option<IdentName> = None;
        let mut name = token;
        if self.take_name("as") {
            self.refuse_text_name()?;
            name = self.token();
            exported = Some(self.word()?);
        }
        self.export(name)?;
        Ok(ExportNamedSpecifier {
            span: self.span_from(token.start),
            orig,
            exported,
        })
    }

    /// What `default` exports, which comes next.
    fn default_export(&mut self, room: u32, start: u32) -> Read<ModuleDecl> {
        let name = self.token();
        self.export(name)?;
        self.bump();
        if self.is_at(Kind::Function) {
            let decl = self.default_function(room)?;
            let span = self.span_from(start);
            return Ok(ModuleDecl::ExportDefaultDecl(ExportDefaultDecl { span, decl }));
        }
        let expr = self.assignment(room)?;
        self.semicolon()?;
        let span = self.span_from(start);
        Ok(ModuleDecl::ExportDefaultExpr(ExportDefaultExpr { span, expr }))
    }
}
