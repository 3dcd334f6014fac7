//! Gives each name of a tree its context. Names are met in the order of the text.
use crate::scopes::Mention;
use swc_ast::{
    ArrayLit, ArrowExpr, AssignTarget, BinExpr, BlockStmt, BlockStmtOrExpr, CallExpr, CatchClause,
    CondExpr, Decl, ExportNamedSpecifier, Expr, FnExpr, ForStmt, Function, Ident, IfStmt,
    ImportSpecifier, MemberExpr, MemberProp, ModuleDecl, ModuleItem, NewExpr, ObjectLit, Pat, Prop,
    PropName, PropOrSpread, SeqExpr, Stmt, SwitchCase, SwitchStmt, Tpl, TryStmt, VarDecl,
    VarDeclOrExpr,
};

/// What gives names the contexts of their mentions, from the next one on.
#[derive(Drop)]
pub(crate) struct Contexts<'a> {
    mentions: &'a [Mention],
    next: usize,
}

impl<'a> Contexts<'a> {
    pub(crate) fn new(mentions: &'a [Mention]) -> Contexts<'a> {
        Contexts { mentions, next: 0 }
    }

    fn name(&mut self, name: &mut Ident) {
        if let Some(mention) = self.mentions.get(self.next) {
            name.ctxt = mention.context;
        }
        self.next = self.next.saturating_add(1);
    }

    fn optional(&mut self, name: &mut Option<Ident>) {
        if let Some(name) = name {
            self.name(name);
        }
    }

    #[cycle(contexts)]
    pub(crate) fn expr(&mut self, expr: &mut Expr) {
        match expr {
            Expr::This(_) | Expr::Lit(_) | Expr::Invalid(_) => {}
            Expr::Ident(name) => self.name(name),
            Expr::Array(node) => self.array(node),
            Expr::Object(node) => self.object(node),
            Expr::Fn(node) => self.function_expr(node),
            Expr::Unary(node) => self.expr(&mut node.arg),
            Expr::Update(node) => self.target(&mut node.arg),
            Expr::Bin(node) => self.binary(node),
            Expr::Assign(node) => {
                self.target(&mut node.left);
                self.expr(&mut node.right);
            }
            Expr::Member(node) => self.member(node),
            Expr::Cond(node) => self.choice(node),
            Expr::Call(node) => self.call(node),
            Expr::New(node) => self.construction(node),
            Expr::Seq(node) => self.sequence(node),
            Expr::Tpl(node) => self.template(node),
            Expr::Arrow(node) => self.arrow(node),
        }
    }

    #[cycle(contexts)]
    fn array(&mut self, node: &mut ArrayLit) {
        for i in 0..node.elems.len() {
            if let Some(item) = &mut node.elems[i] {
                self.expr(&mut item.expr);
            }
        }
    }

    #[cycle(contexts)]
    fn object(&mut self, node: &mut ObjectLit) {
        for i in 0..node.props.len() {
            self.prop(&mut node.props[i]);
        }
    }

    #[cycle(contexts)]
    fn function_expr(&mut self, node: &mut FnExpr) {
        self.optional(&mut node.ident);
        self.function(&mut node.function);
    }

    #[cycle(contexts)]
    fn target(&mut self, target: &mut AssignTarget) {
        match target {
            AssignTarget::Ident(name) => self.name(name),
            AssignTarget::Member(member) => {
                self.expr(&mut member.obj);
                if let MemberProp::Computed(key) = &mut member.prop {
                    self.expr(&mut key.expr);
                }
            }
        }
    }

    #[cycle(contexts)]
    fn binary(&mut self, node: &mut BinExpr) {
        self.expr(&mut node.left);
        self.expr(&mut node.right);
    }

    #[cycle(contexts)]
    fn member(&mut self, node: &mut MemberExpr) {
        self.expr(&mut node.obj);
        if let MemberProp::Computed(key) = &mut node.prop {
            self.expr(&mut key.expr);
        }
    }

    #[cycle(contexts)]
    fn choice(&mut self, node: &mut CondExpr) {
        self.expr(&mut node.test);
        self.expr(&mut node.cons);
        self.expr(&mut node.alt);
    }

    #[cycle(contexts)]
    fn call(&mut self, node: &mut CallExpr) {
        self.expr(&mut node.callee);
        for i in 0..node.args.len() {
            self.expr(&mut node.args[i]);
        }
    }

    #[cycle(contexts)]
    fn construction(&mut self, node: &mut NewExpr) {
        self.expr(&mut node.callee);
        for i in 0..node.args.len() {
            self.expr(&mut node.args[i]);
        }
    }

    #[cycle(contexts)]
    fn sequence(&mut self, node: &mut SeqExpr) {
        for i in 0..node.exprs.len() {
            self.expr(&mut node.exprs[i]);
        }
    }

    #[cycle(contexts)]
    fn template(&mut self, node: &mut Tpl) {
        for i in 0..node.exprs.len() {
            self.expr(&mut node.exprs[i]);
        }
    }

    #[cycle(contexts)]
    fn prop(&mut self, prop: &mut PropOrSpread) {
        match prop {
            PropOrSpread::Spread(node) => self.expr(&mut node.expr),
            PropOrSpread::Prop(Prop::Shorthand(name)) => self.name(name),
            PropOrSpread::Prop(Prop::KeyValue(node)) => {
                self.key(&mut node.key);
                self.expr(&mut node.value);
            }
            PropOrSpread::Prop(Prop::Method(node)) => {
                self.key(&mut node.key);
                self.function(&mut node.function);
            }
        }
    }

    #[cycle(contexts)]
    fn key(&mut self, key: &mut PropName) {
        if let PropName::Computed(key) = key {
            self.expr(&mut key.expr);
        }
    }

    #[cycle(contexts)]
    fn param(&mut self, param: &mut Pat) {
        match param {
            Pat::Ident(name) => self.name(name),
            Pat::Assign(param) => {
                self.name(&mut param.left);
                self.expr(&mut param.right);
            }
        }
    }

    #[cycle(contexts)]
    fn function(&mut self, function: &mut Function) {
        let Function { params, body, .. } = function;
        for i in 0..params.len() {
            self.param(&mut params[i]);
        }
        self.block(body);
    }

    #[cycle(contexts)]
    fn arrow(&mut self, arrow: &mut ArrowExpr) {
        let ArrowExpr { params, body, .. } = arrow;
        for i in 0..params.len() {
            self.param(&mut params[i]);
        }
        match body {
            BlockStmtOrExpr::BlockStmt(block) => self.block(block),
            BlockStmtOrExpr::Expr(expr) => self.expr(expr),
        }
    }

    #[cycle(contexts)]
    fn block(&mut self, block: &mut BlockStmt) {
        for i in 0..block.stmts.len() {
            self.stmt(&mut block.stmts[i]);
        }
    }

    #[cycle(contexts)]
    pub(crate) fn stmt(&mut self, stmt: &mut Stmt) {
        match stmt {
            Stmt::Empty(_) | Stmt::Break(_) | Stmt::Continue(_) => {}
            Stmt::Block(node) => self.block(node),
            Stmt::Return(node) => {
                if let Some(arg) = &mut node.arg {
                    self.expr(arg);
                }
            }
            Stmt::Labeled(node) => self.stmt(&mut node.body),
            Stmt::If(node) => self.branch(node),
            Stmt::Switch(node) => self.switch(node),
            Stmt::Throw(node) => self.expr(&mut node.arg),
            Stmt::Try(node) => self.attempt(node),
            Stmt::While(node) => {
                self.expr(&mut node.test);
                self.stmt(&mut node.body);
            }
            Stmt::DoWhile(node) => {
                self.stmt(&mut node.body);
                self.expr(&mut node.test);
            }
            Stmt::For(node) => self.for_loop(node),
            Stmt::Decl(decl) => self.decl(decl),
            Stmt::Expr(node) => self.expr(&mut node.expr),
        }
    }

    #[cycle(contexts)]
    fn branch(&mut self, node: &mut IfStmt) {
        self.expr(&mut node.test);
        self.stmt(&mut node.cons);
        if let Some(alt) = &mut node.alt {
            self.stmt(alt);
        }
    }

    #[cycle(contexts)]
    fn switch(&mut self, node: &mut SwitchStmt) {
        self.expr(&mut node.discriminant);
        for i in 0..node.cases.len() {
            self.case(&mut node.cases[i]);
        }
    }

    #[cycle(contexts)]
    fn case(&mut self, case: &mut SwitchCase) {
        if let Some(test) = &mut case.test {
            self.expr(test);
        }
        for i in 0..case.cons.len() {
            self.stmt(&mut case.cons[i]);
        }
    }

    #[cycle(contexts)]
    fn attempt(&mut self, node: &mut TryStmt) {
        let TryStmt {
            block,
            handler,
            finalizer,
            ..
        } = node;
        for i in 0..block.stmts.len() {
            self.stmt(&mut block.stmts[i]);
        }
        if let Some(handler) = handler {
            let CatchClause { param, body, .. } = handler;
            self.optional(param);
            for i in 0..body.stmts.len() {
                self.stmt(&mut body.stmts[i]);
            }
        }
        if let Some(last) = finalizer {
            for i in 0..last.stmts.len() {
                self.stmt(&mut last.stmts[i]);
            }
        }
    }

    #[cycle(contexts)]
    fn for_loop(&mut self, node: &mut ForStmt) {
        match &mut node.init {
            Some(VarDeclOrExpr::VarDecl(decl)) => self.var_decl(decl),
            Some(VarDeclOrExpr::Expr(first)) => self.expr(first),
            None => {}
        }
        if let Some(test) = &mut node.test {
            self.expr(test);
        }
        if let Some(update) = &mut node.update {
            self.expr(update);
        }
        self.stmt(&mut node.body);
    }

    #[cycle(contexts)]
    pub(crate) fn decl(&mut self, decl: &mut Decl) {
        match decl {
            Decl::Fn(node) => {
                self.name(&mut node.ident);
                self.function(&mut node.function);
            }
            Decl::Var(node) => self.var_decl(node),
        }
    }

    #[cycle(contexts)]
    fn var_decl(&mut self, node: &mut VarDecl) {
        for i in 0..node.decls.len() {
            self.name(&mut node.decls[i].name);
            if let Some(value) = &mut node.decls[i].init {
                self.expr(value);
            }
        }
    }

    pub(crate) fn module_item(&mut self, item: &mut ModuleItem) {
        match item {
            ModuleItem::Stmt(stmt) => self.stmt(stmt),
            ModuleItem::ModuleDecl(decl) => self.module_decl(decl),
        }
    }

    fn module_decl(&mut self, decl: &mut ModuleDecl) {
        match decl {
            ModuleDecl::Import(node) => self.import(&mut node.specifiers),
            ModuleDecl::ExportDecl(node) => self.decl(&mut node.decl),
            ModuleDecl::ExportNamed(node) => self.export(&mut node.specifiers),
            ModuleDecl::ExportDefaultDecl(node) => {
                self.optional(&mut node.decl.ident);
                self.function(&mut node.decl.function);
            }
            ModuleDecl::ExportDefaultExpr(node) => self.expr(&mut node.expr),
        }
    }

    fn import(&mut self, specifiers: &mut Vec<ImportSpecifier>) {
        for i in 0..specifiers.len() {
            self.import_specifier(&mut specifiers[i]);
        }
    }

    fn import_specifier(&mut self, specifier: &mut ImportSpecifier) {
        match specifier {
            ImportSpecifier::Named(node) => self.name(&mut node.local),
            ImportSpecifier::Default(node) => self.name(&mut node.local),
            ImportSpecifier::Namespace(node) => self.name(&mut node.local),
        }
    }

    fn export(&mut self, specifiers: &mut Vec<ExportNamedSpecifier>) {
        for i in 0..specifiers.len() {
            self.name(&mut specifiers[i].orig);
        }
    }
}
