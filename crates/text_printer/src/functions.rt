//! Functions, arrows, and what stands in objects.
use crate::precedence::{ASSIGNMENT, COMMA, First, first_of};
use crate::writer::Printer;
use std::alloc::AllocError;
use swc_ast::{
    ArrowExpr, BlockStmtOrExpr, Expr, FnExpr, Function, ObjectLit, Pat, Prop, PropName,
    PropOrSpread,
};

/// Whether a parameter has a default, so that the directive `use strict` in the body is an error (ECMA-262, 15.2.1).
fn has_default(params: &Vec<Pat>) -> bool {
    params.iter().any(|param| matches!(param, Pat::Assign(_)))
}

impl Printer {
    #[cycle(print)]
    pub(crate) fn function_expr(&mut self, node: &FnExpr) -> Result<(), AllocError> {
        self.word("function")?;
        if let Some(name) = &node.ident {
            self.name(name)?;
        }
        self.function(&node.function)
    }

    /// The parameters and the body.
    #[cycle(print)]
    pub(crate) fn function(&mut self, function: &Function) -> Result<(), AllocError> {
        let in_head = self.enter();
        self.params(&function.params)?;
        self.space()?;
        self.block(&function.body, has_default(&function.params))?;
        self.in_head = in_head;
        Ok(())
    }

    #[cycle(print)]
    fn params(&mut self, params: &Vec<Pat>) -> Result<(), AllocError> {
        self.put("(")?;
        for (i, param) in params.iter().enumerate() {
            self.comma(i)?;
            match param {
                Pat::Ident(name) => self.name(name)?,
                Pat::Assign(node) => {
                    self.name(&node.left)?;
                    self.between("=")?;
                    self.expr(&node.right, ASSIGNMENT)?;
                }
            }
        }
        self.put(")")
    }

    #[cycle(print)]
    pub(crate) fn arrow(&mut self, arrow: &ArrowExpr) -> Result<(), AllocError> {
        let in_head = self.enter();
        match arrow.params.as_slice() {
            [Pat::Ident(name)] if self.is_compact() => self.name(name)?,
            _ => self.params(&arrow.params)?,
        }
        self.between("=>")?;
        match &arrow.body {
            BlockStmtOrExpr::BlockStmt(body) => {
                self.block(body, has_default(&arrow.params))?;
                self.in_head = in_head;
                Ok(())
            }
            BlockStmtOrExpr::Expr(body) => {
                self.in_head = in_head;
                if first_of(body) == First::Brace {
                    self.wrapped(body)
                } else {
                    self.expr(body, ASSIGNMENT)
                }
            }
        }
    }

    #[cycle(print)]
    pub(crate) fn object(&mut self, node: &ObjectLit) -> Result<(), AllocError> {
        let in_head = self.enter();
        self.put("{")?;
        for (i, prop) in node.props.iter().enumerate() {
            self.comma(i)?;
            self.prop(prop)?;
        }
        self.in_head = in_head;
        self.put("}")
    }

    #[cycle(print)]
    fn prop(&mut self, prop: &PropOrSpread) -> Result<(), AllocError> {
        match prop {
            PropOrSpread::Spread(node) => {
                self.put("...")?;
                self.expr(&node.expr, ASSIGNMENT)
            }
            PropOrSpread::Prop(Prop::Shorthand(name)) => self.name(name),
            PropOrSpread::Prop(Prop::KeyValue(node)) => {
                self.key(&node.key)?;
                self.put(":")?;
                self.space()?;
                self.expr(&node.value, ASSIGNMENT)
            }
            PropOrSpread::Prop(Prop::Method(node)) => {
                self.key(&node.key)?;
                self.function(&node.function)
            }
        }
    }

    #[cycle(print)]
    fn key(&mut self, key: &PropName) -> Result<(), AllocError> {
        match key {
            PropName::Ident(name) => self.put(name.sym.as_str()),
            PropName::Str(text) => self.text(text.value.as_str()),
            PropName::Num(number) => self.number(number.value),
            PropName::Computed(key) => {
                self.put("[")?;
                self.expr(&key.expr, ASSIGNMENT)?;
                self.put("]")
            }
        }
    }

    /// An expression where what begins so would be read as something else.
    #[cycle(print)]
    pub(crate) fn expr_alone(&mut self, expr: &Expr, least: u8) -> Result<(), AllocError> {
        let first = first_of(expr);
        if first == First::Function || (first == First::Brace && least == COMMA) {
            self.wrapped(expr)
        } else {
            self.expr(expr, least)
        }
    }
}
