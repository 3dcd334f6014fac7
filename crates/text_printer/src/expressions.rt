//! Expressions.
use crate::precedence::{
    ASSIGNMENT, CALL, COMMA, SHORT_CIRCUIT, assignment_sign, binary_sign, constructor_strength,
    is_word, left_strength, object_strength, operand_strength, right_strength, strength,
    unary_sign, update_sign,
};
use crate::writer::Printer;
use std::alloc::AllocError;
use swc_ast::{
    ArrayLit, AssignTarget, BinExpr, BinaryOp, CondExpr, Expr, MemberExpr, MemberProp, NewExpr,
    Tpl, UnaryExpr, UpdateExpr,
};

fn is_in(expr: &Expr) -> bool {
    match expr {
        Expr::Bin(node) => node.op == BinaryOp::In,
        _ => false,
    }
}

impl Printer {
    /// What stands in brackets: an `in` is one of the text there. Answers whether it would not be outside them.
    pub(crate) fn enter(&mut self) -> bool {
        let in_head = self.in_head;
        self.in_head = false;
        in_head
    }

    /// An expression that has to bind so tightly, in parentheses if it does not.
    #[cycle(print)]
    pub(crate) fn expr(&mut self, expr: &Expr, least: u8) -> Result<(), AllocError> {
        if strength(expr) >= least && !(self.in_head && is_in(expr)) {
            return self.bare_expr(expr, least);
        }
        self.wrapped(expr)
    }

    #[cycle(print)]
    pub(crate) fn wrapped(&mut self, expr: &Expr) -> Result<(), AllocError> {
        let in_head = self.enter();
        self.put("(")?;
        self.bare_expr(expr, COMMA)?;
        self.in_head = in_head;
        self.put(")")
    }

    /// An expression that binds as tightly as it has to.
    #[cycle(print)]
    fn bare_expr(&mut self, expr: &Expr, least: u8) -> Result<(), AllocError> {
        match expr {
            Expr::This(_) => self.token("this"),
            Expr::Ident(name) => self.name(name),
            Expr::Lit(literal) => self.literal(literal),
            Expr::Array(node) => self.array(node),
            Expr::Object(node) => self.object(node),
            Expr::Fn(node) => self.function_expr(node),
            Expr::Unary(node) => self.unary(node),
            Expr::Update(node) => self.update(node),
            Expr::Bin(node) => self.binary(node),
            Expr::Assign(node) => {
                self.target(&node.left)?;
                self.between(assignment_sign(node.op))?;
                self.expr(&node.right, ASSIGNMENT)
            }
            Expr::Member(member) => self.member(member),
            Expr::Cond(node) => self.condition(node),
            Expr::Call(node) => {
                self.expr(&node.callee, CALL)?;
                self.arguments(&node.args)
            }
            Expr::New(node) => self.construction(node, least),
            Expr::Seq(node) => self.list(&node.exprs),
            Expr::Tpl(node) => self.template(node),
            Expr::Arrow(node) => self.arrow(node),
            Expr::Invalid(_) => Ok(()),
        }
    }

    #[cycle(print)]
    fn unary(&mut self, node: &UnaryExpr) -> Result<(), AllocError> {
        let sign = unary_sign(node.op);
        self.token(sign)?;
        if is_word(sign) {
            self.space()?;
        }
        let least = operand_strength(node.op, &node.arg, self.layout);
        self.expr(&node.arg, least)
    }

    /// `new a(b)`. A compact text has no empty parentheses where nothing behind would be read as those.
    #[cycle(print)]
    fn construction(&mut self, node: &NewExpr, least: u8) -> Result<(), AllocError> {
        self.word("new")?;
        self.expr(&node.callee, constructor_strength(&node.callee))?;
        if self.leaves_out(&node.args, least) {
            return Ok(());
        }
        self.arguments(&node.args)
    }

    /// Whether the parentheses behind the operand of `new` are left out.
    fn leaves_out(&self, args: &Vec<Expr>, least: u8) -> bool {
        self.is_compact() && args.is_empty() && least < CALL
    }

    #[cycle(print)]
    fn list(&mut self, exprs: &Vec<Expr>) -> Result<(), AllocError> {
        for (i, expr) in exprs.iter().enumerate() {
            self.comma(i)?;
            self.expr(expr, ASSIGNMENT)?;
        }
        Ok(())
    }

    #[cycle(print)]
    fn arguments(&mut self, args: &Vec<Expr>) -> Result<(), AllocError> {
        let in_head = self.enter();
        self.put("(")?;
        self.list(args)?;
        self.in_head = in_head;
        self.put(")")
    }

    #[cycle(print)]
    fn array(&mut self, node: &ArrayLit) -> Result<(), AllocError> {
        let in_head = self.enter();
        self.put("[")?;
        for (i, item) in node.elems.iter().enumerate() {
            self.comma(i)?;
            match item {
                Some(item) => {
                    if item.spread.is_some() {
                        self.put("...")?;
                    }
                    self.expr(&item.expr, ASSIGNMENT)?;
                }
                None => {
                    if i.saturating_add(1) == node.elems.len() {
                        self.put(",")?;
                    }
                }
            }
        }
        self.in_head = in_head;
        self.put("]")
    }

    #[cycle(print)]
    fn update(&mut self, node: &UpdateExpr) -> Result<(), AllocError> {
        if node.prefix {
            self.token(update_sign(node.op))?;
        }
        self.target(&node.arg)?;
        if !node.prefix {
            self.token(update_sign(node.op))?;
        }
        Ok(())
    }

    #[cycle(print)]
    fn target(&mut self, target: &AssignTarget) -> Result<(), AllocError> {
        match target {
            AssignTarget::Ident(name) => self.name(name),
            AssignTarget::Member(member) => self.member(member),
        }
    }

    #[cycle(print)]
    fn binary(&mut self, node: &BinExpr) -> Result<(), AllocError> {
        self.expr(&node.left, left_strength(node))?;
        self.between(binary_sign(node.op))?;
        self.expr(&node.right, right_strength(node, self.layout))
    }

    #[cycle(print)]
    fn condition(&mut self, node: &CondExpr) -> Result<(), AllocError> {
        self.expr(&node.test, SHORT_CIRCUIT)?;
        self.between("?")?;
        let in_head = self.enter();
        self.expr(&node.cons, ASSIGNMENT)?;
        self.in_head = in_head;
        self.between(":")?;
        self.expr(&node.alt, ASSIGNMENT)
    }

    #[cycle(print)]
    fn member(&mut self, member: &MemberExpr) -> Result<(), AllocError> {
        self.expr(&member.obj, object_strength(member))?;
        match &member.prop {
            MemberProp::Ident(name) => {
                self.put(".")?;
                self.put(name.sym.as_str())
            }
            MemberProp::Computed(key) => {
                let in_head = self.enter();
                self.put("[")?;
                self.expr(&key.expr, COMMA)?;
                self.in_head = in_head;
                self.put("]")
            }
        }
    }

    /// The first text of a template, and an expression and a text in turn.
    #[cycle(print)]
    fn template(&mut self, node: &Tpl) -> Result<(), AllocError> {
        let in_head = self.enter();
        self.put("`")?;
        self.quasi_at(node, 0)?;
        for (i, expr) in node.exprs.iter().enumerate() {
            self.put("${")?;
            self.expr(expr, COMMA)?;
            self.put("}")?;
            self.quasi_at(node, i.saturating_add(1))?;
        }
        self.in_head = in_head;
        self.put("`")
    }

    fn quasi_at(&mut self, node: &Tpl, place: usize) -> Result<(), AllocError> {
        match node.quasis.get(place) {
            Some(quasi) => self.quasi(quasi.cooked.as_str()),
            None => Ok(()),
        }
    }
}
