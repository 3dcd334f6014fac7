//! Trees that stand nowhere in a text.
use crate::texts::{read, turns, unresolved};
use std::alloc::Global;
use std::process::Abort;
use swc_ast::{DUMMY_SP, Decl, Expr, Lit, Module, ModuleItem, Stmt, VarDeclarator};
use swc_const_propagation::constant_propagation;
use swc_expr::expr_simplifier;

/// Takes a name or a number out of its text.
fn displace(e: &mut Expr) {
    match e {
        Expr::Ident(n) => n.span = DUMMY_SP,
        Expr::Lit(Lit::Num(n)) => n.span = DUMMY_SP,
        _ => {}
    }
}

/// Takes what stands beside an operator out of its text.
fn displace_operands(e: &mut Expr) {
    if let Expr::Bin(n) = e {
        n.span = DUMMY_SP;
        displace(&mut n.left);
        displace(&mut n.right);
    }
}

/// Takes a declarator and its first value out of their text.
fn displace_declarator(n: &mut VarDeclarator) {
    n.span = DUMMY_SP;
    n.name.span = DUMMY_SP;
    if let Some(init) = &mut n.init {
        displace(init);
    }
}

/// Takes a declaration of one variable out of its text, or what stands beside an operator.
fn displace_item(item: &mut ModuleItem) {
    match item {
        ModuleItem::Stmt(Stmt::Expr(n)) => displace_operands(&mut n.expr),
        ModuleItem::Stmt(Stmt::Decl(Decl::Var(n))) => {
            n.span = DUMMY_SP;
            if let Some(first) = n.decls.first_mut() {
                displace_declarator(first);
            }
        }
        _ => {}
    }
}

/// What a text is read as, but that its declarations and operands stand nowhere.
fn displaced(rt: &impl Abort, alloc: Global, text: &str) -> Module {
    let mut module = read(rt, alloc, text);
    for item in module.body.iter_mut() {
        displace_item(item);
    }
    module
}

#[test]
fn constants_that_stand_nowhere_carry_names(rt: HostRuntime) {
    let alloc = rt.alloc();
    for (text, wanted) in [
        (
            "const a = 1;\nconst b = a;\nf(b);\n",
            "const a = 1;\nconst b = 1;\nf(1);\n",
        ),
        // constants that come later are not carried
        (
            "const a = b;\nconst b = 1;\nf(a);\n",
            "const a = b;\nconst b = 1;\nf(a);\n",
        ),
        // constants carry names of names
        (
            "const a = g();\nconst b = a;\nconst c = b;\nf(c);\n",
            "const a = g();\nconst b = a;\nconst c = a;\nf(a);\n",
        ),
        // exports name what names stand for
        (
            "const a = g();\nconst b = a;\nexport {b};\n",
            "const a = g();\nconst b = a;\nexport {a as b};\n",
        ),
        // imported names are not carried
        (
            "import {i} from 'm';\nconst a = i;\nf(a);\n",
            "import {i} from 'm';\nconst a = i;\nf(a);\n",
        ),
    ] {
        let module = displaced(&rt, alloc, text);
        let wanted = (wanted, text != wanted);
        turns(&rt, alloc, &mut constant_propagation(), &module, wanted);
    }
}

/// Numbers that stand nowhere may become longer ones.
#[test]
fn the_length_rule_asks_nothing_of_what_stands_nowhere(rt: HostRuntime) {
    let alloc = rt.alloc();
    let mut pass = expr_simplifier(unresolved(&rt), swc_expr::Config::default());
    let module = displaced(&rt, alloc, "7 ** 9;\n");
    turns(&rt, alloc, &mut pass, &module, ("40353607;\n", true));
}
