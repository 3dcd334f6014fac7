//! Public calls that no text reaches.
use crate::texts::{read, retaining, tells, unresolved, value};
use std::alloc::Global;
use std::mem;
use std::process::Abort;
use stmt_like::StmtLike;
use swc_ast::{
    DUMMY_SP, Decl, EqIgnoreSpan, Expr, Id, Lit, Mark, ModuleItem, Number, Stmt, SyntaxContext,
};
use swc_branch::dead_branch_remover;
use swc_dce::dce;
use swc_expr::expr_simplifier;
use swc_names::{Names, collect_decls, find_pat_ids};
use swc_optimization::simplifier;
use swc_pass::{CompilerPass, Pass, Repeated};
use swc_text::read_script;
use swc_utils::{ExprCtx, ExprExt, Value, preserve_effects};

#[test]
fn passes_tell_of_themselves(rt: HostRuntime) {
    let alloc = rt.alloc();
    let mark = unresolved(&rt);
    let mut pass = expr_simplifier(mark, swc_expr::Config::default());
    assert!(rt; pass.name() == "simplify-expr");
    tells(&rt, alloc, &mut pass, Some(mark), ("1 + 2;", "3;\n"));
    let mut pass = dead_branch_remover(mark);
    assert!(rt; pass.name() == "branch");
    tells(&rt, alloc, &mut pass, Some(mark), ("if (0) f();", ""));
}

#[test]
fn passes_with_options_tell_of_themselves(rt: HostRuntime) {
    let alloc = rt.alloc();
    let mark = unresolved(&rt);
    let config = retaining(alloc, "p").expect(&rt, "options");
    let copy = config.dce.clone().expect(&rt, "a copy");
    assert!(rt; copy == config.dce);
    let mut pass = dce(copy, mark);
    assert!(rt; pass.name() == "tree-shaker");
    let texts = ("let a = 1, p = 2;", "let p = 2;\n");
    tells(&rt, alloc, &mut pass, Some(mark), texts);
    let passes = simplifier(mark, config);
    assert!(rt; passes.rounds() == 0 && !passes.reached() && !passes.changed());
}

/// What is kept of the arguments of a call in front of 3.
fn kept(rt: &impl Abort, alloc: Global, ctx: &ExprCtx, call: &str) -> Expr {
    let mut call = value(rt, alloc, call);
    let parts = match &mut call {
        Expr::Call(n) => mem::replace(&mut n.args, Vec::new(alloc)),
        _ => Vec::new(alloc),
    };
    let last = value(rt, alloc, "3");
    preserve_effects(alloc, ctx, DUMMY_SP, last, parts).expect(rt, "what is kept")
}

/// What questions are asked about.
fn context(rt: &impl Abort) -> ExprCtx {
    ExprCtx {
        unresolved_ctxt: SyntaxContext::empty().apply_mark(unresolved(rt)),
        is_unresolved_ref_safe: false,
    }
}

#[test]
fn effects_are_kept(rt: HostRuntime) {
    let alloc = rt.alloc();
    let ctx = context(&rt);
    for (call, wanted) in [("g(f(), typeof x, 1)", "f(), typeof x, 3"), ("g(1)", "3")] {
        let answer = kept(&rt, alloc, &ctx, call);
        assert!(rt; answer.eq_ignore_span(&value(&rt, alloc, wanted)), "{call}");
    }
}

/// No text has a negative number as a literal.
#[test]
fn negative_literals_have_texts(rt: HostRuntime) {
    let alloc = rt.alloc();
    let span = DUMMY_SP;
    let literal = Expr::Lit(Lit::Num(Number { span, value: -12 }));
    match literal
        .as_pure_string(alloc, &context(&rt))
        .expect(&rt, "a text")
    {
        Value::Known(text) => assert!(rt; text.as_str() == "-12"),
        Value::Unknown => assert!(rt; false),
    }
}

/// The names of parameters, of a function that is a text's first statement.
fn params(rt: &impl Abort, alloc: Global, text: &str) -> Vec<Id> {
    let script = read_script(alloc, text, unresolved(rt)).expect(rt, text);
    match script.body.first() {
        Some(Stmt::Decl(Decl::Fn(n))) => {
            find_pat_ids(alloc, &n.function.params).expect(rt, "names")
        }
        _ => Vec::new(alloc),
    }
}

#[test]
fn names_are_given(rt: HostRuntime) {
    let alloc = rt.alloc();
    let ids = params(&rt, alloc, "function f(x, y = 1) {}");
    assert!(rt; ids.len() == 2);
    let last = Mark::new(2147483647).expect(&rt, "the last mark");
    let script = read_script(alloc, "let x; f(x);", last).expect(&rt, "a script");
    let names = Names::new(alloc, &script.body).expect(&rt, "names");
    assert!(rt; names.len() == 2 && names.id(2).is_none());
    // the same text in another context is another name
    assert!(rt; names.number(&ids[0]).is_none());
    assert!(rt;
        collect_decls(alloc, &script.body)
            .expect(&rt, "names")
            .len()
            == 1
    );
}

/// Tries what an item tells of itself.
fn tries_item<T: StmtLike>(rt: &impl Abort, item: &T, is_stmt: bool) {
    assert!(rt; item.as_stmt().is_some() == is_stmt);
    assert!(rt; item.as_module_decl().is_none() == is_stmt);
}

/// Tries what an item tells of itself that is made of a statement.
fn tries_made<T: StmtLike, R: Abort>(rt: &R, alloc: Global) {
    let mut script = read_script(alloc, "1;", unresolved(rt)).expect(rt, "a script");
    let Some(s) = script.body.pop() else {
        rt.panic("a statement")
    };
    let item = T::from(s);
    tries_item(rt, &item, true);
    match item.try_into_stmt() {
        Ok(s) => drop(s),
        Err(_item) => rt.panic("a statement"),
    }
}

#[test]
fn statements_are_items(rt: HostRuntime) {
    tries_made::<ModuleItem, _>(&rt, rt.alloc());
    tries_made::<Stmt, _>(&rt, rt.alloc());
}

#[test]
fn declarations_of_modules_are_items(rt: HostRuntime) {
    let mut module = read(&rt, rt.alloc(), "import 'm';");
    assert!(rt; module.body.len() == 1);
    let item = module.body.remove(0);
    tries_item(&rt, &item, false);
    match item.try_into_stmt() {
        Ok(_s) => rt.panic("no statement"),
        Err(item) => module.body.push(item).expect(&rt, "room"),
    }
}
