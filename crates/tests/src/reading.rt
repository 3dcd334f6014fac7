//! What is read: spans, contexts, templates, and texts that are long, wide and deep.
use crate::texts::{read, unresolved, value};
use core_trees::is_core;
use std::alloc::{AllocError, Global};
use std::process::Abort;
use swc_ast::{Expr, Mark, Module, ModuleItem, Stmt, SyntaxContext};
use swc_resolved::{is_core_and_resolved, is_resolved};
use swc_text::{ReadError, read_expr, read_module};

/// The expression that a module ends with.
fn last_expression(module: &Module) -> Option<&Expr> {
    match module.body.last()? {
        ModuleItem::Stmt(Stmt::Expr(node)) => Some(&node.expr),
        _ => None,
    }
}

#[test]
fn contexts_go_on_at_the_first_mark(rt: HostRuntime) {
    let last = Mark::new(2147483647).expect(&rt, "the last mark");
    let module = read_module(rt.alloc(), "let a; a;", last).expect(&rt, "a module");
    assert!(rt; (module.span.lo, module.span.hi) == (1, 10));
    let Some(Expr::Ident(name)) = last_expression(&module) else {
        rt.panic("a name")
    };
    assert!(rt; name.ctxt == SyntaxContext::empty().apply_mark(unresolved(&rt)));
    assert!(rt; (name.span.lo, name.span.hi) == (8, 9));
}

#[test]
fn templates_are_cooked(rt: HostRuntime) {
    let read = value(&rt, rt.alloc(), "`a\r\nb${c}\\x41\\\r\n\r`");
    let Expr::Tpl(node) = &read else {
        rt.panic("a template")
    };
    assert!(rt; node.quasis.len() == 2 && node.exprs.len() == 1);
    let wanted = [("a\nb", false, 2, 6), ("A\n", true, 10, 18)];
    for (quasi, (cooked, tail, lo, hi)) in node.quasis.iter().zip(wanted) {
        assert!(rt; quasi.cooked.as_str() == cooked && quasi.tail == tail);
        assert!(rt; (quasi.span.lo, quasi.span.hi) == (lo, hi));
    }
}

/// Core text with a form of each kind.
const LONG: &str =
    "import a, {b as c, default as d} from 'm'; import * as e from 'n'; import 'o';\n\
    export var f = `x${a}y`, g; export {f as h, c as default}; export function k() { return g(); }\n\
    l: do { if (a) continue l; else break } while (b) a = ({m() {}, n: 1, 'o': 2, [p]: 3, ...q});\n\
    for (let i = 0, j = (a in b); i < 3; i++) { switch (i) { case 1: r; default: } }\n\
    try { throw a } catch (s) { a.b[c](d)\n++t } finally { ; }\n\
    (x, y = 1) => { var z = x ** -y ?? y; return z && a || b }\n\
    const u = function v(w) { new v(w, [, ...w]); return typeof void w, delete a[b] }, zz = ab => ab";

#[test]
fn a_long_text_is_read_twice(rt: HostRuntime) {
    let alloc = rt.alloc();
    let whole = read(&rt, alloc, LONG);
    assert!(rt; whole == read(&rt, alloc, LONG));
    let shown = format!(in alloc; "{whole:?}").expect(&rt, "a text");
    assert!(rt; shown.len() > LONG.len());
}

/// A function whose list ends before its end.
const ENDS: &str = "export function k(){ return g(); var a = 1; foo(); function g(){ return 2; } }";

/// Tries that each beginning of a text is read as a resolved tree of the core, or refused at its end at the latest.
fn begins(rt: &impl Abort, alloc: Global, text: &str) {
    let mark = unresolved(rt);
    for end in 0..text.len() {
        match read_module(alloc, text.get(..end).unwrap_or(""), mark) {
            Ok(module) => {
                let answer = is_core_and_resolved(alloc, &module, mark);
                assert!(rt; answer.expect(rt, "an answer"), "{end}");
            }
            Err(ReadError::Syntax { at }) => assert!(rt; at as usize <= end, "{end}"),
            Err(error) => assert!(rt; false, "{end}: {error}"),
        }
    }
}

#[test]
fn each_beginning_is_read_or_refused_at_its_end(rt: HostRuntime) {
    begins(&rt, rt.alloc(), LONG);
    begins(&rt, rt.alloc(), ENDS);
}

#[test]
fn a_thousand_levels_are_read(rt: HostRuntime) {
    let alloc = rt.alloc();
    let mark = unresolved(&rt);
    for (count, is_expr, is_module) in [
        (998, true, true),
        (999, true, false),
        (1000, false, false),
    ] {
        let mut text = "!".repeat(alloc, count).expect(&rt, "a text");
        text.push_str("a").expect(&rt, "a text");
        let of_expr = read_expr(alloc, text.as_str(), mark).err();
        assert!(rt; of_expr == too_deep(is_expr), "{count}");
        text.push_str(";").expect(&rt, "a text");
        let of_module = read_module(alloc, text.as_str(), mark).err();
        assert!(rt; of_module == too_deep(is_module), "{count}");
    }
}

/// What is told of a text, if it isn't read.
fn too_deep(is_read: bool) -> Option<ReadError> {
    if is_read {
        None
    } else {
        Some(ReadError::TooDeep)
    }
}

/// A function with as many parameters, of which the last has a default, as it declares names of `var`.
fn wide_function(alloc: Global, count: u32) -> Result<String, AllocError> {
    let mut text = String::from_str(alloc, "function f(")?;
    for number in 0..count {
        text.push_str(format!(in alloc; "p{number}, ")?.as_str())?;
    }
    text.push_str("last = 0) { ")?;
    for number in 0..count {
        text.push_str(format!(in alloc; "var v{number}; ")?.as_str())?;
    }
    text.push_str("}")?;
    Ok(text)
}

/// A text inside 300 others that are each inside the next one.
fn nested(alloc: Global, opens: &str, inside: &str) -> Result<String, AllocError> {
    let mut text = opens.repeat(alloc, 300)?;
    text.push_str(inside)?;
    text.push_str(" }".repeat(alloc, 300)?.as_str())?;
    Ok(text)
}

/// Tries that a text is read as a tree of the core.
fn reads(rt: &impl Abort, alloc: Global, text: Result<String, AllocError>) {
    let module = read(rt, alloc, text.expect(rt, "a text").as_str());
    assert!(rt; is_resolved(alloc, &module, unresolved(rt)).expect(rt, "an answer"));
    assert!(rt; is_core(alloc, &module).expect(rt, "an answer"));
}

/// Deep and wide texts, whose scopes would take long if their names were gathered or looked for again and again.
#[test]
fn deep_and_wide_texts_are_read(rt: HostRuntime) {
    let alloc = rt.alloc();
    let function = "(function (a, b = a) { var c; let d; c = d; });";
    let statements = "a = 1; ".repeat(alloc, 20000).expect(&rt, "a text");
    let inside = nested(alloc, "function f(a, b = a) { var c; let d; ", function);
    reads(&rt, alloc, inside);
    reads(&rt, alloc, nested(alloc, "{ let a; ", statements.as_str()));
    reads(&rt, alloc, function.repeat(alloc, 20000));
    reads(&rt, alloc, wide_function(alloc, 20000));
}
