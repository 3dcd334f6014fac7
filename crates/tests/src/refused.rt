//! Calls that give their answer, or say that memory is refused and give it when they are asked again. `tools/refuse --tests` and
//! `rt try --test --fail-alloc N` refuse the N-th request. The gate refuses none, so there these are tests of the answers alone.
use crate::texts::unresolved;
use std::alloc::{AllocError, Global};
use std::collections::BTreeMap;
use std::process::Abort;
use swc_ast::{DUMMY_SP, Expr, Lit, Mark, Module, PassError, Str};
use swc_const_modules::{ConstModules, const_modules};
use swc_const_propagation::constant_propagation;
use swc_expr_map::GlobalExprMap;
use swc_inline_globals::{InlineGlobals, inline_globals};
use swc_inlining::inlining;
use swc_json_parse::json_parse;
use swc_optimization::{Config, simplifier};
use swc_pass::{Pass, Repeated};
use swc_text::{PrintError, ReadError, print, read_expr, read_module};
use test_trees::number;

/// What a text is read as.
fn read(rt: &impl Abort, alloc: Global, text: &str) -> Module {
    let mark = unresolved(rt);
    match read_module(alloc, text, mark) {
        Ok(module) => module,
        Err(error) => {
            assert!(rt; error == ReadError::OutOfMemory, "{text}");
            read_module(alloc, text, mark).expect(rt, text)
        }
    }
}

fn read_value(rt: &impl Abort, alloc: Global, text: &str) -> Expr {
    let mark = unresolved(rt);
    match read_expr(alloc, text, mark) {
        Ok(e) => e,
        Err(error) => {
            assert!(rt; error == ReadError::OutOfMemory, "{text}");
            read_expr(alloc, text, mark).expect(rt, text)
        }
    }
}

fn clone_of(module: &Module) -> Result<Module, AllocError> {
    Ok(module.clone()?)
}

fn copied(rt: &impl Abort, module: &Module) -> Module {
    match clone_of(module) {
        Ok(copy) => copy,
        Err(_) => clone_of(module).expect(rt, "a copy"),
    }
}

/// Tries what a module is printed as.
fn shows(rt: &impl Abort, alloc: Global, module: &Module, wanted: &str) {
    let printed = match print(alloc, module) {
        Ok(text) => text,
        Err(error) => {
            assert!(rt; error == PrintError::OutOfMemory, "{wanted}");
            print(alloc, module).expect(rt, wanted)
        }
    };
    assert_eq!(rt; printed.as_str(), wanted);
}

/// A text, and what a pass makes of it.
type Row = (&'static str, &'static str);

/// Runs a pass on a module, and again where it is refused. A refusal leaves the module as it was before.
fn ran<P: Pass>(
    rt: &impl Abort,
    alloc: Global,
    pass: &mut P,
    module: &Module,
    before: &Module,
) -> Module {
    match pass.run(alloc, module) {
        Ok(answer) => answer,
        Err(error) => {
            assert!(rt; error == PassError::OutOfMemory && !pass.changed());
            assert!(rt; *module == *before);
            pass.run(alloc, module).expect(rt, "an answer")
        }
    }
}

/// Runs a pass on texts, and again where it is refused.
fn tries<P: Pass>(rt: &impl Abort, alloc: Global, pass: &mut P, rows: &[Row]) {
    for (text, wanted) in rows {
        let module = read(rt, alloc, text);
        let before = copied(rt, &module);
        let answer = ran(rt, alloc, pass, &module, &before);
        shows(rt, alloc, &answer, wanted);
        assert!(rt; module == before, "{text}");
    }
}

#[test]
fn propagation_answers_at_once_or_when_asked_again(rt: HostRuntime) {
    let alloc = rt.alloc();
    let rows: [Row; 1] = [("const a = 1; f(a); x = a;", "const a = 1;\nf(1);\nx = a;\n")];
    tries(&rt, alloc, &mut constant_propagation(), &rows);
    let rows: [Row; 1] = [(
        "let a = 'x'; f(a); if (c) { var v = 1; } f(v);",
        "let a = 'x';\nf('x');\nif (c) { var v = 1; }\nf(v);\n",
    )];
    tries(&rt, alloc, &mut inlining(swc_inlining::Config {}), &rows);
}

#[test]
fn the_simplifier_answers_at_once_or_when_asked_again(rt: HostRuntime) {
    let alloc = rt.alloc();
    let mark = unresolved(&rt);
    let rows: [Row; 5] = [
        ("f(1 + 2);", "f(3);\n"),
        ("let x; x = 1; f();", "f();\n"),
        ("switch(3){default: a(); case 1: b();}", "a();\nb();\n"),
        (
            "import {a} from 'm'; import 'n'; f();",
            "import 'm';\nimport 'n';\nf();\n",
        ),
        (
            "function a(){ b(); } function b(){ c(); } function c(){ d(); } function d(){ d(); } g();",
            "g();\n",
        ),
    ];
    tries(&rt, alloc, &mut simplifier(mark, Config::new(alloc)), &rows);
}

/// A refused run tells of no round.
#[test]
fn rounds_are_told_of_a_run_and_none_of_a_refused_one(rt: HostRuntime) {
    let alloc = rt.alloc();
    let mark = unresolved(&rt);
    let mut pass = simplifier(mark, Config::new(alloc));
    let module = read(&rt, alloc, "let x; x = 1; f();");
    if pass.run(alloc, &module).is_err() {
        assert!(rt; pass.rounds() == 0 && !pass.reached() && !pass.changed());
        pass.run(alloc, &module).expect(&rt, "an answer");
    }
    assert!(rt; pass.rounds() == 3 && pass.reached() && pass.changed());
}

#[test]
fn literals_are_taken_at_once_or_when_asked_again(rt: HostRuntime) {
    let alloc = rt.alloc();
    let module = read(&rt, alloc, "f({b: 1, a: 2});");
    let mut pass = json_parse(13);
    let answer = match pass.run(alloc, &module) {
        Ok(answer) => answer,
        Err(error) => {
            assert!(rt; error == PassError::OutOfMemory && !pass.changed());
            pass.run(alloc, &module).expect(&rt, "an answer")
        }
    };
    shows(&rt, alloc, &answer, "f(JSON.parse('{\"b\":1,\"a\":2}'));\n");
}

/// What is given for a member of `process.env`.
fn environment(alloc: Global) -> Result<BTreeMap<String, Expr>, PassError> {
    let value = Expr::Lit(Lit::Str(Str {
        span: DUMMY_SP,
        value: String::from_str(alloc, "development")?,
    }));
    let mut envs = BTreeMap::new(alloc);
    envs.insert(String::from_str(alloc, "NODE_ENV")?, value)?;
    Ok(envs)
}

/// Runs a pass that puts what is given, and again where it is refused.
fn put(rt: &impl Abort, alloc: Global, pass: &mut InlineGlobals<'_>, module: &Module) -> Module {
    match pass.run(alloc, module) {
        Ok(answer) => answer,
        Err(error) => {
            assert!(rt; error == PassError::OutOfMemory && !pass.changed());
            pass.run(alloc, module).expect(rt, "an answer")
        }
    }
}

#[test]
fn members_are_put_at_once_or_when_asked_again(rt: HostRuntime) {
    let alloc = rt.alloc();
    let mark = unresolved(&rt);
    let envs = match environment(alloc) {
        Ok(envs) => envs,
        Err(error) => {
            assert!(rt; error == PassError::OutOfMemory);
            environment(alloc).expect(&rt, "values")
        }
    };
    let (globals, typeofs) = (BTreeMap::new(alloc), BTreeMap::new(alloc));
    let module = read(&rt, alloc, "if (process.env.NODE_ENV === 'development') {}");
    let before = copied(&rt, &module);
    let mut pass = inline_globals(&envs, &globals, &typeofs).with_mark(mark);
    let answer = put(&rt, alloc, &mut pass, &module);
    let wanted = "if ('development' === 'development') {}\n";
    shows(&rt, alloc, &answer, wanted);
    assert!(rt; module == before);
}

/// The pass that is given an export.
fn given(alloc: Global, mark: Mark) -> Result<ConstModules, PassError> {
    let mut exports = BTreeMap::new(alloc);
    exports.insert(
        String::from_str(alloc, "A")?,
        String::from_str(alloc, "true")?,
    )?;
    let mut modules = BTreeMap::new(alloc);
    modules.insert(String::from_str(alloc, "env")?, exports)?;
    const_modules(alloc, &modules, mark)
}

/// Whether it is told that a name is no export, or is exported again.
fn is_told(error: &PassError, wanted: &str) -> bool {
    match error {
        PassError::MissingExport { module, export } => {
            module.as_str() == "env" && export.as_str() == wanted
        }
        PassError::ReExported { name } => name.as_str() == wanted,
        _ => false,
    }
}

/// Tries what the pass that is given an export makes of a text, or tells of it, and again where memory is refused.
fn tries_imports(
    rt: &impl Abort,
    alloc: Global,
    pass: &mut ConstModules,
    text: &str,
    wanted: &str,
) {
    let module = read(rt, alloc, text);
    let before = copied(rt, &module);
    let mut answer = pass.run(alloc, &module);
    if let Err(PassError::OutOfMemory) = &answer {
        assert!(rt; !pass.changed(), "{text}");
        answer = pass.run(alloc, &module);
    }
    match answer {
        Ok(answer) => shows(rt, alloc, &answer, wanted),
        Err(error) => assert!(rt; is_told(&error, wanted), "{text}"),
    }
    assert!(rt; module == before, "{text}");
}

/// Memory that is refused is told as such, and what the pass refuses of itself is told then.
#[test]
fn given_imports_are_put_at_once_or_when_asked_again(rt: HostRuntime) {
    let alloc = rt.alloc();
    let mark = unresolved(&rt);
    let mut pass = match given(alloc, mark) {
        Ok(pass) => pass,
        Err(error) => {
            assert!(rt; error == PassError::OutOfMemory);
            given(alloc, mark).expect(&rt, "a pass")
        }
    };
    let rows: [Row; 3] = [
        ("import {A as b} from 'env'; f(b);", "f(true);\n"),
        ("import {B} from 'env';", "B"),
        ("import {A as b} from 'env'; export {b};", "b"),
    ];
    for (text, wanted) in rows {
        tries_imports(&rt, alloc, &mut pass, text, wanted);
    }
}

/// Puts a value in a map, and again where it is refused.
fn put_in(rt: &impl Abort, alloc: Global, map: &mut GlobalExprMap, text: &str, before: usize) {
    let key = read_value(rt, alloc, text);
    let again = read_value(rt, alloc, text);
    if let Err(error) = map.insert(read_value(rt, alloc, text), number(1)) {
        assert!(rt; error == PassError::OutOfMemory, "{text}");
        assert!(rt; map.len() == before && map.get(&key).is_none(), "{text}");
        map.insert(again, number(1)).expect(rt, text);
    }
    assert!(rt; map.get(&key).is_some(), "{text}");
}

/// A refused insertion leaves the map, and looking something up takes no memory.
#[test]
fn a_value_is_in_the_map_at_once_or_when_put_again(rt: HostRuntime) {
    let alloc = rt.alloc();
    let mut map = GlobalExprMap::new(alloc);
    for (text, before, behind) in [
        ("a.b", 0usize, 1usize),
        ("x", 1, 2),
        ("a['b']", 2, 3),
        ("y", 3, 4),
    ] {
        put_in(&rt, alloc, &mut map, text, before);
        assert!(rt; map.len() == behind, "{text}");
    }
}
