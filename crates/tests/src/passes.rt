//! Each pass on one tree.
use std::alloc::{AllocError, Global};
use std::collections::BTreeMap;
use std::process::Abort;
use swc_ast::{Mark, Module, PassError, Script};
use swc_branch::dead_branch_remover;
use swc_const_modules::const_modules;
use swc_const_propagation::constant_propagation;
use swc_dce::dce;
use swc_expr::expr_simplifier;
use swc_expr_map::GlobalExprMap;
use swc_inline_globals::inline_globals2;
use swc_inlining::inlining;
use swc_json_parse::json_parse;
use swc_optimization::{Config, simplifier};
use swc_pass::Pass;
use swc_text::read_expr;

/// Runs a pass on a module and on a script.
fn runs<P: Pass>(
    rt: &impl Abort,
    alloc: Global,
    pass: &mut P,
    (module, script): (&Module, &Script),
) {
    pass.run(alloc, module).expect(rt, "a module");
    pass.run_script(alloc, script).expect(rt, "a script");
}

/// Runs each pass: each has to return, and none refuses but the two that prepare.
pub(crate) fn each_runs(
    rt: &impl Abort,
    alloc: Global,
    mark: Mark,
    module: &Module,
    script: &Script,
) {
    let whole = (module, script);
    let mut expressions = expr_simplifier(mark, swc_expr::Config {});
    runs(rt, alloc, &mut expressions, whole);
    runs(rt, alloc, &mut dead_branch_remover(mark), whole);
    runs(
        rt,
        alloc,
        &mut dce(swc_dce::Config::new(alloc), mark),
        whole,
    );
    runs(rt, alloc, &mut simplifier(mark, Config::new(alloc)), whole);
    runs(rt, alloc, &mut constant_propagation(), whole);
    runs(rt, alloc, &mut inlining(swc_inlining::Config {}), whole);
    let mut json = json_parse(0);
    json.run(alloc, module).expect(rt, "a module");
    json.run_script(alloc, script).expect(rt, "a script");
    globals_run(rt, alloc, mark, module, script);
    imports_run(rt, alloc, mark, module, script);
}

/// Runs the pass that puts what is given for names and for chains of members.
fn globals_run(rt: &impl Abort, alloc: Global, mark: Mark, module: &Module, script: &Script) {
    let mut exprs = GlobalExprMap::new(alloc);
    for (key, value) in [("x", "y(1)"), ("a.b", "[x]"), ("y", "typeof z")] {
        let key = read_expr(alloc, key, mark).expect(rt, "a key");
        let value = read_expr(alloc, value, mark).expect(rt, "a value");
        exprs.insert(key, value).expect(rt, "a value");
    }
    let (envs, globals) = (BTreeMap::new(alloc), BTreeMap::new(alloc));
    let typeofs = BTreeMap::new(alloc);
    let mut pass = inline_globals2(&envs, &globals, &exprs, &typeofs).with_mark(mark);
    pass.run(alloc, module).expect(rt, "a module");
    pass.run_script(alloc, script).expect(rt, "a script");
}

/// The exports of a module.
fn given(alloc: Global) -> Result<BTreeMap<String, BTreeMap<String, String>>, AllocError> {
    let mut exports = BTreeMap::new(alloc);
    for name in ["a", "default"] {
        let name = String::from_str(alloc, name)?;
        exports.insert(name, String::from_str(alloc, "x.y")?)?;
    }
    let mut modules = BTreeMap::new(alloc);
    modules.insert(String::from_str(alloc, "m")?, exports)?;
    Ok(modules)
}

/// Runs the pass that puts what is given for imports. It may refuse a module by what it tells.
fn imports_run(rt: &impl Abort, alloc: Global, mark: Mark, module: &Module, script: &Script) {
    let modules = given(alloc).expect(rt, "exports");
    let mut pass = const_modules(alloc, &modules, mark).expect(rt, "a pass");
    let refusal = pass.run(alloc, module).err();
    assert!(rt; refusal != Some(PassError::OutOfMemory));
    pass.run_script(alloc, script).expect(rt, "a script");
}
