//! What tests do with texts.
use std::alloc::{AllocError, Global};
use std::process::Abort;
use swc_ast::{Expr, Mark, Module, Script};
use swc_optimization::Config;
use swc_pass::Pass;
use swc_text::{print, read_expr, read_module, read_script};

/// The mark of names that no scope binds.
pub(crate) fn unresolved(rt: &impl Abort) -> Mark {
    Mark::new(1).expect(rt, "1 is a mark")
}

/// What a text is read as.
pub(crate) fn read(rt: &impl Abort, alloc: Global, text: &str) -> Module {
    read_module(alloc, text, unresolved(rt)).expect(rt, text)
}

/// What a text is read as, as a script.
pub(crate) fn read_as_script(rt: &impl Abort, alloc: Global, text: &str) -> Script {
    read_script(alloc, text, unresolved(rt)).expect(rt, text)
}

/// What an expression's text is read as.
pub(crate) fn value(rt: &impl Abort, alloc: Global, text: &str) -> Expr {
    read_expr(alloc, text, unresolved(rt)).expect(rt, text)
}

/// Tries what a module is printed as.
pub(crate) fn shows(rt: &impl Abort, alloc: Global, module: &Module, wanted: &str) {
    assert_eq!(rt; print(alloc, module).expect(rt, wanted).as_str(), wanted);
}

/// Tries what a pass makes of a module, and whether it tells of a change.
pub(crate) fn turns<P: Pass>(
    rt: &impl Abort,
    alloc: Global,
    pass: &mut P,
    module: &Module,
    (wanted, changes): (&str, bool),
) -> Module {
    let answer = pass.run(alloc, module).expect(rt, wanted);
    shows(rt, alloc, &answer, wanted);
    assert!(rt; pass.changed() == changes, "{wanted}");
    answer
}

/// Tries what a pass makes of a text that it changes.
pub(crate) fn makes<P: Pass>(
    rt: &impl Abort,
    alloc: Global,
    pass: &mut P,
    text: &str,
    wanted: &str,
) -> Module {
    turns(rt, alloc, pass, &read(rt, alloc, text), (wanted, true))
}

/// Tries that a pass leaves a text.
pub(crate) fn leaves<P: Pass>(rt: &impl Abort, alloc: Global, pass: &mut P, text: &str) -> Module {
    turns(rt, alloc, pass, &read(rt, alloc, text), (text, false))
}

/// Tries what a pass tells of itself, before and behind a run that changes a text.
pub(crate) fn tells<P: Pass>(
    rt: &impl Abort,
    alloc: Global,
    pass: &mut P,
    mark: Option<Mark>,
    (text, wanted): (&str, &str),
) {
    assert!(rt; pass.mark() == mark && pass.lowers() == mark.is_some() && !pass.changed());
    makes(rt, alloc, pass, text, wanted);
    pass.reset();
    assert!(rt; !pass.changed());
}

/// The default options, with a name that is retained.
pub(crate) fn retaining(alloc: Global, name: &str) -> Result<Config, AllocError> {
    let mut config = Config::new(alloc);
    let name = String::from_str(alloc, name)?;
    config.dce.top_retain.push(name)?;
    Ok(config)
}
