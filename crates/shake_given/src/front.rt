//! What is given, put into a module.
ghost use Rattle.std.specs.Prelude.{◌≡◌, ◌≢◌, ◌≤◌, ◌⊎◌, [], IfOk, IfErr, map, max};
ghost use Rattle.shake_given.specs.declared.error.GivenError.TheVariants.{OutOfMemory};
ghost use Rattle.shake_given.specs.Refused.{Refused, ImportRefused, NamesRefused};
ghost use Rattle.shake_given.specs.Deep.{Counted, Within};
ghost use Rattle.swc_ast.specs.Modules.{module_tree};
ghost use Rattle.swc_levels.specs.Levels.{levels};
ghost use Rattle.shake_options.specs.Flags.{flag_texts};
ghost use Rattle.shake_given.specs.Prepared.{AreSettings, Replaces, Puts, Prepared, Stays, most_levels};

use crate::error::GivenError;
use crate::given::{Given, GivenNames};
use const_imports::GivenModules;
use const_pass::ConstModules;
use shake_options::Flag;
use std::alloc::Global;
use std::collections::BTreeMap;
use swc_ast::{Expr, Mark, Module};
use swc_inline_globals::{InlineGlobals, Nesting, inline_globals2};
use swc_levels::levels_of_module;

/// How many levels of expressions and statements a module may have by what is given: as many as a text may have.
const MOST_LEVELS: u32 = 1000;

/// Puts what flags give into a module whose unresolved names bear the mark: first the values of imports, and then those of
/// names, of members and of `typeof`, in these values too. Without flags the module is given back as it is.
///
/// Fails as `Given::read` does on the flags. If they are read, it fails at the first import of a given module that is wrong: with
/// `NoExport` where the module has no value of the name, with `NoDefault` where it has no `default`, with `Namespace` where the
/// module's namespace is used otherwise than to name an export, and with `ReExported` where an imported name is exported again.
/// If none is wrong, it fails with `Cyclic` where a value leads back to itself, and with `TooDeep` where the levels of the module
/// and of values that stand in one another are more than 1,000, or more than the module has if it has so many. It fails with
/// `OutOfMemory` where memory is refused.
pub fn prepare(
    alloc: Global,
    flags: &[Flag<'_>],
    mark: Mark,
    module: Module,
) -> Result<Module, GivenError>
    ensures prepared { IfOk result (λ r. Prepared (map flag_texts flags.now) mark (module_tree «module») (module_tree r)) }
    ensures stays { IfOk result (λ r. Stays (module_tree «module») (module_tree r)) }
    ensures unflagged { IfOk result (λ r. flags.now ≡ [] → module_tree r ≡ module_tree «module») }
    ensures levels { IfOk result (λ r. levels (module_tree r) ≤ max 1000 (levels (module_tree «module»))) }
    ensures within { IfOk result (λ r. Within (map flag_texts flags.now) mark (module_tree «module»)) }
    ensures told { IfErr result (Refused (map flag_texts flags.now) mark (module_tree «module»)) }
    ensures refused { IfErr result (λ _. flags.now ≢ []) }
{
    if flags.is_empty() {
        return Ok(module);
    }
    let most = most_levels(&module);
    let prepared = put_all(alloc, flags, mark, module, most)?;
    if levels_of_module(&prepared, most).is_none() {
        return Err(GivenError::TooDeep);
    }
    Ok(prepared)
}

/// How many levels a module may have by what is given: if it has more, as many as it has, up to the greatest `u32`.
fn most_levels(module: &Module) -> u32
    ensures { result ≡ most_levels (module_tree «module».now) }
{
    match levels_of_module(module, u32::MAX) {
        Some(levels) => levels.max(MOST_LEVELS),
        None => u32::MAX,
    }
}

/// A module with all that flags give. Refuses what `prepare` does, and more than `most` levels before they are made.
fn put_all(
    alloc: Global,
    flags: &[Flag<'_>],
    mark: Mark,
    module: Module,
    most: u32,
) -> Result<Module, GivenError>
    requires { most ≡ most_levels (module_tree «module») }
    ensures prepared { IfOk result (λ r. Prepared (map flag_texts flags.now) mark (module_tree «module») (module_tree r)) }
    ensures stays { IfOk result (λ r. Stays (module_tree «module») (module_tree r)) }
    ensures within { IfOk result (λ r. Within (map flag_texts flags.now) mark (module_tree «module»)) }
    ensures told { IfErr result (Refused (map flag_texts flags.now) mark (module_tree «module»)) }
{
    let Given { names, modules } = Given::read(alloc, flags, mark)?;
    let constant = replace(alloc, modules, module)?;
    put(alloc, &names, mark, constant, most)
}

/// A module with the values of imports of given modules. Refuses an import that is wrong, and where memory is refused.
fn replace(alloc: Global, given: GivenModules<Expr>, module: Module) -> Result<Module, GivenError>
    ensures replaces { IfOk result (λ r. Replaces given (module_tree «module») (module_tree r)) }
    ensures told { IfErr result (λ e. (e ≡ OutOfMemory) ⊎ ImportRefused given (module_tree «module») e) }
{
    if given.modules.is_empty() {
        return Ok(module);
    }
    let mut pass = ConstModules::new(given);
    Ok(pass.fold_module(alloc, module)?)
}

/// A module with what is given for names and members. Refuses a value that leads back to itself, where memory is refused, and
/// where the module would have more than `most` levels, before it is made.
fn put(
    alloc: Global,
    given: &GivenNames,
    mark: Mark,
    module: Module,
    most: u32,
) -> Result<Module, GivenError>
    ensures puts { IfOk result (λ r. Puts given.now mark (module_tree «module») (module_tree r)) }
    ensures within { IfOk result (λ r. Counted given.now mark most (module_tree «module»)) }
    ensures told { IfErr result (NamesRefused given.now mark most (module_tree «module»)) }
{
    if given.exprs.len() == 0 && given.envs.is_empty() && given.typeofs.is_empty() {
        return Ok(module);
    }
    let mut constant = module;
    let globals = BTreeMap::new(alloc);
    let mut pass = inlining(given, &globals, mark);
    // Of a cycle the pass tells the name.
    if let Nesting::TooMany = pass.count_levels(alloc, &mut constant, most)? {
        return Err(GivenError::TooDeep);
    }
    Ok(pass.fold_module(alloc, constant)?)
}

/// The pass that puts what is given for names and members, with no values by names alone.
fn inlining<'a>(
    given: &'a GivenNames,
    globals: &'a BTreeMap<String, Expr>,
    mark: Mark,
) -> InlineGlobals<'a>
    requires { globals.now.entries ≡ [] }
    ensures { AreSettings given.now mark result.settings }
{
    inline_globals2(&given.envs, globals, &given.exprs, &given.typeofs).with_mark(mark)
}
