//! What is given for names and members, and how deep a module is.
ghost use Rattle.std.specs.Prelude.{◌≡◌, ◌<◌, ◌+◌, ◌⊎◌, false, None, Some, length, is_some, option_map, if◌then◌else◌, IfOk, IfErr, IfSome, OnOk, OnErr};
ghost use Rattle.swc_ast.specs.Modules.{module_tree};
ghost use Rattle.swc_ast.specs.Tree.{Tree};
ghost use Rattle.swc_ast.specs.Views.{expr_tree};
ghost use Rattle.swc_ast.specs.declared.errors.PassError.TheVariants.{OutOfMemory};
ghost use Rattle.swc_pass.specs.Pass.{TellsChange};
ghost use Rattle.swc_levels.specs.Levels.{levels, Counts};
ghost use Rattle.swc_expr_map.specs.Order.{same_key};
ghost use Rattle.swc_expr_map.specs.Entries.{found, number_of};
ghost use Rattle.given_globals.specs.Globals.{answers_of};
ghost use Rattle.swc_inline_globals.specs.Answers.{Inlined, Refused};
ghost use Rattle.swc_inline_globals.specs.Nesting.{TellsOfTree};
ghost use Rattle.const_imports.specs.Views.{IsFirst};
ghost use Rattle.const_pass.specs.Replaced.{constants_in, faults_in, Replaced};

use const_pass::ConstModules;
use std::alloc::{AllocError, Global};
use swc_ast::{Expr, Module, PassError};
use swc_expr_map::GlobalExprMap;
use swc_inline_globals::{InlineGlobals, Nesting};
use swc_pass::Repeated;

/// `ConstModules::fold_module`
pub fn replace(pass: &mut ConstModules, alloc: Global, module: Module) -> Result<Module, PassError>
    ensures given { pass.new.given ≡ pass.old.given }
    ensures answer { IfOk result (λ r. Replaced (constants_in pass.old.given) (module_tree «module») (module_tree r)) }
    ensures told { IfErr result (λ e. (e ≡ OutOfMemory) ⊎ IsFirst (faults_in pass.old.given (module_tree «module»)) e) }
    ensures changed { IfOk result (λ r. TellsChange (⟦<ConstModules as Repeated>⟧.is_changed pass.new) (module_tree «module») (module_tree r)) }
    ensures refused { OnErr result (⟦<ConstModules as Repeated>⟧.is_changed pass.new ≡ false) }
{
    pass.fold_module(alloc, module)
}

/// `InlineGlobals::fold_module`
pub fn put_globals<'a>(
    globals: &mut InlineGlobals<'a>,
    alloc: Global,
    module: Module,
) -> Result<Module, PassError>
    ensures settings { globals.new.settings ≡ globals.old.settings }
    ensures answer { IfOk result (λ r. Inlined globals.old.settings (module_tree «module») (module_tree r)) }
    ensures changed { IfOk result (λ r. TellsChange (⟦<InlineGlobals<'a> as Repeated>⟧.is_changed globals.new) (module_tree «module») (module_tree r)) }
    ensures refused { OnErr result (⟦<InlineGlobals<'a> as Repeated>⟧.is_changed globals.new ≡ false) }
    ensures told { IfErr result (Refused globals.old.settings (module_tree «module»)) }
{
    globals.fold_module(alloc, module)
}

/// `InlineGlobals::count_levels`
pub fn count_levels(
    pass: &InlineGlobals<'_>,
    alloc: Global,
    module: &mut Module,
    most: u32,
) -> Result<Nesting, AllocError>
    ensures same { OnOk result (module_tree «module».new ≡ module_tree «module».old) }
    ensures nesting { IfOk result (TellsOfTree (answers_of pass.now.settings) (module_tree «module».old) most) }
{
    pass.count_levels(alloc, module, most)
}

/// `GlobalExprMap::insert`
pub fn insert(exprs: &mut GlobalExprMap, key: Expr, value: Expr) -> Result<(), PassError>
    ensures get { OnOk result ((t : Tree) → found t exprs.new ≡ (if same_key t (expr_tree key) then Some (expr_tree value) else found t exprs.old)) }
    ensures count { OnOk result (length exprs.new ≡ (if is_some (found (expr_tree key) exprs.old) then length exprs.old else length exprs.old + 1)) }
    ensures unchanged { OnErr result (exprs.new ≡ exprs.old) }
    ensures memory { IfErr result (λ e. e ≡ OutOfMemory) }
{
    exprs.insert(key, value)
}

/// `GlobalExprMap::get`
pub fn get<'a>(exprs: &'a GlobalExprMap, key: &Expr) -> Option<&'a Expr>
    ensures { option_map (λ e. expr_tree e.now) result ≡ found (expr_tree key.now) exprs.now }
{
    exprs.get(key)
}

/// `GlobalExprMap::number`
pub fn number(exprs: &GlobalExprMap, key: &Expr) -> Option<usize>
    ensures { result ≡ number_of (expr_tree key.now) exprs.now }
{
    exprs.number(key)
}

/// `swc_levels::levels_of_module`
pub fn levels_of_module(m: &Module, most: u32) -> Option<u32>
    ensures counts { IfSome result (Counts (levels (module_tree m.now)) most) }
    ensures more { result ≡ None → most < levels (module_tree m.now) }
{
    swc_levels::levels_of_module(m, most)
}
