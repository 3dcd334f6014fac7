//! The pass.
ghost use Rattle.std.specs.Prelude.{◌≡◌, false, IfOk, IfErr, OnOk, OnErr, Some, None};
ghost use Rattle.swc_ast.specs.Modules.{module_tree, script_tree};
ghost use Rattle.swc_pass.specs.Pass.{TellsChange};
ghost use Rattle.tree_put.specs.Walks.{Makes};
ghost use Rattle.tree_put.specs.declared.rules.Spot.TheVariants.{Here};
ghost use Rattle.given_globals.specs.Globals.{answers_of};
ghost use Rattle.swc_inline_globals.specs.Answers.{Inlined, Refused};
ghost use Rattle.swc_inline_globals.specs.Nesting.{TellsOfTree};
ghost use Rattle.swc_inline_globals.specs.Made.{IsWhole, IsMade, WalkGives};

use crate::finals::finals;
use crate::gather::Gathering;
use crate::levels::{Nesting, count_levels};
use crate::put::Putting;
use given_globals::{Lookup, Settings};
use std::alloc::{AllocError, Global};
use std::collections::BTreeMap;
use swc_ast::{Expr, Mark, Module, PassError, Script};
use swc_expr_map::GlobalExprMap;
use swc_pass::{Repeated, Whole};
use tree_put::{Puts, put_module, put_script};

/// What the pass walks: a module or a script.
trait Walked: Whole {
    /// Walks it. Fails where memory is refused.
    fn walk<P: Puts>(&mut self, alloc: Global, rules: &mut P) -> Result<(), AllocError>
        ensures whole { IsWhole (Self.tree self.old) }
        ensures makes { IfOk result (λ u. Makes P.puts (Self.tree self.old) (P.state rules.old) Here (Self.tree self.new) (P.state rules.new)) };
}

impl Walked for Module {
    fn walk<P: Puts>(&mut self, alloc: Global, rules: &mut P) -> Result<(), AllocError> {
        put_module(alloc, rules, self)
    }
}

impl Walked for Script {
    fn walk<P: Puts>(&mut self, alloc: Global, rules: &mut P) -> Result<(), AllocError> {
        put_script(alloc, rules, self)
    }
}

/// A pass that replaces names, chains of members and members of `process.env` by given expressions, where no scope binds the
/// name that they begin with.
#[derive(Drop)]
pub struct InlineGlobals<'a> {
    settings: Settings<'a>,
    changed: bool,
}

/// Returns the pass that replaces names by the values of `globals`, members of `process.env` by those of `envs`, and `typeof` of a
/// name by the text of `typeofs`.
pub fn inline_globals<'a>(
    envs: &'a BTreeMap<String, Expr>,
    globals: &'a BTreeMap<String, Expr>,
    typeofs: &'a BTreeMap<String, String>,
) -> InlineGlobals<'a>
    ensures settings { result.settings ≡ record { envs = envs.entry; globals = globals.entry; global_exprs = None; typeofs = typeofs.entry; mark = None } }
    ensures changed { ⟦<InlineGlobals<'a> as Repeated>⟧.is_changed result ≡ false }
{
    InlineGlobals {
        settings: Settings {
            envs,
            globals,
            global_exprs: None,
            typeofs,
            mark: None,
        },
        changed: false,
    }
}

/// The same, with values for names and chains of members as a whole, which come first.
pub fn inline_globals2<'a>(
    envs: &'a BTreeMap<String, Expr>,
    globals: &'a BTreeMap<String, Expr>,
    global_exprs: &'a GlobalExprMap,
    typeofs: &'a BTreeMap<String, String>,
) -> InlineGlobals<'a>
    ensures settings { result.settings ≡ record { envs = envs.entry; globals = globals.entry; global_exprs = Some global_exprs.entry; typeofs = typeofs.entry; mark = None } }
    ensures changed { ⟦<InlineGlobals<'a> as Repeated>⟧.is_changed result ≡ false }
{
    InlineGlobals {
        settings: Settings {
            envs,
            globals,
            global_exprs: Some(global_exprs),
            typeofs,
            mark: None,
        },
        changed: false,
    }
}

impl Repeated for InlineGlobals<'_> {
    ghost is_changed = { λ p. p.changed };

    ghost resets_to = { λ p q. q.settings ≡ p.settings };

    fn changed(&self) -> bool {
        self.changed
    }

    fn reset(&mut self) {
        self.changed = false;
    }
}

impl<'a> InlineGlobals<'a> {
    /// The same, for programs whose unresolved names have a mark. Without one only names with the empty context are unresolved.
    pub fn with_mark(self, mark: Mark) -> InlineGlobals<'a>
        ensures settings { result.settings ≡ record self.entry.settings { mark = Some mark } }
        ensures changed { ⟦<InlineGlobals<'a> as Repeated>⟧.is_changed result ≡ false }
    {
        InlineGlobals {
            settings: Settings {
                mark: Some(mark),
                ..self.settings
            },
            changed: false,
        }
    }

    /// Returns how many levels of expressions and statements there are once what is given is put, if they are at most `most`:
    /// those of the module, those of a value that is met there, those of one that is met in that, and so on, with a level for
    /// the brackets round each value. The module stays as it is. Fails if memory runs out.
    pub fn count_levels(
        &self,
        alloc: Global,
        module: &mut Module,
        most: u32,
    ) -> Result<Nesting, AllocError>
        ensures same { OnOk result (module_tree «module».new ≡ module_tree «module».old) }
        ensures nesting { IfOk result (TellsOfTree (answers_of self.now.settings) (module_tree «module».old) most) }
    {
        let lookup = Lookup::new(alloc, self.settings)?;
        count_levels(alloc, &lookup, module, most)
    }

    /// What the walks make of a copy. None: it is equal to the input up to spans.
    fn answer<W: Walked>(&mut self, alloc: Global, input: &W) -> Result<Option<W>, PassError>
        ensures settings { self.new.settings ≡ self.old.settings }
        ensures answer { IfOk result (λ o. WalkGives self.old.settings W.tree (W.tree input.now) o self.new.changed) }
        ensures refused { OnErr result (self.new.changed ≡ false) }
        ensures told { IfErr result (Refused self.old.settings (W.tree input.now)) }
    {
        self.changed = false;
        let mut copy = input.copy()?;
        let lookup = Lookup::new(alloc, self.settings)?;
        inline(alloc, &lookup, &mut copy)?;
        if copy.is_same(input) {
            return Ok(None);
        }
        self.changed = true;
        Ok(Some(copy))
    }

    /// Runs the pass over a module and returns the result: the module itself where the pass changes nothing but spans. Fails if a
    /// value occurs in itself or memory runs out; the pass can run again after that.
    pub fn fold_module(&mut self, alloc: Global, module: Module) -> Result<Module, PassError>
        ensures settings { self.new.settings ≡ self.old.settings }
        ensures answer { IfOk result (λ r. Inlined self.old.settings (module_tree «module») (module_tree r)) }
        ensures changed { IfOk result (λ r. TellsChange (⟦<InlineGlobals<'a> as Repeated>⟧.is_changed self.new) (module_tree «module») (module_tree r)) }
        ensures refused { OnErr result (⟦<InlineGlobals<'a> as Repeated>⟧.is_changed self.new ≡ false) }
        ensures told { IfErr result (Refused self.old.settings (module_tree «module»)) }
    {
        match self.answer(alloc, &module)? {
            Some(answer) => Ok(answer),
            None => Ok(module),
        }
    }

    /// Runs the pass over a script and returns the result: the script itself where the pass changes nothing but spans. Fails if a
    /// value occurs in itself or memory runs out; the pass can run again after that.
    pub fn fold_script(&mut self, alloc: Global, script: Script) -> Result<Script, PassError>
        ensures settings { self.new.settings ≡ self.old.settings }
        ensures answer { IfOk result (λ r. Inlined self.old.settings (script_tree script) (script_tree r)) }
        ensures changed { IfOk result (λ r. TellsChange (⟦<InlineGlobals<'a> as Repeated>⟧.is_changed self.new) (script_tree script) (script_tree r)) }
        ensures refused { OnErr result (⟦<InlineGlobals<'a> as Repeated>⟧.is_changed self.new ≡ false) }
        ensures told { IfErr result (Refused self.old.settings (script_tree script)) }
    {
        match self.answer(alloc, &script)? {
            Some(answer) => Ok(answer),
            None => Ok(script),
        }
    }

    /// Runs the pass over a copy of a module and returns the result. Fails if a value occurs in itself or memory runs out; the pass
    /// can run again after that.
    pub fn run(&mut self, alloc: Global, module: &Module) -> Result<Module, PassError>
        ensures settings { self.new.settings ≡ self.old.settings }
        ensures answer { IfOk result (λ r. Inlined self.old.settings (module_tree «module».now) (module_tree r)) }
        ensures changed { IfOk result (λ r. TellsChange (⟦<InlineGlobals<'a> as Repeated>⟧.is_changed self.new) (module_tree «module».now) (module_tree r)) }
        ensures refused { OnErr result (⟦<InlineGlobals<'a> as Repeated>⟧.is_changed self.new ≡ false) }
        ensures told { IfErr result (Refused self.old.settings (module_tree «module».now)) }
    {
        match self.answer(alloc, module)? {
            Some(answer) => Ok(answer),
            None => Ok(module.copy()?),
        }
    }

    /// Runs the pass over a copy of a script and returns the result. Fails if a value occurs in itself or memory runs out; the pass
    /// can run again after that.
    pub fn run_script(&mut self, alloc: Global, script: &Script) -> Result<Script, PassError>
        ensures settings { self.new.settings ≡ self.old.settings }
        ensures answer { IfOk result (λ r. Inlined self.old.settings (script_tree script.now) (script_tree r)) }
        ensures changed { IfOk result (λ r. TellsChange (⟦<InlineGlobals<'a> as Repeated>⟧.is_changed self.new) (script_tree script.now) (script_tree r)) }
        ensures refused { OnErr result (⟦<InlineGlobals<'a> as Repeated>⟧.is_changed self.new ≡ false) }
        ensures told { IfErr result (Refused self.old.settings (script_tree script.now)) }
    {
        match self.answer(alloc, script)? {
            Some(answer) => Ok(answer),
            None => Ok(script.copy()?),
        }
    }
}

/// Puts what is given, and first in the values that are met. Refuses where one is met in its own code, or memory runs out.
fn inline<W: Walked>(alloc: Global, lookup: &Lookup<'_>, whole: &mut W) -> Result<(), PassError>
    ensures made { OnOk result (IsMade lookup.now.settings (W.tree whole.old) (W.tree whole.new)) }
    ensures refused { IfErr result (Refused lookup.now.settings (W.tree whole.old)) }
{
    let mut gathering = Gathering::new(alloc, lookup);
    whole.walk(alloc, &mut gathering)?;
    let finals = finals(alloc, lookup, &gathering.met)?;
    let mut putting = Putting {
        alloc,
        lookup,
        finals: &finals,
    };
    whole.walk(alloc, &mut putting)?;
    Ok(())
}
