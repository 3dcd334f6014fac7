//! The pass.
ghost use Rattle.std.specs.Prelude.{◌≡◌, ℕ, false, Some, IfOk, IfErr, OnErr, OnOk};
ghost use Rattle.swc_ast.specs.Modules.{module_tree, script_tree};
ghost use Rattle.swc_ast.specs.Views.{expr_tree};
ghost use Rattle.swc_ast.specs.declared.errors.PassError.TheVariants.{OutOfMemory};
ghost use Rattle.swc_pass.specs.Pass.{TellsChange};
ghost use Rattle.tree_put.specs.Answers.{answer_of};
ghost use Rattle.tree_put.specs.Still.{still};
ghost use Rattle.swc_json_parse.specs.JsonText.{json_text};
ghost use Rattle.swc_json_parse.specs.Parsing.{parsed};
ghost use Rattle.swc_json_parse.specs.Answers.{Parsed, WalkGives};
ghost use Rattle.swc_json_parse.specs.Quick.{quick, quick_call};
ghost use Rattle.tree_put.specs.declared.rules.Spot.TheVariants.{Here};

use crate::call::{literal_span, parse_call};
use crate::sink::{Length, Written};
use crate::text::write;
use std::alloc::{AllocError, Global};
use swc_ast::{
    ExportNamedSpecifier, Expr, Ident, Module, PassError, Script, Span, VarDeclKind, VarDeclarator,
};
use swc_pass::{Repeated, Whole};
use tree_put::{Put, Puts, Scope, Spot, put_module, put_script};

/// The deepest nesting that `serde_json` reads.
const MAX_LEVELS: usize = 127;

/// The rules of the walk.
#[derive(Drop)]
struct Literals {
    alloc: Global,
    min_cost: usize,
}

impl Literals {
    /// What becomes of an array or object literal that stands at a span.
    fn parse(&self, span: Span, e: &Expr) -> Result<Put, AllocError>
        ensures { IfOk result (λ a. answer_of a ≡ quick_call self.now.min_cost (Some span) (json_text (expr_tree e.now))) }
    {
        if self.min_cost == usize::MAX {
            return Ok(Put::Enter);
        }
        let mut length = Length { bytes: 0 };
        if !write(self.alloc, e, MAX_LEVELS, &mut length)? {
            return Ok(Put::Enter);
        }
        if length.bytes < self.min_cost {
            return Ok(Put::Stay);
        }
        let mut written = Written {
            alloc: self.alloc,
            text: String::with_capacity(self.alloc, length.bytes)?,
        };
        if !write(self.alloc, e, MAX_LEVELS, &mut written)? {
            return Ok(Put::Enter);
        }
        Ok(Put::Become(parse_call(self.alloc, span, written.text)?))
    }

    /// What becomes of an expression.
    fn answer(&self, e: &Expr) -> Result<Put, AllocError>
        ensures { IfOk result (λ a. answer_of a ≡ quick self.now.min_cost Here (expr_tree e.now)) }
    {
        match literal_span(e) {
            Some(span) => self.parse(span, e),
            None => Ok(Put::Enter),
        }
    }
}

impl Puts for Literals {
    ghost State = { ℕ };

    ghost puts = { still quick };

    ghost state = { λ p. p.min_cost };

    #[inline(never)]
    fn expression(&mut self, _spot: Spot, e: &Expr) -> Result<Put, AllocError> {
        self.answer(e)
    }

    fn property(&mut self, _n: &Ident) -> Result<Put, AllocError> {
        Ok(Put::Enter)
    }

    fn open(&mut self, _scope: Scope<'_>) -> Result<(), AllocError> {
        Ok(())
    }

    fn close(&mut self) -> Result<(), AllocError> {
        Ok(())
    }

    fn declare(&mut self, _kind: VarDeclKind, _n: &VarDeclarator) -> Result<(), AllocError> {
        Ok(())
    }

    fn export(&mut self, _n: &mut ExportNamedSpecifier) -> Result<(), AllocError> {
        Ok(())
    }
}

/// What the pass walks: a module or a script.
trait Walked: Whole {
    /// Walks it. Fails where memory is refused.
    fn walk(&mut self, rules: &mut Literals) -> Result<(), AllocError>
        ensures { OnOk result (Self.tree self.new ≡ parsed rules.old.min_cost (Self.tree self.old)) };
}

impl Walked for Module {
    fn walk(&mut self, rules: &mut Literals) -> Result<(), AllocError> {
        let alloc = rules.alloc;
        put_module(alloc, rules, self)
    }
}

impl Walked for Script {
    fn walk(&mut self, rules: &mut Literals) -> Result<(), AllocError> {
        let alloc = rules.alloc;
        put_script(alloc, rules, self)
    }
}

/// A pass that replaces array and object literals that are JSON by calls of `JSON.parse`, where their texts are long enough.
#[derive(Drop)]
pub struct JsonParse {
    min_cost: usize,
    changed: bool,
}

/// Returns the pass that replaces literals whose texts have at least `min_cost` bytes. The greatest `usize` replaces none.
pub fn json_parse(min_cost: usize) -> JsonParse
    ensures min_cost { result.min_cost ≡ min_cost }
    ensures changed { ⟦<JsonParse as Repeated>⟧.is_changed result ≡ false }
{
    JsonParse {
        min_cost,
        changed: false,
    }
}

impl Default for JsonParse {
    /// The pass that replaces literals whose texts have at least 1024 bytes.
    fn default() -> JsonParse
        ensures { result ≡ record { min_cost = 1024; changed = false } }
    {
        json_parse(1024)
    }
}

impl Repeated for JsonParse {
    ghost is_changed = { λ p. p.changed };

    ghost resets_to = { λ p q. q.min_cost ≡ p.min_cost };

    fn changed(&self) -> bool {
        self.changed
    }

    fn reset(&mut self) {
        self.changed = false;
    }
}

impl JsonParse {
    /// What a walk makes of a copy. None: it is equal to the input up to spans.
    fn answer<W: Walked>(&mut self, alloc: Global, input: &W) -> Result<Option<W>, PassError>
        ensures min_cost { self.new.min_cost ≡ self.old.min_cost }
        ensures answer { IfOk result (λ o. WalkGives W.tree (parsed self.old.min_cost (W.tree input.now)) (W.tree input.now) o self.new.changed) }
        ensures refused { OnErr result (self.new.changed ≡ false) }
        ensures memory { IfErr result (λ e. e ≡ OutOfMemory) }
    {
        self.changed = false;
        let mut copy = input.copy()?;
        let mut rules = Literals {
            alloc,
            min_cost: self.min_cost,
        };
        copy.walk(&mut rules)?;
        if copy.is_same(input) {
            return Ok(None);
        }
        self.changed = true;
        Ok(Some(copy))
    }

    /// Runs the pass over a module and returns the result: the module itself where the pass changes nothing but spans. Fails if
    /// memory runs out; the pass can run again after that.
    pub fn fold_module(&mut self, alloc: Global, module: Module) -> Result<Module, PassError>
        ensures min_cost { self.new.min_cost ≡ self.old.min_cost }
        ensures answer { IfOk result (λ r. Parsed self.old.min_cost (module_tree «module») (module_tree r)) }
        ensures changed { IfOk result (λ r. TellsChange (⟦<JsonParse as Repeated>⟧.is_changed self.new) (module_tree «module») (module_tree r)) }
        ensures refused { OnErr result (⟦<JsonParse as Repeated>⟧.is_changed self.new ≡ false) }
        ensures memory { IfErr result (λ e. e ≡ OutOfMemory) }
    {
        match self.answer(alloc, &module)? {
            Some(answer) => Ok(answer),
            None => Ok(module),
        }
    }

    /// Runs the pass over a script and returns the result: the script itself where the pass changes nothing but spans. Fails if
    /// memory runs out; the pass can run again after that.
    pub fn fold_script(&mut self, alloc: Global, script: Script) -> Result<Script, PassError>
        ensures min_cost { self.new.min_cost ≡ self.old.min_cost }
        ensures answer { IfOk result (λ r. Parsed self.old.min_cost (script_tree script) (script_tree r)) }
        ensures changed { IfOk result (λ r. TellsChange (⟦<JsonParse as Repeated>⟧.is_changed self.new) (script_tree script) (script_tree r)) }
        ensures refused { OnErr result (⟦<JsonParse as Repeated>⟧.is_changed self.new ≡ false) }
        ensures memory { IfErr result (λ e. e ≡ OutOfMemory) }
    {
        match self.answer(alloc, &script)? {
            Some(answer) => Ok(answer),
            None => Ok(script),
        }
    }

    /// Runs the pass over a copy of a module and returns the result. Fails if memory runs out; the pass can run again after that.
    pub fn run(&mut self, alloc: Global, module: &Module) -> Result<Module, PassError>
        ensures min_cost { self.new.min_cost ≡ self.old.min_cost }
        ensures answer { IfOk result (λ r. Parsed self.old.min_cost (module_tree «module».now) (module_tree r)) }
        ensures changed { IfOk result (λ r. TellsChange (⟦<JsonParse as Repeated>⟧.is_changed self.new) (module_tree «module».now) (module_tree r)) }
        ensures refused { OnErr result (⟦<JsonParse as Repeated>⟧.is_changed self.new ≡ false) }
        ensures memory { IfErr result (λ e. e ≡ OutOfMemory) }
    {
        match self.answer(alloc, module)? {
            Some(answer) => Ok(answer),
            None => Ok(module.copy()?),
        }
    }

    /// Runs the pass over a copy of a script and returns the result. Fails if memory runs out; the pass can run again after that.
    pub fn run_script(&mut self, alloc: Global, script: &Script) -> Result<Script, PassError>
        ensures min_cost { self.new.min_cost ≡ self.old.min_cost }
        ensures answer { IfOk result (λ r. Parsed self.old.min_cost (script_tree script.now) (script_tree r)) }
        ensures changed { IfOk result (λ r. TellsChange (⟦<JsonParse as Repeated>⟧.is_changed self.new) (script_tree script.now) (script_tree r)) }
        ensures refused { OnErr result (⟦<JsonParse as Repeated>⟧.is_changed self.new ≡ false) }
        ensures memory { IfErr result (λ e. e ≡ OutOfMemory) }
    {
        match self.answer(alloc, script)? {
            Some(answer) => Ok(answer),
            None => Ok(script.copy()?),
        }
    }
}
