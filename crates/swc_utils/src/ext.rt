//! What is known of an expression, as methods of it.
ghost use Rattle.std.specs.Prelude.{◌≡◌, not, true, false, IfOk, IfErr, string_bytes};
ghost use Rattle.swc_ast.specs.Tree.{Tree};
ghost use Rattle.swc_ast.specs.Value.{Undefined, NaN};
ghost use Rattle.swc_ast.specs.Views.{expr_tree};
ghost use Rattle.swc_utils.specs.Globals as globals;
ghost use Rattle.swc_utils.specs.Globals.{unresolved, directness_matters};
ghost use Rattle.swc_utils.specs.Pure as pure;
ghost use Rattle.swc_utils.specs.Pure.{pure};
ghost use Rattle.swc_utils.specs.Known.{truth, pure_truth, number, text};
ghost use Rattle.swc_utils.specs.Types.{type_of};
ghost use Rattle.swc_utils.specs.Holds.{Is, HasTruth, HasNumber, HasText, HasType};
ghost use Rattle.swc_utils.specs.Sound.{Always, NoEffect, purity, known, IfKnown, numeric, known_number, known_text};
ghost use Rattle.swc_utils.specs.declared.answers.Purity.TheVariants.{Pure};
ghost use Rattle.swc_ast.specs.declared.errors.PassError.TheVariants.{OutOfMemory};

use crate::answers::{Purity, Value, ValueType};
use crate::context::ExprCtx;
use crate::{globals, purity, texts, types, values};
use std::alloc::Global;
use swc_ast::{Expr, PassError};

/// Questions about an expression that are answered without running it. Each answer is a function of the expression's tree, and
/// holds in every run of it that stays in the core.
pub trait ExprExt {
    ghost tree: { Self → Tree };

    /// Whether the expression is the unresolved name of a text.
    fn is_global_ref_to(&self, ctx: &ExprCtx, text: &str) -> bool
        ensures { result ≡ globals.is_global_ref_to (unresolved ctx.now) text.now (tree self.now) };

    /// Whether the expression is the unresolved `undefined`, which is undefined in each world (ECMA-262, 19.1.4).
    fn is_undefined(&self, ctx: &ExprCtx) -> bool
        ensures answer { result ≡ globals.is_undefined (unresolved ctx.now) (tree self.now) }
        ensures sound { result ≡ true → Always (unresolved ctx.now) (tree self.now) (Is Undefined) };

    /// Whether the expression is the unresolved `NaN`, which is NaN in each world (ECMA-262, 19.1.3).
    fn is_nan(&self, ctx: &ExprCtx) -> bool
        ensures answer { result ≡ globals.is_nan (unresolved ctx.now) (tree self.now) }
        ensures sound { result ≡ true → Always (unresolved ctx.now) (tree self.now) (Is NaN) };

    /// Whether the expression means something else where it is called than where it is read: a member hands on its
    /// object, and a call by the name `eval` is direct (ECMA-262, 13.3.6.1).
    fn directness_maters(&self, ctx: &ExprCtx) -> bool
        ensures { result ≡ directness_matters (unresolved ctx.now) (tree self.now) };

    /// Whether a call of the expression does nothing: a function without a name or an arrow, without parameters and
    /// with an empty block.
    fn is_pure_callee(&self, ctx: &ExprCtx) -> bool
        ensures { result ≡ pure.is_pure_callee (tree self.now) };

    /// Whether a run of the expression may be noticed by more than its value. Where it may not, a run writes no binding,
    /// makes no event and throws nothing.
    fn may_have_side_effects(&self, ctx: &ExprCtx) -> bool
        ensures answer { result ≡ not (pure (unresolved ctx.now) (tree self.now)) }
        ensures sound { result ≡ false → NoEffect (unresolved ctx.now) (tree self.now) };

    /// Whether the expression is pure, and the truth of its value (ECMA-262, 7.1.2), where it is known. A run of an
    /// expression that isn't pure may do something before it gives that value.
    fn cast_to_bool(&self, ctx: &ExprCtx) -> (Purity, Value<bool>)
        ensures purity { result.0 ≡ purity (pure (unresolved ctx.now) (tree self.now)) }
        ensures truth { known result.1 ≡ truth (unresolved ctx.now) (tree self.now) }
        ensures no_effect { result.0 ≡ Pure → NoEffect (unresolved ctx.now) (tree self.now) }
        ensures sound { IfKnown result.1 (λ b. Always (unresolved ctx.now) (tree self.now) (HasTruth b)) };

    /// The truth of the expression's value, where it is known and the expression is pure.
    fn as_pure_bool(&self, ctx: &ExprCtx) -> Value<bool>
        ensures answer { known result ≡ pure_truth (unresolved ctx.now) (tree self.now) }
        ensures sound { IfKnown result (λ b. NoEffect (unresolved ctx.now) (tree self.now) × Always (unresolved ctx.now) (tree self.now) (HasTruth b)) };

    /// The number of the expression's value (ECMA-262, 7.1.4), where it is known and the expression is pure. None is
    /// NaN.
    fn as_pure_number(&self, ctx: &ExprCtx) -> Value<Option<i64>>
        ensures answer { known_number result ≡ number (unresolved ctx.now) (tree self.now) }
        ensures sound { IfKnown result (λ k. NoEffect (unresolved ctx.now) (tree self.now) × Always (unresolved ctx.now) (tree self.now) (HasNumber (numeric k))) };

    /// The text of the expression's value (ECMA-262, 7.1.17), where it is known and the expression is pure. Refuses
    /// where memory for the text is refused.
    fn as_pure_string(&self, alloc: Global, ctx: &ExprCtx) -> Result<Value<String>, PassError>
        ensures answer { IfOk result (λ r. known_text r ≡ text (unresolved ctx.now) (tree self.now)) }
        ensures sound { IfOk result (λ r. IfKnown r (λ s. NoEffect (unresolved ctx.now) (tree self.now) × Always (unresolved ctx.now) (tree self.now) (HasText (string_bytes s)))) }
        ensures memory { IfErr result (λ e. e ≡ OutOfMemory) };

    /// The type of the expression's value, where it is known.
    fn get_type(&self, ctx: &ExprCtx) -> Value<ValueType>
        ensures answer { known result ≡ type_of (unresolved ctx.now) (tree self.now) }
        ensures sound { IfKnown result (λ τ. Always (unresolved ctx.now) (tree self.now) (HasType τ)) };
}

impl ExprExt for Expr {
    ghost tree = { λ e. expr_tree e };

    fn is_global_ref_to(&self, ctx: &ExprCtx, text: &str) -> bool {
        globals::is_global(*ctx, self, text)
    }

    #[tactic(auto, using(crate::proofs::Sound::undefined_sound))]
    fn is_undefined(&self, ctx: &ExprCtx) -> bool {
        globals::is_global(*ctx, self, "undefined")
    }

    #[tactic(auto, using(crate::proofs::Sound::nan_sound))]
    fn is_nan(&self, ctx: &ExprCtx) -> bool {
        globals::is_global(*ctx, self, "NaN")
    }

    fn directness_maters(&self, ctx: &ExprCtx) -> bool {
        globals::directness_matters(*ctx, self)
    }

    fn is_pure_callee(&self, _ctx: &ExprCtx) -> bool {
        purity::is_pure_callee(self)
    }

    #[tactic(auto, using(crate::proofs::Sound::pure_sound))]
    fn may_have_side_effects(&self, ctx: &ExprCtx) -> bool {
        !purity::is_pure(*ctx, self)
    }

    #[tactic(auto, using(crate::proofs::Sound::purity_known, crate::proofs::Sound::truth_known))]
    fn cast_to_bool(&self, ctx: &ExprCtx) -> (Purity, Value<bool>) {
        (purity::purity_of(*ctx, self), values::truth_of(*ctx, self))
    }

    #[tactic(auto, using(crate::proofs::Sound::pure_truth_known))]
    fn as_pure_bool(&self, ctx: &ExprCtx) -> Value<bool> {
        values::pure_truth_of(*ctx, self)
    }

    #[tactic(auto, using(crate::proofs::Sound::number_known))]
    fn as_pure_number(&self, ctx: &ExprCtx) -> Value<Option<i64>> {
        values::number_of(*ctx, self)
    }

    #[tactic(auto, using(crate::proofs::Sound::text_known))]
    fn as_pure_string(&self, alloc: Global, ctx: &ExprCtx) -> Result<Value<String>, PassError> {
        let text = texts::text_of(alloc, *ctx, self)?;
        Ok(text)
    }

    #[tactic(auto, using(crate::proofs::Sound::type_known))]
    fn get_type(&self, ctx: &ExprCtx) -> Value<ValueType> {
        types::type_of(*ctx, self)
    }
}
