//! The answers that are methods.
ghost use Rattle.swc_ast.specs.Views.{expr_tree};

use std::alloc::Global;
use swc_ast::{Expr, PassError};
use swc_utils::{ExprCtx, ExprExt, Purity, Value, ValueType};

/// An expression that is asked about. Its contracts are those of the trait.
pub struct Asked(pub Expr);

impl ExprExt for Asked {
    ghost tree = { λ a. expr_tree a.0 };

    fn is_global_ref_to(&self, ctx: &ExprCtx, text: &str) -> bool {
        self.0.is_global_ref_to(ctx, text)
    }

    fn is_undefined(&self, ctx: &ExprCtx) -> bool {
        self.0.is_undefined(ctx)
    }

    fn is_nan(&self, ctx: &ExprCtx) -> bool {
        self.0.is_nan(ctx)
    }

    fn directness_maters(&self, ctx: &ExprCtx) -> bool {
        self.0.directness_maters(ctx)
    }

    fn is_pure_callee(&self, ctx: &ExprCtx) -> bool {
        self.0.is_pure_callee(ctx)
    }

    fn may_have_side_effects(&self, ctx: &ExprCtx) -> bool {
        self.0.may_have_side_effects(ctx)
    }

    fn cast_to_bool(&self, ctx: &ExprCtx) -> (Purity, Value<bool>) {
        self.0.cast_to_bool(ctx)
    }

    fn as_pure_bool(&self, ctx: &ExprCtx) -> Value<bool> {
        self.0.as_pure_bool(ctx)
    }

    fn as_pure_number(&self, ctx: &ExprCtx) -> Value<Option<i64>> {
        self.0.as_pure_number(ctx)
    }

    fn as_pure_string(&self, alloc: Global, ctx: &ExprCtx) -> Result<Value<String>, PassError> {
        self.0.as_pure_string(alloc, ctx)
    }

    fn get_type(&self, ctx: &ExprCtx) -> Value<ValueType> {
        self.0.get_type(ctx)
    }
}
