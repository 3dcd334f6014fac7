//! Expressions that are names.
ghost use Rattle.std.specs.Prelude.{◌≡◌, false, IfSome, IsNone};
ghost use Rattle.swc_ast.specs.Expressions.{is_eval as is_eval_name};
ghost use Rattle.swc_ast.specs.Parts.{ident_name, ident_tree};
ghost use Rattle.swc_ast.specs.Views.{expr_tree};
ghost use Rattle.carry_parts.specs.Carries.{is_read_tree};

use swc_ast::{Expr, Ident};

/// The name that an expression is.
#[tactic(auto, using(swc_ast::proofs::Equations::forms))]
pub fn name_of<'a>(e: &'a Expr) -> Option<&'a Ident>
    ensures name { IfSome result (λ n. expr_tree e.now ≡ ident_tree n.now) }
    ensures other { IsNone result → is_read_tree (expr_tree e.now) ≡ false }
{
    match e {
        Expr::Ident(n) => Some(n),
        Expr::Member(_) => None,
        Expr::Unary(_) => None,
        Expr::Call(_) => None,
        Expr::Update(_) => None,
        Expr::Assign(_) => None,
        Expr::Lit(_) => None,
        Expr::This(_)
        | Expr::Array(_)
        | Expr::Object(_)
        | Expr::Fn(_)
        | Expr::Bin(_)
        | Expr::Cond(_)
        | Expr::New(_)
        | Expr::Seq(_)
        | Expr::Tpl(_)
        | Expr::Arrow(_)
        | Expr::Invalid(_) => None,
    }
}

/// Whether a name is that of direct calls of `eval`.
pub fn is_eval(name: &Ident) -> bool
    ensures { result ≡ is_eval_name (ident_name name.now) }
{
    name.sym.as_str() == "eval"
}
