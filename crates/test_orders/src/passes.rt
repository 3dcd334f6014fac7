//! The passes that texts are given to.
use anyhow::bail;
use std::alloc::Global;
use swc_ast::{Mark, Module, PassError, Script};
use swc_branch::{Remover, dead_branch_remover};
use swc_const_modules::ConstModules;
use swc_const_propagation::{ConstPropagation, constant_propagation};
use swc_dce::{TreeShaker, dce};
use swc_expr::{SimplifyExpr, expr_simplifier};
use swc_inlining::{Inlining, inlining};
use swc_optimization::{Config, Simplifier, simplifier};
use swc_pass::{Pass, Repeated};
use test_answers::TextPass;

/// A pass, or nothing but the printer.
#[derive(Drop)]
pub enum AnyPass {
    Print,
    Expr(SimplifyExpr),
    Branch(Remover),
    Dce(TreeShaker),
    Simplify(Simplifier),
    Const(ConstPropagation),
    Inline(Inlining),
    Imports(ConstModules),
}

impl AnyPass {
    /// The pass of a name.
    pub fn parse(name: &str, mark: Mark, config: Config) -> anyhow::Result<AnyPass> {
        Ok(match name {
            "print" => AnyPass::Print,
            "expr" => AnyPass::Expr(expr_simplifier(mark, config.expr)),
            "branch" => AnyPass::Branch(dead_branch_remover(mark)),
            "dce" => AnyPass::Dce(dce(config.dce, mark)),
            "simplify" => AnyPass::Simplify(simplifier(mark, config)),
            "const" => AnyPass::Const(constant_propagation()),
            "inline" => AnyPass::Inline(inlining(config.inlining)),
            _ => bail!("{name} is no order"),
        })
    }
}

impl TextPass for AnyPass {
    fn run(&mut self, alloc: Global, module: &Module) -> Result<Module, PassError> {
        match self {
            AnyPass::Print => Ok(module.clone()?),
            AnyPass::Expr(pass) => pass.run(alloc, module),
            AnyPass::Branch(pass) => pass.run(alloc, module),
            AnyPass::Dce(pass) => pass.run(alloc, module),
            AnyPass::Simplify(pass) => pass.run(alloc, module),
            AnyPass::Const(pass) => pass.run(alloc, module),
            AnyPass::Inline(pass) => pass.run(alloc, module),
            AnyPass::Imports(pass) => pass.run(alloc, module),
        }
    }

    fn run_script(&mut self, alloc: Global, script: &Script) -> Result<Script, PassError> {
        match self {
            AnyPass::Print => Ok(script.clone()?),
            AnyPass::Expr(pass) => pass.run_script(alloc, script),
            AnyPass::Branch(pass) => pass.run_script(alloc, script),
            AnyPass::Dce(pass) => pass.run_script(alloc, script),
            AnyPass::Simplify(pass) => pass.run_script(alloc, script),
            AnyPass::Const(pass) => pass.run_script(alloc, script),
            AnyPass::Inline(pass) => pass.run_script(alloc, script),
            AnyPass::Imports(pass) => pass.run_script(alloc, script),
        }
    }

    fn changed(&self) -> bool {
        match self {
            AnyPass::Print => false,
            AnyPass::Expr(pass) => pass.changed(),
            AnyPass::Branch(pass) => pass.changed(),
            AnyPass::Dce(pass) => pass.changed(),
            AnyPass::Simplify(pass) => pass.changed(),
            AnyPass::Const(pass) => pass.changed(),
            AnyPass::Inline(pass) => pass.changed(),
            AnyPass::Imports(pass) => pass.changed(),
        }
    }

    fn rounds(&self) -> Option<(usize, bool)> {
        match self {
            AnyPass::Simplify(pass) => Some((pass.rounds(), pass.reached())),
            _ => None,
        }
    }

    fn is_printer(&self) -> bool {
        matches!(self, AnyPass::Print)
    }
}
