//! The library in one program: reads a module, propagates constants and names, folds expressions, and prints the result.
#![tactic(auto)]

use anyhow::Result;
use std::io;
use swc_ast::Mark;
use swc_expr::expr_simplifier;
use swc_inlining::inlining;
use swc_pass::{Chain, Pass};
use swc_text::{print, read_module};

fn main(rt: HostRuntime) -> Result<()> {
    let alloc = rt.alloc();
    let text = io::read_to_string(alloc, rt.stdin())?;
    let mark = Mark::new(1).unwrap();
    let module = read_module(alloc, text.as_str(), mark)?;
    let mut pass = Chain::new(
        inlining(swc_inlining::Config {}),
        expr_simplifier(mark, swc_expr::Config {}),
    );
    let simpler = pass.fold_module(alloc, module)?;
    let text = print(alloc, &simpler)?;
    print!(rt; "{text}")?;
    Ok(())
}
