//! What is given for names, for chains of members, for members of `process.env` and for types of names.
use anyhow::{Context, bail};
use std::alloc::Global;
use std::collections::BTreeMap;
use swc_ast::{Expr, Mark};
use swc_expr_map::GlobalExprMap;
use swc_inline_globals::{InlineGlobals, inline_globals2};
use swc_text::read_expr;

/// What is given.
#[derive(Drop)]
pub struct Globals {
    envs: BTreeMap<String, Expr>,
    names: BTreeMap<String, Expr>,
    chains: GlobalExprMap,
    types: BTreeMap<String, String>,
}

impl Globals {
    /// What words give: `NAME=EXPRESSION`, `chain:CHAIN=EXPRESSION`, `env:NAME=EXPRESSION` and `typeof:NAME=TEXT`.
    pub fn parse(alloc: Global, given: &[String], mark: Mark) -> anyhow::Result<Globals> {
        let mut globals = Globals {
            envs: BTreeMap::new(alloc),
            names: BTreeMap::new(alloc),
            chains: GlobalExprMap::new(alloc),
            types: BTreeMap::new(alloc),
        };
        globals.read(alloc, given, mark)?;
        Ok(globals)
    }

    fn read(&mut self, alloc: Global, given: &[String], mark: Mark) -> anyhow::Result<()> {
        for word in given {
            let (key, text) = word.as_str().split_once('=').context("a value")?;
            let (kind, name) = key.split_once(':').unwrap_or(("", key));
            self.add(alloc, kind, name, text, mark)?;
        }
        Ok(())
    }

    fn add(
        &mut self,
        alloc: Global,
        kind: &str,
        key: &str,
        text: &str,
        mark: Mark,
    ) -> anyhow::Result<()> {
        match kind {
            "" => add_to(alloc, &mut self.names, key, text, mark),
            "env" => add_to(alloc, &mut self.envs, key, text, mark),
            "chain" => self.add_chain(alloc, key, text, mark),
            "typeof" => {
                let name = String::from_str(alloc, key)?;
                self.types.insert(name, String::from_str(alloc, text)?)?;
                Ok(())
            }
            _ => bail!("nothing is given for {kind}"),
        }
    }

    fn add_chain(
        &mut self,
        alloc: Global,
        chain: &str,
        text: &str,
        mark: Mark,
    ) -> anyhow::Result<()> {
        let chain = read_expr(alloc, chain, mark)?;
        self.chains.insert(chain, read_expr(alloc, text, mark)?)?;
        Ok(())
    }

    /// The pass that puts what is given.
    pub fn pass(&self, mark: Mark) -> InlineGlobals<'_> {
        inline_globals2(&self.envs, &self.names, &self.chains, &self.types).with_mark(mark)
    }
}

/// Gives a name the expression of a text.
fn add_to(
    alloc: Global,
    values: &mut BTreeMap<String, Expr>,
    name: &str,
    text: &str,
    mark: Mark,
) -> anyhow::Result<()> {
    let name = String::from_str(alloc, name)?;
    values.insert(name, read_expr(alloc, text, mark)?)?;
    Ok(())
}
