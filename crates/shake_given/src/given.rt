//! What flags give, read.
ghost use Rattle.std.specs.Prelude.{IfOk, IfErr, OnOk, map};
ghost use Rattle.swc_ast.specs.Views.{expr_tree};
ghost use Rattle.shake_options.specs.Flags.{flag_texts};
ghost use Rattle.shake_given.specs.Reads.{IsNothing, Defines, SetsEnv, SetsType, SetsExport, Exports, Takes, Reads};
ghost use Rattle.shake_options.specs.Flags.{defined, a_const};
ghost use Rattle.shake_given.specs.Refusals.{Refuses, FlagRefused};

use crate::error::GivenError;
use crate::key::Key;
use const_imports::GivenModules;
use shake_options::Flag;
use std::alloc::{AllocError, Global};
use std::collections::BTreeMap;
use swc_ast::{DUMMY_SP, Expr, Lit, Mark, Str};
use swc_expr_map::GlobalExprMap;

/// What is given for names and members.
#[derive(Drop)]
pub struct GivenNames {
    /// Values of names and chains of members.
    pub exprs: GlobalExprMap,
    /// Texts of members of `process.env`, as literals.
    pub envs: BTreeMap<String, Expr>,
    /// What `typeof` gives of names.
    pub typeofs: BTreeMap<String, String>,
}

/// What is given.
#[derive(Drop)]
pub struct Given {
    pub names: GivenNames,
    /// Values of the exports of modules.
    pub modules: GivenModules<Expr>,
}

impl Given {
    /// Nothing is given.
    pub fn new(alloc: Global) -> Given
        ensures { IsNothing result }
    {
        Given {
            names: GivenNames {
                exprs: GlobalExprMap::new(alloc),
                envs: BTreeMap::new(alloc),
                typeofs: BTreeMap::new(alloc),
            },
            modules: GivenModules {
                modules: BTreeMap::new(alloc),
            },
        }
    }

    /// What flags give: of those with the same key the last one counts. Fails at the first flag that can't be given, which is
    /// told by its key: with `Unreadable` where the reader refuses the key of a `Define`, or the value of a `Define` or a `Const`,
    /// with `NoChain` where such a key is read as no name and no chain, and with `Unfit` where such a value is read, but may not
    /// be given. Fails with `OutOfMemory` where memory is refused, and at no `Env` and no `TypeOf` for another reason.
    pub fn read(alloc: Global, flags: &[Flag<'_>], mark: Mark) -> Result<Given, GivenError>
        ensures reads { IfOk result (Reads mark (map flag_texts flags.now)) }
        ensures refused { IfErr result (FlagRefused (map flag_texts flags.now) mark) }
    {
        let mut given = Given::new(alloc);
        for flag in flags {
            given.take(alloc, *flag, mark)?;
        }
        Ok(given)
    }

    fn take(&mut self, alloc: Global, flag: Flag<'_>, mark: Mark) -> Result<(), GivenError>
        ensures takes { OnOk result (Takes (flag_texts flag.entry) mark self.old self.new) }
        ensures refused { IfErr result (Refuses (flag_texts flag.entry) mark) }
    {
        match flag {
            Flag::Define { key, value } => self.define(alloc, key, value, mark),
            Flag::Env { key, text } => Ok(self.set_env(alloc, key, text)?),
            Flag::TypeOf { name, text } => Ok(self.set_type(alloc, name, text)?),
            Flag::Const {
                module,
                name,
                value,
            } => self.export(alloc, module, name, value, mark),
        }
    }

    fn define(
        &mut self,
        alloc: Global,
        key: &str,
        value: &str,
        mark: Mark,
    ) -> Result<(), GivenError>
        ensures defines { OnOk result (Defines key.now value.now mark self.old self.new) }
        ensures refused { IfErr result (Refuses (defined key.now value.now) mark) }
    {
        let key = Key {
            module: None,
            name: key,
        };
        let chain = key.chain(alloc, mark)?;
        let value = key.value(alloc, value, mark)?;
        Ok(self.names.exprs.insert(chain, value)?)
    }

    fn set_env(&mut self, alloc: Global, key: &str, text: &str) -> Result<(), AllocError>
        ensures { OnOk result (SetsEnv key.now text.now self.old self.new) }
    {
        let value = Expr::Lit(Lit::Str(Str {
            span: DUMMY_SP,
            value: String::from_str(alloc, text)?,
        }));
        let key = String::from_str(alloc, key)?;
        self.names.envs.insert(key, value)?;
        Ok(())
    }

    fn set_type(&mut self, alloc: Global, name: &str, text: &str) -> Result<(), AllocError>
        ensures { OnOk result (SetsType name.now text.now self.old self.new) }
    {
        let text = String::from_str(alloc, text)?;
        let name = String::from_str(alloc, name)?;
        self.names.typeofs.insert(name, text)?;
        Ok(())
    }

    fn export(
        &mut self,
        alloc: Global,
        source: &str,
        name: &str,
        value: &str,
        mark: Mark,
    ) -> Result<(), GivenError>
        ensures exports { OnOk result (Exports source.now name.now value.now mark self.old self.new) }
        ensures refused { IfErr result (Refuses (a_const source.now name.now value.now) mark) }
    {
        let key = Key {
            module: Some(source),
            name,
        };
        let value = key.value(alloc, value, mark)?;
        Ok(self.set_export(alloc, source, name, value)?)
    }

    fn set_export(
        &mut self,
        alloc: Global,
        source: &str,
        name: &str,
        value: Expr,
    ) -> Result<(), AllocError>
        ensures { OnOk result (SetsExport source.now name.now (expr_tree value) self.old self.new) }
    {
        let mut exports = match self.modules.modules.remove(source) {
            Some(exports) => exports,
            None => BTreeMap::new(alloc),
        };
        let name = String::from_str(alloc, name)?;
        exports.insert(name, value)?;
        let source = String::from_str(alloc, source)?;
        self.modules.modules.insert(source, exports)?;
        Ok(())
    }
}
