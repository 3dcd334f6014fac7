//! What is given for imports.
use anyhow::bail;
use shake_options::Flag;
use std::alloc::Global;
use std::collections::BTreeMap;

/// The texts of the exports of modules, by the names of modules and of exports.
pub type Exports = BTreeMap<String, BTreeMap<String, String>>;

/// What words give, each `MODULE:NAME=TEXT`.
pub fn exports(alloc: Global, given: &[String]) -> anyhow::Result<Exports> {
    let mut exports = BTreeMap::new(alloc);
    read(alloc, &mut exports, given)?;
    Ok(exports)
}

fn read(alloc: Global, exports: &mut Exports, given: &[String]) -> anyhow::Result<()> {
    for word in given {
        match Flag::of("--const", word.as_str()) {
            Some(
                Flag::Const {
                    module,
                    name,
                    value,
                },
            ) => add(alloc, exports, module, name, value)?,
            _ => bail!("{word} gives no export"),
        }
    }
    Ok(())
}

fn add(
    alloc: Global,
    exports: &mut Exports,
    module: &str,
    name: &str,
    text: &str,
) -> anyhow::Result<()> {
    let module = String::from_str(alloc, module)?;
    let texts = exports.entry(module)?.or_insert(BTreeMap::new(alloc));
    texts.insert(
        String::from_str(alloc, name)?,
        String::from_str(alloc, text)?,
    )?;
    Ok(())
}
