//! The values of given modules, read from texts.
ghost use Rattle.std.specs.Prelude.{◌≡◌, ◌⊎◌, false, IfOk, IfErr};
ghost use Rattle.swc_ast.specs.declared.errors.PassError.TheVariants.{OutOfMemory};
ghost use Rattle.swc_ast.specs.Marks.{mark_number};
ghost use Rattle.swc_ast.specs.Views.{expr_tree};
ghost use Rattle.swc_const_modules.specs.Texts.{Names, NamesOne, IsUnreadable, SameExports, GivesAll, IsValue, AreValues, AllAreValues};

use const_imports::GivenModules;
use const_pass::ConstModules;
use std::alloc::{AllocError, Global};
use std::collections::BTreeMap;
use swc_ast::{Expr, Mark, PassError};
use swc_pass::Repeated;
use swc_text::{ReadError, read_value};

/// Where reading a text failed: the offset in bytes, or the text's length where no place is told.
fn offset(fault: ReadError, text: &str) -> u32 {
    match fault {
        ReadError::Syntax { at }
        | ReadError::OutOfCore { at, what: _ }
        | ReadError::NumberRange { at } => at,
        ReadError::TooDeep | ReadError::TooLong | ReadError::OutOfMemory => {
            u32::try_from(text.len()).unwrap_or(u32::MAX)
        }
    }
}

/// The refusal that names an export of a module, whose text can't be read. Fails where memory is refused.
fn named(alloc: Global, source: &str, name: &str, at: u32) -> Result<PassError, AllocError>
    ensures { IfOk result (λ e. Names source.now name.now e) }
{
    Ok(PassError::UnreadableValue {
        module: String::from_str(alloc, source)?,
        export: String::from_str(alloc, name)?,
        at,
    })
}

/// The refusal of a text that can't be read, or of memory.
fn refusal(alloc: Global, source: &str, name: &str, text: &str, fault: ReadError) -> PassError
    ensures { (result ≡ OutOfMemory) ⊎ Names source.now name.now result }
{
    if fault == ReadError::OutOfMemory {
        return PassError::OutOfMemory;
    }
    match named(alloc, source, name, offset(fault, text)) {
        Ok(refusal) => refusal,
        Err(_) => PassError::OutOfMemory,
    }
}

/// The value of an export. It refuses a text that is no expression, and where memory runs out.
fn read_export(
    alloc: Global,
    source: &str,
    name: &str,
    text: &str,
    mark: Mark,
) -> Result<Expr, PassError>
    ensures named { IfErr result (λ e. (e ≡ OutOfMemory) ⊎ Names source.now name.now e) }
    ensures value { IfOk result (λ e. IsValue (mark_number mark) (expr_tree e)) }
{
    match read_value(alloc, text, mark) {
        Ok(value) => Ok(value),
        Err(fault) => Err(refusal(alloc, source, name, text, fault)),
    }
}

/// The values of the exports of a module. It refuses a text that is no expression, and where memory runs out.
fn read_exports(
    alloc: Global,
    source: &str,
    texts: &BTreeMap<String, String>,
    mark: Mark,
) -> Result<BTreeMap<String, Expr>, PassError>
    ensures named { IfErr result (λ e. (e ≡ OutOfMemory) ⊎ NamesOne source.now texts.now e) }
    ensures exports { IfOk result (λ r. SameExports texts.now r) }
    ensures values { IfOk result (λ r. AreValues (mark_number mark) r) }
{
    let mut values = BTreeMap::new(alloc);
    for (name, text) in texts {
        let value = match read_export(alloc, source, name.as_str(), text.as_str(), mark) {
            Ok(value) => value,
            Err(refusal) => return Err(refusal),
        };
        values.insert(name.clone()?, value)?;
    }
    Ok(values)
}

/// The values of all modules. It refuses a text that is no expression, and where memory runs out.
fn read_modules(
    alloc: Global,
    globals: &BTreeMap<String, BTreeMap<String, String>>,
    mark: Mark,
) -> Result<GivenModules<Expr>, PassError>
    ensures named { IfErr result (λ e. (e ≡ OutOfMemory) ⊎ IsUnreadable globals.now e) }
    ensures given { IfOk result (λ r. GivesAll globals.now r) }
    ensures values { IfOk result (λ r. AllAreValues (mark_number mark) r) }
{
    let mut modules = BTreeMap::new(alloc);
    for (source, texts) in globals {
        let values = match read_exports(alloc, source.as_str(), texts, mark) {
            Ok(values) => values,
            Err(refusal) => return Err(refusal),
        };
        modules.insert(source.clone()?, values)?;
    }
    Ok(GivenModules { modules })
}

/// Returns the pass that replaces imports of given modules. For each module the texts of its exports are given, by their names.
/// Each text is read as an expression, which is valid, resolved under the mark of unresolved names and in the core. Fails with the first value, in the order of modules
/// and then of names, that can't be read, and if memory runs out.
pub fn const_modules(
    alloc: Global,
    globals: &BTreeMap<String, BTreeMap<String, String>>,
    unresolved_mark: Mark,
) -> Result<ConstModules, PassError>
    ensures named { IfErr result (λ e. (e ≡ OutOfMemory) ⊎ IsUnreadable globals.now e) }
    ensures given { IfOk result (λ r. GivesAll globals.now r.given) }
    ensures values { IfOk result (λ r. AllAreValues (mark_number unresolved_mark) r.given) }
    ensures changed { IfOk result (λ r. ⟦<ConstModules as Repeated>⟧.is_changed r ≡ false) }
{
    let given = read_modules(alloc, globals, unresolved_mark)?;
    Ok(ConstModules::new(given))
}
