//! The core text that stands for a unit.
use crate::around::Around;
use crate::error::WholeError;
use crate::names::Fresh;
use crate::words::{begins_with, behind, is_function};
use std::alloc::{AllocError, Global};
use std::collections::HashSet;
use text_outline::{Declaration, DeclaredAs, Jump, JumpSort, Outline, Sort, Tight, Unit};

/// How what a unit declares is exported.
#[derive(Clone, Copy, Debug, PartialEq, Eq)]
pub(crate) enum Exported {
    No,
    Named,
    Default,
}

/// The form of the text that stands for a unit.
#[derive(Clone, Copy, Debug, PartialEq, Eq)]
pub(crate) enum Shape {
    /// a number in plain decimal
    Number,
    /// spaces, for a `#!` line
    Spaces,
    /// a call; whether the unit is called in turn
    Call { is_called: bool },
    /// `function () { return k(); }`
    Function,
    /// `() => k()`
    Arrow,
    /// `import .. from "k";`
    Import,
    /// `function f() { return k(); }`, also `export function` or `export default function`
    NamedFunction(Exported),
    /// `export default k();`
    DefaultValue,
    /// `let a = k(), b = j();`, also `export let` or with `export { a as default };` behind it
    Values(Exported),
    /// `k();`, also in a block behind `var a;`
    Statement,
    /// `{ if (k()) return j(); else if (j()) break; }`
    Jumps,
}

/// What is known of a unit that is enclosed.
#[derive(Clone, Copy, Debug)]
pub(crate) struct Enclosed {
    pub(crate) shape: Shape,
    /// where the text begins that is left out: with the labels in front that the unit alone jumps to
    pub(crate) start: u32,
}

/// What stands for a unit.
#[derive(Drop)]
pub(crate) struct StandIn {
    pub(crate) shape: Shape,
    pub(crate) text: String,
}

/// Whether core text can have a name: one past ASCII stands in units alone.
fn is_core(name: &str) -> bool {
    name.is_ascii()
}

/// The names that core text can have, sorted, each once.
pub(crate) fn sorted<'b>(
    alloc: Global,
    outline: &'b Outline<'_>,
    names: &[u32],
) -> Result<Vec<&'b str>, AllocError> {
    let mut texts: Vec<&str> = Vec::new(alloc);
    for name in names {
        let text = outline.text(*name);
        if is_core(text) {
            texts.push(text)?;
        }
    }
    texts.sort()?;
    texts.dedup();
    Ok(texts)
}

/// What a unit declares, by names that core text can have.
pub(crate) fn declared(
    alloc: Global,
    outline: &Outline<'_>,
    unit: Unit,
) -> Result<Vec<Declaration>, AllocError> {
    let mut kept = Vec::new(alloc);
    for declaration in outline.declared(unit) {
        if is_core(outline.text(declaration.name)) {
            kept.push(*declaration)?;
        }
    }
    Ok(kept)
}

/// A text in the making, for one unit.
#[derive(Drop)]
struct Writer<'b, 'a> {
    alloc: Global,
    outline: &'b Outline<'a>,
    fresh: &'b Fresh,
    unit: Unit,
    number: usize,
    declared: &'b [Declaration],
    out: String,
}

impl<'b, 'a> Writer<'b, 'a> {
    fn push(&mut self, text: &str) -> Result<(), AllocError> {
        self.out.push_str(text)
    }

    fn push_number(&mut self) -> Result<(), AllocError> {
        let number = format!(in self.alloc; "{}", self.number)?;
        self.out.push_str(number.as_str())
    }

    /// The names that the unit is shown to write.
    fn written(&self) -> &'b [u32] {
        if self.fresh.pinned {
            self.outline.mentions(self.unit)
        } else {
            self.outline.writes(self.unit)
        }
    }

    /// `k(() => a, v => a = v)`
    fn push_call(&mut self) -> Result<(), AllocError> {
        self.push(self.fresh.unit.as_str())?;
        self.push_number()?;
        self.push("(")?;
        let mut is_first = true;
        for name in &sorted(self.alloc, self.outline, self.outline.mentions(self.unit))? {
            self.push_comma(is_first)?;
            is_first = false;
            self.push("() => ")?;
            self.push(*name)?;
        }
        self.push_sets(is_first)?;
        self.push(")")
    }

    fn push_sets(&mut self, is_first: bool) -> Result<(), AllocError> {
        let mut is_first = is_first;
        let mut written = HashSet::new(self.alloc);
        for name in &sorted(self.alloc, self.outline, self.written())? {
            if *name == "this" {
                continue;
            }
            written.insert(*name)?;
            self.push_comma(is_first)?;
            is_first = false;
            self.push_set(*name)?;
        }
        for declaration in self.declared {
            let name = self.outline.text(declaration.name);
            let is_set = matches!(
                declaration.declared_as,
                DeclaredAs::Var | DeclaredAs::Let | DeclaredAs::Class
            );
            if is_set && !written.contains(name) {
                self.push_comma(is_first)?;
                is_first = false;
                self.push_set(name)?;
            }
        }
        Ok(())
    }

    fn push_comma(&mut self, is_first: bool) -> Result<(), AllocError> {
        if is_first { Ok(()) } else { self.push(", ") }
    }

    /// `v => a = v`
    fn push_set(&mut self, name: &str) -> Result<(), AllocError> {
        self.push(self.fresh.value.as_str())?;
        self.push(" => ")?;
        self.push(name)?;
        self.push(" = ")?;
        self.push(self.fresh.value.as_str())
    }

    /// `j()`
    fn push_other(&mut self) -> Result<(), AllocError> {
        self.push(self.fresh.other.as_str())?;
        self.push_number()?;
        self.push("()")
    }

    /// The names that are declared, with commas between them.
    fn push_declared(&mut self) -> Result<(), AllocError> {
        let mut is_first = true;
        for declaration in self.declared {
            self.push_comma(is_first)?;
            is_first = false;
            self.push(self.outline.text(declaration.name))?;
        }
        Ok(())
    }

    /// `let a = k(), b = j();`
    fn push_values(&mut self, first: Declaration) -> Result<(), AllocError> {
        self.push(match first.declared_as {
            DeclaredAs::Var => "var ",
            DeclaredAs::Const => "const ",
            _ => "let ",
        })?;
        let mut is_first = true;
        for declaration in self.declared {
            self.push_comma(is_first)?;
            self.push(self.outline.text(declaration.name))?;
            self.push(" = ")?;
            if is_first {
                self.push_call()?;
            } else {
                self.push_other()?;
            }
            is_first = false;
        }
        self.push(";")
    }

    /// `function f() { return k(); }`
    fn push_function(&mut self, name: &str) -> Result<(), AllocError> {
        self.push("function ")?;
        self.push(name)?;
        self.push("() { return ")?;
        self.push_call()?;
        self.push("; }")
    }

    fn expr(&mut self, text: &str, around: &Around) -> Result<Shape, AllocError> {
        if let Some(value) = self.unit.value {
            return self.plain_number(value, around);
        }
        if !around.is_called && !around.is_behind_new {
            if self.unit.tight == Tight::Primary && is_function(text) && text.ends_with('}') {
                self.push_function("")?;
                return Ok(Shape::Function);
            }
            let is_arrow = text.starts_with('(') || begins_with(text, "async");
            if self.unit.tight == Tight::Assignment && is_arrow {
                self.push("() => ")?;
                self.push_call()?;
                return Ok(Shape::Arrow);
            }
        }
        if around.is_behind_new {
            self.push("(")?;
            self.push_call()?;
            self.push(")")?;
        } else {
            self.push_call()?;
        }
        Ok(Shape::Call {
            is_called: around.is_called,
        })
    }

    fn plain_number(&mut self, value: i64, around: &Around) -> Result<Shape, AllocError> {
        let digits = if around.is_before_dot {
            format!(in self.alloc; "({})", value)?
        } else {
            format!(in self.alloc; "{}", value)?
        };
        self.push(digits.as_str())?;
        Ok(Shape::Number)
    }

    /// `import { a } from "k";`
    fn import(&mut self) -> Result<Shape, AllocError> {
        self.push("import ")?;
        if !self.declared.is_empty() {
            self.push("{ ")?;
            self.push_declared()?;
            self.push(" } from ")?;
        }
        self.push("\"")?;
        self.push(self.fresh.unit.as_str())?;
        self.push_number()?;
        self.push("\";")?;
        Ok(Shape::Import)
    }

    /// Whether the unit exports one name, `default`.
    fn exports_default(&self) -> bool {
        match self.outline.exports(self.unit) {
            [name] => self.outline.text(*name) == "default",
            _ => false,
        }
    }

    fn is_import(&self, text: &str) -> bool {
        match self.declared {
            [] => self.unit.source.1 != 0 || begins_with(text, "import"),
            [first, ..] => first.declared_as == DeclaredAs::Import,
        }
    }

    fn item(&mut self, text: &str) -> Result<Shape, AllocError> {
        if self.is_import(text) {
            return self.import();
        }
        let value = match behind(text, "export") {
            Some(rest) if self.exports_default() => behind(rest, "default"),
            _ => None,
        };
        match self.declared {
            [first] if first.declared_as == DeclaredAs::Function => self.exported_function(*first),
            [first, ..] => self.exported_values(*first, value.is_some()),
            [] => match value {
                Some(value) => self.default_value(value),
                None => self.statement_alone(),
            },
        }
    }

    fn exported_function(&mut self, declaration: Declaration) -> Result<Shape, AllocError> {
        let exported = if self.exports_default() {
            self.push("export default ")?;
            Exported::Default
        } else {
            self.push("export ")?;
            Exported::Named
        };
        self.push_function(self.outline.text(declaration.name))?;
        Ok(Shape::NamedFunction(exported))
    }

    /// `export let a = k();`, or `let a = k(); export { a as default };`
    fn exported_values(
        &mut self,
        first: Declaration,
        is_default: bool,
    ) -> Result<Shape, AllocError> {
        if !is_default {
            self.push("export ")?;
            self.push_values(first)?;
            return Ok(Shape::Values(Exported::Named));
        }
        self.push_values(first)?;
        self.push(" export { ")?;
        self.push(self.outline.text(first.name))?;
        self.push(" as default };")?;
        Ok(Shape::Values(Exported::Default))
    }

    /// `export default k();`, or `export default function () { return k(); }`
    fn default_value(&mut self, value: &str) -> Result<Shape, AllocError> {
        self.push("export default ")?;
        if is_function(value) {
            self.push_function("")?;
            return Ok(Shape::NamedFunction(Exported::Default));
        }
        self.push_call()?;
        self.push(";")?;
        Ok(Shape::DefaultValue)
    }

    fn statement_alone(&mut self) -> Result<Shape, AllocError> {
        self.push_call()?;
        self.push(";")?;
        Ok(Shape::Statement)
    }

    fn statement(&mut self, jumps: &[Jump]) -> Result<Shape, WholeError> {
        let declared = self.declared;
        match declared {
            [] => {}
            [first] if first.declared_as == DeclaredAs::Function => {
                self.push_function(self.outline.text(first.name))?;
                return Ok(Shape::NamedFunction(Exported::No));
            }
            [first, ..] if declared.iter().all(|each| is_scoped(each.declared_as)) => {
                if !jumps.is_empty() {
                    return Err(self.no_stand_in());
                }
                self.push_values(*first)?;
                return Ok(Shape::Values(Exported::No));
            }
            _
                if declared
                    .iter()
                    .all(|each| each.declared_as == DeclaredAs::Var) => {}
            _ => return Err(self.no_stand_in()),
        }
        if declared.is_empty() && jumps.is_empty() {
            return Ok(self.statement_alone()?);
        }
        Ok(self.block(jumps)?)
    }

    fn no_stand_in(&self) -> WholeError {
        WholeError::NoStandIn {
            at: self.unit.start,
        }
    }

    /// `{ var a; k(); }`, or `{ var a; if (k()) return j(); }`
    fn block(&mut self, jumps: &[Jump]) -> Result<Shape, AllocError> {
        self.push("{ ")?;
        if !self.declared.is_empty() {
            self.push("var ")?;
            self.push_declared()?;
            self.push("; ")?;
        }
        let shape = if jumps.is_empty() {
            self.statement_alone()?
        } else {
            self.push_jumps(jumps)?;
            Shape::Jumps
        };
        self.push(" }")?;
        Ok(shape)
    }

    /// `if (k()) return j(); else if (j()) break;`
    fn push_jumps(&mut self, jumps: &[Jump]) -> Result<(), AllocError> {
        let mut is_first = true;
        for jump in jumps {
            if is_first {
                self.push("if (")?;
                self.push_call()?;
            } else {
                self.push(" else if (")?;
                self.push_other()?;
            }
            self.push(") ")?;
            is_first = false;
            self.push_jump(*jump)?;
        }
        Ok(())
    }

    fn push_jump(&mut self, jump: Jump) -> Result<(), AllocError> {
        match jump.sort {
            JumpSort::Return => {
                self.push("return ")?;
                self.push_other()?;
            }
            JumpSort::Break => self.push("break")?,
            JumpSort::Continue => self.push("continue")?,
        }
        if let Some(label) = jump.label {
            self.push(" ")?;
            self.push(self.outline.text(label))?;
        }
        self.push(";")
    }
}

/// Whether a declaration is of a block.
fn is_scoped(declared_as: DeclaredAs) -> bool {
    matches!(
        declared_as,
        DeclaredAs::Let | DeclaredAs::Const | DeclaredAs::Class
    )
}

/// Whether a unit mentions what a function round it would give another meaning.
fn names_its_function(outline: &Outline<'_>, unit: Unit) -> bool {
    for name in outline.mentions(unit) {
        if matches!(outline.text(*name), "eval" | "arguments") {
            return true;
        }
    }
    false
}

/// What stands for a unit, by its number, its text and what stands round it.
pub(crate) fn stand_in(
    alloc: Global,
    outline: &Outline<'_>,
    fresh: &Fresh,
    number: usize,
    unit: Unit,
    text: &str,
    around: &Around,
) -> Result<StandIn, WholeError> {
    if names_its_function(outline, unit) {
        return Err(WholeError::NoStandIn { at: unit.start });
    }
    let declared = declared(alloc, outline, unit)?;
    let mut writer = Writer {
        alloc,
        outline,
        fresh,
        unit,
        number,
        declared: declared.as_slice(),
        out: String::new(alloc),
    };
    let shape = match unit.sort {
        Sort::Expr => writer.expr(text, around)?,
        Sort::Item => writer.item(text)?,
        Sort::Stmt => writer.statement(around.jumps.as_slice())?,
    };
    Ok(StandIn {
        shape,
        text: writer.out,
    })
}
