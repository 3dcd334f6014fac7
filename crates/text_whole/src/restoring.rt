//! From a printed text to the module with the units' own texts.
use crate::enclosing::Whole;
use crate::error::WholeError;
use crate::names::number_behind;
use crate::places::{Place, Printed};
use crate::splices::{Cut, splice};
use crate::stand_in::{Exported, Shape, declared, sorted};
use crate::words::{apart, begins_with, byte_at, byte_before};
use std::alloc::{AllocError, Global};
use text_lexer::Kind;
use text_outline::{Tight, Unit};

/// A printed text of which a part is restored.
#[derive(Drop)]
struct Restorer<'b, 'a> {
    alloc: Global,
    whole: &'b Whole<'a>,
    printed: Printed<'b>,
    cuts: Vec<Cut>,
    /// which units were met
    seen: Vec<bool>,
    /// the first token behind the last cut
    next: usize,
    /// the unit that is exported by `export { a as default };`, and the name
    default: Option<(usize, &'b str)>,
    /// whether that `export` was met
    exports_default: bool,
}

/// A printed text with the units' own texts.
pub(crate) fn restored(
    alloc: Global,
    whole: &Whole<'_>,
    printed: &str,
) -> Result<String, WholeError> {
    if !whole.has_units() {
        return Ok(String::from_str(alloc, printed)?);
    }
    let mut restorer = Restorer {
        alloc,
        whole,
        printed: Printed::new(alloc, printed, whole.fresh.other.as_str())?,
        cuts: Vec::new(alloc),
        seen: vec![in alloc; false; whole.enclosed.len()]?,
        next: 0,
        default: whole.default_name(alloc)?,
        exports_default: false,
    };
    for place in 0..restorer.printed.len() {
        restorer.pass(place)?;
    }
    restorer.check_default()?;
    match splice(alloc, printed, restorer.cuts.as_slice())? {
        Some(rest) => whole.with_front(alloc, rest),
        None => Err(WholeError::Lost { at: 0 }),
    }
}

impl<'a> Whole<'a> {
    /// The unit that is exported as `default` apart from its declaration, and the name that it has in the core text.
    fn default_name(&self, alloc: Global) -> Result<Option<(usize, &str)>, AllocError> {
        for (number, enclosed) in self.enclosed.iter().enumerate() {
            if enclosed.shape != Shape::Values(Exported::Default) {
                continue;
            }
            if let Some(unit) = self.outline.units.get(number)
                && let Some(first) = declared(alloc, &self.outline, *unit)?.first()
            {
                return Ok(Some((number, self.outline.text(first.name))));
            }
        }
        Ok(None)
    }

    /// A text behind the `#!` line, where there is one.
    fn with_front(&self, alloc: Global, rest: String) -> Result<String, WholeError> {
        let Some(unit) = self.outline.units.first() else {
            return Ok(rest);
        };
        match self.enclosed.first() {
            Some(first) if first.shape == Shape::Spaces => {}
            _ => return Ok(rest),
        }
        let mut out = String::new(alloc);
        out.push_str(self.text_of(*unit))?;
        out.push('\n')?;
        out.push_str(rest.as_str())?;
        Ok(out)
    }
}

/// Whether the text of an operand has another meaning where a statement or a member begins with it.
fn needs_parens(text: &str) -> bool {
    match text.as_bytes() {
        [b'{' | b'0'..=b'9', ..] => true,
        [b'.', second, ..] => second.is_ascii_digit(),
        _ => {
            text.starts_with("class")
                || text.starts_with("function")
                || text.starts_with("async")
                || text.starts_with("let")
        }
    }
}

impl<'b, 'a> Restorer<'b, 'a> {
    /// Restores what begins at a token.
    fn pass(&mut self, place: usize) -> Result<(), WholeError> {
        match self.printed.kind(place) {
            Kind::Name => self.pass_name(place),
            Kind::Text => self.pass_source(place),
            Kind::Export => self.pass_export(place),
            _ => Ok(()),
        }
    }

    fn lost(&self, number: usize) -> WholeError {
        let at = match self.whole.outline.units.get(number) {
            Some(unit) => unit.start,
            None => 0,
        };
        WholeError::Lost { at }
    }

    fn pass_name(&mut self, place: usize) -> Result<(), WholeError> {
        let word = self.printed.word(place);
        let fresh = &self.whole.fresh;
        if self.printed.kind_before(place, 1) == Kind::Dot {
            return Ok(());
        }
        if let Some(number) = number_behind(word, fresh.unit.as_str()) {
            return self.pass_unit(place, number);
        }
        if place < self.next {
            return Ok(());
        }
        if let Some(number) = number_behind(word, fresh.other.as_str()) {
            return self.pass_left_over(place, number);
        }
        Ok(())
    }

    /// Puts a text in a place behind all others, on behalf of a unit.
    fn put(&mut self, place: Place, text: String, number: usize) -> Result<(), WholeError> {
        let Some((from, to)) = self.printed.bytes(place) else {
            return Err(self.lost(number));
        };
        if place.first < self.next {
            return Err(self.lost(number));
        }
        self.next = place.last.saturating_add(1);
        let put = if text.is_empty() {
            text
        } else {
            let before = byte_before(self.printed.text, from);
            apart(self.alloc, before, text, byte_at(self.printed.text, to))?
        };
        self.cuts.push(Cut { from, to, put })?;
        Ok(())
    }

    /// Notes that a unit is met, which is so once. It begins where the text does that is left out.
    fn meet(&mut self, number: usize) -> Result<(Shape, Unit), WholeError> {
        if let Some(is_seen) = self.seen.get_mut(number)
            && !*is_seen
            && let Some(unit) = self.whole.outline.units.get(number)
            && let Some(enclosed) = self.whole.enclosed.get(number)
        {
            *is_seen = true;
            let mut unit = *unit;
            unit.start = enclosed.start;
            return Ok((enclosed.shape, unit));
        }
        Err(self.lost(number))
    }

    fn pass_source(&mut self, place: usize) -> Result<(), WholeError> {
        let is_source = self.printed.kind_before(place, 1) == Kind::Import
            || place
                .checked_sub(1)
                .is_some_and(|before| self.printed.word(before) == "from");
        let word = self.printed.word(place);
        let inner = word.get(1..word.len().saturating_sub(1)).unwrap_or("");
        let Some(number) = number_behind(inner, self.whole.fresh.unit.as_str()) else {
            return Ok(());
        };
        if !is_source {
            return Ok(());
        }
        let (_, unit) = self.meet(number)?;
        match self.printed.import(place) {
            Some(place) => {
                let text = self.statement_text(unit)?;
                self.put(place, text, number)
            }
            None => Err(self.lost(number)),
        }
    }

    fn pass_export(&mut self, place: usize) -> Result<(), WholeError> {
        let Some((number, name)) = &self.default else {
            return Ok(());
        };
        let number = *number;
        if let Some(place) = self.printed.default_export(place, *name) {
            self.exports_default = true;
            return self.put(place, String::new(self.alloc), number);
        }
        Ok(())
    }

    /// The unit that is exported apart from its declaration is there if its `export` is.
    fn check_default(&self) -> Result<(), WholeError> {
        if let Some((number, _)) = &self.default
            && self.seen.get(*number).copied().unwrap_or(false) != self.exports_default
        {
            return Err(self.lost(*number));
        }
        Ok(())
    }

    fn pass_left_over(&mut self, place: usize, number: usize) -> Result<(), WholeError> {
        let Some(place) = self.printed.left_over(place) else {
            return Err(self.lost(number));
        };
        let mut text = String::new(self.alloc);
        if !self.printed.is_in_list(place.first) {
            text.push(';')?;
        }
        self.put(place, text, number)
    }

    fn pass_unit(&mut self, place: usize, number: usize) -> Result<(), WholeError> {
        let (shape, unit) = self.meet(number)?;
        let outline = &self.whole.outline;
        let gets = sorted(self.alloc, outline, outline.mentions(unit))?;
        let Some(last) = self
            .printed
            .call_end(place, gets.as_slice(), self.whole.fresh.pinned)
        else {
            return Err(self.lost(number));
        };
        let call = Place { first: place, last };
        let Some(place) = self.place_of(shape, call) else {
            return Err(self.lost(number));
        };
        let text = self.text_at(shape, unit, place)?;
        let place = self.with_block(shape, unit, place)?;
        self.put(place, text, number)
    }

    /// The place of a stand-in with what was made for it alone: the declaration of its variables, and a block.
    fn with_block(&self, shape: Shape, unit: Unit, place: Place) -> Result<Place, AllocError> {
        if !matches!(shape, Shape::Statement | Shape::Jumps) {
            return Ok(place);
        }
        let mut names: Vec<&str> = Vec::new(self.alloc);
        for declaration in &declared(self.alloc, &self.whole.outline, unit)? {
            names.push(self.whole.outline.text(declaration.name))?;
        }
        if names.is_empty() && shape == Shape::Statement {
            return Ok(place);
        }
        Ok(self.printed.with_block(place, names.as_slice()))
    }

    /// The place of a stand-in, by that of its call.
    fn place_of(&self, shape: Shape, call: Place) -> Option<Place> {
        match shape {
            Shape::Call { .. } => Some(call),
            Shape::Function => self.printed.function(call),
            Shape::Arrow => self.printed.arrow(call),
            Shape::NamedFunction(exported) => self.printed.named_function(call, exported),
            Shape::DefaultValue => self.printed.default_value(call),
            Shape::Values(exported) => self.printed.values(call, exported == Exported::Named),
            Shape::Statement => self.printed.statement(call),
            Shape::Jumps => self.printed.jumps(call),
            Shape::Number | Shape::Spaces | Shape::Import => None,
        }
    }

    /// What is put in the place of a stand-in.
    fn text_at(&self, shape: Shape, unit: Unit, place: Place) -> Result<String, AllocError> {
        let text = self.whole.text_of(unit);
        match shape {
            Shape::Call { is_called } => self.call_text(unit, place, is_called),
            Shape::Function => self.in_parens(text, !self.printed.takes_function(place)),
            Shape::Arrow => {
                let before = self.printed.kind_before(place.first, 1);
                let is_bare = self.printed.takes_function(place) || before == Kind::Arrow;
                self.in_parens(text, !is_bare)
            }
            Shape::NamedFunction(_) => String::from_str(self.alloc, text),
            Shape::Values(Exported::No) if !self.printed.is_in_list(place.first) => {
                self.in_block(unit)
            }
            Shape::Statement | Shape::Jumps
                if self.printed.kind(place.last.saturating_add(1)) == Kind::Else => {
                self.in_block(unit)
            }
            _ => self.statement_text(unit),
        }
    }

    fn call_text(&self, unit: Unit, place: Place, is_called: bool) -> Result<String, AllocError> {
        let text = self.whole.text_of(unit);
        let is_behind = self.printed.kind(place.last.saturating_add(1)) == Kind::LeftParen;
        if is_behind && !is_called && unit.tight == Tight::Chain {
            return format!(in self.alloc; "(0, {})", text);
        }
        let is_primary = unit.tight == Tight::Primary && !needs_parens(text);
        self.in_parens(text, !is_primary && !self.printed.takes_any(place))
    }

    fn in_parens(&self, text: &str, needs_parens: bool) -> Result<String, AllocError> {
        if needs_parens {
            format!(in self.alloc; "({})", text)
        } else {
            String::from_str(self.alloc, text)
        }
    }

    fn in_block(&self, unit: Unit) -> Result<String, AllocError> {
        let text = self.statement_text(unit)?;
        format!(in self.alloc; "{{ {} }}", text.as_str())
    }

    /// The text of a statement, with its semicolon.
    fn statement_text(&self, unit: Unit) -> Result<String, AllocError> {
        let mut text = String::from_str(self.alloc, self.whole.text_of(unit))?;
        if unit.is_open {
            text.push(';')?;
        }
        Ok(text)
    }
}
