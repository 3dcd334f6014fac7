//! A table of what a tree says of its names.
ghost use Rattle.std.specs.Prelude.{◌≡◌, ◌<◌, ◌&&◌, IfOk, IfSome, OnOk, [], ◌∷◌, Some, length, position};
ghost use Rattle.swc_ast.specs.Parts.{ident_name};
ghost use Rattle.swc_ast.specs.Scope.{has_name};
ghost use Rattle.swc_ast.specs.Tree.{same_name};
ghost use Rattle.swc_names.specs.Ids.{id_name, optional};
ghost use Rattle.dce_uses.specs.Noted.{is_hiding};
ghost use Rattle.dce_uses.specs.Said.{AreNumbered, TakesBehind, row_says, rows_say};
ghost use Rattle.dce_uses.specs.Tables.{IsBlank, IsNumbered, Notes, Numbers, Restores, Touches, fact_at, fact_of, holds};
ghost use Rattle.dce_uses.specs.declared.tally.Fact as facts;

use crate::said::Row;
use crate::tally::{Fact, Tally};
use std::alloc::{AllocError, Global};
use swc_ast::{Id, Ident};
use swc_names::Names;

/// The names of a tree, and what was noted of each. Names get their numbers as they are noted.
#[derive(Drop)]
pub(crate) struct Table {
    names: Names,
    tallies: Vec<Tally>,
    /// The numbers that were touched since nothing was noted.
    touched: Vec<usize>,
}

impl Table {
    /// A table without names.
    pub(crate) fn new(alloc: Global) -> Table
        ensures { IsBlank result }
    {
        Table {
            names: Names::empty(alloc),
            tallies: Vec::new(alloc),
            touched: Vec::new(alloc),
        }
    }

    /// What was noted of a name, nothing where it has no number.
    #[inline(always)]
    pub(crate) fn tally(&self, name: &Ident) -> Tally
        ensures { (f : facts.Fact) → holds result f ≡ fact_of self.now f (ident_name name.now) }
    {
        match self.names.number_of(name) {
            Some(number) => self.tally_at(number),
            None => Tally::empty(),
        }
    }

    /// What was noted at a number, nothing where it has no tally.
    #[inline(always)]
    pub(crate) fn tally_at(&self, number: usize) -> Tally
        ensures { (f : facts.Fact) → holds result f ≡ fact_at self.now.tallies.items f number }
    {
        if number < self.tallies.len() {
            self.tallies[number]
        } else {
            Tally::empty()
        }
    }

    /// The name of a number, if there is one.
    pub(crate) fn name(&self, number: usize) -> Option<&Id>
        ensures numbered { IfSome result (λ i. position (same_name (id_name i.now)) self.now.names ≡ Some number) }
    {
        self.names.id(number)
    }

    /// The number of a name, a new one where it has none.
    #[inline(never)]
    fn number(&mut self, name: &Ident) -> Result<usize, AllocError>
        ensures { IfOk result (λ n. Numbers self.old self.new (ident_name name.now) n) }
    {
        let number = self.names.add(name)?;
        self.touch(number)?;
        Ok(number)
    }

    /// Touches a number: from now on it has a tally. One of which something was noted is touched already.
    #[inline(always)]
    fn touch(&mut self, number: usize) -> Result<(), AllocError>
        requires { number < length self.old.names }
        ensures { OnOk result (Touches self.old self.new number) }
    {
        if number < self.tallies.len() {
            if self.tallies[number].is_empty() {
                self.touched.push(number)?;
            }
            return Ok(());
        }
        self.tallies.resize(self.names.len(), Tally::empty())?;
        self.touched.push(number)?;
        Ok(())
    }

    /// Notes more of a name.
    #[inline(always)]
    pub(crate) fn add_tally(&mut self, name: &Ident, more: Tally) -> Result<(), AllocError>
        ensures { OnOk result (Notes self.old self.new (λ f x. holds more f && has_name x (ident_name name.now ∷ []))) }
    {
        let number = self.number(name)?;
        if number < self.tallies.len() {
            self.tallies[number] = self.tallies[number].and(more);
        }
        Ok(())
    }

    /// Notes that a name, if there is one, is used without being named.
    pub(crate) fn hide(&mut self, name: Option<&Ident>) -> Result<(), AllocError>
        ensures { OnOk result (Notes self.old self.new (λ f x. is_hiding f && has_name x (optional name.entry))) }
    {
        match name {
            Some(name) => self.add_tally(name, Tally::empty().with(Fact::Hidden, true)),
            None => Ok(()),
        }
    }

    /// Uses and writes of a name, if there is one, become those of before: what was counted since doesn't count.
    #[inline(always)]
    pub(crate) fn restore(&mut self, name: Option<&Ident>, before: Tally) -> Result<(), AllocError>
        ensures { OnOk result (Restores self.old self.new (optional name.entry) before) }
    {
        let Some(name) = name else {
            return Ok(());
        };
        let number = self.number(name)?;
        if number < self.tallies.len() {
            self.tallies[number] = self.tallies[number].counted_as(before);
        }
        Ok(())
    }

    /// Forgets what was noted. Names keep their numbers.
    pub(crate) fn forget(&mut self)
        ensures blank { IsBlank self.new }
        ensures names { self.new.names ≡ self.old.names }
    {
        self.tallies.clear();
        self.touched.clear();
    }

    /// Puts what was noted behind rows, as rows. Nothing of it stays noted.
    pub(crate) fn take_rows(&mut self, rows: &mut Vec<Row>) -> Result<(), AllocError>
        requires { IsNumbered self.old }
        ensures blank { OnOk result (IsBlank self.new) }
        ensures rows { OnOk result (TakesBehind self.old self.new rows.old.items rows.new.items) }
    {
        while let Some(number) = self.touched.pop() {
            if number < self.tallies.len() {
                let tally = self.tallies[number];
                if !tally.is_empty() {
                    let Ok(short) = u32::try_from(number) else {
                        return Err(AllocError);
                    };
                    rows.push(Row {
                        number: short,
                        tally,
                    })?;
                    self.tallies[number] = Tally::empty();
                }
            }
        }
        Ok(())
    }

    /// Notes what a row tells.
    fn add_row(&mut self, row: &Row) -> Result<(), AllocError>
        requires { row.now.number < length self.old.names }
        ensures notes { OnOk result (Notes self.old self.new (row_says self.old.names row.now)) }
        ensures names { OnOk result (self.new.names ≡ self.old.names) }
    {
        let number = row.number as usize;
        self.touch(number)?;
        if number < self.tallies.len() {
            self.tallies[number] = self.tallies[number].and(row.tally);
        }
        Ok(())
    }

    /// Notes what rows tell.
    pub(crate) fn add_rows(&mut self, rows: &[Row]) -> Result<(), AllocError>
        requires { AreNumbered self.old.names rows.now }
        ensures { OnOk result (Notes self.old self.new (rows_say self.old.names rows.now)) }
    {
        let mut left = rows;
        while let [row, rest @ ..] = left {
            self.add_row(row)?;
            left = rest;
        }
        Ok(())
    }
}
