//! What is known of names while an item is walked.
ghost use Rattle.std.specs.Prelude.{◌≡◌, ◌||◌, IfOk, IfSome, OnOk, true, ℕ};
ghost use Rattle.swc_ast.specs.Parts.{ident_name};
ghost use Rattle.swc_ast.specs.Run.{has_text};
ghost use Rattle.swc_names.specs.Ids.{optional};
ghost use Rattle.dce_peel.specs.Rounds.{among};
ghost use Rattle.dce_items.specs.Described.{GoesBy, IsNumber};
ghost use Rattle.dce_items.specs.Gathered.{Gathers, keeps_number, name_of};

use dce_uses::{Retained, Uses, is_default};
use std::alloc::AllocError;
use swc_ast::Ident;
use swc_names::Names;

/// What is known of names.
#[derive(Clone, Copy)]
pub(crate) struct Known<'a, 'b> {
    /// The numbers of names.
    pub(crate) names: &'a Names,
    /// The texts of names that stay.
    pub(crate) retained: &'a Retained<'b>,
    /// How the item uses its names.
    pub(crate) uses: &'a Uses,
}

impl<'a, 'b> Known<'a, 'b> {
    fn is_retained(&self, name: &Ident) -> bool
        ensures { result ≡ has_text (ident_name name.now).text self.now.retained.now }
    {
        self.retained.has(&name.sym)
    }

    #[tactic(auto, using(crate::proofs::Gathering::numbered))]
    fn number(&self, name: &Ident) -> Option<usize>
        ensures { IfSome result (λ n. IsNumber self.now.names.now (ident_name name.now) n) }
    {
        if is_default(name) {
            return None;
        }
        self.names.number_of(name)
    }

    /// The number of the name with which an item goes, if there is one and it isn't retained; nothing where nothing is known of it.
    pub(crate) fn goer(&self, name: Option<&Ident>) -> Option<Option<usize>>
        ensures { IfSome result (GoesBy self.now.retained.now self.now.names.now (name_of name.entry)) }
    {
        let Some(name) = name else {
            return Some(None);
        };
        if self.is_retained(name) {
            return Some(None);
        }
        let number = self.number(name)?;
        Some(Some(number))
    }

    /// Adds the number of a name that is declared in the item, if there is one. False where nothing is known of it.
    #[tactic(auto, using(crate::proofs::Gathering::nothing, crate::proofs::Gathering::one_kept, crate::proofs::Gathering::one_retained, crate::proofs::Gathering::stops, crate::proofs::Gathering::one_added))]
    pub(crate) fn add_goer(
        &self,
        name: Option<&Ident>,
        goers: &mut Vec<usize>,
    ) -> Result<bool, AllocError>
        ensures { IfOk result (λ b. Gathers self.now goers.old.items goers.new.items b true (optional name.entry)) }
    {
        let Some(name) = name else {
            return Ok(true);
        };
        if !self.uses.is_free(name) {
            return Ok(true);
        }
        if self.is_retained(name) {
            return Ok(true);
        }
        let Some(number) = self.number(name) else {
            return Ok(false);
        };
        goers.push(number)?;
        Ok(true)
    }

    /// Adds the number of a name, if there is one that the item keeps.
    #[tactic(auto, using(crate::proofs::Noting::no_name, crate::proofs::Noting::name_free, crate::proofs::Noting::name_unnumbered, crate::proofs::Noting::name_added))]
    pub(crate) fn add_note(
        &self,
        name: Option<&Ident>,
        notes: &mut Vec<usize>,
    ) -> Result<(), AllocError>
        ensures { OnOk result ((n : ℕ) → among notes.new.items n ≡ (among notes.old.items n || keeps_number self.now (optional name.entry) n)) }
    {
        let Some(name) = name else {
            return Ok(());
        };
        if self.uses.is_free(name) {
            return Ok(());
        }
        let Some(number) = self.names.number_of(name) else {
            return Ok(());
        };
        notes.push(number)?;
        Ok(())
    }
}
