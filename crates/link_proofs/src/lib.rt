//! Names that stand for names or values: a module does the same where what they stand for is put for them.
#![tactic(auto)]

ghost use Rattle.link_proofs.specs.Laws.{NamesAreExported, NamesArePut};

/// The laws of names, or values, that are put for names, which its contract states.
pub fn propagation()
    ensures puts { NamesArePut }
    ensures exports { NamesAreExported }
{}
