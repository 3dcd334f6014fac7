//! A module with other names does the same.
#![tactic(auto)]

ghost use Rattle.rename_proofs.specs.Laws.{OpenedIsCore, OpenedIsResolved, OpenedIsSame, RenamedIsSame, RenamedTells, TabledIsCore, TabledIsResolved, TabledIsSame, TabledIsValid};

/// The laws of other names, which its contract states.
pub fn renaming()
    ensures renamed { RenamedIsSame }
    ensures tabled { TabledIsSame }
    ensures valid { TabledIsValid }
    ensures core { TabledIsCore }
    ensures resolved { TabledIsResolved }
    ensures tells { RenamedTells }
    ensures opened { OpenedIsSame }
    ensures opened_core { OpenedIsCore }
    ensures opened_resolved { OpenedIsResolved }
{}
