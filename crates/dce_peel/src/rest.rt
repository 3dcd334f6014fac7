//! What is left of a list.
ghost use Rattle.std.specs.Prelude.{◌≡◌, ◌++◌, [], ◌∷◌, IfOk, OnOk, if◌then◌else◌};
ghost use Rattle.dce_peel.specs.Rounds.{behind, first_stays, staying};

use std::alloc::{AllocError, Global};

/// Whether the first item stays for so many rounds, by the layers of items.
fn first_stays(rounds: usize, layers: &[usize]) -> bool
    ensures { result ≡ first_stays rounds layers.now }
{
    match layers {
        [] => true,
        [first, ..] => rounds < *first,
    }
}

/// The layers of the items behind the first.
fn behind<'a>(layers: &'a [usize]) -> &'a [usize]
    ensures { result.now ≡ behind layers.now }
{
    match layers {
        [] => layers,
        [_, rest @ ..] => rest,
    }
}

/// Adds an item, if it stays.
fn push_if<T: Drop>(stays: bool, item: T, kept: &mut Vec<T>) -> Result<(), AllocError>
    ensures { OnOk result (kept.new.items ≡ (if stays then kept.old.items ++ item ∷ [] else kept.old.items)) }
{
    if stays {
        kept.push(item)?;
    }
    Ok(())
}

/// The items of a list that stay for so many rounds, by their layers. Fails where memory is refused.
pub fn what_stays<T: Drop>(
    alloc: Global,
    items: Vec<T>,
    layers: &[usize],
    rounds: usize,
) -> Result<Vec<T>, AllocError>
    ensures { IfOk result (λ r. r.items ≡ staying rounds items.items layers.now) }
{
    let mut kept = Vec::new(alloc);
    let mut layers_left = layers;
    for item in items {
        push_if(first_stays(rounds, layers_left), item, &mut kept)?;
        layers_left = behind(layers_left);
    }
    Ok(kept)
}
