//! Whether layers are right.
ghost use Rattle.std.specs.Prelude.{◌≡◌, ◌≤◌, ◌<◌, ℕ, IfOk, IsTrue, IfSome, true, max, length, slice_index, if◌then◌else◌};
ghost use Rattle.dce_peel.specs.Rounds.{AreLayers, Each, FitsBy, Leaves, Stays, Waits, among, top};

use crate::access::Access;
use crate::item::Item;
use crate::plan::plan;
use std::alloc::{AllocError, Global};

/// The layers of items, and how many rounds take them.
#[derive(Drop)]
pub struct Layering {
    /// For each item the round in which it goes; greater than the number of rounds where it stays.
    pub layers: Vec<usize>,
    pub rounds: usize,
}

/// Whether a number is among some.
pub(crate) fn is_among(numbers: &[usize], number: usize) -> bool
    ensures { result ≡ among numbers.now number }
{
    let mut left = numbers;
    while let [first, rest @ ..] = left {
        if number == *first {
            return true;
        }
        left = rest;
    }
    false
}

/// An item of a layer notes names.
fn raise(tops: &mut [usize], notes: &[usize], layer: usize)
    ensures { (n : ℕ) → n < length tops.old → slice_index tops.new n ≡ max (if among notes.now n then layer else 0) (slice_index tops.old n) }
{
    let mut left = notes;
    while let [number, rest @ ..] = left {
        if *number < tops.len() {
            tops[*number] = tops[*number].max(layer);
        }
        left = rest;
    }
}

/// The greatest layer of an item that notes a name, for each name.
fn tops_of(
    alloc: Global,
    names: usize,
    items: &[Item],
    layers: &[usize],
) -> Result<Vec<usize>, AllocError>
    ensures { IfOk result (λ t. (n : ℕ) → n < length t.items → slice_index t.items n ≡ top items.now layers.now n) }
{
    let mut tops = vec![in alloc; 0; names]?;
    let mut items_left = items;
    let mut layers_left = layers;
    while let [item, more_items @ ..] = items_left {
        let [layer, more_layers @ ..] = layers_left else {
            return Ok(tops);
        };
        raise(&mut tops, &item.notes, *layer);
        items_left = more_items;
        layers_left = more_layers;
    }
    Ok(tops)
}

/// Whether a name stays up to a round: an item is left that notes it.
fn stays(tops: &[usize], rounds: usize, layer: usize, name: usize) -> bool
    ensures within { IsTrue result → name < length tops.now }
    ensures stays { IsTrue result → Stays (slice_index tops.now) rounds layer name }
{
    name < tops.len() && (layer <= tops[name] || rounds <= tops[name])
}

/// Whether names do.
fn all_stay(tops: &[usize], rounds: usize, layer: usize, names: &[usize]) -> bool
    ensures { IsTrue result → (n : ℕ) → among names.now n ≡ true → (n < length tops.now) × Stays (slice_index tops.now) rounds layer n }
{
    let mut left = names;
    while let [name, rest @ ..] = left {
        if !stays(tops, rounds, layer, *name) {
            return false;
        }
        left = rest;
    }
    true
}

/// Whether an item goes with its name in a round, if that is one of so many, and stays up to the round before.
fn goes(tops: &[usize], rounds: usize, layer: usize, name: Option<usize>) -> bool
    ensures within { IsTrue result → IfSome name (λ f. f < length tops.now) }
    ensures goes { IsTrue result → layer ≤ rounds → Leaves (slice_index tops.now) layer name }
    ensures waits { IsTrue result → Waits (slice_index tops.now) rounds layer name }
{
    let Some(name) = name else {
        return rounds < layer;
    };
    if name >= tops.len() {
        return false;
    }
    let top = tops[name];
    let is_noted_before = layer.saturating_sub(1) <= top || rounds <= top;
    is_noted_before && (rounds < layer || top < layer)
}

/// Whether an item stands in its layer.
fn fits(tops: &[usize], rounds: usize, item: &Item, layer: usize) -> bool
    ensures { IsTrue result → FitsBy tops.now rounds item.now layer }
{
    layer > 0 && goes(tops, rounds, layer, item.name) && all_stay(tops, rounds, layer, &item.goers)
}

/// Whether each item has a layer and stands in it.
fn all_fit(tops: &[usize], rounds: usize, items: &[Item], layers: &[usize]) -> bool
    ensures { IsTrue result → Each (FitsBy tops.now rounds) items.now layers.now }
{
    if items.len() != layers.len() {
        return false;
    }
    let mut items_left = items;
    let mut layers_left = layers;
    while let ([item, more_items @ ..], [layer, more_layers @ ..]) = (items_left, layers_left) {
        if !fits(tops, rounds, item, *layer) {
            return false;
        }
        items_left = more_items;
        layers_left = more_layers;
    }
    true
}

/// Whether layers are right: the items go in so many rounds, each in the round that is its layer.
fn are_layers(
    alloc: Global,
    names: usize,
    items: &[Item],
    rounds: usize,
    layers: &[usize],
) -> Result<bool, AllocError>
    ensures { IfOk result (λ b. IsTrue b → AreLayers items.now rounds layers.now) }
{
    let tops = tops_of(alloc, names, items, layers)?;
    Ok(is_among(layers, rounds) && all_fit(&tops, rounds, items, layers))
}

/// Layers of items in so many rounds at most; no round where none are known to be right. `accesses` says of each item how it reads and
/// writes names: the rounds end in front of one in which an assignment would go too. Fails where memory is refused.
pub fn layers_of(
    alloc: Global,
    names: usize,
    items: &[Item],
    accesses: &[Access],
    most: usize,
) -> Result<Layering, AllocError>
    ensures few { IfOk result (λ l. l.rounds ≤ most) }
    ensures layers { IfOk result (λ l. 0 < l.rounds → AreLayers items.now l.rounds l.layers.items) }
{
    let planned = plan(alloc, names, items, accesses, most)?;
    if !are_layers(alloc, names, items, planned.rounds, &planned.layers)? {
        return Ok(Layering {
            layers: Vec::new(alloc),
            rounds: 0,
        });
    }
    Ok(planned)
}
