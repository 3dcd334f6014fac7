//! The keys of an object literal.
ghost use Rattle.std.specs.Prelude.{◌≡◌, ◌||◌, not, false, IfOk, IsTrue, bytes_eq, string_bytes, option_map};
ghost use Rattle.swc_ast.specs.Parts.{list_trees};
ghost use Rattle.swc_ast.specs.Tree.{Text};
ghost use Rattle.swc_ast.specs.Views.{prop_or_spread_tree};
ghost use Rattle.tree_keys.specs.Keys.{are_keys as tree_are_keys, key_of as tree_key_of, keys_of, plain_key};
ghost use Rattle.tree_keys.specs.Sets.{has_key};

use std::alloc::{AllocError, Global};
use std::collections::HashSet;
use swc_ast::{Prop, PropName, PropOrSpread};

/// A set of keys.
#[derive(Drop)]
pub(crate) struct KeySet {
    keys: HashSet<String>,
}

impl KeySet {
    fn new(alloc: Global) -> KeySet
        ensures { (t : Text) → has_key result t ≡ false }
    {
        KeySet {
            keys: HashSet::new(alloc),
        }
    }

    /// Puts a key in, and says whether it is new. Fails where memory is refused.
    fn insert(&mut self, key: String) -> Result<bool, AllocError>
        ensures added { IfOk result (λ b. b ≡ not (has_key self.old (string_bytes key))) }
        ensures keys { IfOk result (λ b. IsTrue b → (t : Text) → has_key self.new t ≡ (bytes_eq t (string_bytes key) || has_key self.old t)) }
    {
        Ok(self.keys.insert(key)?)
    }
}

/// A key's text, unless the key is computed. Fails where memory is refused.
fn key_text(alloc: Global, key: &PropName) -> Result<Option<String>, AllocError>
    ensures { IfOk result (λ o. option_map string_bytes o ≡ plain_key key.now) }
{
    match key {
        PropName::Ident(n) => Ok(Some(String::from_str(alloc, &n.sym)?)),
        PropName::Str(n) => Ok(Some(n.value.clone()?)),
        PropName::Num(n) => Ok(Some(n.value.to_string(alloc)?)),
        PropName::Computed(_) => Ok(None),
    }
}

/// The text of the key of a property that is `key: value`, unless the key is computed. Fails where memory is refused.
#[tactic(auto, using(swc_ast::proofs::Equations::forms, crate::proofs::Members::key_of_member))]
fn key_of(alloc: Global, prop: &PropOrSpread) -> Result<Option<String>, AllocError>
    ensures { IfOk result (λ o. option_map string_bytes o ≡ tree_key_of (prop_or_spread_tree prop.now)) }
{
    match prop {
        PropOrSpread::Spread(_) => Ok(None),
        PropOrSpread::Prop(prop) => match prop {
            Prop::Shorthand(_) => Ok(None),
            Prop::KeyValue(n) => key_text(alloc, &n.key),
            Prop::Method(_) => Ok(None),
        },
    }
}

/// Whether each key of some properties is there once, and none of them is `__proto__`. Fails where memory is refused.
pub fn are_keys(alloc: Global, props: &[PropOrSpread]) -> Result<bool, AllocError>
    ensures { IfOk result (λ b. b ≡ tree_are_keys (keys_of (list_trees prop_or_spread_tree props.now))) }
{
    let mut seen = KeySet::new(alloc);
    seen.insert(String::from_str(alloc, "__proto__")?)?;
    for prop in props {
        if let Some(key) = key_of(alloc, prop)? {
            if !seen.insert(key)? {
                return Ok(false);
            }
        }
    }
    Ok(true)
}
