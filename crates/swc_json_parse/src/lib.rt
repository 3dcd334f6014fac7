//! Array and object literals that are JSON, replaced by calls of `JSON.parse`.
#![tactic(auto)]

ghost use Rattle.swc_json_parse.specs.JsonText.{TextsReadBack};

mod call;
mod pass;
mod sink;
mod text;

pub use pass::{JsonParse, json_parse};

/// The law of the texts, which its contract states: `serde_json` reads from the text of a JSON literal the literal's value.
pub fn laws()
    ensures reads { TextsReadBack }
{}
