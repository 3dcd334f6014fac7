//! Whether a token stands at the front of a text, and what is behind it.
#![tactic(auto)]

mod blank;
mod bytes;
mod end;
mod number;
mod quoted;
mod reserved;
mod table;
mod token;

pub use blank::{after_blanks, at_token};
pub use end::after_end;
pub use number::after_number;
pub use quoted::{after_quoted, after_template_text};
pub use table::punctuators_are_told;
pub use token::{after_identifier, after_name, after_sign, after_word};
