//! The tokens of JavaScript text, and what literals stand for.
#![tactic(auto)]

mod blank;
mod class;
mod cook;
mod fault;
mod literal;
mod punctuator;
mod reserved;
mod scan;
mod search;
mod token;
mod tokens;
mod word;

pub use blank::blanks_at_front;
pub use cook::{number, text};
pub use fault::{Construct, Fault};
pub use literal::{TemplateEnd, number_end, regex_len, template_len, text_len};
pub use punctuator::longest_punctuator;
pub use scan::tokenize;
pub use token::{Kind, Token};
pub use word::{is_word_part, word_at, word_len};
