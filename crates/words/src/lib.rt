//! Words, and what else begins as a word: directives, schemes of addresses, names of macros, what may be an e-mail address.
#![tactic(auto)]

mod colon;
mod email;
mod names;
mod stem;
mod words;

pub use names::is_builtin_macro_name;
pub use words::word;
