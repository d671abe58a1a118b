//! What stands at a place of a page: delimiter lines, references, callouts, term delimiters and the marks past ASCII. Every function has
//! an answer at every place, past the page's end too.
#![tactic(auto)]

mod attr_ref;
mod callouts;
mod cursor;
mod delimiter;
mod entity;
mod newline;
mod places;
mod spelling;
mod term;
mod trial;
mod wide;

pub use cursor::Cursor;
pub use trial::Trial;
