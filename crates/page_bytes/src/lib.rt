//! The lowest layer of the lexer: which bytes are a text, classes of bytes and their longest runs, and sets of names.
//! Nothing here allocates.
#![tactic(auto)]

mod class;
mod names;
mod refusal;
mod run;
mod tables;
mod text;
mod utf8;
mod utf8_fault;
mod utf8_state;

pub use class::{
    Alphanumerics, Ascii, Blanks, ByteClass, ContinuationBytes, Digits, DomainBytes, Either,
    HexDigits, Letters, Not, OneByte, StemBytes, WordBytes,
};
pub use names::{Family, Joined, Listed, NameSet, NoNames};
pub use refusal::Refusal;
pub use run::{count_members, run_end};
pub use text::{MAX_AREA, MAX_TEXT, check_area, check_text, checked_page, text_part};
pub use utf8::check_utf8;
pub use utf8_fault::Utf8Fault;
