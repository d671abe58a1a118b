//! The token at a place of a page, and a page's tokens.
#![tactic(auto)]

mod lone;
mod rule;
mod rules;
mod source_lexer;
mod start;
mod token_at;

pub use lone::read_page;
pub use source_lexer::SourceLexer;
