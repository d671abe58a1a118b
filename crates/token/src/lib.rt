//! Tokens by kind, place and length, and places by number.
#![tactic(auto)]

mod kind;
mod location;
mod place;
mod token_record;

pub use kind::TokenKind;
pub use location::Location;
pub use place::Place;
pub use token_record::TokenRecord;
