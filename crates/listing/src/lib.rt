//! A page's tokens with their lines and columns, and the text that they make.
#![tactic(auto)]

mod escaping;
mod listed;
mod making;
mod position;

pub use escaping::escape;
pub use listed::{ListedToken, Listing};
pub use making::list_page;
