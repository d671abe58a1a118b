// A token as its kind, its start and its length: all that a rule tells of it.
ghost use Rattle.std.specs.Prelude.{◌≡◌, ◌+◌};
ghost use Rattle.token.specs.Places.{number_of_place};

use crate::kind::TokenKind;
use crate::place::Place;
use std::ops::Range;

#[derive(Clone, Copy, Debug, PartialEq)]
pub struct TokenRecord {
    pub kind: TokenKind,
    pub start: Place,
    pub len: u32,
}

impl TokenRecord {
    // Where its bytes stand on its page.
    pub fn range(&self) -> Range<usize>
        ensures start { result.start ≡ number_of_place self.now.start }
        ensures end { result.end ≡ number_of_place self.now.start + self.now.len }
    {
        let start = self.start.count() as usize;
        start..start + self.len as usize
    }
}
