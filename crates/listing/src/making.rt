// The listing of a page, token by token.
ghost use Rattle.std.specs.Prelude.{◌≡◌, ◌≤◌, [], ◌∷◌, ◌++◌, length, IfOk, OnOk};
ghost use Rattle.source_lexer.specs.Lone.{tokens_of};
ghost use Rattle.token.specs.Places.{most};
ghost use Rattle.listing.specs.Listed.{all_listed};

use crate::listed::{ListedToken, Listing};
use crate::position::Position;
use page_bytes::NameSet;
use source_lexer::SourceLexer;
use std::alloc::{AllocError, Global};
use std::ops::Range;
use token::Place;

impl Listing {
    // One token more, with its bytes.
    fn add(&mut self, listed: ListedToken, lexeme: &[u8]) -> Result<(), AllocError>
        ensures tokens { OnOk result (self.new.tokens.items ≡ self.old.tokens.items ++ listed ∷ []) }
        ensures text { OnOk result (self.new.text.items ≡ self.old.text.items ++ lexeme.now) }
    {
        self.tokens.push(listed)?;
        self.text.extend_from_slice(lexeme)
    }
}

// The tokens of a page with their lines and columns, and the page put together again from their bytes.
pub fn list_page<N: NameSet>(heap: Global, page: &[u8], names: &N) -> Result<Listing, AllocError>
    ensures tokens { IfOk result (λ listing. listing.tokens.items ≡ all_listed page.now (tokens_of (N.NameSet.knows names.now) page.now)) }
    ensures text { IfOk result (λ listing. length page.now ≤ most → listing.text.items ≡ page.now) }
{
    let mut listing = Listing {
        tokens: Vec::new(heap),
        text: Vec::new(heap),
    };
    let mut reader = SourceLexer::new(Place::new(0));
    let mut position = Position::first(page);
    while let Some(token) = reader.next_token(page, names) {
        let Range { start, end } = token.range();
        listing.add(position.listed(token), &page[start..end])?;
        position.move_to(end);
    }
    Ok(listing)
}
