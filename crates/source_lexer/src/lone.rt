// The lone reading of a page: all its tokens, from its beginning to its end.
ghost use Rattle.std.specs.Prelude.{◌≡◌, ℕ, ◌≤◌, Bool, List, length, IfOk};
ghost use Rattle.token.specs.Places.{most};
ghost use Rattle.source_lexer.specs.Lone.{lone, tokens_of, spelled, Within, Finer};
ghost use Rattle.source_lexer.specs.Pages.{PagesRead};

use crate::source_lexer::SourceLexer;
use page_bytes::NameSet;
use std::alloc::{AllocError, Global};
use token::{Place, TokenRecord};

// The page's tokens, one after the other. By a loop over the reader: an iterator would have to hold the page and the names.
fn collect<N: NameSet>(heap: Global, page: &[u8], names: &N) -> Result<Vec<TokenRecord>, AllocError>
    ensures { IfOk result (λ tokens. tokens.items ≡ tokens_of (N.NameSet.knows names.now) page.now) }
{
    let mut tokens = Vec::new(heap);
    let mut reader = SourceLexer::new(Place::new(0));
    while let Some(token) = reader.next_token(page, names) {
        tokens.push(token)?;
    }
    Ok(tokens)
}

// The tokens of a page. Their bytes, one after the other, are the page.
pub fn read_page<N: NameSet>(
    heap: Global,
    page: &[u8],
    names: &N,
) -> Result<Vec<TokenRecord>, AllocError>
    ensures tokens { IfOk result (λ tokens. tokens.items ≡ tokens_of (N.NameSet.knows names.now) page.now) }
    ensures text { IfOk result (λ tokens. length page.now ≤ most → spelled page.now tokens.items ≡ page.now) }
    // with fewer names the page has the same tokens, but for each name that they lack two in the place of one
    ensures naming { (poor : List ℕ → Bool) → Within poor (N.NameSet.knows names.now) → Finer poor (N.NameSet.knows names.now) page.now (lone poor page.now) (lone (N.NameSet.knows names.now) page.now) }
    // the worked pages have the tokens that are written beside them
    ensures worked { PagesRead }
{
    collect(heap, page, names)
}
