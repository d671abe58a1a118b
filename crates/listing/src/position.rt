ghost use Rattle.std.specs.Prelude.{◌≡◌, ◌≤◌, length};
ghost use Rattle.lines.specs.Lines.{line_of, column_of};

use crate::listed::ListedToken;
use token::TokenRecord;

// A place of a page with its line and its column, which are counted on as the place moves.
#[derive(Drop)]
pub(crate) struct Position<'a> {
    pub page: &'a [u8],
    pub place: usize,
    pub line: usize,
    pub column: usize,
    pub ghost on_page: { place ≤ length page.now },
    pub ghost line_is: { line ≡ line_of page.now place },
    pub ghost column_is: { column ≡ column_of page.now place },
}

impl<'a> Position<'a> {
    ghost use Rattle.source_lexer.specs.Lone.{start_of};
    ghost use Rattle.listing.specs.Listed.{listed_of};

    // The position of the page's first byte.
    pub(crate) fn first(page: &'a [u8]) -> Position<'a>
        ensures page { result.page ≡ page.entry }
        ensures place { result.place ≡ 0 }
    {
        Position {
            page,
            place: 0,
            line: 1,
            column: 0,
        }
    }

    // Moves on to a later place.
    pub(crate) fn move_to(&mut self, place: usize)
        requires onward { self.old.place ≤ place }
        requires on_page { place ≤ length self.old.page.now }
        ensures page { self.new.page ≡ self.old.page }
        ensures place { self.new.place ≡ place }
    {
        for b in &self.page[self.place..place] {
            // place, line and column move on together, since the ghost fields tie the one to the others
            self.place += 1;
            if *b == b'\n' {
                self.line += 1;
                self.column = 0;
            } else {
                self.column += 1;
            }
        }
    }

    // The token, with this line and column.
    pub(crate) fn listed(&self, token: TokenRecord) -> ListedToken
        requires { start_of token ≡ self.now.place }
        ensures { result ≡ listed_of self.now.page.now token }
    {
        ListedToken {
            token,
            line: self.line,
            column: self.column,
        }
    }
}
