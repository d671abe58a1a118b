// The word at a place.
ghost use Rattle.std.specs.Prelude.{◌≡◌};
ghost use Rattle.words.specs.Stops.{before_other, by_stop};
ghost use Rattle.words.specs.Word.{word_or_none};

use crate::email::maybe_email;
use crate::stem::Stem;
use marks::Cursor;
use page_bytes::{NameSet, StemBytes, WordBytes, run_end};
use token::TokenKind;

impl Stem<'_> {
    // The token where no colon follows.
    fn before_other(&self) -> (TokenKind, usize)
        ensures { result ≡ before_other self.now.page.now self.now.end }
    {
        let mut cursor = self.behind();
        if !cursor.is_at(b'@') {
            return (TokenKind::Word, self.end);
        }
        match maybe_email(&mut cursor) {
            Some(()) => (TokenKind::MaybeEmail, cursor.pos),
            None => (
                TokenKind::Word,
                run_end(self.page, cursor.pos + 1, &WordBytes),
            ),
        }
    }

    // The token that begins with it.
    fn token<N: NameSet>(&self, names: &N) -> (TokenKind, usize)
        ensures { result ≡ by_stop (N.NameSet.knows names.now) self.now.page.now self.now.start self.now.end }
    {
        if self.behind().is_at(b':') {
            self.before_colon(names)
        } else {
            self.before_other()
        }
    }
}

// The word, or what begins as one, at a place where nothing else begins. Where no byte is left, it is an empty word.
pub fn word<N: NameSet>(cursor: &Cursor, names: &N) -> (TokenKind, usize)
    ensures { result ≡ word_or_none (N.NameSet.knows names.now) cursor.now.page.now cursor.now.pos }
{
    let Cursor { page, pos: start } = *cursor;
    if start >= page.len() {
        return (TokenKind::Word, start);
    }
    let end = run_end(page, start + 1, &StemBytes);
    Stem { page, start, end }.token(names)
}
