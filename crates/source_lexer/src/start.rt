// Where a token begins.
ghost use Rattle.std.specs.Prelude.{◌≡◌, ◌+◌, ◌<◌, length, slice_index};
ghost use Rattle.page_bytes.specs.Runs.{run_end};
ghost use Rattle.source_lexer.specs.Chosen.{same_end};

use marks::Cursor;
use page_bytes::{ByteClass, OneByte, run_end};
use token::TokenKind;

// A place of a page at which a byte stands.
#[derive(Clone, Copy)]
pub(crate) struct Start<'p> {
    pub(crate) page: &'p [u8],
    pub(crate) pos: usize,
    ghost inside: { pos < length page.now },
}

impl<'p> Start<'p> {
    pub(crate) fn cursor(&self) -> Cursor<'p>
        ensures { result ≡ record { page = self.now.page; pos = self.now.pos } }
    {
        Cursor {
            page: self.page,
            pos: self.pos,
        }
    }

    // The byte that stands there.
    pub(crate) fn byte(&self) -> u8
        ensures { result ≡ slice_index self.now.page.now self.now.pos }
    {
        self.page[self.pos]
    }

    // A token of that byte alone.
    pub(crate) fn single(&self, kind: TokenKind) -> Option<(TokenKind, usize)>
        ensures { result ≡ Some (kind, self.now.pos + 1) }
    {
        Some((kind, self.pos + 1))
    }

    // The end of that byte and of the run of the class behind it.
    pub(crate) fn run_end<C: ByteClass>(&self, class: &C) -> usize
        ensures is { result ≡ run_end (C.ByteClass.holds class.now) self.now.page.now (self.now.pos + 1) }
        ensures onward { self.now.pos < result }
    {
        run_end(self.page, self.pos + 1, class)
    }

    // The end of the run of that byte.
    pub(crate) fn repeating(&self) -> usize
        ensures is { result ≡ same_end self.now.page.now self.now.pos }
        ensures onward { self.now.pos < result }
    {
        self.run_end(&OneByte(self.byte()))
    }
}
