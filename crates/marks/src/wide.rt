// The characters past ASCII that are marks, and the mark of a passed attribute.
ghost use Rattle.std.specs.Prelude.{◌≡◌, [], ◌∷◌};
ghost use Rattle.marks.specs.Shape.{text as exactly, one};
ghost use Rattle.marks.specs.Spelling.{spelt_end};
ghost use Rattle.marks.specs.Wide.{space_or_quote, punctuation_end, pass_end};

use crate::cursor::Cursor;
use page_bytes::ByteClass;

// The last byte of U+2007, U+2018, U+2019, U+201C, U+201D or U+202F.
struct SpaceOrQuote;

impl ByteClass for SpaceOrQuote {
    ghost holds = { λ _ b. space_or_quote b };

    fn contains(&self, b: u8) -> bool {
        matches!(b, 0x87 | 0x98 | 0x99 | 0x9C | 0x9D | 0xAF)
    }
}

impl Cursor<'_> {
    // The end of one of those characters.
    fn space_or_quote_end(&self) -> Option<usize>
        ensures { result ≡ spelt_end (exactly (0xe2 ∷ 0x80 ∷ []) ∷ one space_or_quote ∷ []) self.now.page.now self.now.pos }
    {
        let mut cursor = *self;
        cursor.pass_text(b"\xE2\x80")?;
        cursor.pass_one(&SpaceOrQuote)?;
        Some(cursor.pos)
    }

    // The end of the mark past ASCII that stands there.
    pub fn punctuation_end(&self) -> Option<usize>
        ensures { result ≡ punctuation_end self.now.page.now self.now.pos }
    {
        match self.byte()? {
            0xC2 => self.text_end(b"\xC2\xA0"),
            0xE2 => self.space_or_quote_end().or(self.text_end(b"\xE2\x81\xA0")),
            0xE3 => self.text_end(b"\xE3\x80\x80"),
            0xEF => self.text_end(b"\xEF\xBB\xBF"),
            _ => None,
        }
    }

    // The end of ESC and `ass:`.
    pub fn pass_end(&self) -> Option<usize>
        ensures { result ≡ pass_end self.now.page.now self.now.pos }
    {
        self.text_end(b"\x1Bass:")
    }
}
