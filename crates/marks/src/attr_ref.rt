// Attribute references.
ghost use Rattle.std.specs.Prelude.{◌≡◌, codes};
ghost use Rattle.marks.specs.AttrRef.{name_before, attr_ref_end};
ghost use Rattle.marks.specs.Spelling.{spelt_end};

use crate::cursor::Cursor;
use page_bytes::{Alphanumerics, Either, OneByte};

// What an attribute's name begins with: letters, digits and `_`.
const WORD_CHARS: Either<Alphanumerics, OneByte> = Either(Alphanumerics, OneByte(b'_'));

// What it goes on with: these and `-`.
const NAME_CHARS: Either<Either<Alphanumerics, OneByte>, OneByte> = Either(
    WORD_CHARS,
    OneByte(b'-'),
);

impl Cursor<'_> {
    // The end of the name that begins there and of the brace behind it.
    fn name_end(mut self) -> Option<usize>
        ensures { result ≡ spelt_end (name_before (codes "}")) self.entry.page.now self.entry.pos }
    {
        self.pass_one(&WORD_CHARS)?;
        self.upto_end(&NAME_CHARS, b"}")
    }

    // The end of the attribute reference that begins there.
    pub fn attr_ref_end(&self) -> Option<usize>
        ensures { result ≡ attr_ref_end self.now.page.now self.now.pos }
    {
        if self.is_escaped() {
            return None;
        }
        let mut cursor = *self;
        cursor.pass_text(b"{")?;
        cursor.name_end()
    }
}
