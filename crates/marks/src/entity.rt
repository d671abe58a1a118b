// Character references.
ghost use Rattle.std.specs.Prelude.{◌≡◌, [], ◌∷◌, codes};
ghost use Rattle.marks.specs.Entity.{references, entity_end};
ghost use Rattle.marks.specs.Shape.{one, upto};
ghost use Rattle.marks.specs.Spelling.{spelt_end, first_end};

use crate::cursor::Cursor;
use page_bytes::{Alphanumerics, ByteClass, Digits, HexDigits, Letters};

impl Cursor<'_> {
    // The end of one byte of the class or more and of a semicolon.
    fn finish_entity<C: ByteClass>(mut self, class: &C) -> Option<usize>
        ensures { result ≡ spelt_end (one (C.ByteClass.holds class.now) ∷ upto (C.ByteClass.holds class.now) (codes ";") ∷ []) self.entry.page.now self.entry.pos }
    {
        self.pass_one(class)?;
        self.upto_end(class, b";")
    }

    // The end of the character reference that begins there, escaped or not.
    fn reference_end(&self) -> Option<usize>
        ensures { result ≡ first_end references self.now.page.now self.now.pos }
    {
        if !self.is_at(b'&') {
            return None;
        }
        let next = self.with_pos(self.pos + 1);
        if next.class_at(&Letters) {
            return self.with_pos(next.pos + 1).finish_entity(&Alphanumerics);
        }
        if next.text_at(b"#x") {
            return self.with_pos(self.pos + 3).finish_entity(&HexDigits);
        }
        if next.is_at(b'#') {
            return self.with_pos(self.pos + 2).finish_entity(&Digits);
        }
        None
    }

    // The end of the character reference that begins there.
    pub fn entity_end(&self) -> Option<usize>
        ensures { result ≡ entity_end self.now.page.now self.now.pos }
    {
        if self.is_escaped() {
            return None;
        }
        self.reference_end()
    }
}
