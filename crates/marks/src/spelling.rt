// Pieces of a spelling.
ghost use Rattle.std.specs.Prelude.{◌≡◌, [], ◌∷◌};
ghost use Rattle.marks.specs.Shape.{upto, text as exactly};
ghost use Rattle.marks.specs.Spelling.{spelt_end};

use crate::cursor::Cursor;
use page_bytes::{ByteClass, run_end};

impl Cursor<'_> {
    // The end of the text, if it stands there.
    pub(crate) fn text_end(&self, text: &[u8]) -> Option<usize>
        ensures { result ≡ spelt_end (exactly text.now ∷ []) self.now.page.now self.now.pos }
    {
        // the proof learns nothing of a closure that holds a cursor
        let pos = self.pos;
        self.text_at(text).then(|| pos + text.len())
    }

    // The end of the run of the class from there on, and of the text behind it.
    pub(crate) fn upto_end<C: ByteClass>(&self, class: &C, behind: &[u8]) -> Option<usize>
        ensures { result ≡ spelt_end (upto (C.ByteClass.holds class.now) behind.now ∷ []) self.now.page.now self.now.pos }
    {
        let end = run_end(self.page, self.pos, class);
        self.with_pos(end).text_end(behind)
    }
}
