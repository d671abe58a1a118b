// A place of a page, and what moves it on.
ghost use Rattle.std.specs.Prelude.{◌≡◌, [], ◌∷◌, is_some};
ghost use Rattle.marks.specs.Shape.{text as exactly, one};
ghost use Rattle.marks.specs.Spelling.{spelt_end};
ghost use Rattle.marks.specs.Trials.{tried};

use page_bytes::ByteClass;

// A place of a page, with the page. Past the page's end no byte stands.
#[derive(Clone, Copy)]
pub struct Cursor<'p> {
    pub page: &'p [u8],
    pub pos: usize,
}

impl<'p> Cursor<'p> {
    // Another place of the same page.
    pub(crate) fn with_pos(&self, pos: usize) -> Cursor<'p>
        ensures { result ≡ record { page = self.now.page; pos = pos } }
    {
        Cursor { pos, ..*self }
    }

    // Passes the text, if it stands there.
    pub fn pass_text(&mut self, text: &[u8]) -> Option<()>
        ensures passed { (is_some result, self.new.pos) ≡ tried (spelt_end (exactly text.now ∷ []) self.old.page.now self.old.pos) self.old.pos }
        ensures page { self.new.page ≡ self.old.page }
    {
        self.pos = self.text_end(text)?;
        Some(())
    }

    // Passes one byte, if it is of the class.
    pub fn pass_one<C: ByteClass>(&mut self, class: &C) -> Option<()>
        ensures passed { (is_some result, self.new.pos) ≡ tried (spelt_end (one (C.ByteClass.holds class.now) ∷ []) self.old.page.now self.old.pos) self.old.pos }
        ensures page { self.new.page ≡ self.old.page }
    {
        if !self.class_at(class) {
            return None;
        }
        self.pos += 1;
        Some(())
    }
}
