// The stem of a word: its first byte, and all up to a byte that ends a word, or `@`.
ghost use Rattle.std.specs.Prelude.{◌≡◌, ◌-◌, ◌<◌, ◌≤◌, true, length, if◌then◌else◌};
ghost use Rattle.marks.specs.Places.{part};
ghost use Rattle.words.specs.Word.{ends_with};

use marks::Cursor;

// What stands on a page from a place up to another.
#[derive(Clone, Copy)]
pub(crate) struct Stem<'p> {
    pub(crate) page: &'p [u8],
    pub(crate) start: usize,
    pub(crate) end: usize,
    ghost begun: { start < end },
    ghost within: { end ≤ length page.now },
}

impl<'p> Stem<'p> {
    // Its bytes.
    pub(crate) fn text(&self) -> &'p [u8]
        ensures { result.now ≡ part self.now.page.now self.now.start self.now.end }
    {
        &self.page[self.start..self.end]
    }

    // The place behind it.
    pub(crate) fn behind(&self) -> Cursor<'p>
        ensures { result ≡ record { page = self.now.page; pos = self.now.end } }
    {
        Cursor {
            page: self.page,
            pos: self.end,
        }
    }

    // Where this text begins, if the stem ends with it. Most stems have another last byte, and are not compared.
    #[tactic(auto, using(crate::proofs::Endings::other_ending))]
    pub(crate) fn ending(&self, text: &[u8]) -> Option<usize>
        ensures { result ≡ (if ends_with text.now (part self.now.page.now self.now.start self.now.end) then Some (self.now.end - length text.now) else None) }
    {
        if let Some(last) = text.last()
            && self.page[self.end - 1] != *last
        {
            return None;
        }
        let front = self.text().strip_suffix(text)?;
        Some(self.start + front.len())
    }
}
