// What stands at a place of a page, and before it.
ghost use Rattle.std.specs.Prelude.{◌≡◌, ◌-◌, ◌≤◌, true, length, slice_get};
ghost use Rattle.marks.specs.Places.{is_at, text_at, class_at, line_start, escaped};

use crate::cursor::Cursor;
use page_bytes::ByteClass;

impl Cursor<'_> {
    // The byte that stands there.
    pub(crate) fn byte(&self) -> Option<u8>
        ensures { result ≡ slice_get self.now.page.now self.now.pos }
    {
        self.page.get(self.pos).copied()
    }

    // Whether the byte `b` stands there.
    pub fn is_at(&self, b: u8) -> bool
        ensures { result ≡ is_at self.now.page.now self.now.pos b }
    {
        self.byte() == Some(b)
    }

    // Whether a byte of the class stands there.
    pub(crate) fn class_at<C: ByteClass>(&self, class: &C) -> bool
        ensures { result ≡ class_at (C.ByteClass.holds class.now) self.now.page.now self.now.pos }
    {
        self.byte().is_some_and(|b| class.contains(b))
    }

    // Whether it is the page's first place, or LF stands before it.
    pub fn at_line_start(&self) -> bool
        ensures { result ≡ line_start self.now.page.now self.now.pos }
    {
        self.pos == 0 || self.with_pos(self.pos - 1).is_at(b'\n')
    }

    // Whether a backslash stands before it.
    pub(crate) fn is_escaped(&self) -> bool
        ensures { result ≡ escaped self.now.page.now self.now.pos }
    {
        self.pos != 0 && self.with_pos(self.pos - 1).is_at(b'\\')
    }

    // Whether the text stands there. Past the page's end none does but the empty one.
    pub fn text_at(&self, text: &[u8]) -> bool
        ensures is { result ≡ text_at text.now self.now.page.now self.now.pos }
        ensures fits { result ≡ true → length text.now ≤ length self.now.page.now - self.now.pos }
    {
        // most texts are told by their first byte
        if let Some(first) = text.first()
            && !self.is_at(*first)
        {
            return false;
        }
        match self.page.get(self.pos..) {
            Some(rest) => rest.starts_with(text),
            None => text.is_empty(),
        }
    }
}
