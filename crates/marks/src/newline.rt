// Line ends.
ghost use Rattle.std.specs.Prelude.{◌≡◌};
ghost use Rattle.marks.specs.Newline.{newline_end};

use crate::cursor::Cursor;

impl Cursor<'_> {
    // The end of the line end that stands there.
    pub fn newline_end(&self) -> Option<usize>
        ensures { result ≡ newline_end self.now.page.now self.now.pos }
    {
        match self.byte()? {
            b'\n' => Some(self.pos + 1),
            b'\r' if self.with_pos(self.pos + 1).is_at(b'\n') => Some(self.pos + 2),
            _ => None,
        }
    }
}
