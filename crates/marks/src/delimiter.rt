// Delimiter lines.
ghost use Rattle.std.specs.Prelude.{◌≡◌, ◌<◌, ◌≤◌, length, IfSome};
ghost use Rattle.marks.specs.Delimiter.{fence, line_ends, delimits, delimiter_end, length_and_mark};

use crate::cursor::Cursor;
use page_bytes::{OneByte, run_end};

// Whether so many of a mark, alone on a line, make a delimiter line.
fn is_fence(mark: u8, count: usize) -> bool
    ensures { result ≡ fence mark count }
{
    match mark {
        b'-' => count == 2 || count == 4,
        b'=' => count >= 4,
        b'*' | b'_' | b'+' | b'.' | b'/' => count == 4,
        _ => false,
    }
}

impl Cursor<'_> {
    // Whether the line ends there: at CR, LF or the page's end.
    fn line_ends(&self) -> bool
        ensures { result ≡ line_ends self.now.page.now self.now.pos }
    {
        matches!(self.byte(), None | Some(b'\n' | b'\r'))
    }

    // Whether a whole run of so many marks, which ends there, makes a delimiter line where a line starts.
    pub fn delimits(&self, mark: u8, count: usize) -> bool
        ensures { result ≡ delimits self.now.page.now mark count self.now.pos }
    {
        is_fence(mark, count) && self.line_ends() || mark == b'`' && count == 3
    }

    // The end of the delimiter line that begins there.
    pub fn delimiter_end(&self) -> Option<usize>
        ensures is { result ≡ delimiter_end self.now.page.now self.now.pos }
        ensures onward { IfSome result (λ end. (self.now.pos < length self.now.page.now) × (self.now.pos ≤ end)) }
    {
        let mark = self.byte()?;
        if !self.at_line_start() {
            return None;
        }
        let end = run_end(self.page, self.pos, &OneByte(mark));
        self.with_pos(end)
            .delimits(mark, end - self.pos)
            .then_some(end)
    }

    // Its length and its mark.
    pub fn at_delimiter_line(&self) -> Option<(usize, u8)>
        ensures { result ≡ length_and_mark self.now.page.now self.now.pos (delimiter_end self.now.page.now self.now.pos) }
    {
        let end = self.delimiter_end()?;
        Some((end - self.pos, self.page[self.pos]))
    }
}
