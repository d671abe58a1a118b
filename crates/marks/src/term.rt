// Term delimiters.
ghost use Rattle.std.specs.Prelude.{◌≡◌, [], ◌∷◌, if◌then◌else◌, codes};
ghost use Rattle.marks.specs.Term.{ends_term, stopped_end, term_mark_end, term_end};

use crate::cursor::Cursor;

impl Cursor<'_> {
    // Whether a term may end there: at space, tab, CR, LF or the page's end. Another rule than where a line ends: each may change without the other.
    fn ends_term(&self) -> bool
        ensures { result ≡ ends_term self.now.page.now self.now.pos }
    {
        matches!(self.byte(), None | Some(b' ' | b'\t' | b'\n' | b'\r'))
    }

    // The end of the marks, if they stand there and a term may end behind them.
    fn stopped_end(&self, marks: &[u8]) -> Option<usize>
        ensures { result ≡ stopped_end (marks.now ∷ []) self.now.page.now self.now.pos }
    {
        let end = self.text_end(marks)?;
        self.with_pos(end).ends_term().then_some(end)
    }

    // Where a term may end, at a place behind two colons: there, or behind one colon more, or behind two.
    fn colons_end(&self) -> Option<usize>
        ensures { result ≡ (if ends_term self.now.page.now self.now.pos then Some self.now.pos else stopped_end (codes ":" ∷ codes "::" ∷ []) self.now.page.now self.now.pos) }
    {
        if self.ends_term() {
            return Some(self.pos);
        }
        let behind = self.with_pos(self.text_end(b":")?);
        if behind.ends_term() {
            return Some(behind.pos);
        }
        behind.stopped_end(b":")
    }

    // The end of the marks of a term delimiter that stand there, whether a line starts there or not.
    // Inlined, since at most bytes the first test is all that is done.
    #[inline(always)]
    pub fn peek_term_delimiter(&self) -> Option<usize>
        ensures { result ≡ term_mark_end self.now.page.now self.now.pos }
    {
        // the first byte tells which marks it can be
        match self.byte()? {
            b':' => {
                let behind = self.text_end(b"::")?;
                self.with_pos(behind).colons_end()
            }
            b';' => self.stopped_end(b";;"),
            _ => None,
        }
    }

    // The end of the term delimiter that begins there. Inlined for the same reason.
    #[inline(always)]
    pub fn term_end(&self) -> Option<usize>
        ensures { result ≡ term_end self.now.page.now self.now.pos }
    {
        if self.at_line_start() {
            return None;
        }
        self.peek_term_delimiter()
    }
}
