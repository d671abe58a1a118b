// Callouts, by trial scans.
ghost use Rattle.std.specs.Prelude.{◌≡◌, [], ◌∷◌, is_some};
ghost use Rattle.std.specs.Option.{option_or};
ghost use Rattle.marks.specs.Shape.{text as exactly};
ghost use Rattle.marks.specs.Callout.{numbered, callout_end};
ghost use Rattle.marks.specs.Spelling.{spelt_end};
ghost use Rattle.marks.specs.Trials.{tried};

use crate::cursor::Cursor;
use crate::trial::Trial;
use page_bytes::{Digits, run_end};

impl Cursor<'_> {
    // Passes a number between two texts, if it stands there.
    // Inlined, since both calls know their texts.
    #[inline(always)]
    fn numbered(&mut self, before: &[u8], behind: &[u8]) -> Option<()>
        ensures passed { (is_some result, self.new.pos) ≡ tried (spelt_end (numbered before.now behind.now) self.old.page.now self.old.pos) self.old.pos }
        ensures page { self.new.page ≡ self.old.page }
    {
        let back = Some(self.pos);
        let mut trial = Trial { cursor: self, back };
        trial.cursor.pass_text(before)?;
        trial.cursor.pass_one(&Digits)?;
        trial.cursor.pos = run_end(trial.cursor.page, trial.cursor.pos, &Digits);
        trial.cursor.pass_text(behind)?;
        trial.accept();
        Some(())
    }

    // Passes a number between two texts, or else the third text, if one of them stands there.
    fn numbered_or(&mut self, before: &[u8], behind: &[u8], dotted: &[u8]) -> Option<()>
        ensures passed { (is_some result, self.new.pos) ≡ tried (option_or (spelt_end (numbered before.now behind.now) self.old.page.now self.old.pos) (spelt_end (exactly dotted.now ∷ []) self.old.page.now self.old.pos)) self.old.pos }
        ensures page { self.new.page ≡ self.old.page }
    {
        // no `or_else`: the proof learns nothing of a closure that holds a cursor
        match self.numbered(before, behind) {
            Some(()) => Some(()),
            None => self.pass_text(dotted),
        }
    }

    // Passes the callout that stands there. Where none does, the cursor stays.
    pub fn callout(&mut self) -> Option<()>
        ensures passed { (is_some result, self.new.pos) ≡ tried (callout_end self.old.page.now self.old.pos) self.old.pos }
        ensures page { self.new.page ≡ self.old.page }
    {
        // past the page's end there is no next place to look at
        self.byte()?;
        // the second byte tells which of the four it can be
        match self.with_pos(self.pos + 1).byte()? {
            b'0'..=b'9' => self.numbered(b"<", b">"),
            b'.' => self.pass_text(b"<.>"),
            b'!' => self.numbered_or(b"<!--", b"-->", b"<!--.-->"),
            _ => None,
        }
    }
}
