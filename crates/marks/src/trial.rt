// A guard for a trial scan.
ghost use Rattle.std.specs.Prelude.{◌≡◌, unwrap_or};

use crate::cursor::Cursor;

// Holds the cursor during a trial scan, and the place to go back to. However the scan is left, the cursor goes back there, unless the scan
// was accepted.
// There is no `new`: the proof of its caller would not learn that the guard holds the cursor, since the cursor's type has a lifetime.
pub struct Trial<'c, 'p> {
    pub cursor: &'c mut Cursor<'p>,
    // none once the scan is accepted
    pub back: Option<usize>,
}

impl Trial<'_, '_> {
    // Accepts the scan: the cursor stays where it is. Answers the place to which it goes back no more.
    pub fn accept(&mut self) -> Option<usize>
        ensures accepted { self.new.back ≡ None }
        ensures back { result ≡ self.old.back }
        ensures cursor { self.new.cursor.now ≡ self.old.cursor.now }
        ensures lender { self.new.cursor.ghost_name ≡ self.old.cursor.ghost_name }
    {
        self.back.take()
    }
}

impl Drop for Trial<'_, '_> {
    fn drop(self)
        ensures { self.exit.0.now ≡ record { page = self.entry.cursor.now.page; pos = unwrap_or self.entry.back self.entry.cursor.now.pos } }
    {
        let Trial { cursor, back } = self;
        if let Some(back) = back {
            cursor.pos = back;
        }
    }
}
