// A stem before `@`, by a trial scan.
ghost use Rattle.std.specs.Prelude.{◌≡◌, ◌<◌, length, is_some};
ghost use Rattle.marks.specs.Trials.{tried};
ghost use Rattle.words.specs.Word.{has_byte, email_end};

use marks::{Cursor, Trial};
use page_bytes::{DomainBytes, run_end};

// Whether the byte is one of these. A function of its own: with the library's method in the condition below the proof does not close.
fn has_byte(bytes: &[u8], b: u8) -> bool
    ensures { result ≡ has_byte b bytes.now }
{
    bytes.contains(&b)
}

// Passes the `@` and the domain behind it, if they make an e-mail address of what stands before them.
pub(crate) fn maybe_email(cursor: &mut Cursor) -> Option<()>
    requires { cursor.old.pos < length cursor.old.page.now }
    ensures passed { (is_some result, cursor.new.pos) ≡ tried (email_end cursor.old.page.now cursor.old.pos) cursor.old.pos }
    ensures page { cursor.new.page ≡ cursor.old.page }
{
    let page = cursor.page;
    let start = cursor.pos + 1;
    let back = Some(cursor.pos);
    let mut trial = Trial { cursor, back };
    trial.cursor.pos = run_end(page, start, &DomainBytes);
    let end = trial.cursor.pos;
    if end - start < 4 || !has_byte(&page[start..end], b'.') || trial.cursor.is_at(b'@') {
        return None;
    }
    trial.accept();
    Some(())
}
