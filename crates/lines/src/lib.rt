//! Lines of a page, by its LF bytes: the line and the column of a place, and how many lines there are.
#![tactic(auto)]

ghost use Rattle.std.specs.Prelude.{◌≡◌};
ghost use Rattle.lines.specs.Lines.{line_after, column_after, line_of, column_of, line_count};

use page_bytes::{OneByte, count_members};

// How many bytes stand behind the last LF.
fn column_after(front: &[u8]) -> usize
    ensures { result ≡ column_after front.now }
{
    front.iter().rev().take_while(|b| **b != b'\n').count()
}

// The line and the column behind the last of some bytes.
fn position_after(front: &[u8]) -> (usize, usize)
    ensures { result ≡ (line_after front.now, column_after front.now) }
{
    let lf_count = count_members(front, &OneByte(b'\n'));
    (lf_count + 1, column_after(front))
}

// The line of a place, from 1, and its column, the bytes between the line's start and the place: a pair, as the product answers them
// everywhere. A place past the end counts as the end.
// Page and place are two parameters: a cursor belongs to the token rules, of which this layer knows nothing.
pub fn line_and_column(page: &[u8], place: usize) -> (usize, usize)
    ensures { result ≡ (line_of page.now place, column_of page.now place) }
{
    position_after(page.get(..place).unwrap_or(page))
}

// How many lines a page has: one for each LF, and one more where bytes stand behind the last.
pub fn count_lines(page: &[u8]) -> usize
    ensures { result ≡ line_count page.now }
{
    let (line, column) = position_after(page);
    if column > 0 { line } else { line - 1 }
}
