// A page in hex text: pieces joined by `+`, each of them hexadecimal digits, and behind them `*` and a count where the bytes are repeated.
ghost use Rattle.std.specs.Prelude.{◌≡◌, ◌++◌, IfOk, OnOk};
ghost use Rattle.std.specs.List.{repeat};
ghost use Rattle.page_bytes.specs.Refusals.{IsText};

use crate::fault::Fault;
use crate::hex::decode_hex;
use page_bytes::{MAX_TEXT, Refusal, check_text};
use std::alloc::Global;

// Some bytes, and how often they stand in the page.
#[derive(Drop)]
struct Piece {
    bytes: Vec<u8>,
    count: u64,
}

impl Piece {
    fn parse(heap: Global, piece: &str) -> Result<Piece, Fault> {
        let (digits, count) = match piece.split_once('*') {
            Some((digits, count)) => (digits, count.parse().map_err(|_| Fault::BadCount)?),
            None => (piece, 1),
        };
        let bytes = decode_hex(heap, digits.as_bytes())?;
        Ok(Piece { bytes, count })
    }

    // Puts the piece behind the page. A page that would be too long is refused before it takes up memory.
    fn add_to(&self, page: &mut Vec<u8>) -> Result<(), Fault>
        ensures { OnOk result (page.new.items ≡ page.old.items ++ repeat self.now.count self.now.bytes.items) }
    {
        let len = self.bytes.len();
        if len == 0 {
            return Ok(());
        }
        let room = MAX_TEXT.saturating_sub(page.len()) / len;
        if self.count > room as u64 {
            return Err(Fault::Page(Refusal::TextTooLong));
        }
        for _ in 0..self.count {
            page.extend_from_slice(&self.bytes)?;
        }
        Ok(())
    }
}

// The page that the hex text stands for, if it is a text.
pub fn parse_page(heap: Global, hex_text: &str) -> Result<Vec<u8>, Fault>
    ensures { IfOk result (λ page. IsText page.items) }
{
    let mut page = Vec::new(heap);
    for piece in hex_text.split('+') {
        Piece::parse(heap, piece)?.add_to(&mut page)?;
    }
    check_text(&page)?;
    Ok(page)
}
