// Which bytes of an area may be read as a text. The grounds for a refusal are tried in the order of their numbers.
ghost use Rattle.std.specs.Prelude.{◌≡◌, IsOk, IfOk, ◌↔◌};
ghost use Rattle.page_bytes.specs.declared.refusal.Refusal.TheVariants.{NotUtf8};
ghost use Rattle.page_bytes.specs.Refusals.{refusal_of, first_ground, part, area_grounds, part_grounds, text_grounds, page_grounds, IsText, IsPage};

use crate::refusal::Refusal;
use crate::utf8::check_utf8;
use crate::utf8_fault::Utf8Fault;

// The most bytes that an area may have, and a text.
pub const MAX_AREA: usize = 16_777_216;

pub const MAX_TEXT: usize = 1_048_576;

impl From<Utf8Fault> for Refusal {
    ghost from_gives = { λ _ r. r ≡ NotUtf8 };

    fn from(_fault: Utf8Fault) -> Refusal {
        Refusal::NotUtf8
    }
}

// Whether an area is short enough.
pub fn check_area(area: &[u8]) -> Result<(), Refusal>
    ensures { refusal_of result ≡ first_ground (area_grounds area.now) }
{
    if area.len() > MAX_AREA {
        return Err(Refusal::AreaTooLong);
    }
    Ok(())
}

// The part of the area with that start and length: two numbers, since pages are handed over as starts and lengths in one area.
pub fn text_part(area: &[u8], start: u32, len: u32) -> Result<&[u8], Refusal>
    ensures ground { refusal_of result ≡ first_ground (part_grounds area.now start len) }
    ensures value { IfOk result (λ text. text.now ≡ part area.now start len) }
{
    let first = start as usize;
    let end = first + len as usize;
    area.get(first..end).ok_or(Refusal::PastArea)
}

// Whether bytes are a text: not too long, and well-formed UTF-8.
pub fn check_text(text: &[u8]) -> Result<(), Refusal>
    ensures ground { refusal_of result ≡ first_ground (text_grounds text.now) }
    ensures exactly { IsOk result ↔ (IsText text.now) }
{
    if text.len() > MAX_TEXT {
        return Err(Refusal::TextTooLong);
    }
    check_utf8(text)?;
    Ok(())
}

// The text of a page that starts somewhere in an area.
pub fn checked_page(area: &[u8], start: u32, len: u32) -> Result<&[u8], Refusal>
    ensures ground { refusal_of result ≡ first_ground (page_grounds area.now start len) }
    ensures value { IfOk result (λ text. text.now ≡ part area.now start len) }
    ensures exactly { IsOk result ↔ (IsPage area.now start len) }
{
    check_area(area)?;
    let text = text_part(area, start, len)?;
    check_text(text)?;
    Ok(text)
}
