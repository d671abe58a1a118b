// UTF-8 by a machine whose state knows which continuation bytes are due.
ghost use Rattle.std.specs.Prelude.{◌≡◌, is_ok, IsOk, IsUtf8, Some, ◌↔◌};
ghost use Rattle.page_bytes.specs.Machine.{next};
ghost use Rattle.page_bytes.specs.Utf8.{well_formed, Verdict, Skips, Scanned};

use crate::class::Ascii;
use crate::run::run_end;
use crate::utf8_fault::Utf8Fault;
use crate::utf8_state::Utf8State;

impl Utf8State {
    // The state after one byte more; none where no text goes on with that byte.
    fn after(self, byte: u8) -> Option<Utf8State>
        ensures { result ≡ next (Some self) byte }
    {
        let state = match (self, byte) {
            (Utf8State::Start, 0x00..=0x7F) => Utf8State::Start,
            (Utf8State::Start, 0xC2..=0xDF) => Utf8State::Due1,
            (Utf8State::Start, 0xE0) => Utf8State::AfterE0,
            (Utf8State::Start, 0xE1..=0xEC | 0xEE..=0xEF) => Utf8State::Due2,
            (Utf8State::Start, 0xED) => Utf8State::AfterEd,
            (Utf8State::Start, 0xF0) => Utf8State::AfterF0,
            (Utf8State::Start, 0xF1..=0xF3) => Utf8State::Due3,
            (Utf8State::Start, 0xF4) => Utf8State::AfterF4,
            (Utf8State::Due1, 0x80..=0xBF) => Utf8State::Start,
            (Utf8State::Due2, 0x80..=0xBF) => Utf8State::Due1,
            (Utf8State::Due3, 0x80..=0xBF) => Utf8State::Due2,
            (Utf8State::AfterE0, 0xA0..=0xBF) => Utf8State::Due1,
            (Utf8State::AfterEd, 0x80..=0x9F) => Utf8State::Due1,
            (Utf8State::AfterF0, 0x90..=0xBF) => Utf8State::Due2,
            (Utf8State::AfterF4, 0x80..=0x8F) => Utf8State::Due2,
            _ => return None,
        };
        Some(state)
    }
}

// What is left of some bytes for the machine: where nothing is due, the ASCII bytes ahead leave it as it is.
fn skip_ascii(state: Utf8State, bytes: &[u8]) -> &[u8]
    ensures { Skips state bytes.entry.now result.now }
{
    match state {
        Utf8State::Start => &bytes[run_end(bytes, 0, &Ascii)..],
        _ => bytes,
    }
}

// Runs the machine over the bytes, up to the first fault or to its state after all of them.
fn scan(bytes: &[u8]) -> Result<Utf8State, Utf8Fault>
    ensures { Scanned bytes.now result }
{
    let mut state = Utf8State::Start;
    let mut rest = skip_ascii(state, bytes);
    while let Some((byte, behind)) = rest.split_first() {
        let place = bytes.len() - rest.len();
        state = state.after(*byte).ok_or(Utf8Fault::Byte(place))?;
        rest = skip_ascii(state, behind);
    }
    Ok(state)
}

// Whether the bytes are well-formed UTF-8, and if not, where the first fault stands.
pub fn check_utf8(bytes: &[u8]) -> Result<(), Utf8Fault>
    ensures is { is_ok result ≡ well_formed bytes.now }
    ensures decides { IsOk result ↔ (IsUtf8 bytes.now) }
    ensures fault { Verdict bytes.now result }
{
    match scan(bytes)? {
        Utf8State::Start => Ok(()),
        _ => Err(Utf8Fault::End(bytes.len())),
    }
}
