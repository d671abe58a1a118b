ghost use Rattle.std.specs.Prelude.{◌≡◌, Some};
ghost use Rattle.page_bytes.specs.Refusals.{number_of, reason_of};

use std::fmt;

// Why a call is refused: one enum for the whole product, each refusal with its number.
#[derive(Clone, Copy, Debug, PartialEq, Eq)]
pub enum Refusal {
    // the area has more than 16,777,216 bytes
    AreaTooLong = 1,
    // the text reaches past its area
    PastArea = 2,
    // the text has more than 1,048,576 bytes
    TextTooLong = 3,
    // the text is not well-formed UTF-8
    NotUtf8 = 4,
}

impl Refusal {
    // Its number. The method is what callers have; a `From` beside it would be a second way to it.
    pub fn number(self) -> u8
        ensures { result ≡ number_of self }
    {
        self as u8
    }

    // The ground in words.
    pub fn reason(self) -> &'static str
        ensures { result.now ≡ reason_of self }
    {
        match self {
            Refusal::AreaTooLong => "the area has more than 16777216 bytes",
            Refusal::PastArea => "the text reaches past its area",
            Refusal::TextTooLong => "the text has more than 1048576 bytes",
            Refusal::NotUtf8 => "the text is not well-formed UTF-8",
        }
    }
}

// Displays its ground.
impl fmt::Display for Refusal {
    ghost output = { λ refusal. Some (reason_of refusal) };

    fn fmt<W: fmt::Write>(&self, f: &mut fmt::Formatter<W>) -> fmt::Result {
        f.write_str(self.reason())
    }
}
