// Why a line has no tokens for an answer.
ghost use Rattle.std.specs.Prelude.{◌≡◌};
ghost use Rattle.recorded.specs.declared.fault.Fault.TheVariants.{Page, NoMemory};

use page_bytes::Refusal;
use std::alloc::{AllocError, AllocFailed};
use std::fmt;

#[derive(Clone, Copy, Debug)]
pub enum Fault {
    // the page would be refused as a text
    Page(Refusal),
    // the line itself is not well formed
    NotText,
    NoTab,
    UnknownWord,
    OddDigits,
    NotHex,
    BadCount,
    LineFeedInName,
    // the line is in order, but there is no memory for it
    NoMemory,
}

// `R` and the number of the refusal, or `?` and what is wrong with the line.
impl fmt::Display for Fault {
    fn fmt<W: fmt::Write>(&self, f: &mut fmt::Formatter<W>) -> fmt::Result {
        let reason = match *self {
            Fault::Page(refusal) => return write!(f, "R{}", refusal.number()),
            Fault::NotText => "the line is not UTF-8",
            Fault::NoTab => "a tab is missing",
            Fault::UnknownWord => "unknown word",
            Fault::OddDigits => "odd number of hexadecimal digits",
            Fault::NotHex => "not a hexadecimal digit",
            Fault::BadCount => "bad count",
            Fault::LineFeedInName => "a name holds LF",
            Fault::NoMemory => "no memory",
        };
        write!(f, "? {reason}")
    }
}

impl From<Refusal> for Fault {
    ghost from_gives = { λ refusal r. r ≡ Page refusal };

    fn from(refusal: Refusal) -> Fault {
        Fault::Page(refusal)
    }
}

impl From<AllocError> for Fault {
    ghost from_gives = { λ _ r. r ≡ NoMemory };

    fn from(_error: AllocError) -> Fault {
        Fault::NoMemory
    }
}

impl<T: Drop> From<AllocFailed<T>> for Fault {
    ghost from_gives = { λ _ r. r ≡ NoMemory };

    fn from(_refused: AllocFailed<T>) -> Fault {
        Fault::NoMemory
    }
}
