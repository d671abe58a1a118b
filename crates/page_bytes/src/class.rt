// Classes of bytes, each by the set that it means.
ghost use Rattle.std.specs.Prelude.{◌≡◌, ℕ, Bool, not, ◌||◌, ◌==◌};
ghost use Rattle.std.specs.Char.{is_ascii_digit, is_ascii_hexdigit, is_ascii_alphabetic, is_ascii_alphanumeric};
ghost use Rattle.page_bytes.specs.Classes.{ascii, continuation, blank, domain_byte, word_byte, stem_byte};

use crate::tables::{BLANK, STEM, WORD, class_bits};

// A set of bytes.
pub trait ByteClass {
    // whether a byte is a member
    ghost holds: { Self → ℕ → Bool };

    // Yes exactly for the members.
    fn contains(&self, b: u8) -> bool
        ensures { result ≡ holds self.now b };
}

// The one byte that it names.
#[derive(Clone, Copy)]
pub struct OneByte(pub u8);

impl ByteClass for OneByte {
    ghost holds = { λ class b. (b == class.0) };

    fn contains(&self, b: u8) -> bool {
        b == self.0
    }
}

// The bytes below 128.
#[derive(Clone, Copy)]
pub struct Ascii;

impl ByteClass for Ascii {
    ghost holds = { λ _ b. ascii b };

    fn contains(&self, b: u8) -> bool {
        b < 128
    }
}

// The bytes of a character that are not its first: 80..=BF.
#[derive(Clone, Copy)]
pub struct ContinuationBytes;

impl ByteClass for ContinuationBytes {
    ghost holds = { λ _ b. continuation b };

    fn contains(&self, b: u8) -> bool {
        matches!(b, 0x80..=0xBF)
    }
}

// Space, tab, VT and FF.
// It differs from `WordBytes` and `StemBytes` in a bit of the table alone. One type over the bit would have the bit in its contract, and not
// the class.
#[derive(Clone, Copy)]
pub struct Blanks;

impl ByteClass for Blanks {
    ghost holds = { λ _ b. blank b };

    fn contains(&self, b: u8) -> bool {
        class_bits(b) & BLANK != 0
    }
}

#[derive(Clone, Copy)]
pub struct Digits;

impl ByteClass for Digits {
    ghost holds = { λ _ b. is_ascii_digit b };

    fn contains(&self, b: u8) -> bool {
        b.is_ascii_digit()
    }
}

#[derive(Clone, Copy)]
pub struct HexDigits;

impl ByteClass for HexDigits {
    ghost holds = { λ _ b. is_ascii_hexdigit b };

    fn contains(&self, b: u8) -> bool {
        b.is_ascii_hexdigit()
    }
}

#[derive(Clone, Copy)]
pub struct Letters;

impl ByteClass for Letters {
    ghost holds = { λ _ b. is_ascii_alphabetic b };

    fn contains(&self, b: u8) -> bool {
        b.is_ascii_alphabetic()
    }
}

// Letters and digits.
#[derive(Clone, Copy)]
pub struct Alphanumerics;

impl ByteClass for Alphanumerics {
    ghost holds = { λ _ b. is_ascii_alphanumeric b };

    fn contains(&self, b: u8) -> bool {
        b.is_ascii_alphanumeric()
    }
}

// Letters, digits, `.`, `-` and `_`.
#[derive(Clone, Copy)]
pub struct DomainBytes;

impl ByteClass for DomainBytes {
    ghost holds = { λ _ b. domain_byte b };

    fn contains(&self, b: u8) -> bool {
        matches!(b, b'-' | b'.' | b'_') || b.is_ascii_alphanumeric()
    }
}

// What does not end a word.
#[derive(Clone, Copy)]
pub struct WordBytes;

impl ByteClass for WordBytes {
    ghost holds = { λ _ b. word_byte b };

    fn contains(&self, b: u8) -> bool {
        class_bits(b) & WORD != 0
    }
}

// What does not end a word and is not `@`: a word's stem, the part before its `@`, is made of these.
#[derive(Clone, Copy)]
pub struct StemBytes;

impl ByteClass for StemBytes {
    ghost holds = { λ _ b. stem_byte b };

    fn contains(&self, b: u8) -> bool {
        class_bits(b) & STEM != 0
    }
}

// The opposite of a class.
#[derive(Drop)]
pub struct Not<C>(pub C);

impl<C: ByteClass> ByteClass for Not<C> {
    ghost holds = { λ class b. not (C.ByteClass.holds class.0 b) };

    fn contains(&self, b: u8) -> bool {
        !self.0.contains(b)
    }
}

// Either of two classes.
#[derive(Drop)]
pub struct Either<C, D>(pub C, pub D);

impl<C: ByteClass, D: ByteClass> ByteClass for Either<C, D> {
    ghost holds = { λ class b. C.ByteClass.holds class.0 b || D.ByteClass.holds class.1 b };

    fn contains(&self, b: u8) -> bool {
        self.0.contains(b) || self.1.contains(b)
    }
}
