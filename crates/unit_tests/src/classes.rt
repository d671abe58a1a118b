// Byte classes, and the runs and counts of their members.
use page_bytes::{
    Alphanumerics, Ascii, Blanks, ByteClass, ContinuationBytes, Digits, DomainBytes, Either,
    HexDigits, Letters, Not, OneByte, StemBytes, WordBytes, count_members, run_end,
};

// Whether the class has exactly the bytes that are listed.
fn is_exactly<C: ByteClass>(class: &C, members: &[u8]) -> bool {
    (0..=255).all(|b| class.contains(b) == members.contains(&b))
}

// What ends a word in the Rust lexer, as its source lists it, and what ends a word's stem.
const WORD_ENDS: &[u8] = b" \t\n\r\x0B\x0C:;<>,^_~*!?`+.[]{}()=|\"'\\%#&-\x1B";

const STEM_ENDS: &[u8] = b"@ \t\n\r\x0B\x0C:;<>,^_~*!?`+.[]{}()=|\"'\\%#&-\x1B";

const LETTERS: &[u8] = b"ABCDEFGHIJKLMNOPQRSTUVWXYZabcdefghijklmnopqrstuvwxyz";

const LETTERS_AND_DIGITS: &[u8] = b"ABCDEFGHIJKLMNOPQRSTUVWXYZabcdefghijklmnopqrstuvwxyz0123456789";

const DOMAIN_BYTES: &[u8] = b"ABCDEFGHIJKLMNOPQRSTUVWXYZabcdefghijklmnopqrstuvwxyz0123456789.-_";

#[test]
fn a_word_ends_where_the_rust_has_it(rt: HostRuntime) {
    assert!(rt; is_exactly(&Not(WordBytes), WORD_ENDS), "word bytes");
    assert!(rt; is_exactly(&Not(StemBytes), STEM_ENDS), "stem bytes");
}

#[test]
fn members_of_each_class(rt: HostRuntime) {
    assert!(rt; is_exactly(&OneByte(b'='), b"="), "one byte");
    assert!(rt; is_exactly(&Blanks, b" \t\x0B\x0C"), "blanks");
    assert!(rt; is_exactly(&Digits, b"0123456789"), "digits");
    assert!(rt;
        is_exactly(&HexDigits, b"0123456789abcdefABCDEF"),
        "hex digits"
    );
    assert!(rt; is_exactly(&Letters, LETTERS), "letters");
    assert!(rt;
        is_exactly(&Alphanumerics, LETTERS_AND_DIGITS),
        "letters and digits"
    );
    assert!(rt; is_exactly(&DomainBytes, DOMAIN_BYTES), "domain bytes");
    assert!(rt;
        is_exactly(&Either(OneByte(b'a'), OneByte(b'@')), b"a@"),
        "either of two"
    );
    assert!(rt; !Ascii.contains(128) && Ascii.contains(127), "ASCII");
}

#[test]
fn how_many_members(rt: HostRuntime) {
    assert_eq!(rt; count_members(b"", &Digits), 0);
    assert_eq!(rt; count_members(b"aB9.-_@:/\xC3", &DomainBytes), 6);
    assert_eq!(rt; count_members(b"\x7F\x80\xBF\xC0", &ContinuationBytes), 2);
}

#[test]
fn the_longest_run(rt: HostRuntime) {
    assert_eq!(rt; run_end(b"a=====b", 1, &OneByte(b'=')), 6);
    assert_eq!(rt; run_end(b"a=====", 1, &OneByte(b'=')), 6);
    assert_eq!(rt; run_end(b"====", 0, &OneByte(b'=')), 4);
    assert_eq!(rt; run_end(b"a=====b", 0, &OneByte(b'=')), 0);
    assert_eq!(rt; run_end(b"12", 2, &Digits), 2);
    assert_eq!(rt; run_end(b"12", 7, &Digits), 7);
    assert_eq!(rt; run_end(b"", 0, &Digits), 0);
    assert_eq!(rt; run_end(b"ab cd", 0, &Not(Blanks)), 2);
}
