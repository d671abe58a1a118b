// The rows of the UTF-8 table of RFC 3629, section 4: each byte of each row at both ends of its range and one past them, and texts cut
// short.
use page_bytes::Utf8Fault::{self, Byte, End};
use page_bytes::check_utf8;

// Bytes, and what is answered of them.
struct Case<'a>(&'a [u8], Result<(), Utf8Fault>);

static CASES: [Case; 89] = [
    // one byte, and bytes that begin nothing
    Case(b"", Ok(())),
    Case(b"\x00", Ok(())),
    Case(b"\x7F", Ok(())),
    Case(b"\x80", Err(Byte(0))),
    Case(b"\xBF", Err(Byte(0))),
    Case(b"\xF5\x80\x80\x80", Err(Byte(0))),
    Case(b"\xFE", Err(Byte(0))),
    Case(b"\xFF\xFF", Err(Byte(0))),
    // two bytes
    Case(b"\xC2\x80", Ok(())),
    Case(b"\xDF\xBF", Ok(())),
    Case(b"\xC0\x80", Err(Byte(0))),
    Case(b"\xC1\xBF", Err(Byte(0))),
    Case(b"\xC2", Err(End(1))),
    Case(b"\xC2\x7F", Err(Byte(1))),
    Case(b"\xDF\xC0", Err(Byte(1))),
    Case(b"\xC2\xC0", Err(Byte(1))),
    Case(b"\xDF\x7F", Err(Byte(1))),
    // three bytes
    Case(b"\xE0\xA0\x80", Ok(())),
    Case(b"\xE0\xBF\xBF", Ok(())),
    Case(b"\xE0\x9F\xBF", Err(Byte(1))),
    Case(b"\xE0\xC0\x80", Err(Byte(1))),
    Case(b"\xE0", Err(End(1))),
    Case(b"\xE0\xA0", Err(End(2))),
    Case(b"\xE0\xA0\x7F", Err(Byte(2))),
    Case(b"\xE0\xA0\xC0", Err(Byte(2))),
    Case(b"\xE1\x80\x80", Ok(())),
    Case(b"\xEC\xBF\xBF", Ok(())),
    Case(b"\xE1\x7F\x80", Err(Byte(1))),
    Case(b"\xEC\xC0\x80", Err(Byte(1))),
    Case(b"\xEC\xBF", Err(End(2))),
    Case(b"\xE1\xC0\x80", Err(Byte(1))),
    Case(b"\xEC\x7F\x80", Err(Byte(1))),
    Case(b"\xE1\x80\x7F", Err(Byte(2))),
    Case(b"\xEC\xBF\xC0", Err(Byte(2))),
    // three bytes about the surrogates
    Case(b"\xED\x80\x80", Ok(())),
    Case(b"\xED\x9F\xBF", Ok(())),
    Case(b"\xED\xA0\x80", Err(Byte(1))),
    Case(b"\xED\xBF\xBF", Err(Byte(1))),
    Case(b"\xED\x7F\x80", Err(Byte(1))),
    Case(b"\xED", Err(End(1))),
    Case(b"\xED\x9F", Err(End(2))),
    Case(b"\xED\x80\x7F", Err(Byte(2))),
    Case(b"\xED\x9F\xC0", Err(Byte(2))),
    Case(b"\xEE\x80\x80", Ok(())),
    Case(b"\xEF\xBF\xBF", Ok(())),
    Case(b"\xEE\x7F\x80", Err(Byte(1))),
    Case(b"\xEF\xC0\x80", Err(Byte(1))),
    Case(b"\xEE\xC0\x80", Err(Byte(1))),
    Case(b"\xEF\x7F\x80", Err(Byte(1))),
    Case(b"\xEE\x80\x7F", Err(Byte(2))),
    Case(b"\xEF\xBF\xC0", Err(Byte(2))),
    // four bytes
    Case(b"\xF0\x90\x80\x80", Ok(())),
    Case(b"\xF0\xBF\xBF\xBF", Ok(())),
    Case(b"\xF0\x8F\xBF\xBF", Err(Byte(1))),
    Case(b"\xF0\xC0\x80\x80", Err(Byte(1))),
    Case(b"\xF0", Err(End(1))),
    Case(b"\xF0\x90", Err(End(2))),
    Case(b"\xF0\x90\x80", Err(End(3))),
    Case(b"\xF0\x90\x7F\x80", Err(Byte(2))),
    Case(b"\xF0\x90\x80\xC0", Err(Byte(3))),
    Case(b"\xF1\x80\x80\x80", Ok(())),
    Case(b"\xF3\xBF\xBF\xBF", Ok(())),
    Case(b"\xF1\x7F\x80\x80", Err(Byte(1))),
    Case(b"\xF3\xC0\x80\x80", Err(Byte(1))),
    Case(b"\xF0\x90\xC0\x80", Err(Byte(2))),
    Case(b"\xF0\x90\x80\x7F", Err(Byte(3))),
    Case(b"\xF1\xC0\x80\x80", Err(Byte(1))),
    Case(b"\xF3\x7F\x80\x80", Err(Byte(1))),
    Case(b"\xF1\x80\x7F\x80", Err(Byte(2))),
    Case(b"\xF3\xBF\xC0\x80", Err(Byte(2))),
    Case(b"\xF1\x80\x80\x7F", Err(Byte(3))),
    Case(b"\xF3\xBF\xBF\xC0", Err(Byte(3))),
    // four bytes up to the last character
    Case(b"\xF4\x80\x80\x80", Ok(())),
    Case(b"\xF4\x8F\xBF\xBF", Ok(())),
    Case(b"\xF4\x90\x80\x80", Err(Byte(1))),
    Case(b"\xF4\x7F\x80\x80", Err(Byte(1))),
    Case(b"\xF4", Err(End(1))),
    Case(b"\xF4\x8F\xBF", Err(End(3))),
    Case(b"\xF4\x80\x7F\x80", Err(Byte(2))),
    Case(b"\xF4\x8F\xC0\x80", Err(Byte(2))),
    Case(b"\xF4\x80\x80\x7F", Err(Byte(3))),
    Case(b"\xF4\x8F\xBF\xC0", Err(Byte(3))),
    // the first fault of several, among ASCII that is passed by its runs
    Case(b"a\xC3\xA9b\xE2\x82\xACc\xF0\x9F\x8D\x87d", Ok(())),
    Case(b"abc\x80d\x80", Err(Byte(3))),
    Case(b"abcd\xFFe", Err(Byte(4))),
    Case(b"abcde\xC3(", Err(Byte(6))),
    Case(b"\xC3\xA9\xA9", Err(Byte(2))),
    Case(b"\xC3\xA9abcdefgh\xE2\x82", Err(End(12))),
    Case(b"\xC3\xA9\n\xC3\xA9\n\xED\xA0\x80", Err(Byte(7))),
];

// The index of the first case that is answered otherwise.
fn first_off(cases: &[Case]) -> Option<usize> {
    cases
        .iter()
        .position(|Case(bytes, answer)| check_utf8(bytes) != *answer)
}

#[test]
fn the_rows_of_the_table(rt: HostRuntime) {
    assert_eq!(rt; first_off(&CASES), None);
}
