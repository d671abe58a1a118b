// The ends of a page, and bytes that are no text.
use crate::reading::check_page;
use page_bytes::NoNames;
use source_lexer::{SourceLexer, read_page};
use std::test::Fail;
use token::Place;

#[test]
fn an_empty_page_has_no_token(rt: HostRuntime) -> Result<(), Fail> {
    assert!(rt; check_page(rt.alloc(), b"", b"", "")?);
    Ok(())
}

#[test]
fn each_byte_alone_is_one_token(rt: HostRuntime) -> Result<(), Fail> {
    for b in 0..=255 {
        let tokens = read_page(rt.alloc(), &[b], &NoNames)?;
        assert_eq!(rt; tokens.len(), 1);
        assert_eq!(rt; tokens[0].len, 1);
        assert_eq!(rt; tokens[0].start, Place::new(0));
    }
    Ok(())
}

#[test]
fn at_the_end_and_past_it_the_reader_stays(rt: HostRuntime) {
    let mut reader = SourceLexer::new(Place::new(3));
    assert!(rt; reader.next_token(b"abc", &NoNames).is_none(), "at the end");
    assert_eq!(rt; reader.pos(), Place::new(3));
    assert!(rt;
        reader.next_token(b"ab", &NoNames).is_none(),
        "past the end"
    );
    assert_eq!(rt; reader.pos(), Place::new(3));
    assert!(rt;
        reader.next_token(b"", &NoNames).is_none(),
        "of an empty page"
    );
    assert_eq!(rt; reader.pos(), Place::new(3));
    assert!(rt;
        reader.next_token(b"abcd", &NoNames).is_some(),
        "a byte is left"
    );
    assert_eq!(rt; reader.pos(), Place::new(4));
}

#[test]
fn a_reader_at_the_last_place_stays(rt: HostRuntime) {
    let mut reader = SourceLexer::new(Place::new(4_294_967_295));
    assert!(rt; reader.next_token(b"abc", &NoNames).is_none());
    assert_eq!(rt; reader.pos(), Place::new(4_294_967_295));
}

// A line start is told by the page alone: the part's first place is one, whatever stands before the part in its area.
#[test]
fn a_part_of_an_area_is_a_page_of_its_own(rt: HostRuntime) -> Result<(), Fail> {
    let area = b"a----\n----";
    assert!(rt;
        check_page(
            rt.alloc(),
            &area[1..6],
            b"",
            "DelimiterLine:0:4 Newline:4:5"
        )?
    );
    assert!(rt; check_page(rt.alloc(), &area[0..5], b"", "Word:0:1 Dashes:1:5")?);
    assert!(rt; check_page(rt.alloc(), &area[6..9], b"", "Dashes:0:3")?);
    Ok(())
}

#[test]
fn bytes_that_are_no_text_have_tokens_too(rt: HostRuntime) -> Result<(), Fail> {
    assert!(rt;
        check_page(rt.alloc(), b"\xE2\x80", b"", "Word:0:2")?,
        "a mark cut short"
    );
    assert!(rt;
        check_page(rt.alloc(), b"\xC2", b"", "Word:0:1")?,
        "a first byte alone"
    );
    assert!(rt;
        check_page(
            rt.alloc(),
            b"\x99-\xFF",
            b"",
            "Word:0:1 Dashes:1:2 Word:2:3"
        )?
    );
    Ok(())
}
