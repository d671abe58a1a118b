// Areas and texts at each limit, and one past it.
use page_bytes::{Refusal, check_area, check_text, checked_page, text_part};
use std::test::Fail;

#[test]
fn numbers_of_refusals(rt: HostRuntime) {
    assert_eq!(rt; Refusal::AreaTooLong.number(), 1);
    assert_eq!(rt; Refusal::PastArea.number(), 2);
    assert_eq!(rt; Refusal::TextTooLong.number(), 3);
    assert_eq!(rt; Refusal::NotUtf8.number(), 4);
}

#[test]
fn the_longest_area(rt: HostRuntime) -> Result<(), Fail> {
    let mut area = vec![in rt.alloc(); b'a'; 16_777_216]?;
    assert_eq!(rt; check_area(&area).err(), None);
    assert_eq!(rt; checked_page(&area, 16_777_216, 0).err(), None);
    assert_eq!(rt; checked_page(&area, 0, 1_048_576).err(), None);
    assert_eq!(rt;
        checked_page(&area, 0, 1_048_577).err(),
        Some(Refusal::TextTooLong)
    );
    assert_eq!(rt;
        checked_page(&area, 16_777_216, 1).err(),
        Some(Refusal::PastArea)
    );
    area.push(b'a')?;
    assert_eq!(rt; check_area(&area).err(), Some(Refusal::AreaTooLong));
    assert_eq!(rt;
        checked_page(&area, u32::MAX, u32::MAX).err(),
        Some(Refusal::AreaTooLong)
    );
    Ok(())
}

#[test]
fn the_longest_text(rt: HostRuntime) -> Result<(), Fail> {
    let mut text = vec![in rt.alloc(); b'a'; 1_048_576]?;
    assert_eq!(rt; check_text(&text).err(), None);
    text.push(0xFF)?;
    assert_eq!(rt;
        check_text(&text).err(),
        Some(Refusal::TextTooLong),
        "too long comes before not UTF-8"
    );
    Ok(())
}

#[test]
fn a_part_of_an_area(rt: HostRuntime) -> Result<(), Fail> {
    let area = b"ab\xC3\xA9\xFF";
    assert_eq!(rt; text_part(area, 5, 0).err(), None);
    assert_eq!(rt;
        text_part(area, 6, 0).err(),
        Some(Refusal::PastArea),
        "an empty text past the area"
    );
    assert_eq!(rt; text_part(area, 4, 2).err(), Some(Refusal::PastArea));
    assert_eq!(rt;
        text_part(area, u32::MAX, u32::MAX).err(),
        Some(Refusal::PastArea)
    );
    assert_eq!(rt; checked_page(area, 0, 4).err(), None);
    assert_eq!(rt;
        checked_page(area, 0, 3).err(),
        Some(Refusal::NotUtf8),
        "cut inside a character"
    );
    assert_eq!(rt;
        checked_page(area, 3, 1).err(),
        Some(Refusal::NotUtf8),
        "begun inside a character"
    );
    assert_eq!(rt; checked_page(area, 4, 1).err(), Some(Refusal::NotUtf8));
    let page = text_part(area, 1, 3)?;
    assert!(rt; page == b"b\xC3\xA9".as_slice(), "the part itself");
    Ok(())
}
