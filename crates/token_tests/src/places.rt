// Places, locations and the numbers of kinds.
use token::{Location, Place, TokenKind};

#[test]
fn a_place_has_a_location_where_32_bits_will_do(rt: HostRuntime) {
    assert_eq!(rt; Place::new(5).location(7), Some(Location::new(12)));
    assert_eq!(rt;
        Place::new(0).location(4_294_967_295),
        Some(Location::new(4_294_967_295))
    );
    assert_eq!(rt; Place::new(1).location(4_294_967_295), None);
}

#[test]
fn a_location_has_a_place_from_the_offset_on(rt: HostRuntime) {
    assert_eq!(rt; Location::new(12).place(7), Some(Place::new(5)));
    assert_eq!(rt; Location::new(7).place(7), Some(Place::new(0)));
    assert_eq!(rt; Location::new(6).place(7), None);
}

#[test]
fn kinds_are_numbered_in_their_order(rt: HostRuntime) {
    assert_eq!(rt; TokenKind::Ampersand.number(), 0, "the first");
    assert_eq!(rt; TokenKind::Eof.number(), 24);
    assert_eq!(rt; TokenKind::Word.number(), 50, "the last");
    assert_eq!(rt; TokenKind::Dots, TokenKind::Dots);
    assert_ne!(rt; TokenKind::Dots, TokenKind::Dashes);
}
