// Sets of names.
use page_bytes::{Family, Joined, Listed, NameSet, NoNames};

#[test]
fn a_written_list(rt: HostRuntime) {
    let list = Listed(b"chart\n\nlot-label\nlot\nlast");
    assert!(rt; list.contains_name(b"chart"), "the first");
    assert!(rt; list.contains_name(b"lot-label"), "behind an empty line");
    assert!(rt; list.contains_name(b"lot"), "the beginning of another");
    assert!(rt; list.contains_name(b"last"), "the last, without LF");
    assert!(rt; !list.contains_name(b""), "an empty name");
    assert!(rt; !list.contains_name(b"lo"), "a beginning");
    assert!(rt; !list.contains_name(b"lots"), "a longer one");
    assert!(rt; !list.contains_name(b"art"), "an end");
    assert!(rt; !list.contains_name(b"lot\nlast"), "two lines");
}

#[test]
fn lists_without_names(rt: HostRuntime) {
    assert!(rt; !Listed(b"").contains_name(b""), "an empty list");
    assert!(rt; !Listed(b"\n\n").contains_name(b""), "empty lines");
    assert!(rt; !Listed(b"\n\n").contains_name(b"\n"), "an LF");
    assert!(rt; Listed(b"a\n").contains_name(b"a"), "a last name with LF");
}

#[test]
fn a_family(rt: HostRuntime) {
    let family = Family(b"lot-");
    assert!(rt; family.contains_name(b"lot-7"), "a longer word");
    assert!(rt; !family.contains_name(b"lot-"), "the beginning itself");
    assert!(rt; !family.contains_name(b"lot"), "a shorter word");
    assert!(rt; !family.contains_name(b"lat-7"), "another beginning");
    assert!(rt;
        !Family(b"").contains_name(b""),
        "the empty name is in no family"
    );
    assert!(rt;
        Family(b"").contains_name(b"x"),
        "every other name is in that of the empty beginning"
    );
}

#[test]
fn joined_sets(rt: HostRuntime) {
    let sets = Joined(Listed(b"chart"), Joined(NoNames, Family(b"lot-")));
    assert!(rt; sets.contains_name(b"chart"), "of the first");
    assert!(rt; sets.contains_name(b"lot-7"), "of the last");
    assert!(rt; !sets.contains_name(b"lot-"), "of none");
}
