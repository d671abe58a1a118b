// Names of macros: those that are always known, and those of a set.
use crate::reading::check_page;
use std::test::Fail;

#[test]
fn a_name_of_the_set_is_one_token(rt: HostRuntime) -> Result<(), Fail> {
    let heap = rt.alloc();
    assert!(rt;
        check_page(
            heap,
            b"label:x[]",
            b"",
            "Word:0:5 Colon:5:6 Word:6:7 OpenBracket:7:8 CloseBracket:8:9"
        )?,
        "unknown"
    );
    assert!(rt;
        check_page(
            heap,
            b"label:x[]",
            b"lot\nlabel",
            "MacroName:0:6 Word:6:7 OpenBracket:7:8 CloseBracket:8:9"
        )?,
        "known"
    );
    assert!(rt;
        check_page(
            heap,
            b"label::x[]",
            b"label",
            "MacroName:0:6 Colon:6:7 Word:7:8 OpenBracket:8:9 CloseBracket:9:10"
        )?,
        "two colons"
    );
    assert!(rt;
        check_page(
            heap,
            b"label:: x",
            b"label",
            "Word:0:5 TermDelimiter:5:7 Whitespace:7:8 Word:8:9"
        )?,
        "a term"
    );
    assert!(rt;
        check_page(heap, b"labels:x", b"label", "Word:0:6 Colon:6:7 Word:7:8")?,
        "a longer word"
    );
    Ok(())
}

#[test]
fn endings_and_names_of_the_set(rt: HostRuntime) -> Result<(), Fail> {
    let heap = rt.alloc();
    assert!(rt;
        check_page(
            heap,
            b"myfootnote:[",
            b"",
            "Word:0:2 MacroName:2:11 OpenBracket:11:12"
        )?
    );
    assert!(rt;
        check_page(
            heap,
            b"myfootnote:[",
            b"myfootnote",
            "MacroName:0:11 OpenBracket:11:12"
        )?
    );
    assert!(rt;
        check_page(
            heap,
            b"myindexterm:[",
            b"",
            "Word:0:2 MacroName:2:12 OpenBracket:12:13"
        )?
    );
    assert!(rt;
        check_page(heap, b"footnote:[", b"", "MacroName:0:9 OpenBracket:9:10")?,
        "the name itself"
    );
    assert!(rt;
        check_page(
            heap,
            b"indexterm2:[",
            b"",
            "MacroName:0:11 OpenBracket:11:12"
        )?
    );
    assert!(rt;
        check_page(
            heap,
            b"myindexterm2:[",
            b"",
            "Word:0:12 Colon:12:13 OpenBracket:13:14"
        )?,
        "no ending that is split off"
    );
    assert!(rt;
        check_page(
            heap,
            b"footnot:[",
            b"",
            "Word:0:7 Colon:7:8 OpenBracket:8:9"
        )?
    );
    Ok(())
}

// Schemes, directives and terms come before names of the set.
#[test]
fn a_set_does_not_hide_other_tokens(rt: HostRuntime) -> Result<(), Fail> {
    let heap = rt.alloc();
    assert!(rt; check_page(heap, b"http://x", b"http", "UriScheme:0:7 Word:7:8")?);
    assert!(rt; check_page(heap, b"http:x", b"http", "MacroName:0:5 Word:5:6")?);
    assert!(rt;
        check_page(
            heap,
            b"include::x[]",
            b"include",
            "Directive:0:9 Word:9:10 OpenBracket:10:11 CloseBracket:11:12"
        )?
    );
    assert!(rt;
        check_page(
            heap,
            b"include::x",
            b"include",
            "MacroName:0:8 Colon:8:9 Word:9:10"
        )?
    );
    assert!(rt;
        check_page(
            heap,
            b"include::x",
            b"",
            "Word:0:7 Colon:7:8 Colon:8:9 Word:9:10"
        )?
    );
    assert!(rt;
        check_page(
            heap,
            b"include:: x",
            b"",
            "Word:0:7 TermDelimiter:7:9 Whitespace:9:10 Word:10:11"
        )?
    );
    Ok(())
}
