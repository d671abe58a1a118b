// What is said of a page, in words.
use report::report_page;
use std::alloc::{AllocError, Global};
use std::test::Fail;

fn says(alloc: Global, page: &[u8], words: &str) -> Result<bool, AllocError> {
    let said = match report_page(page) {
        Ok(size) => size.to_string(alloc)?,
        Err(refused) => refused.to_string(alloc)?,
    };
    Ok(said.as_str() == words)
}

#[test]
fn accepted_pages(rt: HostRuntime) -> Result<(), Fail> {
    assert!(rt; says(rt.alloc(), b"", "accepted: bytes 0, lines 0, characters 0",)?);
    assert!(rt;
        says(
            rt.alloc(),
            b"net 9 kg\n",
            "accepted: bytes 9, lines 1, characters 9",
        )?
    );
    assert!(rt;
        says(
            rt.alloc(),
            b"88 \xC2\xB0Oe\n\xE2\x80\x9Csound\xE2\x80\x9D",
            "accepted: bytes 19, lines 2, characters 14",
        )?
    );
    Ok(())
}

#[test]
fn which_pages_are_accepted(rt: HostRuntime) {
    assert!(rt; report_page(b"net 9 kg\n").is_ok());
    assert!(rt; report_page(b"M\xFChlfeld").is_err());
}

#[test]
fn faulty_pages(rt: HostRuntime) -> Result<(), Fail> {
    assert!(rt;
        says(
            rt.alloc(),
            b"ab\nc\xC3(\n",
            "refused, number 4: the text is not well-formed UTF-8; place 5, line 2, column 2: no character has this byte here",
        )?
    );
    assert!(rt;
        says(
            rt.alloc(),
            b"ab\nc\xE2\x82",
            "refused, number 4: the text is not well-formed UTF-8; place 6, line 2, column 3: the text ends inside a character",
        )?
    );
    Ok(())
}

#[test]
fn pages_that_are_too_long(rt: HostRuntime) -> Result<(), Fail> {
    let mut page = vec![in rt.alloc(); b'\n'; 1_048_576]?;
    assert!(rt;
        says(
            rt.alloc(),
            &page,
            "accepted: bytes 1048576, lines 1048576, characters 1048576",
        )?
    );
    page.push(b'\n')?;
    assert!(rt;
        says(
            rt.alloc(),
            &page,
            "refused, number 3: the text has more than 1048576 bytes",
        )?
    );
    let area = vec![in rt.alloc(); 0xFF; 16_777_217]?;
    assert!(rt;
        says(
            rt.alloc(),
            &area,
            "refused, number 1: the area has more than 16777216 bytes",
        )?
    );
    Ok(())
}
