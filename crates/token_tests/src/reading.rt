// A page's tokens in writing, to be compared.
use page_bytes::Listed;
use source_lexer::read_page;
use std::alloc::{AllocError, Global};
use std::fmt::Write;
use std::ops::Range;

// Kind, start and end of each token, separated by blanks.
fn written(heap: Global, page: &[u8], names: &[u8]) -> Result<String, AllocError> {
    let mut text = String::new(heap);
    let mut gap = "";
    for token in &read_page(heap, page, &Listed(names))? {
        let kind = token.kind;
        let Range { start, end } = token.range();
        write!(text, "{gap}{kind:?}:{start}:{end}")?;
        gap = " ";
    }
    Ok(text)
}

// Whether a page has these tokens, with these plug-in names.
pub(crate) fn check_page(
    heap: Global,
    page: &[u8],
    names: &[u8],
    expected: &str,
) -> Result<bool, AllocError> {
    let text = written(heap, page, names)?;
    Ok(text.as_str() == expected)
}
