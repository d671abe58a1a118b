// A page that is read alone: `names TAB page`.
use crate::fault::Fault;
use crate::hex_text::parse_page;
use crate::name_list::parse_names;
use page_bytes::Listed;
use source_lexer::SourceLexer;
use std::alloc::Global;
use std::io;
use std::io::Write;
use std::ops::Range;
use token::Place;

#[derive(Drop)]
pub struct LoneCase {
    names: Vec<u8>,
    page: Vec<u8>,
}

impl LoneCase {
    // The case that a line of lone cases holds. No `FromStr` here and where else a case is parsed: it has no allocator.
    pub fn parse(heap: Global, line: &str) -> Result<LoneCase, Fault> {
        let (names, page) = line.split_once('\t').ok_or(Fault::NoTab)?;
        let names = parse_names(heap, names)?;
        let page = parse_page(heap, page)?;
        Ok(LoneCase { names, page })
    }

    // The case that a line of mixed cases holds: it begins with the case's word and a tab.
    pub fn parse_mixed(heap: Global, line: &str) -> Result<LoneCase, Fault> {
        match line.split_once('\t').ok_or(Fault::NoTab)? {
            ("lone", case) => LoneCase::parse(heap, case),
            _ => Err(Fault::UnknownWord),
        }
    }

    // Writes each token as it is read.
    pub fn write_tokens<W: Write>(&self, out: &mut W) -> io::Result<()> {
        let page = self.page.as_slice();
        let names = Listed(self.names.as_slice());
        let mut reader = SourceLexer::new(Place::new(0));
        let mut gap = "";
        while let Some(token) = reader.next_token(page, &names) {
            let kind = token.kind;
            let Range { start, end } = token.range();
            write!(out, "{gap}{kind:?}:{start}:{end}")?;
            gap = " ";
        }
        Ok(())
    }
}
