use token::Place;

// Reads a page token by token. It holds its place alone: the page and the names are handed to it at each call. A reading of many pages will
// have one reader for each, over one area and one set of names.
#[derive(Clone, Copy)]
pub struct SourceLexer {
    pos: Place,
}

mod reading;
