use token::TokenRecord;

// A token with the line and the column of its start.
#[derive(Clone, Copy)]
pub struct ListedToken {
    pub token: TokenRecord,
    pub line: usize,
    pub column: usize,
}

// Tokens of a page, and the text that their bytes make, put together again.
#[derive(Drop)]
pub struct Listing {
    pub tokens: Vec<ListedToken>,
    pub text: Vec<u8>,
}
