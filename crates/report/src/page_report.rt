use page_bytes::{Refusal, Utf8Fault};

// The size of a page that the printer may have.
#[derive(Clone, Copy, Debug, PartialEq, Eq)]
pub struct PageSize {
    pub bytes: usize,
    pub lines: usize,
    pub characters: usize,
}

// A fault of the bytes, with the line and the column at which it stands.
#[derive(Clone, Copy, Debug, PartialEq, Eq)]
pub struct FaultReport {
    pub fault: Utf8Fault,
    pub line: usize,
    pub column: usize,
}

// Why the printer may not have a page. A fault is reported where the refusal is `NotUtf8`.
#[derive(Clone, Copy, Debug, PartialEq, Eq)]
pub struct PageRefusal {
    pub refusal: Refusal,
    pub fault: Option<FaultReport>,
}
