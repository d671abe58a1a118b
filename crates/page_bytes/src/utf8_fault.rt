ghost use Rattle.std.specs.Prelude.{◌≡◌};
ghost use Rattle.page_bytes.specs.Utf8.{place_of};

// Why bytes are not well-formed UTF-8.
#[derive(Clone, Copy, Debug, PartialEq, Eq)]
pub enum Utf8Fault {
    // no well-formed text goes on with the byte at this place
    Byte(usize),
    // the text ends inside a character, at this length
    End(usize),
}

impl Utf8Fault {
    // Where the fault stands: the byte's place, or the text's length.
    pub fn place(self) -> usize
        ensures { result ≡ place_of self }
    {
        match self {
            Utf8Fault::Byte(place) => place,
            Utf8Fault::End(len) => len,
        }
    }
}
