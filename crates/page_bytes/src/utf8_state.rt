// What the UTF-8 machine has read of a character, by what may follow.
#[derive(Clone, Copy)]
pub enum Utf8State {
    // nothing: a character may begin, or the text end
    Start,
    // one, two or three continuation bytes are due, each in 80..=BF
    Due1,
    Due2,
    Due3,
    // after E0 two are due, the next in A0..=BF, so that no character is overlong
    AfterE0,
    // after ED two, the next in 80..=9F, so that there is no surrogate
    AfterEd,
    // after F0 three, the next in 90..=BF, so that no character is overlong
    AfterF0,
    // after F4 three, the next in 80..=8F, so that none is above 10FFFF
    AfterF4,
}
