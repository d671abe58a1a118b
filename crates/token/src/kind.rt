// The kinds of tokens.
ghost use Rattle.std.specs.Prelude.{◌≡◌, ◌==◌, Decides};
ghost use Rattle.token.specs.Kinds.{number_of, kind_of};
ghost use Rattle.std.specs.Cmp.Rules.{comparing};
ghost use Rattle.std.specs.Ordering.{on};
ghost use Rattle.std.proofs.Common.{rules};

// All that the Rust has, in its order. The rules give only some of them: the others are for later stages of a parser.
#[derive(Clone, Copy, Debug)]
pub enum TokenKind {
    Ampersand,
    AttrDef,
    AttrPassDbl,
    AttrRef,
    Backtick,
    Backslash,
    Bang,
    CalloutNumber,
    Caret,
    CloseBrace,
    CloseBracket,
    CloseParens,
    Colon,
    Comma,
    Dashes,
    DelimiterLine,
    Digits,
    Directive,
    Discard,
    DoubleQuote,
    Dots,
    Email,
    Entity,
    EqualSigns,
    Eof,
    ForwardSlashes,
    GreaterThan,
    Hash,
    LessThan,
    MacroName,
    MaybeEmail,
    Newline,
    NoBreakSpace,
    OpenBrace,
    OpenBracket,
    OpenParens,
    Percent,
    Pipe,
    Plus,
    PreprocPassthru,
    Punctuation,
    QuestionMark,
    SemiColon,
    SingleQuote,
    Star,
    TermDelimiter,
    Tilde,
    Underscore,
    UriScheme,
    Whitespace,
    Word,
}

// A kind's place in the list, from 0.
fn tag(kind: TokenKind) -> u8
    ensures is { result ≡ number_of kind }
    ensures own { kind_of result ≡ kind }
{
    kind as u8
}

impl TokenKind {
    // Its number: its place in the list, from 0. No other kind has this number. A `From` beside the method would be a second way to it.
    pub fn number(self) -> u8
        ensures is { result ≡ number_of self }
        ensures own { kind_of result ≡ self }
    {
        tag(self)
    }
}

// Two kinds are equal where their numbers are. By hand: a derive says that they are equal where they are the same, and of numbers nothing.
impl PartialEq for TokenKind {
    ghost eq = { on number_of ◌==◌ };

    ghost laws = { Prim.search (comparing, rules) };

    fn eq(&self, other: &TokenKind) -> bool
        ensures is { result ≡ (number_of self.now == number_of other.now) }
        ensures same { Decides result (self.now ≡ other.now) }
    {
        self.number() == other.number()
    }
}

impl Eq for TokenKind {
    ghost laws = { Prim.search (comparing, rules) };
}
