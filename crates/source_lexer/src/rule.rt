// Which rule a token's first byte chooses.
ghost use Rattle.std.specs.Prelude.{◌≡◌};
ghost use Rattle.source_lexer.specs.Chosen.{rule_of};

use token::TokenKind;

// A value, and not the steps themselves in one match on the byte: so that the rule agrees with the definition is one test, which the proof
// computes at all 256 bytes. A closure in its place could not be handed out.
#[derive(Clone, Copy)]
pub(crate) enum Rule {
    // a word and nothing else
    OnlyWord,
    // a run of blanks
    Blanks,
    // a run of digits
    Number,
    // a line end, or with CR a word where no LF follows
    LineFeed,
    CarriageReturn,
    // a run of the byte
    Run(TokenKind),
    // a delimiter line, or else a run of the byte
    LineOrRun(TokenKind),
    // a delimiter line, or else the byte as a mark
    LineOrMark(TokenKind),
    // a character reference, a callout or an attribute reference, or else the byte as a mark
    MaybeEntity,
    MaybeCallout,
    MaybeAttrRef,
    // a term delimiter, or else the byte as a mark
    MaybeTerm(TokenKind),
    // the byte as a mark
    Mark(TokenKind),
    // a mark past ASCII, or else a word
    MaybePunctuation,
    // a passed attribute, or else a word
    MaybePass,
}

// Inlined, as `by_rule` is.
#[inline(always)]
pub(crate) fn rule_of(b: u8) -> Rule
    ensures { result ≡ rule_of b }
{
    match b as char {
        ' ' | '\t' | '\x0B' | '\x0C' => Rule::Blanks,
        '0'..='9' => Rule::Number,
        '\n' => Rule::LineFeed,
        '\r' => Rule::CarriageReturn,
        '&' => Rule::MaybeEntity,
        '<' => Rule::MaybeCallout,
        '{' => Rule::MaybeAttrRef,
        '=' => Rule::LineOrRun(TokenKind::EqualSigns),
        '-' => Rule::LineOrRun(TokenKind::Dashes),
        '.' => Rule::LineOrRun(TokenKind::Dots),
        '/' => Rule::LineOrRun(TokenKind::ForwardSlashes),
        '(' => Rule::Run(TokenKind::OpenParens),
        ')' => Rule::Run(TokenKind::CloseParens),
        '>' => Rule::Mark(TokenKind::GreaterThan),
        ',' => Rule::Mark(TokenKind::Comma),
        '^' => Rule::Mark(TokenKind::Caret),
        '~' => Rule::Mark(TokenKind::Tilde),
        '_' => Rule::LineOrMark(TokenKind::Underscore),
        '*' => Rule::LineOrMark(TokenKind::Star),
        '!' => Rule::Mark(TokenKind::Bang),
        '?' => Rule::Mark(TokenKind::QuestionMark),
        '`' => Rule::LineOrMark(TokenKind::Backtick),
        '+' => Rule::LineOrMark(TokenKind::Plus),
        '[' => Rule::Mark(TokenKind::OpenBracket),
        ']' => Rule::Mark(TokenKind::CloseBracket),
        '}' => Rule::Mark(TokenKind::CloseBrace),
        '#' => Rule::Mark(TokenKind::Hash),
        '%' => Rule::Mark(TokenKind::Percent),
        '"' => Rule::Mark(TokenKind::DoubleQuote),
        '|' => Rule::Mark(TokenKind::Pipe),
        '\'' => Rule::Mark(TokenKind::SingleQuote),
        '\\' => Rule::Mark(TokenKind::Backslash),
        ':' => Rule::MaybeTerm(TokenKind::Colon),
        ';' => Rule::MaybeTerm(TokenKind::SemiColon),
        '\u{C2}' | '\u{E2}' | '\u{E3}' | '\u{EF}' => Rule::MaybePunctuation,
        '\x1B' => Rule::MaybePass,
        _ => Rule::OnlyWord,
    }
}
