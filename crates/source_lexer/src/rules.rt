// The rules for a token by its first byte. A rule's kind and end are a pair, as the definition has them.
ghost use Rattle.std.specs.Prelude.{◌≡◌};
ghost use Rattle.marks.specs.Callout.{callout_end};
ghost use Rattle.token.specs.Tokens.{of};
ghost use Rattle.source_lexer.specs.Chosen.{line_or_run, by_rule};

use crate::rule::Rule;
use crate::start::Start;
use marks::Cursor;
use page_bytes::{Blanks, Digits};
use token::TokenKind;

// A token of this kind, if it has an end.
fn codepoint(end: Option<usize>, kind: TokenKind) -> Option<(TokenKind, usize)>
    ensures { result ≡ of kind end }
{
    end.map(|end| (kind, end))
}

impl Start<'_> {
    // A delimiter line, or else the run of the byte that stands there: both end where the run does.
    fn line_or_repeating(&self, kind: TokenKind) -> (TokenKind, usize)
        ensures { result ≡ line_or_run kind self.now.page.now self.now.pos }
    {
        let mark = self.byte();
        let end = self.repeating();
        let behind = Cursor {
            page: self.page,
            pos: end,
        };
        if self.cursor().at_line_start() && behind.delimits(mark, end - self.pos) {
            (TokenKind::DelimiterLine, end)
        } else {
            (kind, end)
        }
    }

    // The end of the callout that begins there.
    fn callout_end(&self) -> Option<usize>
        ensures { result ≡ callout_end self.now.page.now self.now.pos }
    {
        let mut cursor = self.cursor();
        cursor.callout()?;
        Some(cursor.pos)
    }

    // The token by the rule that its first byte chose, if it is no word. Inlined, with what calls it and the choice of the rule, into the
    // reader: so the byte is looked up once, and the pair stays in registers.
    #[inline(always)]
    pub(crate) fn by_rule(&self, rule: Rule) -> Option<(TokenKind, usize)>
        ensures { result ≡ by_rule rule self.now.page.now self.now.pos }
    {
        let cursor = self.cursor();
        match rule {
            Rule::OnlyWord => None,
            Rule::Blanks => Some((TokenKind::Whitespace, self.run_end(&Blanks))),
            Rule::Number => Some((TokenKind::Digits, self.run_end(&Digits))),
            Rule::LineFeed => self.single(TokenKind::Newline),
            Rule::CarriageReturn => codepoint(cursor.newline_end(), TokenKind::Newline),
            Rule::Run(kind) => Some((kind, self.repeating())),
            Rule::LineOrRun(kind) => Some(self.line_or_repeating(kind)),
            Rule::LineOrMark(kind) => {
                codepoint(cursor.delimiter_end(), TokenKind::DelimiterLine).or(self.single(kind))
            }
            Rule::MaybeEntity => {
                let reference = codepoint(cursor.entity_end(), TokenKind::Entity);
                reference.or(self.single(TokenKind::Ampersand))
            }
            Rule::MaybeCallout => {
                let callout = codepoint(self.callout_end(), TokenKind::CalloutNumber);
                callout.or(self.single(TokenKind::LessThan))
            }
            Rule::MaybeAttrRef => {
                let reference = codepoint(cursor.attr_ref_end(), TokenKind::AttrRef);
                reference.or(self.single(TokenKind::OpenBrace))
            }
            Rule::MaybeTerm(kind) => {
                codepoint(cursor.term_end(), TokenKind::TermDelimiter).or(self.single(kind))
            }
            Rule::Mark(kind) => self.single(kind),
            Rule::MaybePunctuation => codepoint(cursor.punctuation_end(), TokenKind::Punctuation),
            Rule::MaybePass => codepoint(cursor.pass_end(), TokenKind::AttrPassDbl),
        }
    }
}
