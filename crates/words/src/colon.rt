// A stem before a colon.
ghost use Rattle.std.specs.Prelude.{◌≡◌, true};
ghost use Rattle.marks.specs.Places.{is_at};
ghost use Rattle.words.specs.Word.{directive_follows, directive_token, scheme_end, ending_start, colon_token};
ghost use Rattle.words.specs.Stops.{before_colon};

use crate::names::{DIRECTIVES, SLASH_SCHEMES, is_among, is_macro_name};
use crate::stem::Stem;
use page_bytes::NameSet;
use token::TokenKind;

impl Stem<'_> {
    // Whether what follows a directive's name is right for one: two colons and three bytes more at least, or `::[]` at the page's end
    // behind `endif`.
    fn directive_follows(&self) -> bool
        ensures { result ≡ directive_follows self.now.page.now self.now.start self.now.end }
    {
        let left = self.page.len() - self.end;
        self.behind().text_at(b"::")
            && (left >= 5
                || self.text() == b"endif".as_slice()
                    && self.behind().text_at(b"::[]")
                    && left == 4)
    }

    // The directive that begins there, by its name's end.
    fn directive(&self) -> Option<(TokenKind, usize)>
        ensures { result ≡ directive_token self.now.page.now self.now.start self.now.end }
    {
        if !self.directive_follows() || !is_among(self.text(), &DIRECTIVES) {
            return None;
        }
        let next = self.end + 2;
        if self.page[next].is_ascii_whitespace() {
            Some((TokenKind::Word, self.end))
        } else {
            Some((TokenKind::Directive, next))
        }
    }

    // The end of the scheme of an address. Two tests with two lengths: as a chain of `if`s plainer than as options.
    fn continues_uri_scheme(&self) -> Option<usize>
        ensures { result ≡ scheme_end self.now.page.now self.now.start self.now.end }
    {
        if self.behind().text_at(b"://") && is_among(self.text(), &SLASH_SCHEMES) {
            Some(self.end + 3)
        } else if self.text() == b"file".as_slice() && self.behind().text_at(b":///") {
            Some(self.end + 4)
        } else {
            None
        }
    }

    // Where `footnote` or `indexterm` begins, if the stem ends so.
    fn ending_start(&self) -> Option<usize>
        ensures { result ≡ ending_start self.now.page.now self.now.start self.now.end }
    {
        self.ending(b"footnote").or(self.ending(b"indexterm"))
    }

    // What a stem is that a colon follows, if it is no directive and no plain word.
    fn name<N: NameSet>(&self, names: &N) -> Option<(TokenKind, usize)>
        requires { is_at self.now.page.now self.now.end 58 ≡ true }
        ensures { result ≡ colon_token (N.NameSet.knows names.now) self.now.page.now self.now.start self.now.end }
    {
        if self.behind().peek_term_delimiter().is_some() {
            return None;
        }
        if let Some(scheme) = self.continues_uri_scheme() {
            return Some((TokenKind::UriScheme, scheme));
        }
        if is_macro_name(self.text(), names) {
            return Some((TokenKind::MacroName, self.end + 1));
        }
        self.ending_start().map(|start| (TokenKind::Word, start))
    }

    // The token whose stem ends before a colon.
    pub(crate) fn before_colon<N: NameSet>(&self, names: &N) -> (TokenKind, usize)
        requires { is_at self.now.page.now self.now.end 58 ≡ true }
        ensures { result ≡ before_colon (N.NameSet.knows names.now) self.now.page.now self.now.start self.now.end }
    {
        // no `or_else`: the proof learns nothing of a closure that holds a stem, a type with a lifetime
        if let Some(token) = self.directive() {
            return token;
        }
        self.name(names).unwrap_or((TokenKind::Word, self.end))
    }
}
