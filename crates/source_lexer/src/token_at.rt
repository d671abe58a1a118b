// The token at a place.
ghost use Rattle.std.specs.Prelude.{◌≡◌, ◌<◌, ◌≤◌, length};
ghost use Rattle.source_lexer.specs.Token.{token_at};

use crate::rule::rule_of;
use crate::start::Start;
use page_bytes::NameSet;
use token::TokenKind;
use words::word;

impl Start<'_> {
    // The token that begins there, by its kind and its end. Inlined, as `by_rule` is.
    #[inline(always)]
    pub(crate) fn token_at<N: NameSet>(&self, names: &N) -> (TokenKind, usize)
        ensures is { result ≡ token_at (N.NameSet.knows names.now) self.now.page.now self.now.pos }
        ensures onward { self.now.pos < result.1 }
        ensures within { result.1 ≤ length self.now.page.now }
    {
        // no `unwrap_or_else`: the proof learns nothing of a closure that holds the cursor, a type with a lifetime
        match self.by_rule(rule_of(self.byte())) {
            Some(token) => token,
            None => word(&self.cursor(), names),
        }
    }
}
