// The page reader's calls.
ghost use Rattle.std.specs.Prelude.{◌≡◌, ℕ, ◌<◌, ◌≤◌, Bool, ◌⊎◌, List, length, IfSome, IsUtf8};
ghost use Rattle.std.specs.Str.{IsCharBoundary};
ghost use Rattle.marks.specs.AttrRef.{AttrRefAt};
ghost use Rattle.marks.specs.Callout.{CalloutAt};
ghost use Rattle.marks.specs.Delimiter.{DelimiterAt};
ghost use Rattle.marks.specs.Entity.{EntityAt};
ghost use Rattle.words.specs.Directive.{DirectiveAt};
ghost use Rattle.token.specs.Places.{most, number_of_place};
ghost use Rattle.token.specs.declared.kind.TokenKind.TheVariants.{DelimiterLine, Entity, CalloutNumber, AttrRef, Directive};
ghost use Rattle.source_lexer.specs.Laws.{NewName};
ghost use Rattle.source_lexer.specs.Lone.{Within};
ghost use Rattle.source_lexer.specs.Reader.{pos_of, given_at, pos_after, InPage, Exactly};
ghost use Rattle.source_lexer.specs.Token.{token_at};

use crate::source_lexer::SourceLexer;
use crate::start::Start;
use page_bytes::NameSet;
use token::{Place, TokenRecord};

// The most bytes that a page may have to be read: a place is a number of 32 bits. The contracts have that as a premise, and no type has it,
// which would ask it of callers.
const MOST: usize = u32::MAX as usize;

// Gives the token at the reader's place and moves the reader to its end. Inlined, as `by_rule` is.
#[inline(always)]
fn read<N: NameSet>(reader: &mut SourceLexer, page: &[u8], names: &N) -> Option<TokenRecord>
    ensures token { result ≡ given_at (N.NameSet.knows names.now) page.now (pos_of reader.old) }
    ensures pos { pos_of reader.new ≡ pos_after (N.NameSet.knows names.now) page.now (pos_of reader.old) }
{
    let start = reader.pos.count() as usize;
    if page.len() > MOST || start >= page.len() {
        return None;
    }
    let (kind, end) = Start { page, pos: start }.token_at(names);
    let token = TokenRecord {
        kind,
        start: reader.pos,
        len: (end - start) as u32,
    };
    reader.pos = Place::new(end as u32);
    Some(token)
}

impl SourceLexer {
    // A reader at a place.
    pub fn new(pos: Place) -> SourceLexer
        ensures { pos_of result ≡ number_of_place pos }
    {
        SourceLexer { pos }
    }

    // The place of the next token.
    pub fn pos(self) -> Place
        ensures { number_of_place result ≡ pos_of self }
    {
        self.pos
    }

    // Gives the token at the reader's place and moves the reader to its end; at the page's end or past it there is none, and the reader
    // stays. Inlined, as `by_rule` is.
    #[inline(always)]
    pub fn next_token<N: NameSet>(&mut self, page: &[u8], names: &N) -> Option<TokenRecord>
        ensures token { result ≡ given_at (N.NameSet.knows names.now) page.now (pos_of self.old) }
        ensures pos { pos_of self.new ≡ pos_after (N.NameSet.knows names.now) page.now (pos_of self.old) }
        // it has a byte at least, and ends within the page
        ensures bytes { IfSome result (InPage page.now (pos_of self.old) (pos_of self.new)) }
        // from a character's boundary on, it cuts no character
        ensures whole { IsUtf8 page.now → IsCharBoundary page.now (pos_of self.old) → IsCharBoundary page.now (pos_of self.new) }
        // fewer names have the same token, or two in the place of a name that they lack
        ensures names { (poor : List ℕ → Bool) → Within poor (N.NameSet.knows names.now) → pos_of self.old < length page.now → (token_at poor page.now (pos_of self.old) ≡ token_at (N.NameSet.knows names.now) page.now (pos_of self.old)) ⊎ NewName poor (N.NameSet.knows names.now) page.now (pos_of self.old) }
        // delimiter lines, character references, callouts, attribute references and directives stand exactly where the page has such
        // a stretch by a second definition, after the words of the documentation
        ensures lines { length page.now ≤ most → Exactly DelimiterLine (DelimiterAt page.now (pos_of self.old)) (pos_of self.old) result }
        ensures entities { length page.now ≤ most → Exactly Entity (EntityAt page.now (pos_of self.old)) (pos_of self.old) result }
        ensures callouts { length page.now ≤ most → Exactly CalloutNumber (CalloutAt page.now (pos_of self.old)) (pos_of self.old) result }
        ensures references { length page.now ≤ most → Exactly AttrRef (AttrRefAt page.now (pos_of self.old)) (pos_of self.old) result }
        ensures directives { length page.now ≤ most → Exactly Directive (DirectiveAt page.now (pos_of self.old)) (pos_of self.old) result }
    {
        read(self, page, names)
    }
}
