// Names that a word may be, and what a name is made of.
ghost use Rattle.std.specs.Prelude.{◌≡◌, ◌||◌};
ghost use Rattle.std.specs.List.{list_any};
ghost use Rattle.std.specs.Str.{bytes_eq};
ghost use Rattle.words.specs.Word.{among, builtin_macros};

use page_bytes::NameSet;

pub(crate) const DIRECTIVES: [&[u8]; 6] = [
    b"include",
    b"ifdef",
    b"ifndef",
    b"endif",
    b"ifeval",
    b"asciidorkinclude",
];

// The schemes that two slashes follow.
pub(crate) const SLASH_SCHEMES: [&[u8]; 5] = [b"http", b"https", b"ftp", b"mailto", b"irc"];

// The macros that are always known.
const BUILTIN_MACROS: [&[u8]; 16] = [
    b"footnote",
    b"image",
    b"indexterm",
    b"indexterm2",
    b"anchor",
    b"audio",
    b"icon",
    b"kbd",
    b"link",
    b"pass",
    b"btn",
    b"menu",
    b"mailto",
    b"toc",
    b"xref",
    b"video",
];

// Whether the name is one of these. By `any`, which is inlined: `contains` is not, and takes longer.
pub(crate) fn is_among(name: &[u8], names: &[&[u8]]) -> bool
    ensures { result ≡ list_any (λ n. bytes_eq name.now n.now) names.now }
{
    names.iter().any(|n| *n == name)
}

// Whether the name is one of the macros that are always known.
pub fn is_builtin_macro_name(name: &[u8]) -> bool
    ensures { result ≡ among builtin_macros name.now }
{
    is_among(name, &BUILTIN_MACROS)
}

// Whether the name is one of these, or one of the set's.
pub(crate) fn is_macro_name<N: NameSet>(name: &[u8], names: &N) -> bool
    ensures { result ≡ (among builtin_macros name.now || N.NameSet.knows names.now name.now) }
{
    is_builtin_macro_name(name) || names.contains_name(name)
}
