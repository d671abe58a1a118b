// Sets of names. Asking changes nothing and is never refused.
ghost use Rattle.std.specs.Prelude.{◌≡◌, ℕ, Bool, false, ◌||◌, List, length, take};
ghost use Rattle.std.specs.Str.{bytes_eq};
ghost use Rattle.page_bytes.specs.Names.{listed, in_family};

// A set of byte strings.
// A trait of its own beside `ByteClass`: classes and sets of names are two notions. A byte is handed over itself and a name by reference, so
// that one contract for both would speak of references.
pub trait NameSet {
    // whether a name is a member
    ghost knows: { Self → List ℕ → Bool };

    // Yes exactly for the members.
    fn contains_name(&self, name: &[u8]) -> bool
        ensures { result ≡ knows self.now name.now };
}

// No name at all.
#[derive(Clone, Copy)]
pub struct NoNames;

impl NameSet for NoNames {
    ghost knows = { λ _ _. false };

    fn contains_name(&self, _name: &[u8]) -> bool {
        false
    }
}

// A written list: the names are its lines, separated by LF. An empty name is no member.
#[derive(Clone, Copy)]
pub struct Listed<'a>(pub &'a [u8]);

// Each name is compared byte by byte, in a loop inside the loop over the names: a rule of the project.
fn is_listed(list: &[u8], name: &[u8]) -> bool
    ensures { result ≡ listed list.now name.now }
{
    if name.is_empty() {
        return false;
    }
    'names: for line in list.split(|b| *b == b'\n') {
        if line.len() != name.len() {
            continue;
        }
        for (a, b) in line.iter().zip(name) {
            if a != b {
                continue 'names;
            }
        }
        return true;
    }
    false
}

impl NameSet for Listed<'_> {
    ghost knows = { λ set name. listed set.0.now name };

    fn contains_name(&self, name: &[u8]) -> bool {
        is_listed(self.0, name)
    }
}

// The names that have this beginning and are longer.
#[derive(Clone, Copy)]
pub struct Family<'a>(pub &'a [u8]);

fn begins_with(name: &[u8], beginning: &[u8]) -> bool
    ensures { result ≡ bytes_eq (take (length beginning.now) name.now) beginning.now }
{
    name.starts_with(beginning)
}

impl NameSet for Family<'_> {
    ghost knows = { λ set name. in_family set.0.now name };

    fn contains_name(&self, name: &[u8]) -> bool {
        name.len() > self.0.len() && begins_with(name, self.0)
    }
}

// The names of either of two sets, as `Either` has the bytes of either of two classes: one type for each trait.
#[derive(Drop)]
pub struct Joined<M, N>(pub M, pub N);

impl<M: NameSet, N: NameSet> NameSet for Joined<M, N> {
    ghost knows = { λ set name. M.NameSet.knows set.0 name || N.NameSet.knows set.1 name };

    fn contains_name(&self, name: &[u8]) -> bool {
        self.0.contains_name(name) || self.1.contains_name(name)
    }
}
