// The end of the longest run of a class, and the number of its members: one function for all classes.
ghost use Rattle.std.specs.Prelude.{◌≡◌, count_by};
ghost use Rattle.std.specs.List.{prefix_len};
ghost use Rattle.page_bytes.specs.Runs.{run_end, LongestRun};

use crate::class::ByteClass;

// How many bytes at the front are members of the class.
fn run_len<C: ByteClass>(bytes: &[u8], class: &C) -> usize
    ensures { result ≡ prefix_len (C.ByteClass.holds class.now) bytes.now }
{
    bytes.iter().take_while(|b| class.contains(**b)).count()
}

// Where the longest run of the class from a place on ends. Page and place are two parameters, since a cursor belongs to the layer above.
pub fn run_end<C: ByteClass>(page: &[u8], from: usize, class: &C) -> usize
    ensures is { result ≡ run_end (C.ByteClass.holds class.now) page.now from }
    ensures longest { LongestRun (C.ByteClass.holds class.now) page.now from result }
{
    match page.get(from..) {
        Some(rest) => from + run_len(rest, class),
        None => from,
    }
}

// How many bytes of the page are members of the class. By a `for`: `filter` and `count` take two thirds more instructions.
pub fn count_members<C: ByteClass>(page: &[u8], class: &C) -> usize
    ensures { result ≡ count_by (C.ByteClass.holds class.now) page.now }
{
    let mut count = 0;
    for b in page {
        if class.contains(*b) {
            count += 1;
        }
    }
    count
}
