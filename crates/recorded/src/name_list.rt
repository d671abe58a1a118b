// The plug-in names of a case: in hexadecimal, joined by commas.
ghost use Rattle.std.specs.Prelude.{◌≡◌, [], ◌∷◌, ◌++◌, OnOk};

use crate::fault::Fault;
use crate::hex::decode_hex;
use std::alloc::Global;

// Puts the name and LF behind the list. A name that holds LF would be two of them, so it is refused.
fn add_name(list: &mut Vec<u8>, name: &[u8]) -> Result<(), Fault>
    ensures { OnOk result (list.new.items ≡ list.old.items ++ name.now ++ 10 ∷ []) }
{
    if name.contains(&b'\n') {
        return Err(Fault::LineFeedInName);
    }
    list.extend_from_slice(name)?;
    list.push(b'\n')?;
    Ok(())
}

// The names as a written list.
pub fn parse_names(heap: Global, names: &str) -> Result<Vec<u8>, Fault> {
    let mut list = Vec::new(heap);
    for digits in names.split(',') {
        let name = decode_hex(heap, digits.as_bytes())?;
        add_name(&mut list, &name)?;
    }
    Ok(list)
}
