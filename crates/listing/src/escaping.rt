// Bytes that a terminal would not show as they are, written out.
ghost use Rattle.std.specs.Prelude.{◌≡◌, ◌<◌, ◌++◌, OnOk};
ghost use Rattle.std.specs.List.{flat_map};
ghost use Rattle.listing.specs.Escapes.{hex_digit, escaped_byte};

use std::alloc::AllocError;

// The hexadecimal digit of a number below 16. No `char::from_digit`, which answers an option that is never none here.
fn hex_digit(n: u8) -> u8
    requires { n < 16 }
    ensures { result ≡ hex_digit n }
{
    if n < 10 { b'0' + n } else { b'a' + (n - 10) }
}

// Appends the byte as it is, or an escape in its place.
fn escape_byte(out: &mut Vec<u8>, b: u8) -> Result<(), AllocError>
    ensures { OnOk result (out.new.items ≡ out.old.items ++ escaped_byte b) }
{
    match b {
        b'\n' => out.extend_from_slice(b"\\n"),
        b'\r' => out.extend_from_slice(b"\\r"),
        b'\t' => out.extend_from_slice(b"\\t"),
        b'"' => out.extend_from_slice(b"\\\""),
        b'\\' => out.extend_from_slice(b"\\\\"),
        0..=31 | 127 => {
            let escape = [b'\\', b'x', hex_digit(b / 16), hex_digit(b % 16)];
            out.extend_from_slice(&escape)
        }
        _ => out.extend_from_slice(&[b]),
    }
}

// Appends the bytes, each as it is or as an escape.
pub fn escape(out: &mut Vec<u8>, bytes: &[u8]) -> Result<(), AllocError>
    ensures { OnOk result (out.new.items ≡ out.old.items ++ flat_map escaped_byte bytes.now) }
{
    for b in bytes {
        escape_byte(out, *b)?;
    }
    Ok(())
}
