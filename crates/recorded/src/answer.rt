// The answer to one line.
use crate::fault::Fault;
use crate::lone::LoneCase;
use std::io;
use std::io::Write;

// Writes the line that answers a case: its tokens, or why it has none.
pub fn write_answer<W: Write>(case: Result<LoneCase, Fault>, out: &mut W) -> io::Result<()> {
    match case {
        Ok(case) => case.write_tokens(out)?,
        Err(fault) => write!(out, "{fault}")?,
    }
    writeln!(out)
}
