//! recorded [lone]: answers recorded cases of the lexer, one line for each line of standard input.
#![tactic(auto)]

mod answer;
mod fault;
mod hex;
mod hex_text;
mod lone;
mod name_list;

use answer::write_answer;
use fault::Fault;
use lone::LoneCase;
use std::alloc::Global;
use std::io::{BufRead, BufReader, BufWriter, Write};
use std::process::ExitCode;
use std::str::from_utf8;
use std::{env, io};

const USAGE: &str = "usage: recorded [lone]   (cases on standard input, a line each)";

// Answers the cases on standard input, each of them a line that this step parses.
fn answer_cases<F>(rt: &HostRuntime, parse: F) -> io::Result<ExitCode>
where
    F: Fn(Global, &str) -> Result<LoneCase, Fault> + Drop,
    requires { F.IsAlwaysCallable parse }
{
    let mut out = BufWriter::new(rt.alloc(), rt.stdout())?;
    for line in BufReader::new(rt.alloc(), rt.stdin())?.split(rt.alloc(), b'\n') {
        let line = line?;
        let case = from_utf8(&line)
            .map_err(|_| Fault::NotText)
            .and_then(|line| parse(rt.alloc(), line));
        write_answer(case, &mut out)?;
    }
    out.flush()?;
    Ok(ExitCode::SUCCESS)
}

fn run(rt: &HostRuntime) -> io::Result<ExitCode> {
    let mut args = env::args(rt)?.skip(1);
    let Some(argument) = args.next() else {
        return answer_cases(rt, LoneCase::parse_mixed);
    };
    if argument.as_str() == "lone" && args.next().is_none() {
        return answer_cases(rt, LoneCase::parse);
    }
    eprintln!(rt; "{USAGE}")?;
    Ok(ExitCode::FAILURE)
}

fn main(rt: HostRuntime) -> ExitCode {
    run(&rt).unwrap_or_else(|e| {
        // where standard error takes nothing either, the status alone tells
        let _ = eprintln!(rt; "recorded: {e}");
        ExitCode::FAILURE
    })
}
