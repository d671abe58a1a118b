//! sheet PAGE: says whether the printer may have a page.
#![tactic(auto)]

mod request;

use page_bytes::MAX_AREA;
use report::report_page;
use request::{Request, UnknownOption};
use std::alloc::Global;
use std::io::Read;
use std::process::ExitCode;
use std::{env, fs, io};

const USAGE: &str = "usage: sheet PAGE   (a file's path, or - for standard input)";

// One byte more than an area may have: a longer page is refused without being read whole.
const MOST: u64 = MAX_AREA as u64 + 1;

fn read_page<R: Read + Drop>(heap: Global, source: R) -> io::Result<Vec<u8>> {
    let mut page = Vec::new(heap);
    source.take(MOST).read_to_end(&mut page)?;
    Ok(page)
}

fn read_file(rt: &HostRuntime, path: &str) -> io::Result<Vec<u8>> {
    read_page(rt.alloc(), fs::open(rt, path)?)
}

// Reports an accepted page on standard output, and on standard error a refused one or why it cannot be read.
fn print_report(
    rt: &(impl Print + Eprint),
    name: &str,
    read: io::Result<Vec<u8>>,
) -> io::Result<ExitCode> {
    match read.map(|page| report_page(&page)) {
        Ok(Ok(size)) => {
            println!(rt; "{name}: {size}")?;
            return Ok(ExitCode::SUCCESS);
        }
        Ok(Err(refused)) => eprintln!(rt; "sheet: {name}: {refused}")?,
        Err(e) => eprintln!(rt; "sheet: {name}: {e}")?,
    }
    Ok(ExitCode::FAILURE)
}

fn print_usage(rt: &impl Eprint) -> io::Result<ExitCode> {
    eprintln!(rt; "{USAGE}")?;
    Ok(ExitCode::FAILURE)
}

// Does what the argument asks for.
fn answer(rt: &HostRuntime, argument: &str) -> io::Result<ExitCode> {
    match argument.parse() {
        Ok(Request::Help) => {
            println!(rt; "{USAGE}")?;
            Ok(ExitCode::SUCCESS)
        }
        Ok(Request::StandardInput) => {
            print_report(rt, argument, read_page(rt.alloc(), rt.stdin()))
        }
        Ok(Request::File) => print_report(rt, argument, read_file(rt, argument)),
        Err(UnknownOption) => {
            eprintln!(rt; "sheet: there is no option {argument}")?;
            print_usage(rt)
        }
    }
}

fn run(rt: &HostRuntime) -> io::Result<ExitCode> {
    let mut args = env::args(rt)?.skip(1);
    match (args.next(), args.next()) {
        (Some(argument), None) => answer(rt, argument.as_str()),
        _ => print_usage(rt),
    }
}

// `recorded` has the same lines: a crate for them would be no plainer.
fn main(rt: HostRuntime) -> ExitCode {
    run(&rt).unwrap_or_else(|e| {
        // where standard error takes nothing either, the status alone tells
        let _ = eprintln!(rt; "sheet: {e}");
        ExitCode::FAILURE
    })
}
