ghost use Rattle.sheet.specs.Requests.{AsksFor};

use std::str::FromStr;

// What the one argument asks for.
#[derive(Clone, Copy, Debug)]
pub enum Request {
    // the usage
    Help,
    // the page on standard input
    StandardInput,
    // the page of the file with that path
    File,
}

// The argument begins with `-`, and asks for nothing that is known.
#[derive(Clone, Copy, Debug)]
pub struct UnknownOption;

impl FromStr for Request {
    type Err = UnknownOption;

    ghost from_str_gives = { AsksFor };

    fn from_str(argument: &str) -> Result<Request, UnknownOption> {
        match argument {
            "--help" => Ok(Request::Help),
            "-" => Ok(Request::StandardInput),
            _ if argument.starts_with('-') => Err(UnknownOption),
            _ => Ok(Request::File),
        }
    }
}
