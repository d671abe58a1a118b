ghost use Rattle.std.specs.Prelude.{Some};
ghost use Rattle.report.specs.Shown.{fault_text, size_text, refusal_text};

use crate::page_report::{FaultReport, PageRefusal, PageSize};
use page_bytes::Utf8Fault;
use std::error::Error;
use std::fmt;

impl fmt::Display for PageSize {
    ghost output = { λ size. Some (size_text size) };

    fn fmt<W: fmt::Write>(&self, f: &mut fmt::Formatter<W>) -> fmt::Result {
        let PageSize {
            bytes,
            lines,
            characters,
        } = *self;
        write!(
            f,
            "accepted: bytes {bytes}, lines {lines}, characters {characters}"
        )
    }
}

impl fmt::Display for FaultReport {
    ghost output = { λ found. Some (fault_text found) };

    fn fmt<W: fmt::Write>(&self, f: &mut fmt::Formatter<W>) -> fmt::Result {
        let FaultReport {
            fault,
            line,
            column,
        } = *self;
        let place = fault.place();
        let what = match fault {
            Utf8Fault::Byte(_) => "no character has this byte here",
            Utf8Fault::End(_) => "the text ends inside a character",
        };
        write!(f, "place {place}, line {line}, column {column}: {what}")
    }
}

impl fmt::Display for PageRefusal {
    ghost output = { λ refused. Some (refusal_text refused) };

    fn fmt<W: fmt::Write>(&self, f: &mut fmt::Formatter<W>) -> fmt::Result {
        let PageRefusal { refusal, fault } = *self;
        let number = refusal.number();
        match fault {
            None => write!(f, "refused, number {number}: {refusal}"),
            Some(found) => write!(f, "refused, number {number}: {refusal}; {found}"),
        }
    }
}

impl Error for PageRefusal {}
