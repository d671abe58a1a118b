ghost use Rattle.std.specs.Prelude.{◌≡◌, ◌↔◌, Some, IsOk, IsUtf8, MatchOption};
ghost use Rattle.page_bytes.specs.declared.refusal.Refusal.TheVariants.{NotUtf8};
ghost use Rattle.page_bytes.specs.Refusals.{refusal_of, first_ground, IsText};
ghost use Rattle.report.specs.Report.{whole_grounds, Characters, Reported, FaultReported};

use crate::page_report::{FaultReport, PageRefusal, PageSize};
use lines::{count_lines, line_and_column};
use page_bytes::{
    ContinuationBytes, Not, Refusal, check_area, check_text, check_utf8, count_members,
};

// How many characters a well-formed page has: its bytes but for the continuation bytes.
fn count_characters(page: &[u8]) -> usize
    ensures { IsUtf8 page.now → Characters page.now result }
{
    count_members(page, &Not(ContinuationBytes))
}

// Whether the page may be read whole: it is the area and its only text.
fn check_whole(page: &[u8]) -> Result<(), Refusal>
    ensures ground { refusal_of result ≡ first_ground (whole_grounds page.now) }
    ensures exactly { IsOk result ↔ (IsText page.now) }
{
    check_area(page)?;
    check_text(page)
}

// The fault of a page, with its line and column, if the page is not well-formed UTF-8.
fn fault_report(page: &[u8]) -> Option<FaultReport>
    ensures { MatchOption result (IsUtf8 page.now) (λ found. FaultReported page.now NotUtf8 (Some found)) }
{
    let fault = check_utf8(page).err()?;
    let (line, column) = line_and_column(page, fault.place());
    Some(FaultReport {
        fault,
        line,
        column,
    })
}

// Whether the printer may have the page: how many bytes, lines and characters it has, or why not.
pub fn report_page(page: &[u8]) -> Result<PageSize, PageRefusal>
    ensures says { Reported page.now result }
    ensures exactly { IsOk result ↔ (IsText page.now) }
{
    check_whole(page).map_err(|refusal| PageRefusal {
        refusal,
        fault: match refusal {
            Refusal::NotUtf8 => fault_report(page),
            _ => None,
        },
    })?;
    Ok(PageSize {
        bytes: page.len(),
        lines: count_lines(page),
        characters: count_characters(page),
    })
}
