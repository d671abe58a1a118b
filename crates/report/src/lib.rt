//! Whether the printer may have a page: its size, or why not.
#![tactic(auto)]

mod page_report;
mod reporting;
mod shown;

pub use page_report::{FaultReport, PageRefusal, PageSize};
pub use reporting::report_page;
