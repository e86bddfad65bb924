// Reports of plans.
use plan_replay::replay_report;
use plan_text::read_plan;
use std::alloc::{AllocError, Global};
use std::str;

/// The report of a plan; where the text is no plan, why it is none.
pub fn report_of(alloc: Global, text: &str) -> Result<String, AllocError> {
    let plan = match read_plan(alloc, text.as_bytes()) {
        Ok(plan) => plan,
        Err(error) => return error.to_string(alloc),
    };
    let report = replay_report(alloc, &plan)?;
    String::from_str(alloc, str::from_utf8(report.as_slice()).unwrap_or(""))
}
