//! A line with its outcome.

use meaning::Composite;
use std::alloc::{AllocError, AllocGlobal, Global};
use std::io;
use step_words::Said;

/// Prints a line of the tests' tables of steps with its outcome. For an answer with a schedule it
/// prints all periods, each with its start.
pub(crate) fn print_line<R: Print + AllocGlobal>(
    rt: &R,
    line: &str,
    said: Said,
    answered: Option<&Composite>,
) -> io::Result<()> {
    match (said, answered) {
        (("", None), _) => println!(rt; "{line}"),
        (("", Some(number)), _) => println!(rt; "{line} = {number}"),
        (("limit", _), Some(schedule)) => {
            let periods = periods_text(rt.alloc(), schedule)?;
            println!(rt; "{line} = {periods}")
        }
        ((name, Some(number)), _) => println!(rt; "{line} = {name} {number}"),
        ((name, None), _) => println!(rt; "{line} = {name}"),
    }
}

/// Returns the periods of a composite schedule as the outcome of a line of the tests' tables, such
/// as `limits 0:60 30:160`.
fn periods_text(alloc: Global, schedule: &Composite) -> Result<String, AllocError> {
    let mut text = String::from_str(alloc, "limits")?;
    for period in schedule.periods() {
        let (start, limit) = (period.start, period.limit);
        text.push_str(format!(in alloc; " {start}:{limit}")?.as_str())?;
    }
    Ok(text)
}
