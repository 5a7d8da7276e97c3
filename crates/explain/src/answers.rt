// What A tells, as a sentence.
use crate::text::say;
use ends::Report;

// Prints nothing for any other report.
pub(crate) fn print(report: Report) {
    match report {
        Report::Ok => say(b"  answer OK: the last order was delivered, once\n"),
        Report::Lost => say(
            b"  answer lost: an end restarted since the last order, or there is none to answer\n",
        ),
        _ => {}
    }
}
