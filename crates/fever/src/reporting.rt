// A run's traffic, into words.
ghost use Rattle.std.specs.Prelude.{◌≡◌, ◌≤◌, length};
ghost use Rattle.fever.specs.Traffic.{report_length, called_report, told_report};

use crate::layout;
use types::Totals;

pub(crate) const REPORT_WORDS: usize = 13;

// The first 13 words become those of the report. Answers the check that refuses it, or 0.
pub(crate) fn put_report(words: &mut [u64], totals: Result<Totals, u64>) -> u64
    requires { report_length ≤ length words.old }
    ensures { called_report result words.new ≡ told_report words.old totals }
{
    let told = match totals {
        Ok(told) => told,
        Err(check) => return check,
    };
    let delivered = layout::put_counts(words, 0, told.traffic.sent);
    let held = layout::put_counts(words, delivered, told.traffic.delivered);
    let waits = layout::put_counts(words, held, told.held);
    layout::put_slice(words, waits, &[told.traffic.waits]);
    0
}
