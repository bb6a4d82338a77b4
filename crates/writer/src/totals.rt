// The lines of a report, one behind the other, written into lent bytes that have room for them.
ghost use Rattle.std.specs.Prelude.{◌≡◌, ◌+◌, ◌≤◌, [], ◌∷◌, length};
ghost use Rattle.lines.specs.Forms.{numbers_form};
ghost use Rattle.lines.specs.Printout.{all_of, traffic_text, report_word_most, report_numbers_most, report_most, totals_most};
ghost use Rattle.lines.specs.Clauses.{line};
ghost use Rattle.writer.specs.Stamps.{Stamped};

use crate::answers;
use types::{Counts, Traffic};

// All kinds together.
fn add_all(counts: Counts) -> u64
    ensures { result ≡ all_of counts }
{
    counts
        .views
        .wrapping_add(counts.votes)
        .wrapping_add(counts.vcs)
        .wrapping_add(counts.qcs)
}

// One line; it answers the place behind it.
fn put_line(out: &mut [u8], at: usize, word: &[u8], numbers: &[u64]) -> usize
    requires { (at + report_most ≤ length out.old) × (length word.now ≤ report_word_most) × (length numbers.now ≤ report_numbers_most) }
    ensures { Stamped out.old at (line (numbers_form word.now numbers.now)) result out.new × (result ≤ at + report_most) }
{
    match answers::write_numbers(word, numbers, &mut out[at..]) {
        Ok(k) => at + k,
        Err(_) => at,
    }
}

// The line of a kind.
fn put_kind(out: &mut [u8], at: usize, word: &[u8], sent: u64, delivered: u64, held: u64) -> usize
    requires { (at + report_most ≤ length out.old) × (length word.now ≤ report_word_most) }
    ensures { Stamped out.old at (line (numbers_form word.now (sent ∷ delivered ∷ held ∷ []))) result out.new × (result ≤ at + report_most) }
{
    put_line(out, at, word, &[sent, delivered, held])
}

// All lines, from the first byte on.
pub(crate) fn put_traffic(out: &mut [u8], traffic: Traffic, held: Counts) -> usize
    requires { totals_most ≤ length out.old }
    ensures { Stamped out.old 0 (traffic_text traffic held) result out.new }
{
    // Four calls: a table of the words and their numbers to go through would be as long as they are.
    let sent = traffic.sent;
    let delivered = traffic.delivered;
    let a = put_kind(
        out,
        0,
        b"traffic view",
        sent.views,
        delivered.views,
        held.views,
    );
    let b = put_kind(
        out,
        a,
        b"traffic vote",
        sent.votes,
        delivered.votes,
        held.votes,
    );
    let c = put_kind(out, b, b"traffic vc", sent.vcs, delivered.vcs, held.vcs);
    let d = put_kind(out, c, b"traffic qc", sent.qcs, delivered.qcs, held.qcs);
    let all = add_all(delivered);
    let e = put_kind(out, d, b"traffic all", add_all(sent), all, add_all(held));
    put_line(out, e, b"waits", &[traffic.waits, all])
}
