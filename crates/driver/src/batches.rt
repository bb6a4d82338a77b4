// Lines in a batch: read as words, applied as words, printed from the words. The simulator takes its events as words, since C lends them so; a form is then a number.
ghost use Rattle.std.specs.Prelude.{◌≡◌, false, ◌*◌, ◌≤◌, ◌<◌, length, IfSome};
ghost use Rattle.model.specs.State.{state_of};
ghost use Rattle.lines.specs.Printout.{printed_most};
ghost use Rattle.lines.specs.Clauses.{Put};
ghost use Rattle.liveness.specs.Promises.{answer_from};
ghost use Rattle.words.specs.Events.{events_in};
ghost use Rattle.printout.specs.Printout.{ends_ticks, ticks_printed};
ghost use Rattle.driver.specs.Batches.{read_numbers, Notes, Gathers, lines_most, worded, words_answered, open_as, closed_as, printed_at, printed_up_to};

use crate::{Gathered, Noted, PRINTED_MOST, printing};
use lines::{Next, Read};
use types::{Answer, Run};
use words::Numbers;

// The most lines of a batch, and its words.
const LINES_MOST: usize = 512;

pub(crate) const BATCH_WORDS: usize = 2048;

// ---- reading

// What a line was read as, in numbers.
pub(crate) fn numbers_read(read: Read) -> Numbers
    ensures { result ≡ read_numbers read }
{
    let Read::Event(event) = read else {
        return words::bare(0, 0);
    };
    words::numbers_of(event)
}

// The next line; none where it does not end, is too long or may be an opening.
fn note_line(rest: &[u8]) -> Option<Noted>
    ensures { IfSome result (Notes rest.now) }
{
    let Next::Line(end) = lines::next_line(rest) else {
        return None;
    };
    let read = reader::skim_line(&rest[..end]);
    if let Read::Opening = read {
        return None;
    }
    Some(Noted {
        used: end + 1,
        numbers: numbers_read(read),
    })
}

// The most lines whose answers have room; none where bytes of a line that is too long were passed over.
pub(crate) fn most_lines(late: bool, room: usize) -> usize
    ensures { (result ≤ lines_most) × (result * printed_most ≤ room) × (0 < result → late ≡ false) }
{
    if late {
        0
    } else {
        LINES_MOST.min(room / PRINTED_MOST)
    }
}

// The lines at hand, up to an opening, a line that is too long, or one that does not end.
pub(crate) fn read_batch(rest: &[u8], most: usize, batch: &mut [u64]) -> Gathered
    requires { most ≤ events_in batch.old }
    ensures { Gathers rest.now most result.count result.used batch.new }
{
    let mut used = 0;
    for count in 0..most {
        let Some(noted) = note_line(&rest[used..]) else {
            return Gathered { count, used };
        };
        words::put_numbers(batch, count, noted.numbers);
        used += noted.used;
    }
    Gathered { count: most, used }
}

// ---- applying

// The events of the words, where a run is open.
pub(crate) fn apply_batch(
    opened: bool,
    run: &mut Run,
    tally: &mut [u64],
    network: &mut [u64],
    batch: &mut [u64],
)
    ensures { worded (state_of run.new tally.new network.new) batch.new
        ≡ words_answered opened batch.old (state_of run.old tally.old network.old) }
{
    if opened {
        simulator::apply_events(run, tally, network, batch);
    }
}

// ---- printing

// Whether the check ends ticks.
fn ends_ticks(check: u64) -> bool
    ensures { result ≡ ends_ticks check }
{
    matches!(check, 16..=18)
}

// The printed answer to ticks.
#[tactic(auto, unfolding(printout::specs::Printout::ticks_printed))]
fn print_ticks(held: usize, answer: Answer) -> Answer
    ensures { result ≡ ticks_printed held answer }
{
    // The test stands inside its arm: behind an arm with a test of its own nothing is known of the others.
    match answer {
        Answer::Refused(check) => {
            if ends_ticks(check) {
                Answer::Stopped(0, held, check)
            } else {
                answer
            }
        }
        _ => answer,
    }
}

// The answer that check, ticks and messages held tell.
fn answer_from(check: u64, ticks: u64, held: usize) -> Answer
    ensures { result ≡ answer_from check ticks held }
{
    if check == 0 {
        Answer::Done(ticks, held)
    } else if ticks == 0 {
        Answer::Refused(check)
    } else {
        Answer::Stopped(ticks, held, check)
    }
}

// The printed answer to a line of an open run.
#[tactic(auto, unfolding(crate::specs::Batches::open_as))]
fn printed_open(form: u64, check: u64, ticks: u64, held: usize) -> Answer
    ensures { result ≡ open_as form check ticks held }
{
    let answer = answer_from(check, ticks, held);
    if form == 5 {
        print_ticks(held, answer)
    } else {
        answer
    }
}

// The printed answer to a line before a run is open.
#[tactic(auto, unfolding(crate::specs::Batches::closed_as))]
fn printed_closed(form: u64) -> Answer
    ensures { result ≡ closed_as form }
{
    Answer::Refused(if form == 0 { 1 } else { 9 })
}

// The printed answer to line i.
pub(crate) fn printed_at(opened: bool, batch: &[u64], i: usize) -> Answer
    requires { i < events_in batch.now }
    ensures { result ≡ printed_at opened batch.now i }
{
    let at = words::EVENT_WORDS * i;
    let form = batch[at];
    if opened {
        printed_open(form, batch[at + 1], batch[at + 2], batch[at + 3] as usize)
    } else {
        printed_closed(form)
    }
}

// The printed answers to all lines of the words.
pub(crate) fn print_batch(opened: bool, batch: &[u64], out: &mut [u8]) -> usize
    requires { events_in batch.now * printed_most ≤ length out.old }
    ensures { Put (printed_up_to opened batch.now (events_in batch.now)) out.old result out.new }
{
    let mut at = 0;
    for i in 0..batch.len() / words::EVENT_WORDS {
        let answer = printed_at(opened, batch, i);
        at += printing::print_answer(answer, &mut out[at..]);
    }
    at
}
