// What is answered to the lines of a batch, to an opening, and to a line by itself. The session is lent.
ghost use Rattle.std.specs.Prelude.{◌≡◌, ◌+◌, ◌*◌, ◌≤◌, length};
ghost use Rattle.model.specs.State.{state_of};
ghost use Rattle.words.specs.Events.{events_in};
ghost use Rattle.lines.specs.Printout.{printed_most};
ghost use Rattle.reader.specs.Lines.{opening_or};
ghost use Rattle.printout.specs.Printout.{standing_of, stays_open, reply, line_reply};
ghost use Rattle.driver.specs.Inner.{served_as, replying, Passes};
ghost use Rattle.driver.specs.Batches.{words_answered, advanced};

use crate::{Turned, batches, printing};
use lines::Read;
use printout::Session;
use types::{Answer, Setup};

// The lines of a batch.
pub(crate) fn answer_batch(
    session: &mut Session,
    used: usize,
    batch: &mut [u64],
    tally: &mut [u64],
    network: &mut [u64],
    out: &mut [u8],
) -> Turned
    requires { events_in batch.old * printed_most ≤ length out.old }
    ensures { Passes used (advanced session.old.opened (events_in batch.old) (words_answered session.old.opened batch.old
        (state_of session.old.run tally.old network.old))) out.old
        tally.new network.new (served_as session.new result) out.new }
{
    batches::apply_batch(session.opened, &mut session.run, tally, network, batch);
    Turned {
        late: false,
        used,
        printed: batches::print_batch(session.opened, batch, out),
    }
}

// Whether a run is open after an opening.
fn stays_open(opened: bool, answer: Answer) -> bool
    ensures { result ≡ stays_open opened answer }
{
    opened || !matches!(answer, Answer::Refused(_))
}

// A line that begins as an opening: it is one, unless its setup has no processors.
fn answer_opening(
    session: &mut Session,
    used: usize,
    setup: Setup,
    tally: &mut [u64],
    network: &mut [u64],
    out: &mut [u8],
) -> Turned
    requires { printed_most ≤ length out.old }
    ensures { Passes used
        (replying (reply (opening_or setup) (standing_of session.old tally.old network.old))) out.old
        tally.new network.new (served_as session.new result) out.new }
{
    if setup.plan.n == 0 {
        return Turned {
            late: false,
            used,
            printed: printing::print_answer(Answer::Refused(1), out),
        };
    }
    let answer = simulator::open_in_place(&mut session.run, setup, tally, network);
    session.opened = stays_open(session.opened, answer);
    Turned {
        late: false,
        used,
        printed: printing::print_answer(answer, out),
    }
}

// A whole line: an opening, or a batch of one.
pub(crate) fn answer_whole(
    session: &mut Session,
    line: &[u8],
    tally: &mut [u64],
    network: &mut [u64],
    out: &mut [u8],
) -> Turned
    requires { printed_most ≤ length out.old }
    ensures { Passes (length line.now + 1)
        (replying (line_reply line.now (standing_of session.old tally.old network.old))) out.old
        tally.new network.new (served_as session.new result) out.new }
{
    let used = line.len() + 1;
    let read = reader::skim_line(line);
    if let Read::Opening = read {
        return answer_opening(session, used, reader::read_setup(line), tally, network, out);
    }
    let mut batch = [0u64; words::EVENT_WORDS];
    words::put_numbers(&mut batch, 0, batches::numbers_read(read));
    answer_batch(session, used, &mut batch, tally, network, out)
}
