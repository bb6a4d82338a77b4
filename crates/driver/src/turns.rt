// The lines of the bytes at hand, a batch at a time. The session is lent.
ghost use Rattle.std.specs.Prelude.{◌≡◌, ◌^◌, ◌≤◌, ◌<◌, length};
ghost use Rattle.words.specs.Events.{events_in};
ghost use Rattle.lines.specs.Printout.{printed_most};
ghost use Rattle.printout.specs.Printout.{standing_of};
ghost use Rattle.printout.specs.Clauses.{Serves};
ghost use Rattle.driver.specs.Inner.{served_as, Refuses, due_line, NotDue, Turns, TurnsAside};
ghost use Rattle.driver.specs.Batches.{lines_most};

use crate::{PRINTED_MOST, Turned, batches, printing, replies};
use lines::Next;
use printout::Session;
use types::Answer;

// A line that is too long; `end` of its bytes are at hand.
fn refuse_line(end: usize, out: &mut [u8]) -> Turned
    requires { (printed_most ≤ length out.old) × (end < 2 ^ 63) }
    ensures { Refuses end out.old result out.new }
{
    Turned {
        late: false,
        used: end + 1,
        printed: printing::print_answer(Answer::Refused(1), out),
    }
}

// Where no line is to be answered: bytes of one that is too long are passed over.
fn pass_over(late: bool, rest: &[u8], out: &mut [u8]) -> Turned
    requires { NotDue late rest.now (length out.old) }
    ensures { TurnsAside late rest.now out.old result out.new }
{
    let unmoved = Turned {
        late,
        used: 0,
        printed: 0,
    };
    if out.len() < PRINTED_MOST {
        return unmoved;
    }
    match lines::next_line(rest) {
        Next::Line(end) | Next::Long(end) => refuse_line(end, out),
        Next::Unfinished => unmoved,
        Next::Endless => Turned {
            late: true,
            used: rest.len(),
            ..unmoved
        },
    }
}

// The next line, if it is to be answered: none where bytes of it were passed over, or its answer may not have room.
#[tactic(auto, unfolding(crate::specs::Inner::due_line))]
fn due_line(late: bool, rest: &[u8], room: usize) -> Next
    ensures { result ≡ due_line late rest.now room }
{
    if late || room < PRINTED_MOST {
        Next::Unfinished
    } else {
        lines::next_line(rest)
    }
}

// The next line by itself.
fn answer_next(
    session: &mut Session,
    late: bool,
    rest: &[u8],
    tally: &mut [u64],
    network: &mut [u64],
    out: &mut [u8],
) -> Turned
    ensures { Turns (standing_of session.old tally.old network.old) late rest.now out.old
        tally.new network.new (served_as session.new result) out.new }
{
    let Next::Line(end) = due_line(late, rest, out.len()) else {
        return pass_over(late, rest, out);
    };
    replies::answer_whole(session, &rest[..end], tally, network, out)
}

// One turn: the lines that a batch may have, or the next one by itself.
fn answer_turn(
    session: &mut Session,
    late: bool,
    rest: &[u8],
    batch: &mut [u64],
    tally: &mut [u64],
    network: &mut [u64],
    out: &mut [u8],
) -> Turned
    requires { lines_most ≤ events_in batch.old }
    ensures { Turns (standing_of session.old tally.old network.old) late rest.now out.old
        tally.new network.new (served_as session.new result) out.new }
{
    let most = batches::most_lines(late, out.len());
    let gathered = batches::read_batch(rest, most, batch);
    if gathered.count == 0 {
        return answer_next(session, late, rest, tally, network, out);
    }
    let end = words::EVENT_WORDS * gathered.count;
    replies::answer_batch(
        session,
        gathered.used,
        &mut batch[..end],
        tally,
        network,
        out,
    )
}

// The lines that end within the bytes at hand, as many as have room for their answers.
pub(crate) fn answer_turns(
    session: &mut Session,
    late: bool,
    bytes: &[u8],
    batch: &mut [u64],
    tally: &mut [u64],
    network: &mut [u64],
    out: &mut [u8],
) -> Turned
    requires { lines_most ≤ events_in batch.old }
    ensures { Serves (standing_of session.old tally.old network.old) late bytes.now out.old
        tally.new network.new (served_as session.new result) out.new }
{
    let mut left = Turned {
        late,
        used: 0,
        printed: 0,
    };
    // No count from turn to turn: a turn says how many bytes it used.
    while left.used < bytes.len() {
        let turn = answer_turn(
            session,
            left.late,
            &bytes[left.used..],
            batch,
            tally,
            network,
            &mut out[left.printed..],
        );
        left = Turned {
            used: left.used + turn.used,
            printed: left.printed + turn.printed,
            ..turn
        };
        if turn.used == 0 {
            break;
        }
    }
    left
}
