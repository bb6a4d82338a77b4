// The simulate program but for its reading and writing of files: lines in, printed answers out.
#![tactic(auto)]

mod batches;
mod printing;
mod replies;
mod turns;

ghost use Rattle.printout.specs.Printout.{standing_of};
ghost use Rattle.printout.specs.Clauses.{AnswersLine, Serves, Closes};

use printout::{Served, Session};
use words::Numbers;

// The bytes that the longest answer has.
pub const PRINTED_MOST: usize = 73;

// The bytes that an answer and the lines of all processors have at most.
pub const CLOSING_MOST: usize = 4745;

// What a line left of the session, and the answer in the lent bytes: how many of them, or check 1 where too few are lent.
#[derive(Clone, Copy)]
pub struct Replied {
    pub session: Session,
    pub written: Result<usize, u64>,
}

// The next line, which a batch may have, in numbers: how many bytes it has with its newline.
#[derive(Clone, Copy)]
pub(crate) struct Noted {
    pub(crate) used: usize,
    pub(crate) numbers: Numbers,
}

// Lines that stand in a batch: how many, and the bytes that they have.
#[derive(Clone, Copy)]
pub(crate) struct Gathered {
    pub(crate) count: usize,
    pub(crate) used: usize,
}

// What bytes of an input left, the session being lent: as `Served` but for it.
#[derive(Clone, Copy)]
pub(crate) struct Turned {
    pub(crate) late: bool,
    pub(crate) used: usize,
    pub(crate) printed: usize,
}

// One line, without its newline, is answered.
pub fn answer_line(
    mut session: Session,
    line: &[u8],
    tally: &mut [u64],
    network: &mut [u64],
    out: &mut [u8],
) -> Replied
    ensures { AnswersLine line.now (standing_of session tally.old network.old) out.old
        (standing_of result.session tally.new network.new) result.written out.new }
{
    if out.len() < PRINTED_MOST {
        return Replied {
            session,
            written: Err(1),
        };
    }
    let turn = replies::answer_whole(&mut session, line, tally, network, out);
    Replied {
        session,
        written: Ok(turn.printed),
    }
}

// The lines that end within the bytes at hand are answered, as many as have room for their answers.
pub fn answer_lines(
    mut session: Session,
    late: bool,
    bytes: &[u8],
    tally: &mut [u64],
    network: &mut [u64],
    out: &mut [u8],
) -> Served
    ensures { Serves (standing_of session tally.old network.old) late bytes.now out.old
        tally.new network.new result out.new }
{
    let mut batch = [0u64; batches::BATCH_WORDS];
    let turn = turns::answer_turns(&mut session, late, bytes, &mut batch, tally, network, out);
    Served {
        session,
        late: turn.late,
        used: turn.used,
        printed: turn.printed,
    }
}

// At the end of the input: `rest` are the bytes at hand since the last newline.
pub fn finish(session: Session, late: bool, rest: &[u8], out: &mut [u8]) -> Result<usize, u64>
    ensures { Closes session late rest.now out.old result out.new }
{
    if out.len() < CLOSING_MOST {
        return Err(1);
    }
    let at = printing::print_left(late, rest.len(), out);
    let closing = printing::print_closing(&session, &mut out[at..]);
    Ok(at + closing)
}
