// Answers the schedule of its input in three ways: by `answer_lines` over pieces of it, by `answer_line`, and by `open` and `apply`. For each a line
// with its name, and the printout.
#![tactic(auto)]

ghost use Rattle.std.specs.Prelude.{◌≤◌, ◌<◌, length, IfOk};

use lines::{Next, Read};
use printout::{Served, Session};
use std::io;
use types::{Answer, Event, Setup};

// The most bytes of the input.
const INPUT_BYTES: usize = 65536;

// The bytes that come at once.
const PIECE_BYTES: usize = 100;

// Room for an answer, and mostly for one more.
const OUT_BYTES: usize = 90;

// What a call wrote into the lent bytes.
fn say_written(rt: &impl Print, answer: Result<usize, u64>, out: &[u8]) -> io::Result<()> {
    match answer {
        Ok(k) if k <= out.len() => rt.write_all(&out[..k]),
        _ => Ok(()),
    }
}

// The end of the input.
fn say_end(rt: &impl Print, session: Session, late: bool, rest: &[u8]) -> io::Result<()> {
    let mut out = [0u8; driver::CLOSING_MOST];
    let written = driver::finish(session, late, rest, &mut out);
    say_written(rt, written, &out)
}

// ---- answer_lines

// The lines that end within the bytes at hand, as many as have room for their answers.
fn serve(
    rt: &impl Print,
    session: Session,
    late: bool,
    bytes: &[u8],
    tally: &mut [u64],
    network: &mut [u64],
) -> io::Result<Served>
    ensures { IfOk result (λ served. served.used ≤ length bytes.now) }
{
    let mut out = [0u8; OUT_BYTES];
    let served = driver::answer_lines(session, late, bytes, tally, network, &mut out);
    rt.write_all(&out[..served.printed])?;
    Ok(served)
}

// Where the next piece ends.
fn further(end: usize, length: usize) -> usize
    requires { end < length }
    ensures { (end < result) × (result ≤ length) }
{
    end + PIECE_BYTES.min(length - end)
}

// Piece by piece: a further one, where no line ends in what is at hand.
fn in_pieces(rt: &impl Print, input: &[u8]) -> io::Result<()> {
    let mut tally = [0u64; printout::TALLY_LENT];
    let mut network = [0u64; printout::NETWORK_LENT];
    let mut session = Session::unopened();
    let mut late = false;
    let mut at = 0;
    let mut end = 0;
    // No count from call to call: a call says how many bytes it used.
    loop {
        let served = serve(rt, session, late, &input[at..end], &mut tally, &mut network)?;
        session = served.session;
        late = served.late;
        at += served.used;
        if served.used == 0 {
            if end == input.len() {
                return say_end(rt, session, late, &input[at..]);
            }
            end = further(end, input.len());
        }
    }
}

// ---- answer_line

// A line as a whole.
fn answer_whole(
    rt: &impl Print,
    session: Session,
    line: &[u8],
    tally: &mut [u64],
    network: &mut [u64],
) -> io::Result<Session> {
    let mut out = [0u8; driver::PRINTED_MOST];
    let replied = driver::answer_line(session, line, tally, network, &mut out);
    say_written(rt, replied.written, &out)?;
    Ok(replied.session)
}

// ---- read_line, read_setup, open, apply, write_answer

fn say_answer(rt: &impl Print, answer: Answer) -> io::Result<()> {
    let mut out = [0u8; driver::PRINTED_MOST];
    let written = writer::write_answer(answer, &mut out);
    say_written(rt, written, &out)
}

// "(stopped a h r) for ticks ended by check 16, 17 or 18, a being 0 if the first was refused"
fn say_applied(rt: &impl Print, event: Event, held: usize, answer: Answer) -> io::Result<()> {
    let told = match (event, answer) {
        (Event::Tick(_), Answer::Refused(check)) if 16 <= check => Answer::Stopped(0, held, check),
        _ => answer,
    };
    say_answer(rt, told)
}

// A run is open after an accepted opening.
fn open(
    rt: &impl Print,
    session: Session,
    setup: Setup,
    tally: &mut [u64],
    network: &mut [u64],
) -> io::Result<Session> {
    let applied = simulator::open(session.run, setup, tally, network);
    say_answer(rt, applied.answer)?;
    Ok(Session {
        opened: session.opened || matches!(applied.answer, Answer::Done(_, _)),
        run: applied.run,
    })
}

fn apply(
    rt: &impl Print,
    session: Session,
    event: Event,
    tally: &mut [u64],
    network: &mut [u64],
) -> io::Result<Session> {
    let applied = simulator::apply(session.run, event, tally, network);
    let run = applied.run;
    say_applied(rt, event, run.held, applied.answer)?;
    Ok(Session { run, ..session })
}

// A line in parts: read, applied or opened, and its answer written.
fn take_apart(
    rt: &impl Print,
    session: Session,
    line: &[u8],
    tally: &mut [u64],
    network: &mut [u64],
) -> io::Result<Session> {
    match reader::read_line(line) {
        Read::Event(event) => apply(rt, session, event, tally, network),
        Read::Opening => open(rt, session, reader::read_setup(line), tally, network),
        Read::NoForm => {
            say_answer(rt, Answer::Refused(1))?;
            Ok(session)
        }
    }
}

// ---- line by line

// Where the next line ends; where none does, the end.
fn line_end(rest: &[u8]) -> usize
    ensures { result ≤ length rest.now }
{
    match lines::next_line(rest) {
        Next::Line(end) | Next::Long(end) => end,
        Next::Unfinished | Next::Endless => rest.len(),
    }
}

// Every line of the input, by one of the two ways to answer one.
fn line_by_line<F: Fn(Session, &[u8], &mut [u64], &mut [u64]) -> io::Result<Session>>(
    rt: &impl Print,
    answer: F,
    input: &[u8],
) -> io::Result<()>
    requires { F.IsAlwaysCallable answer }
{
    let mut tally = [0u64; printout::TALLY_LENT];
    let mut network = [0u64; printout::NETWORK_LENT];
    let mut session = Session::unopened();
    let mut at = 0;
    // No count from line to line: a turn takes a line and its newline.
    loop {
        let end = at + line_end(&input[at..]);
        if end == input.len() {
            return say_end(rt, session, false, &input[at..]);
        }
        session = answer(session, &input[at..end], &mut tally, &mut network)?;
        at = end + 1;
    }
}

fn main(rt: HostRuntime) -> io::Result<()> {
    let mut input = [0u8; INPUT_BYTES];
    let n = transfer::read_full(&mut rt.stdin(), &mut input)?;
    rt.write_all(b"# answer_lines\n")?;
    in_pieces(&rt, &input[..n])?;
    rt.write_all(b"# answer_line\n")?;
    line_by_line(
        &rt,
        |session, line, tally, network| answer_whole(&rt, session, line, tally, network),
        &input[..n],
    )?;
    rt.write_all(b"# open and apply\n")?;
    line_by_line(
        &rt,
        |session, line, tally, network| take_apart(&rt, session, line, tally, network),
        &input[..n],
    )
}
