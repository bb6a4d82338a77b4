// The simulate program and the traffic program between a reader and a writer. What is read and what is printed are the driver's; here bytes are moved, and
// a report is printed. An error is one that the reader or the writer gave, or tells of a writer that takes no more.
#![tactic(auto)]

ghost use Rattle.std.specs.Prelude.{◌≡◌, ◌+◌, ◌-◌, ◌≤◌, length, take, drop, replicate, IfOk};
ghost use Rattle.lines.specs.Clauses.{Prints};
ghost use Rattle.lines.specs.Printout.{printed_most, totals_most};
ghost use Rattle.std.proofs.Math.Seq.{paste};
ghost use Rattle.printout.specs.Printout.{standing_of, tally_lent, network_lent};
ghost use Rattle.printout.specs.Traffic.{report_text};
ghost use Rattle.transfer.specs.Moves.{Grows, Shrinks};
ghost use Rattle.stream.specs.Threads.{Threads, Reaches};

use printout::Session;
use std::io;
use std::io::{Read, Write};

// The bytes of the window and of the buffer for what is printed.
const BUFFER_BYTES: usize = 65536;

// The session, whether bytes of a line that is too long were passed over, and a number of bytes: used, or left unused at the start of the window. With such
// bytes behind the last newline the session goes on all the same.
#[derive(Clone, Copy)]
struct Progress {
    session: Session,
    late: bool,
    bytes: usize,
}

// The bytes from `used` on, up to `filled`, go to the start.
fn keep(window: &mut [u8], used: usize, filled: usize) -> usize
    requires { (used ≤ filled) × (filled ≤ length window.old) }
    ensures { (result ≡ filled - used) × (window.new ≡ paste window.old 0 (drop used window.old) result) }
{
    window.copy_within(used..filled, 0);
    filled - used
}

// Where the answers go of which nothing is to be seen: all bytes are taken, and there is no error.
#[derive(Drop)]
struct Discard;

impl Write for Discard {
    fn write(&mut self, buf: &[u8]) -> io::Result<usize>
        ensures { result ≡ Ok (length buf.now) }
    {
        Ok(buf.len())
    }

    fn flush(&mut self) -> io::Result<()>
        ensures { result ≡ Ok tt }
    {
        Ok(())
    }
}

// Every line that ends within the bytes is answered, and the answers written.
fn answer_all<W: Write>(
    session: Session,
    late: bool,
    bytes: &[u8],
    tally: &mut [u64],
    network: &mut [u64],
    out: &mut [u8],
    to: &mut W,
) -> io::Result<Progress>
    ensures threads { IfOk result (Threads (standing_of session tally.old network.old) late bytes.now out.old
        tally.new network.new) }
    ensures grows { Grows (W.contents to.old) (W.contents to.new) }
{
    let mut state = session;
    let mut passed = late;
    let mut used = 0;
    // No count from call to call: a call says how many bytes it used.
    while used < bytes.len() {
        let served = driver::answer_lines(state, passed, &bytes[used..], tally, network, out);
        transfer::write_whole(to, &out[..served.printed])?;
        state = served.session;
        passed = served.late;
        used += served.used;
        if served.used == 0 {
            break;
        }
    }
    Ok(Progress {
        session: state,
        late: passed,
        bytes: used,
    })
}

// One read, behind the unused bytes.
fn read_behind<R: Read>(from: &mut R, window: &mut [u8], unused: usize) -> io::Result<usize>
    requires { unused ≤ length window.old }
    ensures within { IfOk result (λ got. unused + got ≤ length window.new) }
    ensures kept { take unused window.new ≡ take unused window.old }
    ensures shrinks { Shrinks (R.remaining from.old) (R.remaining from.new) }
{
    from.read(&mut window[unused..])
}

// From the program's start reads to the end. No input uses up the turns.
fn answer_input<R: Read, W: Write>(
    from: &mut R,
    to: &mut W,
    tally: &mut [u64],
    network: &mut [u64],
    window: &mut [u8],
    out: &mut [u8],
) -> io::Result<Progress>
    requires { (tally.old ≡ replicate tally_lent 0) × (network.old ≡ replicate network_lent 0) × (printed_most ≤ length out.old) }
    ensures reaches { IfOk result (Reaches tally.new network.new window.new) }
    ensures shrinks { Shrinks (R.remaining from.old) (R.remaining from.new) }
    ensures grows { Grows (W.contents to.old) (W.contents to.new) }
{
    let mut session = Session::unopened();
    let mut late = false;
    let mut unused = 0;
    for _ in 0..u64::MAX {
        let got = read_behind(from, window, unused)?;
        if got == 0 {
            break;
        }
        let filled = unused + got;
        let answered = answer_all(session, late, &window[..filled], tally, network, out, to)?;
        session = answered.session;
        late = answered.late;
        unused = keep(window, answered.bytes, filled);
    }
    Ok(Progress {
        session,
        late,
        bytes: unused,
    })
}

// A text that was printed at the start of the bytes is written.
fn write_text<W: Write>(text: Result<usize, u64>, out: &[u8], to: &mut W) -> io::Result<()>
    ensures { Grows (W.contents to.old) (W.contents to.new) }
{
    match text {
        Ok(printed) if printed <= out.len() => { transfer::write_whole(to, &out[..printed]) }
        _ => Ok(()),
    }
}

// The report of the run that is open; nothing where none is.
#[tactic(auto, unfolding(printout::specs::Traffic::report_text))]
fn print_report(
    session: &Session,
    tally: &[u64],
    network: &[u64],
    out: &mut [u8],
) -> Result<usize, u64>
    ensures { Prints totals_most (report_text (standing_of session.now tally.now network.now)) out.old result out.new }
{
    if session.opened {
        writer::write_totals(sums::totals(&session.run, tally, network), out)
    } else if out.len() < writer::TOTALS_MOST {
        Err(1)
    } else {
        Ok(0)
    }
}

// Reads a schedule to its end, and writes its printout or the report of its traffic.
fn serve<R: Read, W: Write>(from: &mut R, to: &mut W, reporting: bool) -> io::Result<()>
    ensures shrinks { Shrinks (R.remaining from.old) (R.remaining from.new) }
    ensures grows { Grows (W.contents to.old) (W.contents to.new) }
{
    let mut tally = [0u64; printout::TALLY_LENT];
    let mut network = [0u64; printout::NETWORK_LENT];
    let mut window = [0u8; BUFFER_BYTES];
    let mut out = [0u8; BUFFER_BYTES];
    if reporting {
        let at_end = answer_input(
            from,
            &mut Discard,
            &mut tally,
            &mut network,
            &mut window,
            &mut out,
        )?;
        let report = print_report(&at_end.session, &tally, &network, &mut out);
        write_text(report, &out, to)
    } else {
        let at_end = answer_input(from, to, &mut tally, &mut network, &mut window, &mut out)?;
        let end = driver::finish(
            at_end.session,
            at_end.late,
            &window[..at_end.bytes],
            &mut out,
        );
        write_text(end, &out, to)
    }
}

// Reads a schedule to its end and writes its printout.
pub fn run<R: Read, W: Write>(from: &mut R, to: &mut W) -> io::Result<()>
    ensures shrinks { Shrinks (R.remaining from.old) (R.remaining from.new) }
    ensures grows { Grows (W.contents to.old) (W.contents to.new) }
{
    serve(from, to, false)
}

// Reads a schedule to its end and writes the report of the run that is then open.
pub fn report<R: Read, W: Write>(from: &mut R, to: &mut W) -> io::Result<()>
    ensures shrinks { Shrinks (R.remaining from.old) (R.remaining from.new) }
    ensures grows { Grows (W.contents to.old) (W.contents to.new) }
{
    serve(from, to, true)
}
