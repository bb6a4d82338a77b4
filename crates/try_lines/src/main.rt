// Prints what each line of its input is read as, and whether that is written as the same bytes.
#![tactic(auto)]

ghost use Rattle.std.specs.Prelude.{◌≡◌, true, ◌<◌, ◌≤◌, length, take, IfOk};
ghost use Rattle.lines.specs.Clauses.{line};

use lines::{Next, Read};
use std::io;
use types::{Event, Message, Setup};

// The bytes of input that it takes.
const INPUT_BYTES: usize = 131072;

// Room for the longest form and its newline.
const LINE_BYTES: usize = 1461;

fn say_number(rt: &impl Print, n: u64) -> io::Result<()> {
    print!(rt; " {n}")
}

// Kind, view and processor.
fn say_message(rt: &impl Print, word: &[u8], message: Message) -> io::Result<()> {
    rt.write_all(word)?;
    say_number(rt, message.kind())?;
    say_number(rt, message.view())?;
    say_number(rt, message.processor())
}

fn say_event(rt: &impl Print, event: Event) -> io::Result<()> {
    match event {
        Event::Deliver(m) => say_message(rt, b"deliver", m),
        Event::Sign(m) => say_message(rt, b"sign", m),
        Event::Show(m) => say_message(rt, b"show", m),
        Event::Settle => rt.write_all(b"settle"),
        Event::Tick(m) => {
            rt.write_all(b"tick")?;
            say_number(rt, m)
        }
    }
}

// All of them, those from n on too.
fn say_clocks(rt: &impl Print, clocks: &[u64]) -> io::Result<()> {
    for clock in clocks {
        say_number(rt, *clock)?;
    }
    Ok(())
}

fn say_setup(rt: &impl Print, setup: Setup) -> io::Result<()> {
    rt.write_all(b"open")?;
    let plan = setup.plan;
    say_number(rt, plan.n)?;
    say_number(rt, plan.delta)?;
    say_number(rt, plan.gamma)?;
    say_number(rt, plan.views)?;
    say_number(rt, plan.k)?;
    say_number(rt, setup.faulty)?;
    say_clocks(rt, &setup.clocks)
}

// Whether the first k bytes of out are the form and a newline. Two steps: the second takes a part that is there only where the first has not answered.
fn is_line(out: &[u8], k: usize, form: &[u8]) -> bool
    ensures { result ≡ true → take k out.now ≡ line form.now }
{
    if k == 0 || out.len() < k || out[k - 1] != b'\n' {
        return false;
    }
    &out[..k - 1] == form
}

// The first k bytes, if there are as many.
fn say_first(rt: &impl Print, out: &[u8], k: usize) -> io::Result<()> {
    if k <= out.len() {
        rt.write_all(&out[..k])
    } else {
        Ok(())
    }
}

// What writing answered: as many bytes of the line that was read, or the line that it wrote, if that is another.
fn say_written(
    rt: &impl Print,
    answer: Result<usize, u64>,
    out: &[u8],
    line: &[u8],
) -> io::Result<()> {
    let Ok(k) = answer else {
        return rt.write_all(b" not written\n");
    };
    if is_line(out, k, line) {
        rt.write_all(b" written")?;
        say_number(rt, k as u64)?;
        return rt.write_all(b"\n");
    }
    rt.write_all(b" written otherwise: ")?;
    say_first(rt, out, k)
}

fn say_refused(rt: &impl Print) -> io::Result<()> {
    rt.write_all(b"refused 1\n")
}

// The answer is an event, an opening, or anything else: check 1.
fn tell_line(rt: &impl Print, line: &[u8]) -> io::Result<()> {
    let mut out = [0u8; LINE_BYTES];
    let answer = match reader::read_line(line) {
        Read::Event(event) => {
            say_event(rt, event)?;
            writer::write_event(event, &mut out)
        }
        Read::Opening => {
            let setup = reader::read_setup(line);
            say_setup(rt, setup)?;
            writer::write_setup(setup, &mut out)
        }
        Read::NoForm => return say_refused(rt),
    };
    say_written(rt, answer, &out, line)
}

// Tells the next line, and how many bytes it took.
fn tell_next(rt: &impl Print, rest: &[u8]) -> io::Result<usize>
    requires { 0 < length rest.now }
    ensures { IfOk result (λ taken. (1 ≤ taken) × (taken ≤ length rest.now)) }
{
    match lines::next_line(rest) {
        Next::Line(end) => {
            tell_line(rt, &rest[..end])?;
            Ok(end + 1)
        }
        Next::Long(end) => {
            say_refused(rt)?;
            Ok(end + 1)
        }
        Next::Unfinished | Next::Endless => {
            say_refused(rt)?;
            Ok(rest.len())
        }
    }
}

fn tell_all(rt: &impl Print, input: &[u8]) -> io::Result<()> {
    let mut at = 0;
    // No count from line to line: a line says how many bytes it took.
    while at < input.len() {
        at += tell_next(rt, &input[at..])?;
    }
    Ok(())
}

fn main(rt: HostRuntime) -> io::Result<()> {
    let mut input = [0u8; INPUT_BYTES];
    let n = transfer::read_full(&mut rt.stdin(), &mut input)?;
    if n == INPUT_BYTES {
        return rt.write_all(b"too much input\n");
    }
    tell_all(&rt, &input[..n])
}
