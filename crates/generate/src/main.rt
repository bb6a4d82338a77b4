// The generate program: a load out of a seed number, on standard output. What is refused, and wrong arguments, are told on standard error.
#![tactic(auto)]

mod pieces;

ghost use Rattle.std.specs.Prelude.{◌≤◌, length};

use lines::Read;
use std::env::FillError;
use std::io;
use std::rt::Env;
use types::Answer;

// The program's name, the opening's line, the steps, the step before which the load settles, and the seed.
const ARGUMENTS: usize = 5;

// The bytes of an argument, and of the answer that is told.
const TEXT_BYTES: usize = 4096;

fn tell_usage(rt: &HostRuntime) -> io::Result<()> {
    transfer::write_whole(
        &mut rt.stderr(),
        b"usage: generate OPENING STEPS SETTLE SEED\n",
    )
}

fn tell_refused(rt: &HostRuntime, check: u64) -> io::Result<()> {
    let mut line = [0u8; TEXT_BYTES];
    match writer::write_answer(Answer::Refused(check), &mut line) {
        Ok(bytes) if bytes <= line.len() => {
            transfer::write_whole(&mut rt.stderr(), &line[..bytes])
        }
        _ => Ok(()),
    }
}

// Whether there is an argument at that place.
fn is_given(rt: &impl Env, i: usize) -> bool {
    let mut text = [0u8; TEXT_BYTES];
    !matches!(rt.arg(i, &mut text), Err(FillError::NotPresent))
}

// An argument at the start of the buffer, and how many bytes it has. One that is longer than the buffer is read as an empty one.
fn argument(rt: &impl Env, i: usize, text: &mut [u8]) -> usize
    ensures { result ≤ length text.new }
{
    rt.arg(i, text).unwrap_or(0)
}

// An empty argument is no number.
fn number_argument(rt: &impl Env, i: usize) -> Option<u64> {
    let mut text = [0u8; TEXT_BYTES];
    let n = argument(rt, i, &mut text);
    reader::read_decimal(&text[..n])
}

fn main(rt: HostRuntime) -> io::Result<()> {
    if !is_given(&rt, ARGUMENTS - 1) || is_given(&rt, ARGUMENTS) {
        return tell_usage(&rt);
    }
    let Some(steps) = number_argument(&rt, 2) else {
        return tell_usage(&rt);
    };
    let Some(settle) = number_argument(&rt, 3) else {
        return tell_usage(&rt);
    };
    let Some(seed) = number_argument(&rt, 4) else {
        return tell_usage(&rt);
    };
    // A line that is longer than the buffer, and so than any opening, is read as an empty one, which opens none.
    let mut text = [0u8; TEXT_BYTES];
    let n = argument(&rt, 1, &mut text);
    let Read::Opening = reader::read_line(&text[..n]) else {
        return tell_refused(&rt, 1);
    };
    let setup = reader::read_setup(&text[..n]);
    match pieces::run(setup, steps, settle, seed, &mut rt.stdout())? {
        Ok(_) => Ok(()),
        Err(check) => tell_refused(&rt, check),
    }
}
