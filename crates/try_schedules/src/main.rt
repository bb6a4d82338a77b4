// Runs the schedules that its arguments name, as simulate does: for each a line with its name, and the printout.
#![tactic(auto)]

use std::env::FillError;
use std::rt::{Env, Files};
use std::{fs, io, str};

// The most bytes of a name.
const NAME_BYTES: usize = 4096;

// A name that is no text names no file.
fn open<R: Files>(rt: &R, name: &[u8]) -> Option<R::File> {
    let text = str::from_utf8(name).ok()?;
    fs::open(rt, text).ok()
}

fn run_named(rt: &(impl Files + Print), name: &[u8]) -> io::Result<()> {
    rt.write_all(b"# ")?;
    rt.write_all(name)?;
    rt.write_all(b"\n")?;
    let Some(mut file) = open(rt, name) else {
        return rt.write_all(b"not opened\n");
    };
    stream::run(&mut file, &mut io::writer(rt))
}

// Whether there was one. A name that is longer than the buffer is read as an empty one.
fn run_argument(rt: &(impl Files + Print + Env), i: usize) -> io::Result<bool> {
    let mut name = [0u8; NAME_BYTES];
    match rt.arg(i, &mut name) {
        Ok(n) => run_named(rt, &name[..n])?,
        Err(FillError::TooLong) => run_named(rt, b"")?,
        Err(FillError::NotPresent) => return Ok(false),
    }
    Ok(true)
}

fn main(rt: HostRuntime) -> io::Result<()> {
    for i in 1..usize::MAX {
        if !run_argument(&rt, i)? {
            break;
        }
    }
    Ok(())
}
