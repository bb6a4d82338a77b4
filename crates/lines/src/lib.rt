// What lines of a schedule are, and where the next one ends.
#![tactic(auto)]

pub mod search;

ghost use Rattle.std.specs.Prelude.{◌≡◌};
ghost use Rattle.lines.specs.Splitting.{before_newline, next_line};

use types::Event;

// What a line is read as: an event, an opening, whose setup is read by itself, or none of the forms (check 1).
#[derive(Clone, Copy)]
pub enum Read {
    Event(Event),
    Opening,
    NoForm,
}

// The next line within the bytes at hand. Line: it ends before the newline at the place named. Long: so it does, but it has more bytes than a line may
// have. Unfinished: no newline is at hand. Endless: none, and already more bytes than a line may have.
#[derive(Clone, Copy)]
pub enum Next {
    Line(usize),
    Long(usize),
    Unfinished,
    Endless,
}

// The most bytes of a line, without its newline.
const LINE_MOST: usize = 4800;

// How many bytes stand before the first newline; all where there is none. Looked for in words, and singly in the remainder.
pub fn before_newline(bytes: &[u8]) -> usize
    ensures { result ≡ before_newline bytes.now }
{
    for i in search::words_before(bytes)..bytes.len() {
        if bytes[i] == b'\n' {
            return i;
        }
    }
    bytes.len()
}

// The next line within the bytes at hand.
#[tactic(auto, unfolding(crate::specs::Splitting::next_line))]
pub fn next_line(bytes: &[u8]) -> Next
    ensures { result ≡ next_line bytes.now }
{
    let end = before_newline(bytes);
    if end < bytes.len() {
        if end <= LINE_MOST {
            Next::Line(end)
        } else {
            Next::Long(end)
        }
    } else if bytes.len() <= LINE_MOST {
        Next::Unfinished
    } else {
        Next::Endless
    }
}
