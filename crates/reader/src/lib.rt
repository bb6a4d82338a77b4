// Reading one line of a schedule: any bytes in, the event, that it is an opening or none of the forms; and an opening's setup.
#![tactic(auto)]

ghost use Rattle.std.specs.Prelude.{◌≡◌, true, ◌+◌, ◌-◌, ◌/◌, ◌≤◌, [], ◌∷◌, length, drop};
ghost use Rattle.types.specs.Quantities.{n_most};
ghost use Rattle.lines.specs.Decimal.{field_limit};
ghost use Rattle.lines.specs.Clauses.{no_setup, Reads};
ghost use Rattle.reader.specs.Bytes.{is_mark, class_of, class_at, digit_run, spelled};
ghost use Rattle.reader.specs.Scan.{after_word, fitting, number_at, next_number_at, ReadsSeveral};
ghost use Rattle.reader.specs.Decimals.{decimal_of, ReadsDecimal};
ghost use Rattle.reader.specs.Lines.{kind_found_at, message_of, said_kind, message_at, ending_at, event_at, heading_at, first_clock_at, table_at, opening_at, opening_as, reading, skimmed};

use lines::Read;
use types::{Event, Message, Plan, Setup};

// ---- bytes

// What a byte is to the reader; a mark is a byte by which the forms are told apart.
#[derive(Clone, Copy)]
enum Class {
    Digit(u64),
    Mark(u8),
    Other,
}

#[tactic(auto, unfolding(crate::specs::Bytes::class_of))]
fn classify(b: u8) -> Class
    ensures { result ≡ class_of b }
{
    match b {
        b'0'..=b'9' => Class::Digit(u64::from(b - b'0')),
        b'(' | b')' | b' ' => Class::Mark(b),
        _ => Class::Other,
    }
}

// The class of the byte at a place; beyond the end none of the others.
#[tactic(auto, unfolding(crate::specs::Bytes::class_at))]
fn class_at(s: &[u8], at: usize) -> Class
    ensures { result ≡ class_at s.now at }
{
    if at < s.len() {
        classify(s[at])
    } else {
        Class::Other
    }
}

// ---- words

// The place after the bracket or blank, if it stands there.
fn after_mark(s: &[u8], at: usize, mark: u8) -> Option<usize>
    requires { is_mark mark ≡ true }
    ensures { result ≡ after_word s.now at (mark ∷ []) }
{
    let Class::Mark(here) = class_at(s, at) else {
        return None;
    };
    if here == mark { Some(at + 1) } else { None }
}

// The place after the word, if it stands there.
fn after_word(s: &[u8], at: usize, word: &[u8]) -> Option<usize>
    ensures { result ≡ after_word s.now at word.now }
{
    if at <= s.len() && s[at..].starts_with(word) {
        Some(at + word.len())
    } else {
        None
    }
}

// ---- numbers

// The most behind which a digit may stand, so that the number is below 2^64. It has no division: it is asked for every digit.
fn most_before(d: u64) -> u64
    requires { d ≤ 9 }
    ensures { result ≡ (field_limit - 1 - d) / 10 }
{
    if 5 < d {
        1844674407370955160
    } else {
        1844674407370955161
    }
}

// The number that the digits from a place on spell after v, which stands before them, and the place after them.
fn further_digits(s: &[u8], at: usize, v: u64) -> Option<(u64, usize)>
    ensures { result ≡ fitting (spelled v (digit_run (drop at s.now))) (at + length (digit_run (drop at s.now))) }
{
    let mut value = v;
    for i in at..s.len() {
        let Class::Digit(d) = classify(s[i]) else {
            return Some((value, i));
        };
        if most_before(d) < value {
            return None;
        }
        value = value * 10 + d;
    }
    Some((value, at.max(s.len())))
}

// The number at a place, without leading zeros and below 2^64, and the place after it.
fn read_number(s: &[u8], at: usize) -> Option<(u64, usize)>
    ensures { result ≡ number_at s.now at }
{
    let Class::Digit(d) = class_at(s, at) else {
        return None;
    };
    if d == 0 {
        match class_at(s, at + 1) {
            Class::Digit(_) => None,
            _ => Some((0, at + 1)),
        }
    } else {
        further_digits(s, at + 1, d)
    }
}

// A blank and a number, and the place after it. `read_message` and `first_clock` are put together like this; a function that is lent what stands before and the reading of what follows would be longer than the three.
#[tactic(auto, unfolding(crate::specs::Scan::next_number_at))]
fn next_number(s: &[u8], at: usize) -> Option<(u64, usize)>
    ensures { result ≡ next_number_at s.now at }
{
    read_number(s, after_mark(s, at, b' ')?)
}

// How many numbers stand in a series, and the place after them: a series may be empty, so there is always a count.
#[derive(Clone, Copy)]
struct Several {
    count: usize,
    end: usize,
}

// As many numbers as stand there, each behind a blank, up to as many as there are words lent.
fn read_several(s: &[u8], at: usize, numbers: &mut [u64]) -> Several
    ensures { ReadsSeveral s.now at numbers.old result numbers.new }
{
    let mut end = at;
    for (count, number) in numbers.iter_mut().enumerate() {
        let Some((n, after)) = next_number(s, end) else {
            return Several { count, end };
        };
        *number = n;
        end = after;
    }
    Several {
        count: numbers.len(),
        end,
    }
}

// ---- messages

// The kind by itself, since its word stands before the view and the processor: a function that makes the message of these cannot be answered in its place.
#[derive(Clone, Copy)]
enum Kind {
    View,
    Vote,
    Vc,
    Qc,
}

// The kind whose word stands there, and the place after it.
#[tactic(auto, unfolding(crate::specs::Lines::kind_found_at))]
fn read_kind(s: &[u8], at: usize) -> Option<(Kind, usize)>
    ensures { result ≡ kind_found_at s.now at }
{
    if let Some(a) = after_word(s, at, b"view") {
        Some((Kind::View, a))
    } else if let Some(a) = after_word(s, at, b"vote") {
        Some((Kind::Vote, a))
    } else if let Some(a) = after_word(s, at, b"vc") {
        Some((Kind::Vc, a))
    } else if let Some(a) = after_word(s, at, b"qc") {
        Some((Kind::Qc, a))
    } else {
        None
    }
}

// The message of this kind, view and processor.
fn make(kind: Kind, w: u64, p: u64) -> Message
    ensures { result ≡ message_of kind w p }
{
    match kind {
        Kind::View => Message::View(w, p),
        Kind::Vote => Message::Vote(w, p),
        Kind::Vc => Message::Vc(w, p),
        Kind::Qc => Message::Qc(w, p),
    }
}

// Behind the bracket: kind, view, processor and the closing bracket.
fn read_inside(s: &[u8], at: usize) -> Option<(Message, usize)>
    ensures { result ≡ said_kind s.now (kind_found_at s.now at) }
{
    let (kind, a) = read_kind(s, at)?;
    let (w, b) = next_number(s, a)?;
    let (p, c) = next_number(s, b)?;
    let end = after_mark(s, c, b')')?;
    Some((make(kind, w, p), end))
}

// A blank and a message, and the place after it.
#[tactic(auto, unfolding(crate::specs::Lines::message_at))]
fn read_message(s: &[u8], at: usize) -> Option<(Message, usize)>
    ensures { result ≡ message_at s.now at }
{
    read_inside(s, after_word(s, at, b" (")?)
}

// ---- events

// The event, if it has this form and the line ends behind a bracket at the place.
#[tactic(auto, unfolding(crate::specs::Lines::ending_at))]
fn ending(s: &[u8], at: usize, event: Event) -> Option<Event>
    ensures { result ≡ ending_at s.now at event }
{
    let end = after_mark(s, at, b')')?;
    if end != s.len() || event.lacks_form() {
        None
    } else {
        Some(event)
    }
}

// By the word behind the first bracket.
#[tactic(auto, unfolding(crate::specs::Lines::event_at, crate::specs::Lines::deliver_at, crate::specs::Lines::sign_at, crate::specs::Lines::show_at, crate::specs::Lines::ticks_at))]
fn read_event(s: &[u8], at: usize) -> Option<Event>
    ensures { result ≡ event_at s.now at }
{
    if let Some(a) = after_word(s, at, b"deliver") {
        let (m, k) = read_message(s, a)?;
        ending(s, k, Event::Deliver(m))
    } else if let Some(a) = after_word(s, at, b"tick") {
        let (m, k) = next_number(s, a)?;
        ending(s, k, Event::Tick(m))
    } else if let Some(a) = after_word(s, at, b"sign") {
        let (m, k) = read_message(s, a)?;
        ending(s, k, Event::Sign(m))
    } else if let Some(a) = after_word(s, at, b"show") {
        let (m, k) = read_message(s, a)?;
        ending(s, k, Event::Show(m))
    } else if let Some(a) = after_word(s, at, b"settle") {
        ending(s, a, Event::Settle)
    } else {
        None
    }
}

// ---- the opening

// A plan and a faulty set, and the place after them.
#[derive(Clone, Copy)]
struct Heading {
    plan: Plan,
    faulty: u64,
    end: usize,
}

// A table's clocks, and the place after it.
#[derive(Clone, Copy)]
struct Table {
    clocks: [u64; 64],
    end: usize,
}

// The numbers before the table: which they are, their count tells, six with k and five without it.
fn read_heading(s: &[u8], at: usize) -> Option<Heading>
    ensures { result ≡ heading_at s.now at }
{
    let mut numbers = [0; 6];
    let Several { count, end } = read_several(s, at, &mut numbers);
    let (k, faulty) = match count {
        6 => (numbers[4], numbers[5]),
        5 => (Plan::VIEWS_PER_LEADER, numbers[4]),
        _ => return None,
    };
    Some(Heading {
        plan: Plan {
            n: numbers[0],
            delta: numbers[1],
            gamma: numbers[2],
            views: numbers[3],
            k,
        },
        faulty,
        end,
    })
}

// A blank, a bracket and a number, and the place after it.
#[tactic(auto, unfolding(crate::specs::Lines::first_clock_at))]
fn first_clock(s: &[u8], at: usize) -> Option<(u64, usize)>
    ensures { result ≡ first_clock_at s.now at }
{
    read_number(s, after_word(s, at, b" (")?)
}

// The table of n clocks.
fn read_table(s: &[u8], at: usize, n: usize) -> Option<Table>
    requires { (1 ≤ n) × (n ≤ n_most) }
    ensures { result ≡ table_at s.now at n }
{
    let (c, a) = first_clock(s, at)?;
    let mut clocks = [0; 64];
    clocks[0] = c;
    let further = read_several(s, a, &mut clocks[1..n]);
    if further.count != n - 1 {
        return None;
    }
    let end = after_word(s, further.end, b"))")?;
    Some(Table { clocks, end })
}

// The setup behind the word of an opening, if the line ends behind its table.
#[tactic(auto, unfolding(crate::specs::Lines::opening_at))]
fn read_opening(s: &[u8], at: usize) -> Option<Setup>
    ensures { result ≡ opening_at s.now at }
{
    let Heading { plan, faulty, end } = read_heading(s, at)?;
    if plan.n == 0 || Plan::N_MOST < plan.n {
        return None;
    }
    let Table { clocks, end } = read_table(s, end, plan.n as usize)?;
    if end != s.len() {
        return None;
    }
    Some(Setup {
        plan,
        faulty,
        clocks,
    })
}

// ---- a line

// 0 everywhere, written out, since there is no Default for a table of 64 clocks.
fn no_setup() -> Setup
    ensures { result ≡ no_setup }
{
    Setup {
        plan: Plan {
            n: 0,
            delta: 0,
            gamma: 0,
            views: 0,
            k: 0,
        },
        faulty: 0,
        clocks: [0; 64],
    }
}

// A line, without its newline, is skimmed: one that begins as an opening does is taken for one and not read further. Its setup then tells whether it is.
#[tactic(auto, unfolding(crate::specs::Lines::skimmed))]
pub fn skim_line(line: &[u8]) -> Read
    ensures { result ≡ skimmed line.now }
{
    let Some(a) = after_mark(line, 0, b'(') else {
        return Read::NoForm;
    };
    if after_word(line, a, b"open").is_some() {
        return Read::Opening;
    }
    match read_event(line, a) {
        Some(event) => Read::Event(event),
        None => Read::NoForm,
    }
}

// The setup of a line, without its newline, that is an opening; 0 everywhere of any other.
pub fn read_setup(line: &[u8]) -> Setup
    ensures { (result ≡ (reading line.now).setup) × Reads line.now (reading line.now) }
{
    if let Some(a) = after_word(line, 0, b"(open") {
        if let Some(setup) = read_opening(line, a) {
            return setup;
        }
    }
    no_setup()
}

// What a line, without its newline, is read as.
pub fn read_line(line: &[u8]) -> Read
    ensures { (result ≡ (reading line.now).read) × Reads line.now (reading line.now) }
{
    match skim_line(line) {
        Read::Opening => {
            if read_setup(line).plan.n == 0 {
                Read::NoForm
            } else {
                Read::Opening
            }
        }
        read => read,
    }
}

// ---- a number by itself

// The number that a text is the decimal of.
pub fn read_decimal(text: &[u8]) -> Option<u64>
    ensures { (result ≡ decimal_of text.now) × ReadsDecimal text.now result }
{
    match read_number(text, 0) {
        Some((n, end)) if end == text.len() => Some(n),
        _ => None,
    }
}
