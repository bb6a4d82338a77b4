// The forms of events: how many bytes they have, and their bytes written.
ghost use Rattle.std.specs.Prelude.{◌≡◌, ◌≤◌, [], ◌∷◌, length};
ghost use Rattle.lines.specs.Forms.{kind_word, message_form, event_form, close_bracket, joined};
ghost use Rattle.lines.specs.Splitting.{line_most};
ghost use Rattle.writer.specs.Stamps.{Room, Stamped};

use crate::pieces;
use types::{Event, Message};

// The bytes of a kind's word.
fn kind_length(message: Message) -> usize
    ensures { (result ≡ length (kind_word message)) × (result ≤ 4) }
{
    match message {
        Message::View(..) | Message::Vote(..) => 4,
        Message::Vc(..) | Message::Qc(..) => 2,
    }
}

// The bytes of a message's form: beside the word and the numbers two brackets and two blanks.
pub(crate) fn message_length(message: Message) -> usize
    ensures { (result ≡ length (message_form message)) × (result ≤ 48) }
{
    let view = pieces::width(message.view());
    let processor = pieces::width(message.processor());
    kind_length(message) + view + processor + 4
}

// The bytes of an event's form: beside the message or number its word, two brackets, and a blank where something follows the word.
pub(crate) fn event_length(event: Event) -> usize
    ensures { (result ≡ length (event_form event)) × (result ≤ line_most) }
{
    match event {
        Event::Deliver(m) => 10 + message_length(m),
        Event::Sign(m) => 7 + message_length(m),
        Event::Show(m) => 7 + message_length(m),
        Event::Settle => 8,
        Event::Tick(m) => 7 + pieces::width(m),
    }
}

// A kind's word.
fn put_kind(out: &mut [u8], at: usize, message: Message) -> usize
    requires { Room out.old at (kind_word message) }
    ensures { Stamped out.old at (kind_word message) result out.new }
{
    match message {
        Message::View(..) => pieces::put_slice(out, at, b"view"),
        Message::Vote(..) => pieces::put_slice(out, at, b"vote"),
        Message::Vc(..) => pieces::put_slice(out, at, b"vc"),
        Message::Qc(..) => pieces::put_slice(out, at, b"qc"),
    }
}

// A message's form.
fn put_message(out: &mut [u8], at: usize, message: Message) -> usize
    requires { Room out.old at (message_form message) }
    ensures { Stamped out.old at (message_form message) result out.new }
{
    let kind = pieces::put_byte(out, at, b'(');
    let view = put_kind(out, kind, message);
    let processor = pieces::put_spaced(out, view, message.view());
    let end = pieces::put_spaced(out, processor, message.processor());
    pieces::put_byte(out, end, b')')
}

// The form of an event that carries a message; `word` is all that stands before the message. It is compiled into each caller, where the word is known: copied as
// a slice of any length it would be by `memmove`, which a caller in C without a C library has to bring.
#[inline(always)]
fn put_carrying(out: &mut [u8], word: &[u8], message: Message) -> usize
    requires { Room out.old 0 (joined (word.now ∷ message_form message ∷ close_bracket ∷ [])) }
    ensures { Stamped out.old 0 (joined (word.now ∷ message_form message ∷ close_bracket ∷ [])) result out.new }
{
    let inner = pieces::put_slice(out, 0, word);
    let end = put_message(out, inner, message);
    pieces::put_byte(out, end, b')')
}

// The form of ticks.
fn put_ticks(out: &mut [u8], ticks: u64) -> usize
    requires { Room out.old 0 (event_form (Event.Tick ticks)) }
    ensures { Stamped out.old 0 (event_form (Event.Tick ticks)) result out.new }
{
    let number = pieces::put_slice(out, 0, b"(tick");
    let end = pieces::put_spaced(out, number, ticks);
    pieces::put_byte(out, end, b')')
}

// An event's form, from the first byte on.
pub(crate) fn put_event(out: &mut [u8], event: Event) -> usize
    requires { Room out.old 0 (event_form event) }
    ensures { Stamped out.old 0 (event_form event) result out.new }
{
    match event {
        Event::Deliver(m) => put_carrying(out, b"(deliver ", m),
        Event::Sign(m) => put_carrying(out, b"(sign ", m),
        Event::Show(m) => put_carrying(out, b"(show ", m),
        Event::Settle => pieces::put_slice(out, 0, b"(settle)"),
        Event::Tick(m) => put_ticks(out, m),
    }
}
