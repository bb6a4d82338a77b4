// Events and their answers in words, four each: how a list of events is lent, by C too, and what is left in its place. So a form and a kind are numbers here.
#![tactic(auto)]

ghost use Rattle.std.specs.Prelude.{◌≡◌};
ghost use Rattle.model.specs.State.{check_of, ticks_of};
ghost use Rattle.buffers.specs.Kinds.{stored_as};
ghost use Rattle.words.specs.Events.{carried, carried_as, event_of, event_at, four_numbers, message_numbers, event_numbers, numbers_put, answer_put};

use types::{Answer, Event, Message};

// The words of an event, or of its answer.
pub const EVENT_WORDS: usize = 4;

// An event in numbers. Form: 1 deliver, 2 sign, 3 show, 4 settle, 5 tick.
#[derive(Clone, Copy)]
pub struct Numbers {
    pub form: u64,
    pub kind: u64,
    pub view: u64,
    pub processor: u64,
}

// The event of a form that carries a message; 0 ticks, which check 1 refuses, for any other form.
fn carry(form: u64, message: Message) -> Event
    ensures { result ≡ carried form message }
{
    match form {
        1 => Event::Deliver(message),
        2 => Event::Sign(message),
        3 => Event::Show(message),
        _ => Event::Tick(0),
    }
}

// The same with the message in numbers.
fn carry_numbers(form: u64, kind: u64, view: u64, processor: u64) -> Event
    ensures { result ≡ carried_as form (stored_as kind view processor) }
{
    match buffers::stored_as(kind, view, processor) {
        Some(message) => carry(form, message),
        None => Event::Tick(0),
    }
}

// The event that four numbers are; 0 ticks where they are none: each event of a batch is answered, and check 1 refuses 0 ticks.
#[tactic(auto, unfolding(crate::specs::Events::event_of))]
pub fn event_of(form: u64, kind: u64, view: u64, processor: u64) -> Event
    ensures { result ≡ event_of form kind view processor }
{
    match form {
        4 => Event::Settle,
        5 => Event::Tick(view),
        _ => carry_numbers(form, kind, view, processor),
    }
}

// Event i of the words; 0 ticks where there are not so many.
pub fn event_at(words: &[u64], i: usize) -> Event
    ensures { result ≡ event_at words.now i }
{
    if i < words.len() / EVENT_WORDS {
        let at = EVENT_WORDS * i;
        event_of(words[at], words[at + 1], words[at + 2], words[at + 3])
    } else {
        Event::Tick(0)
    }
}

// The numbers of a form that carries a message.
fn carried_numbers(form: u64, message: Message) -> Numbers
    ensures { result ≡ message_numbers form message }
{
    Numbers {
        form,
        kind: message.kind(),
        view: message.view(),
        processor: message.processor(),
    }
}

// A form alone, or with a number of ticks.
pub fn bare(form: u64, ticks: u64) -> Numbers
    ensures { result ≡ four_numbers form 0 ticks 0 }
{
    Numbers {
        form,
        kind: 0,
        view: ticks,
        processor: 0,
    }
}

// The numbers of an event.
pub fn numbers_of(event: Event) -> Numbers
    ensures { result ≡ event_numbers event }
{
    match event {
        Event::Deliver(m) => carried_numbers(1, m),
        Event::Sign(m) => carried_numbers(2, m),
        Event::Show(m) => carried_numbers(3, m),
        Event::Settle => bare(4, 0),
        Event::Tick(m) => bare(5, m),
    }
}

// The numbers stand as event i of the words, where there are so many.
#[tactic(auto, unfolding(crate::specs::Events::four_put))]
pub fn put_numbers(words: &mut [u64], i: usize, numbers: Numbers)
    ensures { words.new ≡ numbers_put words.old i numbers }
{
    if i < words.len() / EVENT_WORDS {
        let at = EVENT_WORDS * i;
        // One by one: copied as a slice they would go through memory at every event of a load.
        words[at] = numbers.form;
        words[at + 1] = numbers.kind;
        words[at + 2] = numbers.view;
        words[at + 3] = numbers.processor;
    }
}

// The check of an answer, or 0.
fn check_of(answer: Answer) -> u64
    ensures { result ≡ check_of answer }
{
    match answer {
        Answer::Done(_, _) => 0,
        Answer::Stopped(_, _, check) | Answer::Refused(check) => check,
    }
}

// Its ticks.
fn ticks_of(answer: Answer) -> u64
    ensures { result ≡ ticks_of answer }
{
    match answer {
        Answer::Done(ticks, _) | Answer::Stopped(ticks, _, _) => ticks,
        Answer::Refused(_) => 0,
    }
}

// Event i becomes its answer, where there are so many: its form stays, then the check, the ticks done and the messages held.
#[tactic(auto, unfolding(crate::specs::Events::four_put))]
pub fn put_answer(words: &mut [u64], i: usize, answer: Answer, held: usize)
    ensures { words.new ≡ answer_put words.old i answer held }
{
    if i < words.len() / EVENT_WORDS {
        let answered = Numbers {
            form: words[EVENT_WORDS * i],
            kind: check_of(answer),
            view: ticks_of(answer),
            processor: held as u64,
        };
        put_numbers(words, i, answered);
    }
}
