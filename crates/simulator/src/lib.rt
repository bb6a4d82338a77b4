// The simulator: a setup is opened, and each event moves the run and the lent buffers exactly as the definitions say. Whatever is handed in gets
// either the step or a refusal by the first check that fails, and a refused call has changed nothing. A run is lent whole; the tally and the network, which
// C lends, stand beside it: as fields of a struct each function would have to ensure that they are the same references, as long as before.
#![tactic(auto)]

mod events;
mod moves;
mod opening;
mod tasks;
mod ticks;

ghost use Rattle.std.specs.Prelude.{◌≡◌, false, ℕ};
ghost use Rattle.model.specs.State.{state_of, handed_back, accepted, with_gst};
ghost use Rattle.model.specs.Checks.{unsound_for_good};
ghost use Rattle.liveness.specs.Promises.{Tabled, answer_from};
ghost use Rattle.loads.specs.Loads.{point_of};
ghost use Rattle.simulator.specs.Inner.{left_as};
ghost use Rattle.simulator.specs.Clauses.{Opens, Applies, AppliesAll, WritesLoad};

use types::{Answer, Applied, Event, Form, Message, Processor, Run, Sends, Setup};

// How a processor moves: its next state, and what it sends.
#[derive(Clone, Copy)]
pub(crate) struct Move {
    pub(crate) processor: Processor,
    pub(crate) sends: Sends,
}

// What a message makes of whom it reaches: whether the leader that hears a signature forms the certificate, or how a certificate's receiver moves. A leader
// that forms none has heard the signature all the same, so the first is no want of the second.
#[derive(Clone, Copy)]
pub(crate) enum Reaction {
    Heard(bool),
    Moved(Move),
}

// A piece of a load: where the load stands after it, the bytes written, and whether more of them are needed.
#[derive(Clone, Copy)]
pub struct Piece {
    pub seed: u64,
    pub step: u64,
    pub bytes: usize,
    pub full: bool,
}

// What an event whose input no check refuses comes to: nothing; the network keeps its delay from then on; a message is to be handled, and the place where it is
// held, or how many are held where it is not one of them, as `buffers::find` answers and `buffers::remove` takes it; or ticks are to be run.
#[derive(Clone, Copy)]
pub(crate) enum Task {
    Finish,
    Settle,
    Handle(Message, usize),
    Run(u64),
}

// A setup is opened in place of the run that is lent.
pub fn open_in_place(run: &mut Run, setup: Setup, tally: &mut [u64], network: &mut [u64]) -> Answer
    ensures { Opens setup (state_of run.old tally.old network.old) (left_as run.new result tally.new network.new) }
{
    match checks::setup_check(setup, tally.len(), network.len()) {
        Ok(()) => {
            *run = opening::start(setup, tally, network);
            Answer::Done(0, run.held)
        }
        Err(check) => Answer::Refused(check),
    }
}

// From then on the network keeps its delay.
fn settle(run: &mut Run) -> Answer
    ensures { (run.new ≡ with_gst run.old.time run.old) × (result ≡ Answer.Done 0 run.old.held) }
{
    run.settled = true;
    run.gst = run.time;
    Answer::Done(0, run.held)
}

// An event is applied to the run that is lent, `broken` being what check 9 says of it but for the time.
fn apply_judged(
    run: &mut Run,
    broken: bool,
    event: Event,
    tally: &mut [u64],
    network: &mut [u64],
) -> Answer
    requires { broken ≡ unsound_for_good (state_of run.old tally.old network.old) }
    ensures { Applies event (state_of run.old tally.old network.old) (left_as run.new result tally.new network.new) }
{
    match tasks::judge(run, broken, event, tally, network) {
        Err(check) => Answer::Refused(check),
        Ok(Task::Finish) => Answer::Done(0, run.held),
        Ok(Task::Settle) => settle(run),
        Ok(Task::Handle(message, place)) => events::handle(run, message, place, tally, network),
        Ok(Task::Run(m)) => ticks::run_ticks(run, m, tally, network),
    }
}

// A setup is opened: the run, in place of the one handed in, and the lent buffers.
pub fn open(run: Run, setup: Setup, tally: &mut [u64], network: &mut [u64]) -> Applied
    ensures { Opens setup (state_of run tally.old network.old) (handed_back result tally.new network.new) }
{
    let mut next = run;
    let answer = open_in_place(&mut next, setup, tally, network);
    Applied { run: next, answer }
}

// An event is applied to the run and the lent buffers, whatever they hold.
pub fn apply(run: Run, event: Event, tally: &mut [u64], network: &mut [u64]) -> Applied
    ensures { Applies event (state_of run tally.old network.old) (handed_back result tally.new network.new) }
{
    let mut next = run;
    let broken = checks::unsound_for_good(Form::Packed, &next, tally, network);
    let answer = apply_judged(&mut next, broken, event, tally, network);
    Applied { run: next, answer }
}

// The events in the words are applied one after the other, `broken` being what check 9 says of the run but for the time, and each one's words
// become its answer: of check 9 the time alone is looked at before each.
fn apply_words(
    run: &mut Run,
    broken: bool,
    tally: &mut [u64],
    network: &mut [u64],
    events: &mut [u64],
)
    requires { (broken ≡ unsound_for_good (state_of run.old tally.old network.old)) × (broken ≡ false → Tabled run.old) }
    ensures { AppliesAll events.old (state_of run.old tally.old network.old) (state_of run.new tally.new network.new) events.new }
{
    let count = events.len() / words::EVENT_WORDS;
    for i in 0..count {
        let event = words::event_at(events, i);
        let answer = apply_judged(run, broken, event, tally, network);
        words::put_answer(events, i, answer, run.held);
    }
}

// The events in the words are applied to the run and the lent buffers one after the other, whatever they hold, and each one's words become its
// answer. What of check 9 lasts is looked at once, and the time before each.
pub fn apply_events(run: &mut Run, tally: &mut [u64], network: &mut [u64], events: &mut [u64])
    ensures { AppliesAll events.old (state_of run.old tally.old network.old) (state_of run.new tally.new network.new) events.new }
{
    let broken = checks::unsound_for_good(Form::Packed, run, tally, network);
    apply_words(run, broken, tally, network, events);
}

// Whether an event was accepted, by its answer in words.
fn is_accepted(check: u64, ticks: u64) -> bool
    ensures { (held : ℕ) → result ≡ accepted (answer_from check ticks held) }
{
    check == 0 || 0 < ticks
}

// A load out of a seed number goes on, from the step named and up to `steps` steps: event by event is chosen and applied, and its line written, for
// as long as it has room and is accepted. What of check 9 lasts is looked at once, and refuses the load; the time is looked at before each event.
pub fn write_load(
    run: &mut Run,
    seed: u64,
    step: u64,
    steps: u64,
    settle: u64,
    tally: &mut [u64],
    network: &mut [u64],
    out: &mut [u8],
) -> Result<Piece, u64>
    ensures { WritesLoad steps settle (point_of (state_of run.old tally.old network.old) seed step) out.old
        (state_of run.new tally.new network.new) result out.new }
{
    let broken = checks::unsound_for_good(Form::Packed, run, tally, network);
    if broken {
        return Err(9);
    }
    let mut last = seed;
    let mut next = step;
    let mut at = 0;
    // No count from step to step: a turn says how many steps it took.
    while next < steps {
        let turn = loads::next_turn(run, last, next, settle, network);
        let event = turn.event;
        let bytes = writer::event_bytes(event);
        if out.len() - at < bytes {
            return Ok(Piece {
                seed: last,
                step: next,
                bytes: at,
                full: true,
            });
        }
        let mut batch = [0u64; words::EVENT_WORDS];
        words::put_numbers(&mut batch, 0, words::numbers_of(event));
        apply_words(run, false, tally, network, &mut batch);
        if is_accepted(batch[1], batch[2]) {
            let _ = writer::write_event(event, &mut out[at..]);
            last = turn.seed;
            next += turn.steps;
            at += bytes;
        } else {
            return Ok(Piece {
                seed: last,
                step: next,
                bytes: at,
                full: false,
            });
        }
    }
    Ok(Piece {
        seed: last,
        step: next,
        bytes: at,
        full: false,
    })
}
