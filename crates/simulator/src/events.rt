// A message on a run that check 9 passed: what it will do is decided first, then its outcome is judged, then it is done. Of the run nothing is written
// before the last check.
ghost use Rattle.std.specs.Prelude.{◌≡◌, false, cond, ℕ, ◌+◌, ◌-◌, ◌^◌, ◌<◌, ◌≤◌, ltb, length, get_or};
ghost use Rattle.types.specs.Quantities.{lead};
ghost use Rattle.types.specs.Messages.{view_in, processor_in, stage_of};
ghost use Rattle.model.specs.State.{state_of, capacity};
ghost use Rattle.model.specs.Moves.{ripe, made, formed_messages, heard_change};
ghost use Rattle.model.specs.Checks.{plan_outside, faulty_outside};
ghost use Rattle.model.specs.Events.{wait_since};
ghost use Rattle.buffers.specs.Network.{views_packable};
ghost use Rattle.simulator.specs.Inner.{Fit, Decides, ReachesCorrect, seat, named_check, MovePacks, CanEnter, moved_change, change_by, sent_for, held_without, traffic_without, CanHandle, handled, left_as};

use crate::{Move, Reaction, moves, ticks};
use types::{Answer, Form, Input, Message, Plan, Processor, Run, Sends, Traffic};

// Processor p as it stands.
fn seat_of(p: u64, run: &Run) -> Processor
    requires { p < 64 }
    ensures { result ≡ seat run.now p }
{
    let i = p as usize;
    Processor {
        number: p,
        clock: run.clocks[i],
        view: run.views[i],
    }
}

// The own view of the leader of w.
fn leader_view(run: &Run, w: u64) -> u64
    requires { (0 < run.now.plan.n) × (run.now.plan.n ≤ 64) }
    ensures { result ≡ get_or run.now.views (lead run.now.plan w) 0 }
{
    let i = run.plan.lead(w) as usize;
    run.views[i]
}

// Whether the leader that hears a signature forms the certificate.
fn decide_heard(run: &Run, stage: bool, w: u64, p: u64, tally: &[u64]) -> bool
    requires { (0 < run.now.plan.n) × (run.now.plan.n ≤ 64) × (p < 64) }
    ensures { result ≡ ripe stage run.now.plan (get_or run.now.views (lead run.now.plan w) 0) tally.now w p }
{
    moves::would_form(stage, run.plan, leader_view(run, w), w, p, tally)
}

// What a message makes of whom it reaches; or check 17, where a clock would reach the end.
fn decide(run: &Run, message: Message, tally: &[u64]) -> Result<Reaction, u64>
    requires { Fit run.now × (named_check run.now.plan message ≡ 0) × ReachesCorrect run.now message }
    ensures { Decides run.now tally.now message result }
{
    match message {
        Message::View(w, p) => Ok(Reaction::Heard(decide_heard(run, false, w, p, tally))),
        Message::Vote(w, p) => Ok(Reaction::Heard(decide_heard(run, true, w, p, tally))),
        Message::Vc(w, p) => {
            let seat = seat_of(p, run);
            Ok(Reaction::Moved(ticks::react(run.plan, seat, Input::Vc(w))?))
        }
        Message::Qc(w, p) => {
            let seat = seat_of(p, run);
            Ok(Reaction::Moved(ticks::react(run.plan, seat, Input::Qc(w))?))
        }
    }
}

// How many messages that sends.
fn count_sent(plan: Plan, faulty: u64, message: Message, x: Reaction) -> usize
    requires { (plan_outside plan ≡ false) × (faulty_outside plan faulty ≡ false) }
    ensures { (result ≡ length (sent_for plan faulty message x)) × (result ≤ 64) }
{
    match x {
        Reaction::Heard(formed) => moves::count_formed(plan, faulty, formed),
        Reaction::Moved(y) => moves::count_entry(plan, faulty, message.processor(), y.sends),
    }
}

// A leader hears a signature.
fn listen(run: &mut Run, message: Message, formed: bool, tally: &mut [u64], network: &mut [u64])
    requires { (0 < run.old.plan.n) × (processor_in message < 64)
        × (run.old.held + length (formed_messages run.old.plan run.old.faulty (stage_of message) (view_in message) formed) ≤ capacity Form.Packed network.old)
        × (run.old.plan.n ≤ 64) × (view_in message < views_packable) }
    ensures { state_of run.new tally.new network.new
        ≡ made (state_of run.old tally.old network.old)
        (heard_change (stage_of message) run.old tally.old (view_in message) (processor_in message) formed) }
{
    let stage = message.stage();
    let w = message.view();
    let held = moves::hear(
        tally,
        network,
        run.held,
        run.plan,
        run.faulty,
        stage,
        w,
        message.processor(),
        formed,
        run.time,
    );
    let traffic = moves::note_formed(run.traffic, stage, w, held - run.held);
    run.held = held;
    run.traffic = traffic;
}

// A processor moves.
fn move_on(run: &mut Run, p: u64, x: Move, tally: &mut [u64], network: &mut [u64])
    requires { CanEnter run.old.plan run.old.faulty p x.sends run.old.held network.old }
    ensures { state_of run.new tally.new network.new
        ≡ made (state_of run.old tally.old network.old) (moved_change run.old tally.old p x) }
{
    let i = p as usize;
    let sends = x.sends;
    let held = moves::enter(
        tally, network, run.held, run.plan, run.faulty, p, sends, run.time,
    );
    let traffic = moves::note_entry(run.traffic, p, sends, held - run.held);
    run.clocks[i] = x.processor.clock;
    run.views[i] = x.processor.view;
    run.held = held;
    run.traffic = traffic;
}

// What was decided is done.
fn perform(run: &mut Run, message: Message, x: Reaction, tally: &mut [u64], network: &mut [u64])
    requires { (0 < run.old.plan.n) × (processor_in message < 64) × (run.old.held + length (sent_for run.old.plan run.old.faulty message x) ≤ capacity Form.Packed network.old)
        × (run.old.plan.n ≤ 64) × (view_in message < views_packable) × MovePacks run.old.plan run.old.faulty message x }
    ensures { state_of run.new tally.new network.new
        ≡ made (state_of run.old tally.old network.old) (change_by run.old tally.old message x) }
{
    match x {
        Reaction::Heard(formed) => listen(run, message, formed, tally, network),
        Reaction::Moved(y) => move_on(run, message.processor(), y, tally, network),
    }
}

// Whether more messages would be held than fit, beside so many: check 18.
fn overfills(
    plan: Plan,
    faulty: u64,
    held: usize,
    message: Message,
    x: Reaction,
    room: usize,
) -> bool
    requires { (plan_outside plan ≡ false) × (faulty_outside plan faulty ≡ false) × (held ≤ room) × (room < 2 ^ 63) }
    ensures { result ≡ ltb room (held + length (sent_for plan faulty message x)) }
{
    room < held + count_sent(plan, faulty, message, x)
}

// For how long a message was in flight.
fn wait_since(sent: u64, time: u64) -> u64
    ensures { result ≡ time - sent }
{
    time.saturating_sub(sent)
}

// How many are held without the message at a place, if one is held there.
fn held_without(held: usize, place: usize) -> usize
    ensures { result ≡ held_without held place }
{
    if held <= place { held } else { held - 1 }
}

// The sums with the message, which is delivered if it is held at the place named.
fn note_delivery(run: &Run, message: Message, place: usize, network: &[u64]) -> Traffic
    ensures { result ≡ traffic_without run.now.traffic message (wait_since run.now.time Form.Packed network.now place) run.now.held place }
{
    if run.held <= place {
        run.traffic
    } else {
        let sent = buffers::sent(Form::Packed, network, place);
        sums::deliver(run.traffic, message, wait_since(sent, run.time))
    }
}

// A message whose input no check refuses is handled: what it makes of whom it reaches is decided; then 17 and 18 are judged; then it leaves
// the network, if it is held at the place named, and what was decided is done.
pub(crate) fn handle(
    run: &mut Run,
    message: Message,
    place: usize,
    tally: &mut [u64],
    network: &mut [u64],
) -> Answer
    requires { CanHandle (state_of run.old tally.old network.old) message }
    ensures { left_as run.new result tally.new network.new ≡ handled (state_of run.old tally.old network.old) message place }
{
    let x = match decide(run, message, tally) {
        Ok(x) => x,
        Err(check) => return Answer::Refused(check),
    };
    let held = held_without(run.held, place);
    let room = buffers::capacity(Form::Packed, network);
    if overfills(run.plan, run.faulty, held, message, x, room) {
        return Answer::Refused(18);
    }
    let traffic = note_delivery(run, message, place, network);
    buffers::remove(network, run.held, place);
    run.held = held;
    run.traffic = traffic;
    perform(run, message, x, tally, network);
    Answer::Done(0, run.held)
}
