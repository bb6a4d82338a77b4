// What an event's input comes to, on a run whose check 9 is known: a refusal, or what is to be done. Nothing is written here.
ghost use Rattle.std.specs.Prelude.{◌≡◌, false, ◌||◌, ℕ, ◌<◌, List};
ghost use Rattle.model.specs.State.{state_of};
ghost use Rattle.model.specs.Checks.{plan_outside, at_end, unsound_for_good, exists, passed};
ghost use Rattle.simulator.specs.Inner.{named_check, Admitted, Tasks};

use crate::{Task, moves};
use types::{Event, Message, Plan, Run};

// Checks 10 and 11.
fn check_named(plan: Plan, message: Message) -> Result<(), u64>
    ensures { result ≡ passed (named_check plan message) }
{
    if plan.n <= message.processor() {
        return Err(10);
    }
    if plan.views <= message.view() {
        return Err(10);
    }
    if message.stage() {
        return Ok(());
    }
    if plan.initial(message.view()) {
        return Ok(());
    }
    Err(11)
}

// Whether a certificate of the stage exists for view w: formed by a correct leader, or within a faulty leader's reach.
fn has_certificate(run: &Run, stage: bool, w: u64, tally: &[u64]) -> bool
    requires { 0 < run.now.plan.n }
    ensures { result ≡ exists stage run.now tally.now w }
{
    if moves::led(run.plan, run.faulty, w) {
        buffers::is_marked(tally, stage, w)
    } else {
        moves::signers_needed(run.plan, stage)
            <= base::size(run.faulty) + base::size(buffers::entered(tally, w))
    }
}

// A message to be delivered.
fn judge_delivery(run: &Run, message: Message, network: &[u64]) -> Result<Task, u64>
    ensures { (t : List ℕ) → Admitted (Event.Deliver message) (state_of run.now t network.now)
        → Tasks (Event.Deliver message) (state_of run.now t network.now) result }
{
    check_named(run.plan, message)?;
    let place = buffers::find(network, run.held, message);
    if run.held <= place {
        return Err(13);
    }
    Ok(Task::Handle(message, place))
}

// A faulty processor's signature, heard by the leader if that is correct.
fn judge_signature(run: &Run, message: Message) -> Result<Task, u64>
    requires { 0 < run.now.plan.n }
    ensures { (t ws : List ℕ) → Admitted (Event.Sign message) (state_of run.now t ws) → Tasks (Event.Sign message) (state_of run.now t ws) result }
{
    check_named(run.plan, message)?;
    if run.plan.correct(run.faulty, message.processor()) {
        return Err(12);
    }
    if moves::led(run.plan, run.faulty, message.view()) {
        return Ok(Task::Handle(message, run.held));
    }
    Ok(Task::Finish)
}

// A certificate that the adversary shows to a correct processor.
fn judge_showing(run: &Run, message: Message, tally: &[u64]) -> Result<Task, u64>
    requires { 0 < run.now.plan.n }
    ensures { (ws : List ℕ) → Admitted (Event.Show message) (state_of run.now tally.now ws)
        → Tasks (Event.Show message) (state_of run.now tally.now ws) result }
{
    check_named(run.plan, message)?;
    if run.plan.correct(run.faulty, message.processor()) {
        if has_certificate(run, message.stage(), message.view(), tally) {
            return Ok(Task::Handle(message, run.held));
        }
        return Err(14);
    }
    Err(12)
}

// From then on the network keeps its delay.
fn judge_settling(run: &Run) -> Result<Task, u64>
    ensures { (t ws : List ℕ) → Admitted Event.Settle (state_of run.now t ws) → Tasks Event.Settle (state_of run.now t ws) result }
{
    if run.settled {
        return Err(15);
    }
    Ok(Task::Settle)
}

// Check 9, `broken` being what it says but for the time.
fn is_nine(broken: bool, run: &Run) -> bool
    requires { broken ≡ false → plan_outside run.now.plan ≡ false }
    ensures { result ≡ (broken || at_end run.now.plan run.now.time) }
{
    broken || run.plan.end_time() <= run.time
}

// An event, `broken` being what check 9 says but for the time.
pub(crate) fn judge(
    run: &Run,
    broken: bool,
    event: Event,
    tally: &[u64],
    network: &[u64],
) -> Result<Task, u64>
    requires { broken ≡ false → plan_outside run.now.plan ≡ false }
    ensures { broken ≡ unsound_for_good (state_of run.now tally.now network.now) → Tasks event (state_of run.now tally.now network.now) result }
{
    if event.lacks_form() {
        return Err(1);
    }
    if is_nine(broken, run) {
        return Err(9);
    }
    match event {
        Event::Deliver(m) => judge_delivery(run, m, network),
        Event::Sign(m) => judge_signature(run, m),
        Event::Show(m) => judge_showing(run, m, tally),
        Event::Settle => judge_settling(run),
        Event::Tick(m) => Ok(Task::Run(m)),
    }
}
