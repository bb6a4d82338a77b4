// The pacemaker of one processor: rules 1 to 3 behind its own checks (document 01: at the cabinet's own face).
#![tactic(auto)]

mod within;

ghost use Rattle.std.specs.Prelude.{◌≡◌, cond, ◌≤◌, ◌<◌};
ghost use Rattle.types.specs.Quantities.{delta_most, gamma_least, initial, next_initial, clock_time};
ghost use Rattle.model.specs.Checks.{n_outside, delays_outside, views_outside, clock_outside};
ghost use Rattle.model.specs.Processors.{Gives, messages_of, sending, processor_unsound, refusing, stepped};
ghost use Rattle.pacemaker.specs.Limits.{plan_check};
ghost use Rattle.pacemaker.specs.Steps.{entry_into, stepping};

use types::{Input, Plan, Processor, Sends};
pub use within::PlanWithin;
use within::SoundProcessor;

// Check 2.
fn n_outside(plan: Plan) -> bool
    ensures { result ≡ n_outside plan }
{
    !(Plan::N_LEAST..=Plan::N_MOST).contains(&plan.n)
}

// The least slot: four delays where a leader has two views, else two.
fn gamma_least(plan: Plan) -> u64
    requires { plan.delta ≤ delta_most }
    ensures { result ≡ gamma_least plan }
{
    if plan.k == 2 {
        4 * plan.delta
    } else {
        2 * plan.delta
    }
}

// Check 3.
fn delays_outside(plan: Plan) -> bool
    ensures { result ≡ delays_outside plan }
{
    !(Plan::DELTA_LEAST..=Plan::DELTA_MOST).contains(&plan.delta)
        || !(gamma_least(plan)..=Plan::GAMMA_MOST).contains(&plan.gamma)
}

// Check 4.
fn views_outside(plan: Plan) -> bool
    ensures { result ≡ views_outside plan }
{
    !(Plan::PER_LEADER_LEAST..=Plan::PER_LEADER_MOST).contains(&plan.k)
        || !(Plan::VIEWS_LEAST..=Plan::VIEWS_MOST).contains(&plan.views)
        || !plan.turn_start(plan.views)
}

// The first of checks 2 to 4 that refuses the plan, as an error.
pub fn plan_check(plan: Plan) -> Result<(), u64>
    ensures { result ≡ plan_check plan }
{
    if n_outside(plan) {
        Err(2)
    } else if delays_outside(plan) {
        Err(3)
    } else if views_outside(plan) {
        Err(4)
    } else {
        Ok(())
    }
}

// The clock time of view w, which fits.
fn time_of(within: PlanWithin, w: u64) -> u64
    requires { w ≤ within.plan.views }
    ensures { result ≡ clock_time within.plan w }
{
    within.plan.clock_time(w)
}

// The first initial view above w, which is the view limit at most.
fn next_of(within: PlanWithin, w: u64) -> u64
    requires { w < within.plan.views }
    ensures { (result ≡ next_initial within.plan w) × (result ≤ within.plan.views) }
{
    within.plan.next_initial(w)
}

// Whether the clock lies outside its view. From the view limit on no clock is both at its view's time and before the end; below it a clock before the next
// initial view's time is before the end. The first test says no more than the second, but it is of a constant: the compiler then sees that clock times fit.
fn clock_outside(within: PlanWithin, processor: Processor) -> bool
    ensures { result ≡ clock_outside within.plan processor.clock processor.view }
{
    let view = processor.view;
    Plan::VIEWS_MOST <= view
        || within.plan.views <= view
        || processor.clock < time_of(within, view)
        || time_of(within, next_of(within, view)) <= processor.clock
}

// Check 9 of one processor: the plan's limits, and its own clock and view.
pub fn unsound(plan: Plan, processor: Processor) -> bool
    ensures { result ≡ processor_unsound plan processor }
{
    SoundProcessor::of(plan, processor).is_none()
}

// What a step leaves of the processor, and its answer.
#[derive(Clone, Copy)]
pub struct Outcome {
    pub processor: Processor,
    pub answer: Result<Sends, u64>,
}

// A refusal: the processor as it was, and the check's number alone.
fn refuse(processor: Processor, check: u64) -> Outcome
    requires { 0 < check }
    ensures { Gives (refusing processor check) result.processor result.answer }
{
    Outcome {
        processor,
        answer: Err(check),
    }
}

// A move: the processor that it leaves, and what that one sends.
fn accept(after: Processor, sends: Sends) -> Outcome
    ensures { Gives (sending after (messages_of after.number sends)) result.processor result.answer }
{
    Outcome {
        processor: after,
        answer: Ok(sends),
    }
}

// The messages of an entry into view w.
fn entry_sends(plan: Plan, w: u64) -> Sends
    ensures { result ≡ cond (initial plan w) (Sends.ViewAndVote w) (Sends.Vote w) }
{
    if plan.initial(w) {
        Sends::ViewAndVote(w)
    } else {
        Sends::Vote(w)
    }
}

// The entry into view w. That into the view limit would bring the clock to the end, which no other does: check 17.
fn enter(sound: SoundProcessor, w: u64) -> Outcome
    requires { w ≤ sound.within.plan.views }
    ensures { Gives (entry_into sound.within.plan sound.processor w) result.processor result.answer }
{
    let SoundProcessor { within, processor } = sound;
    if w == within.plan.views {
        refuse(processor, 17)
    } else {
        let after = Processor {
            clock: processor.clock.max(time_of(within, w)),
            view: w,
            ..processor
        };
        accept(after, entry_sends(within.plan, w))
    }
}

// Rule 1. The clock stands before the next initial view's clock time, so that is the only one that a tick can bring it to.
fn tick(sound: SoundProcessor) -> Outcome
    ensures { Gives (stepping sound.within.plan sound.processor Input.Tick) result.processor result.answer }
{
    let SoundProcessor { within, processor } = sound;
    let clock = processor.clock + 1;
    let next = next_of(within, processor.view);
    if clock < time_of(within, next) {
        accept(Processor { clock, ..processor }, Sends::Nothing)
    } else {
        enter(sound, next)
    }
}

// Rule 3.
fn take_view(sound: SoundProcessor, w: u64) -> Outcome
    ensures { Gives (stepping sound.within.plan sound.processor (Input.Vc w)) result.processor result.answer }
{
    let SoundProcessor { within, processor } = sound;
    if within.plan.views <= w {
        refuse(processor, 10)
    } else if !within.plan.initial(w) {
        refuse(processor, 11)
    } else if processor.view < w {
        enter(sound, w)
    } else {
        accept(processor, Sends::Nothing)
    }
}

// Rule 2.
fn take_quorum(sound: SoundProcessor, w: u64) -> Outcome
    ensures { Gives (stepping sound.within.plan sound.processor (Input.Qc w)) result.processor result.answer }
{
    let SoundProcessor { within, processor } = sound;
    if within.plan.views <= w {
        refuse(processor, 10)
    } else if processor.view <= w {
        enter(sound, w + 1)
    } else {
        accept(processor, Sends::Nothing)
    }
}

// The step of a sound processor below n.
fn by_input(sound: SoundProcessor, input: Input) -> Outcome
    ensures { Gives (stepping sound.within.plan sound.processor input) result.processor result.answer }
{
    match input {
        Input::Tick => tick(sound),
        Input::Vc(w) => take_view(sound, w),
        Input::Qc(w) => take_quorum(sound, w),
    }
}

// One step by value: the processor's next state and the messages that it sends, or the first of checks 9, 10, 11 and 17 that refuses.
pub fn step(plan: Plan, processor: Processor, input: Input) -> Outcome
    ensures { Gives (stepped plan processor input) result.processor result.answer }
{
    match SoundProcessor::of(plan, processor) {
        None => refuse(processor, 9),
        Some(_) if plan.n <= processor.number => refuse(processor, 10),
        Some(sound) => by_input(sound, input),
    }
}

// The same on a lent record: its clock and view are altered there.
pub fn step_in_place(plan: Plan, processor: &mut Processor, input: Input) -> Result<Sends, u64>
    ensures { Gives (stepped plan processor.old input) processor.new result }
{
    let outcome = step(plan, *processor, input);
    *processor = outcome.processor;
    outcome.answer
}
