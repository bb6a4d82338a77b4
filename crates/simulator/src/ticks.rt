// Time: one tick, and the run of up to m ticks, which leaps over quiet ones.
ghost use Rattle.std.specs.Prelude.{◌≡◌, true, false, ◌&&◌, List, ◌+◌, ◌^◌, ◌<◌, ◌≤◌, ℕ, leb, length, IfErr};
ghost use Rattle.base.specs.Scan.{some};
ghost use Rattle.types.specs.Quantities.{correct};
ghost use Rattle.model.specs.State.{state_of, capacity};
ghost use Rattle.model.specs.Checks.{plan_outside, overdue, unsound, refusal};
ghost use Rattle.model.specs.Events.{ticks_answer, tick_run};
ghost use Rattle.model.specs.Processors.{processor_unsound, moving_by};
ghost use Rattle.pacemaker.specs.Steps.{Named};
ghost use Rattle.simulator.specs.Inner.{Reacts, Arrives, Fit, Whole, GoesOn, arrived_below, ends_at, sent_most, CanTick, TickMade, TickedTo, ran_to, count_ticked, left_as};
ghost use Rattle.simulator.specs.Strides.{Ready, Advances};

use crate::{Move, moves};
use types::{Answer, Form, Input, Plan, Processor, Run, Sends};

// The most messages that a tick sends: two for each processor.
const SENT_MOST: usize = 128;

// What an input makes of a processor, by the pacemaker's own step; or check 17, where its clock would reach the end.
pub(crate) fn react(plan: Plan, processor: Processor, input: Input) -> Result<Move, u64>
    requires { (processor_unsound plan processor ≡ false) × (processor.number < plan.n) × Named plan input }
    ensures { Reacts plan processor (moving_by plan processor input) result }
{
    let o = pacemaker::step(plan, processor, input);
    let next = o.processor;
    let answer = o.answer;
    match answer {
        Ok(x) => Ok(Move {
            processor: next,
            sends: x,
        }),
        Err(_) => Err(17),
    }
}

// What a tick makes of a correct processor. Most only go on: the pacemaker's step is asked where the clock comes to an initial view's clock time.
fn react_to_tick(plan: Plan, processor: Processor) -> Result<Move, u64>
    requires { (processor_unsound plan processor ≡ false) × (processor.number < plan.n) }
    ensures { Reacts plan processor (moving_by plan processor Input.Tick) result }
{
    let clock = processor.clock + 1;
    if clock < plan.clock_time(plan.next_initial(processor.view)) {
        return Ok(Move {
            processor: Processor { clock, ..processor },
            sends: Sends::Nothing,
        });
    }
    react(plan, processor, Input::Tick)
}

// What a tick makes of a processor: a faulty one stays as it is.
fn arrive(plan: Plan, faulty: u64, processor: Processor) -> Result<Move, u64>
    requires { (processor.number < plan.n) × (correct plan faulty processor.number ≡ true → processor_unsound plan processor ≡ false) }
    ensures { Arrives plan faulty processor result }
{
    if plan.correct(faulty, processor.number) {
        return react_to_tick(plan, processor);
    }
    Ok(Move {
        processor,
        sends: Sends::Nothing,
    })
}

// Whether the clock is `last`, or beyond it, and its processor is correct.
fn at_last(plan: Plan, faulty: u64, last: u64, q: u64, clock: u64) -> bool
    ensures { result ≡ (correct plan faulty q && leb last clock) }
{
    last <= clock && plan.correct(faulty, q)
}

// Whether a tick brings a correct clock to the end.
fn some_ends(run: &Run) -> bool
    requires { plan_outside run.now.plan ≡ false }
    ensures { result ≡ some (ends_at run.now) run.now.plan.n }
{
    let plan = run.plan;
    let faulty = run.faulty;
    let clocks = &run.clocks;
    let last = plan.end_time() - 1;
    (0..plan.n).any(|q| at_last(plan, faulty, last, q, clocks[q as usize]))
}

// How many messages a tick would send that brings no clock to the end, with nothing written.
fn foretell(run: &Run) -> usize
    requires { GoesOn run.now }
    ensures { ((t ws : List ℕ) → result
        ≡ length (arrived_below (state_of run.now t ws) run.now.plan.n).sent) × (result ≤ sent_most) }
{
    let plan = run.plan;
    let faulty = run.faulty;
    let mut sent = 0;
    for q in 0..plan.n {
        let i = q as usize;
        let seat = Processor {
            number: q,
            clock: run.clocks[i],
            view: run.views[i],
        };
        // No clock comes to the end here: `some_ends` has been asked.
        let Ok(x) = arrive(plan, faulty, seat) else {
            continue;
        };
        let sends = x.sends;
        sent += moves::count_entry(plan, faulty, q, sends);
    }
    sent
}

// Whether there is room for what such a tick sends. Its messages are counted only where the most that a tick sends would not fit.
fn has_room(run: &Run, room: usize) -> bool
    requires { GoesOn run.now × (run.now.held + sent_most < 2 ^ 64) }
    ensures { (t ws : List ℕ) → result
        ≡ leb (run.now.held + length (arrived_below (state_of run.now t ws) run.now.plan.n).sent) room }
{
    run.held + SENT_MOST <= room || run.held + foretell(run) <= room
}

// Time and every correct clock go on by one, and the processors that arrive at an initial view enter it, by rising number.
fn arrive_all(run: &mut Run, tally: &mut [u64], network: &mut [u64])
    requires { CanTick run.old tally.old network.old }
    ensures { TickMade (state_of run.old tally.old network.old) (state_of run.new tally.new network.new) }
{
    let plan = run.plan;
    let faulty = run.faulty;
    let time = run.time + 1;
    let before = run.held;
    let mut held = before;
    for q in 0..plan.n {
        let i = q as usize;
        let seat = Processor {
            number: q,
            clock: run.clocks[i],
            view: run.views[i],
        };
        // No clock comes to the end here: `some_ends` has been asked.
        let Ok(x) = arrive(plan, faulty, seat) else {
            continue;
        };
        let sends = x.sends;
        run.clocks[i] = x.processor.clock;
        run.views[i] = x.processor.view;
        held = moves::enter_by_tick(tally, network, held, plan, faulty, q, sends, time);
    }
    let traffic = moves::note_pairs(run.traffic, held - before);
    run.time = time;
    run.held = held;
    run.traffic = traffic;
}

// One tick, no message being overdue; or nothing and the check that refuses it.
fn tick_once(run: &mut Run, tally: &mut [u64], network: &mut [u64]) -> Result<(), u64>
    requires { Fit run.old × Whole run.old × (run.old.held ≤ capacity Form.Packed network.old) × (run.old.time + 1 < 2 ^ 64)
        × (overdue (state_of run.old tally.old network.old) ≡ false) }
    ensures { TickedTo (state_of run.old tally.old network.old) (state_of run.new tally.new network.new) (refusal result) × IfErr result (λ k. 0 < k) }
{
    if some_ends(run) {
        return Err(17);
    }
    let room = buffers::capacity(Form::Packed, network);
    if !has_room(run, room) {
        return Err(18);
    }
    arrive_all(run, tally, network);
    Ok(())
}

// At least one tick and at most so many: as many as are quiet, or one that is not. Answers how many, by which the time has gone on; or
// none, and the check that refuses it.
fn advance(run: &mut Run, most: u64, tally: &mut [u64], network: &mut [u64]) -> Result<u64, u64>
    requires { Ready (state_of run.old tally.old network.old) × (0 < most) }
    ensures { Advances (state_of run.old tally.old network.old) most (state_of run.new tally.new network.new) (count_ticked result) (refusal result)
        × IfErr result (λ k. 0 < k) }
{
    let before = run.time;
    let waiting = leaps::wait(run, network, most);
    if waiting == 0 {
        return Err(16);
    }
    let quiet = leaps::rest(run.plan, run.faulty, &run.clocks, &run.views, waiting);
    if 0 < quiet {
        leaps::leap(run, quiet);
    } else {
        tick_once(run, tally, network)?;
    }
    Ok(run.time - before)
}

// The answer to ticks that a check ended: none done is a refusal.
fn stop(run: &Run, count: u64, check: u64) -> Answer
    requires { 0 < check }
    ensures { (t ws : List ℕ) → result ≡ ticks_answer (ran_to (state_of run.now t ws) count check) }
{
    if count == 0 {
        Answer::Refused(check)
    } else {
        Answer::Stopped(count, run.held, check)
    }
}

// Up to m ticks: they end before the first that a check refuses. A sound run's clocks end it, whatever m is.
pub(crate) fn run_ticks(run: &mut Run, m: u64, tally: &mut [u64], network: &mut [u64]) -> Answer
    requires { (0 < m) × (unsound (state_of run.old tally.old network.old) ≡ false) }
    ensures { left_as run.new result tally.new network.new ≡ tick_run m (state_of run.old tally.old network.old) }
{
    let mut count = 0;
    // No count from tick to tick: an advance says how many ticks it did.
    while count < m {
        match advance(run, m - count, tally, network) {
            Ok(ticks) => count += ticks,
            Err(check) => return stop(run, count, check),
        }
    }
    Answer::Done(count, run.held)
}
