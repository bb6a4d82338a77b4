// Quiet ticks: how many of them come next, and the leap over them, whatever is handed in.
#![tactic(auto)]

ghost use Rattle.std.specs.Prelude.{◌≡◌, ℕ, List, if◌then◌else◌};
ghost use Rattle.types.specs.Quantities.{correct};
ghost use Rattle.model.specs.State.{state_of};
ghost use Rattle.leaps.specs.Leaps.{WaitsFor, WaitsForAll, Waits, rest_for, rest, more_word, leapt_word};

use types::{Form, Plan, Processor, Run};

// How many ticks, up to so many, find a message not late that was sent at `sent`, once the network has settled. A message of the future waits for its time at least.
fn wait_for(gst: u64, delta: u64, time: u64, sent: u64, most: u64) -> u64
    ensures { WaitsFor gst delta time sent most result }
{
    let from = sent.max(gst);
    if time < from {
        most.min(from - time)
    } else if delta <= time - from {
        // A difference that saturates takes more instructions at each message.
        0
    } else {
        most.min(delta - (time - from))
    }
}

// How many find none of the held messages late.
fn wait_for_all(gst: u64, delta: u64, time: u64, held: usize, network: &[u64], most: u64) -> u64
    ensures { WaitsForAll gst delta time network.now held most result }
{
    let mut wait = most;
    for i in 0..held {
        wait = wait_for(
            gst,
            delta,
            time,
            buffers::sent(Form::Packed, network, i),
            wait,
        );
    }
    wait
}

// How many ticks, up to so many, check 16 lets pass.
pub fn wait(run: &Run, network: &[u64], most: u64) -> u64
    ensures { (t : List ℕ) → Waits (state_of run.now t network.now) most result }
{
    if run.settled {
        wait_for_all(run.gst, run.plan.delta, run.time, run.held, network, most)
    } else {
        most
    }
}

// How many ticks, up to so many, keep a processor's clock before the next initial view's clock time, if it is correct.
fn rest_for(plan: Plan, faulty: u64, processor: Processor, most: u64) -> u64
    ensures { result ≡ rest_for plan faulty processor.number processor.clock processor.view most }
{
    if plan.correct(faulty, processor.number) {
        let arrival = plan.arrival(processor.view);
        most.min(arrival.saturating_sub(1).saturating_sub(processor.clock))
    } else {
        most
    }
}

// How many ticks, up to so many, bring no correct clock to an initial view. The tables may be of any lengths: only places that both have are looked at.
pub fn rest(plan: Plan, faulty: u64, clocks: &[u64], views: &[u64], most: u64) -> u64
    ensures { (r : Run) → r.plan ≡ plan → r.faulty ≡ faulty → r.clocks ≡ clocks.now → r.views ≡ views.now → result ≡ rest r most }
{
    let n = plan.n.min(clocks.len() as u64).min(views.len() as u64);
    let mut quiet = most;
    for q in 0..n {
        let processor = Processor {
            number: q,
            clock: clocks[q as usize],
            view: views[q as usize],
        };
        quiet = rest_for(plan, faulty, processor, quiet);
        if quiet == 0 {
            return 0;
        }
    }
    quiet
}

// The clock of q so many ticks later: that of a faulty one stays.
fn go_on(plan: Plan, faulty: u64, q: u64, clock: u64, count: u64) -> u64
    ensures { result ≡ (if correct plan faulty q then more_word count clock else clock) }
{
    if plan.correct(faulty, q) {
        clock.wrapping_add(count)
    } else {
        clock
    }
}

// So many quiet ticks: time and every correct clock go on, and nothing else changes.
pub fn leap(run: &mut Run, count: u64)
    ensures { run.new ≡ leapt_word run.old count }
{
    let plan = run.plan;
    let faulty = run.faulty;
    let n = plan.n.min(Plan::N_MOST);
    for q in 0..n {
        let i = q as usize;
        run.clocks[i] = go_on(plan, faulty, q, run.clocks[i], count);
    }
    run.time = run.time.wrapping_add(count);
}
