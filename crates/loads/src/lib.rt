// What a load out of a seed number does next: the draws, and the event that they choose.
#![tactic(auto)]

ghost use Rattle.std.specs.Prelude.{◌≡◌, ℕ, ◌*◌, ◌%◌, ◌^◌, ◌<◌, MatchOption, not, ◌&&◌, List, if◌then◌else◌, ◌==◌};
ghost use Rattle.base.specs.Scan.{first};
ghost use Rattle.model.specs.State.{state_of};
ghost use Rattle.model.specs.Checks.{at_end, late, late_at};
ghost use Rattle.buffers.specs.Kinds.{stored};
ghost use Rattle.loads.specs.Draws.{next_seed, draw};
ghost use Rattle.loads.specs.Loads.{point_of, delivery_of, ticking, step_turn, turn};

use types::{Event, Form, Plan, Run};

// The next event of a load, the seed after it, and how many steps it is: 1, or 0 where the load settles.
#[derive(Clone, Copy)]
pub struct Turn {
    pub event: Event,
    pub seed: u64,
    pub steps: u64,
}

// Knuth's constants of MMIX.
const MULTIPLIER: u64 = 6364136223846793005;

const INCREMENT: u64 = 1442695040888963407;

// 2^32: a number is its upper half times this, and its lower half.
const HALF: u64 = 4294967296;

// ---- draws

// a * b, modulo 2^64: document 01 asks for an own wrapping multiply. By halves of 32 bits, of which the product of the upper two is beyond.
fn wrapping_mul(a: u64, b: u64) -> u64
    ensures { result ≡ a * b % 2 ^ 64 }
{
    let low = a % HALF;
    let high = a / HALF;
    let low_other = b % HALF;
    let high_other = b / HALF;
    let crossed = (high * low_other).wrapping_add(low * high_other);
    (low * low_other).wrapping_add(crossed % HALF * HALF)
}

// The next seed.
fn next_seed(s: u64) -> u64
    ensures { result ≡ next_seed s }
{
    wrapping_mul(s, MULTIPLIER).wrapping_add(INCREMENT)
}

// The draw of a new seed.
fn drawn(s: u64) -> u64
    ensures { result ≡ draw s }
{
    s >> 32
}

// ---- what is chosen

// Whether a message that was sent at `sent` is late, once the network has settled.
fn is_late(gst: u64, delta: u64, time: u64, sent: u64) -> bool
    ensures { result ≡ late gst delta time sent }
{
    let since = sent.max(gst);
    since <= time && delta <= time - since
}

// The first of the held messages that is late. By a loop, since `first` counts up from place 0, as the loop does; the library's `find` and `position` speak of a list.
fn first_late(gst: u64, delta: u64, time: u64, held: usize, network: &[u64]) -> Option<usize>
    ensures { MatchOption result (first (late_at gst delta time Form.Packed network.now) held ≡ held) (λ i. (first (late_at gst delta time Form.Packed network.now) held ≡ i) × (i < held)) }
{
    for i in 0..held {
        if is_late(gst, delta, time, buffers::sent(Form::Packed, network, i)) {
            return Some(i);
        }
    }
    None
}

// The delivery of message i; 0 ticks, which check 1 refuses, where its words are of no kind.
fn delivery(network: &[u64], i: usize) -> Event
    ensures { result ≡ delivery_of (stored Form.Packed network.now i) }
{
    match buffers::decode(Form::Packed, network, i) {
        Some(message) => Event::Deliver(message),
        None => Event::Tick(0),
    }
}

// Whether the time is at the clock time of the view limit, or later, whatever the plan: its product with the slot may be beyond 64 bits.
fn is_over(plan: Plan, time: u64) -> bool
    ensures { result ≡ at_end plan time }
{
    plan.gamma == 0 || plan.views <= time / plan.gamma
}

// What becomes of a tick where message i is the first that is overdue.
fn substitute(plan: Plan, time: u64, network: &[u64], i: usize) -> Event
    ensures { result ≡ (if at_end plan time then Event.Tick 1 else delivery_of (stored Form.Packed network.now i)) }
{
    if is_over(plan, time) {
        Event::Tick(1)
    } else {
        delivery(network, i)
    }
}

// A tick, or what it becomes.
fn tick_or_deliver(run: &Run, network: &[u64]) -> Event
    ensures { (t : List ℕ) → result ≡ ticking (state_of run.now t network.now) }
{
    if run.settled {
        if let Some(i) = first_late(run.gst, run.plan.delta, run.time, run.held, network) {
            return substitute(run.plan, run.time, network, i);
        }
    }
    Event::Tick(1)
}

// A step of the load. Nothing is asked of the draw where nothing is held.
fn step(run: &Run, seed: u64, network: &[u64]) -> Turn
    ensures { (t : List ℕ) (k : ℕ) → result ≡ step_turn (point_of (state_of run.now t network.now) seed k) }
{
    let once = next_seed(seed);
    if 0 < run.held && drawn(once) % 4 < 2 {
        let twice = next_seed(once);
        let i = drawn(twice) % (run.held as u64);
        Turn {
            event: delivery(network, i as usize),
            seed: twice,
            steps: 1,
        }
    } else {
        Turn {
            event: tick_or_deliver(run, network),
            seed: once,
            steps: 1,
        }
    }
}

// Whether the load settles before the next step.
fn settle_due(next: u64, settle: u64, settled: bool) -> bool
    ensures { result ≡ (next == settle && not settled) }
{
    next == settle && !settled
}

// What the load does next.
pub fn next_turn(run: &Run, seed: u64, next: u64, settle: u64, network: &[u64]) -> Turn
    ensures { (t : List ℕ) → result ≡ turn settle (point_of (state_of run.now t network.now) seed next) }
{
    if settle_due(next, settle, run.settled) {
        Turn {
            event: Event::Settle,
            seed,
            steps: 0,
        }
    } else {
        step(run, seed, network)
    }
}
