// Check 9, and what of it lasts, on whatever is handed in; and checks 2 to 8 of an opening.
#![tactic(auto)]

ghost use Rattle.std.specs.Prelude.{◌≡◌, true, false, not, ◌&&◌, ◌||◌, ◌+◌, ◌*◌, ◌^◌, ◌≤◌, ◌<◌, eqb, leb, ltb, length, drop, MatchOption};
ghost use Rattle.base.specs.Count.{bit};
ghost use Rattle.base.specs.Scan.{some};
ghost use Rattle.types.specs.Quantities.{network_least, correct, start_limit};
ghost use Rattle.model.specs.State.{state_in, held_as, capacity};
ghost use Rattle.model.specs.Checks.{plan_outside, faulty_outside, network_outside, lengths_outside, clock_outside, outside_at, held_unsound, message_unsound, some_non_zero, unsound, start_too_high, supporting, alone_at, too_far_ahead};
ghost use Rattle.checks.specs.Scans.{flying, non_zero_from, turn_words};
ghost use Rattle.checks.specs.Runs.{Judges};
ghost use Rattle.checks.specs.Setups.{setup_check};

use pacemaker::PlanWithin;
use types::{Form, Message, Plan, Processor, Run, Setup};

// The network has at least so many words for each processor; and in the wide form.
const WORDS_EACH: u64 = 4;

const WIDE_WORDS_EACH: u64 = 8;

// The network has at most so many words.
const NETWORK_MOST: u64 = 524288;

// So many words are looked at in a turn.
const TURN_WORDS: usize = 8;

// Whether the set has a number at n or above.
fn has_beyond(n: u64, faulty: u64) -> bool
    ensures { result ≡ leb (2 ^ n) faulty }
{
    n < base::BITS && faulty >> n != 0
}

// Check 5.
fn faulty_outside(plan: Plan, faulty: u64) -> bool
    ensures { result ≡ faulty_outside plan faulty }
{
    has_beyond(plan.n, faulty) || plan.tolerated() < base::size(faulty)
}

// For how many processors so many words of the network are enough.
fn processors_served(form: Form, network: usize) -> u64
    ensures { (plan : Plan) → ltb result plan.n ≡ ltb network (network_least form plan) }
{
    let words = network as u64;
    match form {
        Form::Wide => words / WIDE_WORDS_EACH,
        Form::Packed => words / WORDS_EACH,
    }
}

// What check 6 says of the network.
pub fn network_outside(form: Form, plan: Plan, network: usize) -> bool
    ensures { result ≡ network_outside form plan network }
{
    processors_served(form, network) < plan.n || NETWORK_MOST < network as u64
}

// Check 6.
fn lengths_outside(form: Form, within: PlanWithin, tally: usize, network: usize) -> bool
    ensures { result ≡ lengths_outside form within.plan tally network }
{
    (tally as u64) < buffers::ROW_WORDS as u64 * within.plan.views
        || network_outside(form, within.plan, network)
}

// The plan within its limits, where checks 2 to 6 pass.
fn limits_kept(
    form: Form,
    plan: Plan,
    faulty: u64,
    tally: usize,
    network: usize,
) -> Option<PlanWithin>
    ensures { MatchOption result
        ((plan_outside plan || faulty_outside plan faulty || lengths_outside form plan tally network) ≡ true)
        (λ w. ((plan_outside plan || faulty_outside plan faulty || lengths_outside form plan tally network) ≡ false) × (w.plan ≡ plan)) }
{
    let Ok(within) = PlanWithin::of(plan) else {
        return None;
    };
    if faulty_outside(plan, faulty) || lengths_outside(form, within, tally, network) {
        None
    } else {
        Some(within)
    }
}

// Whether q is correct and its clock outside its view.
fn clock_unsound(plan: Plan, faulty: u64, q: u64, clock: u64, view: u64) -> bool
    requires { plan_outside plan ≡ false }
    ensures { result ≡ (correct plan faulty q && clock_outside plan clock view) }
{
    plan.correct(faulty, q)
        && pacemaker::unsound(
            plan,
            Processor {
                number: q,
                clock,
                view,
            },
        )
}

// Whether some correct clock is outside its view.
fn clocks_unsound(run: &Run) -> bool
    requires { plan_outside run.now.plan ≡ false }
    ensures { result ≡ some (outside_at run.now.plan run.now.faulty run.now.clocks run.now.views) run.now.plan.n }
{
    let plan = run.plan;
    let faulty = run.faulty;
    let clocks = &run.clocks;
    let views = &run.views;
    (0..plan.n).any(|q| clock_unsound(plan, faulty, q, clocks[q as usize], views[q as usize]))
}

// Whether the message names too much, is for no correct processor or was sent later than now.
fn held_unsound(within: PlanWithin, faulty: u64, time: u64, message: Message, sent: u64) -> bool
    ensures { result ≡ held_unsound within.plan faulty time (held_as sent message) }
{
    let plan = within.plan;
    plan.views <= message.view()
        || plan.n <= message.processor()
        || !plan.correct(faulty, message.addressee(plan))
        || time < sent
}

// Whether message i is unsound: of no kind, or as above.
fn message_unsound(
    form: Form,
    within: PlanWithin,
    faulty: u64,
    time: u64,
    network: &[u64],
    i: usize,
) -> bool
    requires { i < capacity form network.now }
    ensures { result ≡ message_unsound (flying form within.plan faulty time network.now) i }
{
    let stored = buffers::decode(form, network, i);
    match stored {
        Some(message) => {
            held_unsound(
                within,
                faulty,
                time,
                message,
                buffers::sent(form, network, i),
            )
        }
        None => true,
    }
}

// Whether some held message is unsound.
fn messages_unsound(
    form: Form,
    within: PlanWithin,
    faulty: u64,
    time: u64,
    held: usize,
    network: &[u64],
) -> bool
    requires { held ≤ capacity form network.now }
    ensures { result ≡ some (message_unsound (flying form within.plan faulty time network.now)) held }
{
    (0..held).any(|i| message_unsound(form, within, faulty, time, network, i))
}

// Whether the settling time is later than now, or another than 0 in an unsettled run.
fn settling_unsound(time: u64, settled: bool, gst: u64) -> bool
    ensures { result ≡ (ltb time gst || (not settled && not (eqb gst 0))) }
{
    time < gst || (!settled && gst != 0)
}

// The words from a place on, so many turns of eight, each gathered with its like of the turns before: so they are read two at a time. A loop of one word a
// turn takes up to twice as long where it happens to lie across two lines of the processor's cache; this one does not. It stays in this form: with a `for`
// over the turns or eight words as an array (`as_chunks`) it took a twentieth more instructions, and as one `fold` half as many again.
fn gather_turns(network: &[u64], from: usize, turns: usize) -> u64
    requires { from + turn_words * turns ≤ length network.now }
    ensures { non_zero_from result (from + turn_words * turns) network.now ≡ some_non_zero (drop from network.now) }
{
    let mut a = 0;
    let mut b = 0;
    let mut c = 0;
    let mut d = 0;
    let mut e = 0;
    let mut f = 0;
    let mut g = 0;
    let mut h = 0;
    let mut i = from;
    let mut left = turns;
    while 0 < left {
        a |= network[i];
        b |= network[i + 1];
        c |= network[i + 2];
        d |= network[i + 3];
        e |= network[i + 4];
        f |= network[i + 5];
        g |= network[i + 6];
        h |= network[i + 7];
        i += TURN_WORDS;
        left -= 1;
    }
    a | b | c | d | e | f | g | h
}

// Whether a word was seen before that is not 0, or one from a place on is.
fn rest_not_zero(network: &[u64], from: usize, before: u64) -> bool
    ensures { result ≡ non_zero_from before from network.now }
{
    let mut seen = before;
    for i in from..network.len() {
        seen |= network[i];
    }
    seen != 0
}

// Whether some word from a place on is not 0. All are read: without a way out of the loop they are read several at a time.
fn tail_not_zero(network: &[u64], from: usize) -> bool
    ensures { result ≡ some_non_zero (drop from network.now) }
{
    // First, since the difference below is then no number.
    if network.len() <= from {
        return false;
    }
    let turns = (network.len() - from) / TURN_WORDS;
    let seen = gather_turns(network, from, turns);
    rest_not_zero(network, from + TURN_WORDS * turns, seen)
}

// Check 9 but for the time, of a run whose network is of the form named. Each test stands by itself, since the later ones require that the earlier ones
// passed: as one expression it is no plainer.
pub fn unsound_for_good(form: Form, run: &Run, tally: &[u64], network: &[u64]) -> bool
    ensures { Judges (state_in form run.now tally.now network.now) result }
{
    let Some(within) = limits_kept(form, run.plan, run.faulty, tally.len(), network.len()) else {
        return true;
    };
    if clocks_unsound(run) {
        return true;
    }
    if buffers::capacity(form, network) < run.held {
        return true;
    }
    if messages_unsound(form, within, run.faulty, run.time, run.held, network) {
        return true;
    }
    if settling_unsound(run.time, run.settled, run.gst) {
        return true;
    }
    tail_not_zero(network, form.width() * run.held)
}

// Check 9.
pub fn unsound(form: Form, run: &Run, tally: &[u64], network: &[u64]) -> bool
    ensures { result ≡ unsound (state_in form run.now tally.now network.now) }
{
    unsound_for_good(form, run, tally, network) || run.plan.end_time() <= run.time
}

// Whether q is correct and its start clock too high.
fn clock_too_high(within: PlanWithin, faulty: u64, q: u64, clock: u64) -> bool
    ensures { result ≡ (correct within.plan faulty q && leb (start_limit within.plan) clock) }
{
    within.plan.correct(faulty, q) && within.plan.start_limit() <= clock
}

// Check 7.
fn start_too_high(within: PlanWithin, faulty: u64, clocks: &[u64; 64]) -> bool
    ensures { result ≡ start_too_high within.plan faulty clocks.now }
{
    (0..within.plan.n).any(|q| clock_too_high(within, faulty, q, clocks[q as usize]))
}

// Whether q is correct and its clock at most a slot behind c.
fn supports(plan: Plan, faulty: u64, q: u64, clock: u64, c: u64) -> bool
    ensures { result ≡ (correct plan faulty q && leb c (clock + plan.gamma)) }
{
    plan.correct(faulty, q) && c.saturating_sub(clock) <= plan.gamma
}

// How many correct clocks are at most a slot behind c.
fn count_support(within: PlanWithin, faulty: u64, clocks: &[u64; 64], c: u64) -> u64
    ensures { result ≡ supporting within.plan faulty clocks.now c }
{
    let mut k = 0;
    for q in 0..within.plan.n {
        k += u64::from(supports(within.plan, faulty, q, clocks[q as usize], c));
    }
    k
}

// Whether q is correct and too few correct clocks, its own counted, are with its clock.
fn clock_alone(within: PlanWithin, faulty: u64, clocks: &[u64; 64], q: u64) -> bool
    requires { q < within.plan.n }
    ensures { result ≡ alone_at within.plan faulty clocks.now q }
{
    within.plan.correct(faulty, q)
        && count_support(within, faulty, clocks, clocks[q as usize]) < within.plan.tolerated() + 1
}

// Check 8.
fn too_far_ahead(within: PlanWithin, faulty: u64, clocks: &[u64; 64]) -> bool
    ensures { result ≡ too_far_ahead within.plan faulty clocks.now }
{
    (0..within.plan.n).any(|q| clock_alone(within, faulty, clocks, q))
}

// The first of checks 2 to 8 that refuses the setup with lent buffers of these lengths, as an error.
pub fn setup_check(setup: Setup, tally: usize, network: usize) -> Result<(), u64>
    ensures { result ≡ setup_check Form.Packed setup tally network }
{
    let within = PlanWithin::of(setup.plan)?;
    if faulty_outside(setup.plan, setup.faulty) {
        Err(5)
    } else if lengths_outside(Form::Packed, within, tally, network) {
        Err(6)
    } else if start_too_high(within, setup.faulty, &setup.clocks) {
        Err(7)
    } else if too_far_ahead(within, setup.faulty, &setup.clocks) {
        Err(8)
    } else {
        Ok(())
    }
}
