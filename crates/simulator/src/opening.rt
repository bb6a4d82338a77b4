// The opening: buffers set to 0, the run that a setup starts, and the first entries.
ghost use Rattle.std.specs.Prelude.{◌≡◌, cond, ◌*◌, ◌≤◌, ◌<◌, length};
ghost use Rattle.types.specs.Quantities.{correct};
ghost use Rattle.model.specs.State.{state_of, capacity};
ghost use Rattle.model.specs.Opening.{blank_run, opened};
ghost use Rattle.checks.specs.Setups.{setup_check};
ghost use Rattle.simulator.specs.Inner.{Posts};
ghost use Rattle.simulator.specs.Opening.{first_sends, entered_first};

use crate::moves;
use types::{Form, Plan, Run, Sends, Setup, Traffic};

// What the run keeps of a start clock that is not read.
const NOT_READ: u64 = 0;

// The clock with which processor q starts: that of a faulty one, or from n on, is not read.
fn start_clock(plan: Plan, faulty: u64, q: u64, clock: u64) -> u64
    ensures { result ≡ cond (correct plan faulty q) clock 0 }
{
    if plan.correct(faulty, q) {
        clock
    } else {
        NOT_READ
    }
}

// The run before the first entry.
fn blank(setup: Setup) -> Run
    ensures { result ≡ blank_run setup }
{
    let mut clocks = [0; 64];
    for (i, clock) in clocks.iter_mut().enumerate() {
        *clock = start_clock(setup.plan, setup.faulty, i as u64, setup.clocks[i]);
    }
    Run {
        plan: setup.plan,
        faulty: setup.faulty,
        time: 0,
        settled: false,
        gst: 0,
        held: 0,
        clocks,
        views: [0; 64],
        traffic: Traffic::none(),
    }
}

// What processor q sends at the opening: a correct one enters view 0.
fn first_sends(plan: Plan, faulty: u64, q: u64) -> Sends
    ensures { result ≡ first_sends plan faulty q }
{
    if plan.correct(faulty, q) {
        Sends::ViewAndVote(0)
    } else {
        Sends::Nothing
    }
}

// Every correct processor enters view 0, by rising number. Answers how many messages are held then.
fn enter_all(setup: Setup, tally: &mut [u64], network: &mut [u64]) -> usize
    requires { (0 < setup.plan.n) × (setup.plan.n ≤ 64) × (2 * setup.plan.n ≤ capacity Form.Packed network.old) }
    ensures { Posts (entered_first setup tally.old setup.plan.n).sent 0 0 network.old result network.new × (tally.new ≡ (entered_first setup tally.old setup.plan.n).tally) }
{
    let n = setup.plan.n;
    let mut held = 0;
    for q in 0..n {
        let sends = first_sends(setup.plan, setup.faulty, q);
        held = moves::enter(tally, network, held, setup.plan, setup.faulty, q, sends, 0);
    }
    held
}

// The setup, which checks 2 to 8 passed, is opened.
pub(crate) fn start(setup: Setup, tally: &mut [u64], network: &mut [u64]) -> Run
    requires { setup_check Form.Packed setup (length tally.old) (length network.old) ≡ Ok tt }
    ensures { state_of result tally.new network.new ≡ opened setup (state_of (blank_run setup) tally.old network.old) }
{
    let rows = setup.plan.views as usize;
    buffers::zero_words(tally, buffers::ROW_WORDS * rows);
    buffers::zero_words(network, network.len());
    let mut run = blank(setup);
    let held = enter_all(setup, tally, network);
    let traffic = moves::note_pairs(run.traffic, held);
    // Two fields are set: the run made anew from this one would copy its two tables.
    run.held = held;
    run.traffic = traffic;
    run
}
