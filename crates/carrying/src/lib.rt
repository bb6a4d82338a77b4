// A run carried over to a network of another form: the same messages in the same order, while run and tally stay as they are.
#![tactic(auto)]

ghost use Rattle.std.specs.Prelude.{◌≡◌, length};
ghost use Rattle.model.specs.State.{state_in};
ghost use Rattle.model.specs.Carrying.{target_outside};
ghost use Rattle.carrying.specs.Carries.{carried_one, carried_first, Carries};

use types::{Form, Run};

// The checks that refuse a target and an unsound run.
const TARGET_OUTSIDE: u64 = 6;

const UNSOUND: u64 = 9;

// Whether check 6 refuses the target, or the held messages do not fit in it.
pub fn target_outside(to: Form, run: &Run, target: &[u64]) -> bool
    ensures { result ≡ target_outside to run.now.plan run.now.held (length target.now) }
{
    checks::network_outside(to, run.plan, target.len()) || buffers::capacity(to, target) < run.held
}

// Message i goes behind the first i of the target; words that are no message do not.
fn carry_one(from: Form, to: Form, network: &[u64], target: &mut [u64], i: usize)
    ensures { target.new ≡ carried_one from to network.now target.old i }
{
    let Some(message) = buffers::decode(from, network, i) else {
        return;
    };
    buffers::append(to, target, i, message, buffers::sent(from, network, i));
}

// The first `held` messages.
fn carry_all(from: Form, to: Form, held: usize, network: &[u64], target: &mut [u64])
    ensures { target.new ≡ carried_first from to network.now target.old held }
{
    for i in 0..held {
        carry_one(from, to, network, target, i);
    }
}

// A run carried over from one network to another, which is then 0 behind the messages. Where check 6 of the target or 9 of the run refuses it, nothing
// is written.
pub fn carry(
    from: Form,
    to: Form,
    run: &Run,
    tally: &[u64],
    network: &[u64],
    target: &mut [u64],
) -> Result<(), u64>
    ensures { Carries to (state_in from run.now tally.now network.now)
        target.old result target.new }
{
    if target_outside(to, run, target) {
        return Err(TARGET_OUTSIDE);
    }
    if checks::unsound(from, run, tally, network) {
        return Err(UNSOUND);
    }
    buffers::zero_words(target, target.len());
    carry_all(from, to, run.held, network, target);
    Ok(())
}
