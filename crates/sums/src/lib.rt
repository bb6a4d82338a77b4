// The sums of a run's traffic: messages that are sent and delivered are added to them. They wrap at 2^64. And what is told of them.
#![tactic(auto)]

ghost use Rattle.std.specs.Prelude.{◌≡◌, ◌≤◌, replicate};
ghost use Rattle.types.specs.Traffic.{counts_more, traffic_sent, traffic_delivered};
ghost use Rattle.model.specs.State.{state_of, capacity};
ghost use Rattle.model.specs.Traffic.{totals};
ghost use Rattle.sums.specs.Held.{counts_held};

use types::{Counts, Form, Message, Run, Totals, Traffic};

// The check that refuses an unsound run.
const UNSOUND: u64 = 9;

// So many more of one kind.
fn count(counts: Counts, message: Message, k: u64) -> Counts
    ensures { result ≡ counts_more counts (replicate k message) }
{
    match message {
        Message::View(_, _) => Counts {
            views: counts.views.wrapping_add(k),
            ..counts
        },
        Message::Vote(_, _) => Counts {
            votes: counts.votes.wrapping_add(k),
            ..counts
        },
        Message::Vc(_, _) => Counts {
            vcs: counts.vcs.wrapping_add(k),
            ..counts
        },
        Message::Qc(_, _) => Counts {
            qcs: counts.qcs.wrapping_add(k),
            ..counts
        },
    }
}

// So many messages of one kind are sent.
pub fn send(traffic: Traffic, message: Message, k: u64) -> Traffic
    ensures { result ≡ traffic_sent traffic (replicate k message) }
{
    Traffic {
        sent: count(traffic.sent, message, k),
        ..traffic
    }
}

// A message is delivered after it was in flight for so long.
pub fn deliver(traffic: Traffic, message: Message, wait: u64) -> Traffic
    ensures { result ≡ traffic_delivered traffic message wait }
{
    Traffic {
        delivered: count(traffic.delivered, message, 1),
        waits: traffic.waits.wrapping_add(wait),
        ..traffic
    }
}

// How many held messages are of each kind.
fn count_held(network: &[u64], held: usize) -> Counts
    requires { held ≤ capacity Form.Packed network.now }
    ensures { result ≡ counts_held network.now held }
{
    let mut counts = Counts::none();
    for i in 0..held {
        if let Some(message) = buffers::decode(Form::Packed, network, i) {
            counts = count(counts, message, 1);
        }
    }
    counts
}

// A run's traffic and the messages in flight by kind, or check 9.
pub fn totals(run: &Run, tally: &[u64], network: &[u64]) -> Result<Totals, u64>
    ensures { result ≡ totals (state_of run.now tally.now network.now) }
{
    if checks::unsound(Form::Packed, run, tally, network) {
        return Err(UNSOUND);
    }
    Ok(Totals {
        traffic: run.traffic,
        held: count_held(network, run.held),
    })
}
