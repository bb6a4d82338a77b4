// What one processor's entry, and a signature that a leader hears, do to the lent buffers. Nothing here refuses: the caller has seen that the
// messages fit.
ghost use Rattle.std.specs.Prelude.{◌≡◌, [], ◌∷◌, true, cond, ℕ, ◌+◌, ◌-◌, ◌/◌, ◌<◌, ◌≤◌, length, replicate};
ghost use Rattle.base.specs.Sets.{size};
ghost use Rattle.types.specs.Quantities.{lead, correct};
ghost use Rattle.types.specs.Messages.{addressee};
ghost use Rattle.types.specs.Traffic.{traffic_sent};
ghost use Rattle.model.specs.State.{capacity};
ghost use Rattle.buffers.specs.Network.{views_packable};
ghost use Rattle.model.specs.Moves.{to_correct, needed, ripe, certificate, to_each, heard_tally, formed_messages};
ghost use Rattle.simulator.specs.Inner.{Posts, AllPackable, sent_by, CanEnter, Enters, pairs};

use types::{Form, Message, Plan, Sends, Traffic};

// The one way by which a message goes into the network: to a correct processor, behind the held ones. Answers how many are held then.
pub(crate) fn send(
    network: &mut [u64],
    held: usize,
    plan: Plan,
    faulty: u64,
    message: Message,
    time: u64,
) -> usize
    requires { (0 < plan.n) × (held + length (to_correct plan faulty (message ∷ [])) ≤ capacity Form.Packed network.old) × AllPackable (to_correct plan faulty (message ∷ [])) }
    ensures { Posts (to_correct plan faulty (message ∷ [])) held time network.old result network.new }
{
    if plan.correct(faulty, message.addressee(plan)) {
        buffers::append(Form::Packed, network, held, message, time);
        held + 1
    } else {
        held
    }
}

// The certificate of a stage.
fn certificate_of(stage: bool, w: u64, p: u64) -> Message
    ensures { result ≡ certificate stage w p }
{
    if stage {
        Message::Qc(w, p)
    } else {
        Message::Vc(w, p)
    }
}

// A certificate to every correct processor.
fn broadcast(
    network: &mut [u64],
    held: usize,
    plan: Plan,
    faulty: u64,
    stage: bool,
    w: u64,
    time: u64,
) -> usize
    requires { (0 < plan.n) × (held + length (to_correct plan faulty (to_each stage w plan.n)) ≤ capacity Form.Packed network.old) × (plan.n ≤ 64) × (w < views_packable) }
    ensures { Posts (to_correct plan faulty (to_each stage w plan.n)) held time network.old result network.new }
{
    let mut h = held;
    for q in 0..plan.n {
        h = send(network, h, plan, faulty, certificate_of(stage, w, q), time);
    }
    h
}

// Processor p enters view w, which is not initial: its vote goes to the leader.
fn enter_later(
    tally: &mut [u64],
    network: &mut [u64],
    held: usize,
    plan: Plan,
    faulty: u64,
    p: u64,
    w: u64,
    time: u64,
) -> usize
    requires { CanEnter plan faulty p (Sends.Vote w) held network.old }
    ensures { Enters plan faulty p (Sends.Vote w) held time tally.old network.old result tally.new network.new }
{
    buffers::enter(tally, w, p);
    send(network, held, plan, faulty, Message::Vote(w, p), time)
}

// Processor p enters the initial view w: its view message goes before the vote.
fn enter_initial(
    tally: &mut [u64],
    network: &mut [u64],
    held: usize,
    plan: Plan,
    faulty: u64,
    p: u64,
    w: u64,
    time: u64,
) -> usize
    requires { CanEnter plan faulty p (Sends.ViewAndVote w) held network.old }
    ensures { Enters plan faulty p (Sends.ViewAndVote w) held time tally.old network.old result tally.new network.new }
{
    buffers::enter(tally, w, p);
    let h = send(network, held, plan, faulty, Message::View(w, p), time);
    send(network, h, plan, faulty, Message::Vote(w, p), time)
}

// What processor p sends in one move, and the entry that it shows.
pub(crate) fn enter(
    tally: &mut [u64],
    network: &mut [u64],
    held: usize,
    plan: Plan,
    faulty: u64,
    p: u64,
    sends: Sends,
    time: u64,
) -> usize
    requires { CanEnter plan faulty p sends held network.old }
    ensures { Enters plan faulty p sends held time tally.old network.old result tally.new network.new }
{
    match sends {
        Sends::Nothing => held,
        Sends::Vote(w) => enter_later(tally, network, held, plan, faulty, p, w, time),
        Sends::ViewAndVote(w) => enter_initial(tally, network, held, plan, faulty, p, w, time),
    }
}

// Whether nothing is sent.
fn silent(sends: Sends) -> bool
    ensures { result ≡ true → sends ≡ Sends.Nothing }
{
    matches!(sends, Sends::Nothing)
}

// The same in a tick, in which most processors send nothing: for those nothing is called.
pub(crate) fn enter_by_tick(
    tally: &mut [u64],
    network: &mut [u64],
    held: usize,
    plan: Plan,
    faulty: u64,
    p: u64,
    sends: Sends,
    time: u64,
) -> usize
    requires { CanEnter plan faulty p sends held network.old }
    ensures { Enters plan faulty p sends held time tally.old network.old result tally.new network.new }
{
    if silent(sends) {
        held
    } else {
        enter(tally, network, held, plan, faulty, p, sends, time)
    }
}

// Whether the leader of view w is correct.
pub(crate) fn led(plan: Plan, faulty: u64, w: u64) -> bool
    requires { 0 < plan.n }
    ensures { result ≡ correct plan faulty (lead plan w) }
{
    plan.correct(faulty, plan.lead(w))
}

// So many, or none.
fn share(goes: bool, k: usize) -> usize
    ensures { result ≡ cond goes k 0 }
{
    if goes { k } else { 0 }
}

// How many messages go into the network of what processor p sends in one move.
pub(crate) fn count_entry(plan: Plan, faulty: u64, p: u64, sends: Sends) -> usize
    requires { 0 < plan.n }
    ensures { result ≡ length (sent_by plan faulty p sends) }
{
    match sends {
        Sends::Nothing => 0,
        Sends::Vote(w) => share(led(plan, faulty, w), 1),
        Sends::ViewAndVote(w) => share(led(plan, faulty, w), 2),
    }
}

// How many signers a certificate of the stage needs.
pub(crate) fn signers_needed(plan: Plan, stage: bool) -> u64
    ensures { result ≡ needed stage plan }
{
    if stage {
        plan.n - plan.tolerated()
    } else {
        plan.tolerated() + 1
    }
}

// Whether hearing p makes the leader of w, whose own view is given, form the certificate.
pub(crate) fn would_form(stage: bool, plan: Plan, own: u64, w: u64, p: u64, tally: &[u64]) -> bool
    requires { p < 64 }
    ensures { result ≡ ripe stage plan own tally.now w p }
{
    let signers = base::insert(buffers::heard(tally, stage, w), p);
    signers_needed(plan, stage) <= base::size(signers)
        && !buffers::is_marked(tally, stage, w)
        && (stage || own <= w)
}

// The leader of w hears p, and forms the certificate or not.
pub(crate) fn hear(
    tally: &mut [u64],
    network: &mut [u64],
    held: usize,
    plan: Plan,
    faulty: u64,
    stage: bool,
    w: u64,
    p: u64,
    formed: bool,
    time: u64,
) -> usize
    requires { (0 < plan.n) × (p < 64) × (held + length (formed_messages plan faulty stage w formed) ≤ capacity Form.Packed network.old) × (plan.n ≤ 64) × (w < views_packable) }
    ensures { Posts (formed_messages plan faulty stage w formed) held time network.old result network.new × (tally.new ≡ heard_tally tally.old stage w p formed) }
{
    buffers::hear(tally, stage, w, p);
    if formed {
        buffers::mark(tally, stage, w);
        broadcast(network, held, plan, faulty, stage, w, time)
    } else {
        held
    }
}

// The sums with a certificate of which so many copies were posted.
pub(crate) fn note_formed(traffic: Traffic, stage: bool, w: u64, posted: usize) -> Traffic
    ensures { result ≡ traffic_sent traffic (replicate posted (certificate stage w 0)) }
{
    sums::send(traffic, certificate_of(stage, w, 0), posted as u64)
}

// The sums with entries into initial views that posted so many messages: as many view messages as votes.
pub(crate) fn note_pairs(traffic: Traffic, posted: usize) -> Traffic
    ensures { result ≡ traffic_sent traffic (pairs (posted / 2)) }
{
    let k = posted as u64 / 2;
    sums::send(
        sums::send(traffic, Message::View(0, 0), k),
        Message::Vote(0, 0),
        k,
    )
}

// The sums with what processor p sends in one move, of which so many messages were posted.
pub(crate) fn note_entry(traffic: Traffic, p: u64, sends: Sends, posted: usize) -> Traffic
    ensures { (plan : Plan) (faulty : ℕ) → posted ≡ length (sent_by plan faulty p sends) → result ≡ traffic_sent traffic (sent_by plan faulty p sends) }
{
    match sends {
        Sends::Nothing => traffic,
        Sends::Vote(w) => sums::send(traffic, Message::Vote(w, p), posted as u64),
        Sends::ViewAndVote(_) => note_pairs(traffic, posted),
    }
}

// How many messages go out with a certificate that is formed or not.
pub(crate) fn count_formed(plan: Plan, faulty: u64, formed: bool) -> usize
    requires { (size faulty ≤ plan.n) × (plan.n ≤ 64) }
    ensures { result ≡ cond formed (plan.n - size faulty) 0 }
{
    if formed {
        (plan.n - base::size(faulty)) as usize
    } else {
        0
    }
}
