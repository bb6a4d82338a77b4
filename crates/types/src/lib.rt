// The types of the product, declared once, and their own functions.
#![tactic(auto)]

ghost use Rattle.std.specs.Prelude.{◌≡◌, true};
ghost use Rattle.types.specs.Quantities.{tolerated, per_leader, turns_over, turn_start, initial, correct, width};
ghost use Rattle.types.specs.Messages.{kind_of, view_in, processor_in, stage_of, is_signature, lacks_form};
ghost use Rattle.types.specs.Traffic.{no_counts, no_traffic};
ghost use Rattle.types.specs.Runs.{settled_as, run_from, head_of};
ghost use Rattle.types.specs.PlanFunctions.{lead_word, next_initial_word, clock_time_word, addressee_word, arrival_time, Small};

// The protocol's parameters (document 01: the plan): processors, delay, slot, view limit, views per leader.
#[derive(Clone, Copy)]
pub struct Plan {
    pub n: u64,
    pub delta: u64,
    pub gamma: u64,
    pub views: u64,
    pub k: u64,
}

impl Plan {
    // The views per leader where a line names none.
    pub const VIEWS_PER_LEADER: u64 = 3;
    // What `lead` answers where there are no processors.
    const NO_LEADER: u64 = 0;
    // Two numbers below this, 2^32, have a product that fits.
    const HALF: u64 = 4294967296;
    // The limits of checks 2 to 4.
    pub const N_LEAST: u64 = 4;

    pub const N_MOST: u64 = 64;

    pub const DELTA_LEAST: u64 = 1;

    pub const DELTA_MOST: u64 = 1000;

    pub const GAMMA_MOST: u64 = 10000;

    pub const VIEWS_LEAST: u64 = 3;

    pub const VIEWS_MOST: u64 = 6000;

    pub const PER_LEADER_LEAST: u64 = 2;

    pub const PER_LEADER_MOST: u64 = 8;

    // The turns that are over at view w.
    fn turns_over(self, w: u64) -> u64
        ensures { result ≡ turns_over self w }
    {
        base::quotients::quotient(w, self.k)
    }

    // The leader of view w.
    pub fn lead(self, w: u64) -> u64
        ensures { result ≡ lead_word self w }
    {
        self.turns_over(w)
            .checked_rem(self.n)
            .unwrap_or(Plan::NO_LEADER)
    }

    // Whether w is a multiple of the views per leader.
    pub fn turn_start(self, w: u64) -> bool
        ensures { result ≡ turn_start self w }
    {
        self.turns_over(w) * self.k == w
    }

    // Whether view w is initial.
    pub fn initial(self, w: u64) -> bool
        ensures { result ≡ initial self w }
    {
        self.turn_start(w)
    }

    // The clock time of view w; the largest number where it does not fit.
    pub fn clock_time(self, w: u64) -> u64
        ensures { result ≡ clock_time_word self w }
    {
        if w < Plan::HALF && self.gamma < Plan::HALF {
            w * self.gamma
        } else {
            w.saturating_mul(self.gamma)
        }
    }

    // The first initial view above w; the largest number where it does not fit.
    pub fn next_initial(self, w: u64) -> u64
        ensures { result ≡ next_initial_word self w }
    {
        (self.turns_over(w) * self.k).saturating_add(self.k)
    }

    // Whether the next initial view above w and its clock time fit.
    fn is_small(self, w: u64) -> bool
        ensures { result ≡ true → Small self w }
    {
        w < base::quotients::NUMBERS
            && (Plan::PER_LEADER_LEAST..=Plan::PER_LEADER_MOST).contains(&self.k)
            && self.gamma < Plan::HALF
    }

    // The clock time of the first initial view above w. A plan's numbers are told small once for all the views of a run, which is faster than sums and products that
    // saturate at each view; these are left to numbers that no sound plan has.
    pub fn arrival(self, w: u64) -> u64
        ensures { result ≡ arrival_time self w }
    {
        if self.is_small(w) {
            (self.turns_over(w) * self.k + self.k) * self.gamma
        } else {
            self.clock_time(self.next_initial(w))
        }
    }

    // The clock time that no correct clock reaches.
    pub fn end_time(self) -> u64
        ensures { result ≡ clock_time_word self self.views }
    {
        self.clock_time(self.views)
    }

    // The clock time that no correct start clock reaches.
    pub fn start_limit(self) -> u64
        ensures { result ≡ clock_time_word self (per_leader self) }
    {
        self.clock_time(self.k)
    }

    // t, the faulty processors that the protocol tolerates.
    pub fn tolerated(self) -> u64
        ensures { result ≡ tolerated self }
    {
        self.n.saturating_sub(1) / 3
    }

    // Whether q is one of the processors and not in the faulty set.
    pub fn correct(self, faulty: u64, q: u64) -> bool
        ensures { result ≡ correct self faulty q }
    {
        q < self.n && !base::member(faulty, q)
    }
}

// A message: its view, then the processor, which is the sender of a view message or vote and the receiver of a certificate.
#[derive(Clone, Copy)]
pub enum Message {
    View(u64, u64),
    Vote(u64, u64),
    Vc(u64, u64),
    Qc(u64, u64),
}

impl Message {
    // The number by which a message of this kind is stored.
    pub fn kind(self) -> u64
        ensures { result ≡ kind_of self }
    {
        match self {
            Message::View(_, _) => 1,
            Message::Vote(_, _) => 2,
            Message::Vc(_, _) => 3,
            Message::Qc(_, _) => 4,
        }
    }

    // The view that it names.
    pub fn view(self) -> u64
        ensures { result ≡ view_in self }
    {
        match self {
            Message::View(w, _) | Message::Vote(w, _) | Message::Vc(w, _) | Message::Qc(w, _) => w,
        }
    }

    // The processor that it names.
    pub fn processor(self) -> u64
        ensures { result ≡ processor_in self }
    {
        match self {
            Message::View(_, p) | Message::Vote(_, p) | Message::Vc(_, p) | Message::Qc(_, p) => p,
        }
    }

    // Whom it is for: the leader of its view, or the processor that it names.
    pub fn addressee(self, plan: Plan) -> u64
        ensures { result ≡ addressee_word plan self }
    {
        match self {
            Message::View(w, _) | Message::Vote(w, _) => plan.lead(w),
            Message::Vc(_, p) | Message::Qc(_, p) => p,
        }
    }

    // Whether it is of the second stage: a vote or a quorum certificate.
    pub fn stage(self) -> bool
        ensures { result ≡ stage_of self }
    {
        matches!(self, Message::Vote(_, _) | Message::Qc(_, _))
    }

    // Whether it is a view message or a vote; `stage` names another two of the four kinds.
    pub fn is_signature(self) -> bool
        ensures { result ≡ is_signature self }
    {
        matches!(self, Message::View(_, _) | Message::Vote(_, _))
    }
}

// How a message in flight stands in the network's words: four of them (document 01), or two (document 02), in which they are held now.
#[derive(Clone, Copy)]
pub enum Form {
    Wide,
    Packed,
}

impl Form {
    // The words of a message.
    pub const WIDE_WORDS: usize = 4;

    pub const PACKED_WORDS: usize = 2;

    // The same, by the form.
    pub fn width(self) -> usize
        ensures { result ≡ width self }
    {
        match self {
            Form::Wide => Form::WIDE_WORDS,
            Form::Packed => Form::PACKED_WORDS,
        }
    }
}

// What happens next (document 01: the forms of a line, but for the opening): a message is delivered, a faulty processor signs, the
// adversary shows a certificate, the network settles, time passes.
#[derive(Clone, Copy)]
pub enum Event {
    Deliver(Message),
    Sign(Message),
    Show(Message),
    Settle,
    Tick(u64),
}

impl Event {
    // Check 1 of an event handed in: it has 0 ticks, or a kind that its form lacks.
    pub fn lacks_form(self) -> bool
        ensures { result ≡ lacks_form self }
    {
        match self {
            Event::Deliver(_) | Event::Settle => false,
            Event::Sign(m) => !m.is_signature(),
            Event::Show(m) => m.is_signature(),
            Event::Tick(m) => m == 0,
        }
    }
}

// An initial configuration (document 01: what the opening form carries; the clocks are its table).
#[derive(Clone, Copy)]
pub struct Setup {
    pub plan: Plan,
    pub faulty: u64,
    pub clocks: [u64; 64],
}

// So many messages of each kind.
#[derive(Clone, Copy, Default)]
pub struct Counts {
    pub views: u64,
    pub votes: u64,
    pub vcs: u64,
    pub qcs: u64,
}

impl Counts {
    // No message of any kind: the Default, under the name that other crates call it by.
    pub fn none() -> Counts
        ensures { result ≡ no_counts }
    {
        Counts::default()
    }
}

// What was sent and what was delivered since the opening, and the sum of the times that the delivered ones were in flight; all modulo 2^64.
#[derive(Clone, Copy, Default)]
pub struct Traffic {
    pub sent: Counts,
    pub delivered: Counts,
    pub waits: u64,
}

impl Traffic {
    // Nothing was sent yet, likewise.
    pub fn none() -> Traffic
        ensures { result ≡ no_traffic }
    {
        Traffic::default()
    }
}

// A run's traffic, and the messages in flight.
#[derive(Clone, Copy)]
pub struct Totals {
    pub traffic: Traffic,
    pub held: Counts,
}

// The execution so far, without the lent buffers. `gst` is a number of its own beside `settled`: in a run handed in that has not settled check 9 judges it too.
#[derive(Clone, Copy)]
pub struct Run {
    pub plan: Plan,
    pub faulty: u64,
    pub time: u64,
    pub settled: bool,
    pub gst: u64,
    pub held: usize,
    pub clocks: [u64; 64],
    pub views: [u64; 64],
    pub traffic: Traffic,
}

// The execution so far but for its two tables, which are lent beside it: so nothing large is handed from function to function.
// Whether the network has settled is a number, 1 or another: a flag among numbers is slow to copy (docs/PERFORMANCE.md, "What copying costs").
#[derive(Clone, Copy)]
pub struct Head {
    pub plan: Plan,
    pub faulty: u64,
    pub time: u64,
    pub settled: u64,
    pub gst: u64,
    pub held: usize,
    pub traffic: Traffic,
}

// The number that says whether the network has settled. It has a name, as the definition has: `head_of` and the words for C are told by it.
pub fn settled_as(settled: bool) -> u64
    ensures { result ≡ settled_as settled }
{
    u64::from(settled)
}

// The head of a run: no `From`, since its counterpart `gather` takes the tables too.
pub fn head_of(run: Run) -> Head
    ensures { result ≡ head_of run }
{
    Head {
        plan: run.plan,
        faulty: run.faulty,
        time: run.time,
        settled: settled_as(run.settled),
        gst: run.gst,
        held: run.held,
        traffic: run.traffic,
    }
}

// The run put together again.
pub fn gather(head: Head, clocks: &[u64; 64], views: &[u64; 64]) -> Run
    ensures { result ≡ run_from head clocks.now views.now }
{
    Run {
        plan: head.plan,
        faulty: head.faulty,
        time: head.time,
        settled: head.settled == 1,
        gst: head.gst,
        held: head.held,
        clocks: *clocks,
        views: *views,
        traffic: head.traffic,
    }
}

// The answer to an opening or an event. Done: ticks done, messages held. Stopped: the same, and the check that ended the ticks.
// Refused: the first check whose sentence holds.
#[derive(Clone, Copy)]
pub enum Answer {
    Done(u64, usize),
    Stopped(u64, usize, u64),
    Refused(u64),
}

// What a call leaves of the run, and its answer.
#[derive(Clone, Copy)]
pub struct Applied {
    pub run: Run,
    pub answer: Answer,
}

// The same, the run's tables being lent.
#[derive(Clone, Copy)]
pub struct AppliedHead {
    pub head: Head,
    pub answer: Answer,
}

// One processor's own record (document 01: what is lent at the cabinet's own face).
#[derive(Clone, Copy)]
pub struct Processor {
    pub number: u64,
    pub clock: u64,
    pub view: u64,
}

// What reaches one processor: a tick of its clock, or a certificate for a view.
#[derive(Clone, Copy)]
pub enum Input {
    Tick,
    Vc(u64),
    Qc(u64),
}

// The messages that a processor sends in one move, for the view named.
#[derive(Clone, Copy)]
pub enum Sends {
    Nothing,
    Vote(u64),
    ViewAndVote(u64),
}
