// The types of the state of the simulate program and of the traffic program.
#![tactic(auto)]

ghost use Rattle.std.specs.Prelude.{◌≡◌};
ghost use Rattle.printout.specs.Printout.{unopened_session};

use types::{Plan, Run, Traffic};

// The words that the program lends: so many for the tally, so many for the network.
pub const TALLY_LENT: usize = 3600;

pub const NETWORK_LENT: usize = 2048;

// The state of the program but for the lent buffers: whether a run is open, and the run, which is handed back as it was handed in also where none is open.
#[derive(Clone, Copy)]
pub struct Session {
    pub opened: bool,
    pub run: Run,
}

impl Session {
    // Before the first opening: 0 everywhere, written out, since there is no Default for a table of 64 words.
    pub fn unopened() -> Session
        ensures { result ≡ unopened_session }
    {
        Session {
            opened: false,
            run: Run {
                plan: Plan {
                    n: 0,
                    delta: 0,
                    gamma: 0,
                    views: 0,
                    k: 0,
                },
                faulty: 0,
                time: 0,
                settled: false,
                gst: 0,
                held: 0,
                clocks: [0; 64],
                views: [0; 64],
                traffic: Traffic::none(),
            },
        }
    }
}

// What bytes of an input left: the session, whether more bytes than a line may have were passed over since the last newline, how many bytes were
// used, and how many printed. Where such bytes were passed over the session, too, is the one to go on with.
#[derive(Clone, Copy)]
pub struct Served {
    pub session: Session,
    pub late: bool,
    pub used: usize,
    pub printed: usize,
}
