// Loads in lent words: what one leaves.
ghost use Rattle.std.specs.Prelude.{◌≡◌, ◌≤◌, length};
ghost use Rattle.fever.specs.Layout.{run_length};
ghost use Rattle.fever.specs.Loads.{load_length, run_after, PutsBack};

use crate::layout;
use types::Run;
use workload::Generated;

pub(crate) const LOAD_WORDS: usize = 6;

// Which word of a load holds what; behind the step stand the bytes and whether more of them are needed.
pub(crate) const STEPS: usize = 0;

pub(crate) const SETTLE: usize = 1;

pub(crate) const SEED: usize = 2;

pub(crate) const STEP: usize = 3;

// The run that the bytes written led to, if there are any.
fn put_back(words: &mut [u64], bytes: usize, run: &Run)
    requires { run_length ≤ length words.old }
    ensures { words.new ≡ run_after words.old bytes run.now }
{
    if bytes != 0 {
        layout::put_run(words, run);
    }
}

// What a load left of the run's words and of its own, if it was not refused. Answers the check that refused it, or 0.
pub(crate) fn put_load(run: &mut [u64], load: &mut [u64], made: Result<Generated, u64>) -> u64
    requires { (run_length ≤ length run.old) × (load_length ≤ length load.old) }
    ensures { PutsBack made run.old load.old result run.new load.new }
{
    let made = match made {
        Ok(made) => made,
        Err(check) => return check,
    };
    put_back(run, made.bytes, &made.run);
    let values = [
        made.seed,
        made.step,
        made.bytes as u64,
        u64::from(made.full),
    ];
    layout::put_slice(load, SEED, &values);
    0
}
