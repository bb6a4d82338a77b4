// Loads out of a seed number: a run is opened and moved by events that the seed chooses, and the lines of a schedule are written that does the same.
#![tactic(auto)]

ghost use Rattle.std.specs.Prelude.{◌≡◌, cond, length};
ghost use Rattle.model.specs.State.{state_of, check_of};
ghost use Rattle.model.specs.Checks.{unsound_for_good};
ghost use Rattle.model.specs.Opening.{opening};
ghost use Rattle.loads.specs.Loads.{point_of, further_load, whole_load};
ghost use Rattle.workload.specs.Clauses.{Generates};

use types::{Run, Setup};

// What a load, or a piece of it, leaves: the run; where it stands, by its seed and its next step; the bytes written, and whether more of them are
// needed.
#[derive(Clone, Copy)]
pub struct Generated {
    pub run: Run,
    pub seed: u64,
    pub step: u64,
    pub bytes: usize,
    pub full: bool,
}

// A load goes on, from the step named and up to `steps` steps, on any run; check 9 refuses it where nothing is chosen on the run.
pub fn generate_more(
    run: Run,
    seed: u64,
    step: u64,
    steps: u64,
    settle: u64,
    tally: &mut [u64],
    network: &mut [u64],
    out: &mut [u8],
) -> Result<Generated, u64>
    ensures { Generates (cond (unsound_for_good (state_of run tally.old network.old)) 9 0)
        (further_load steps settle (point_of (state_of run tally.old network.old) seed step) (length out.old)) (state_of run tally.old network.old) out.old
        tally.new network.new result out.new }
{
    let mut run = run;
    let piece = simulator::write_load(&mut run, seed, step, steps, settle, tally, network, out)?;
    Ok(Generated {
        run,
        seed: piece.seed,
        step: piece.step,
        bytes: piece.bytes,
        full: piece.full,
    })
}

// A load from its opening on, whatever run is at hand; or the check that refuses the opening.
pub fn generate(
    run: Run,
    setup: Setup,
    steps: u64,
    settle: u64,
    seed: u64,
    tally: &mut [u64],
    network: &mut [u64],
    out: &mut [u8],
) -> Result<Generated, u64>
    ensures { Generates (check_of (opening setup (state_of run tally.old network.old)).answer)
        (whole_load setup (state_of run tally.old network.old) steps settle seed (length out.old)) (state_of run tally.old network.old) out.old
        tally.new network.new result out.new }
{
    checks::setup_check(setup, tally.len(), network.len())?;
    let Ok(first) = writer::write_setup(setup, out) else {
        return Ok(Generated {
            run,
            seed,
            step: 0,
            bytes: 0,
            full: true,
        });
    };
    let opened = simulator::open(run, setup, tally, network);
    let mut load = generate_more(
        opened.run,
        seed,
        0,
        steps,
        settle,
        tally,
        network,
        &mut out[first..],
    )?;
    load.bytes += first;
    Ok(load)
}
