// Writing a load of any length: piece by piece, with the same lent bytes for each. What a piece says is the workload's; here bytes are moved. An error is
// one that the writer gave, or tells of a writer that takes no more.
ghost use Rattle.std.specs.Prelude.{◌≡◌, ◌≤◌, length, replicate, IfOk};
ghost use Rattle.printout.specs.Printout.{tally_lent, network_lent};
ghost use Rattle.transfer.specs.Moves.{Grows};
ghost use Rattle.generate.specs.Pieces.{piece_least, Resumes, WritesWhole, ProgramWrites};

use printout::Session;
use std::io;
use std::io::Write;
use types::Setup;
use workload::Generated;

// The bytes of a piece.
const PIECE_BYTES: usize = 65536;

// The pieces behind the first, up to the last, which is answered. A piece without a step is the last: one that ends for want of bytes has some. So is one
// that is refused: it leaves the load where it stands.
fn write_rest<W: Write>(
    first: Generated,
    steps: u64,
    settle: u64,
    tally: &mut [u64],
    network: &mut [u64],
    out: &mut [u8],
    to: &mut W,
) -> io::Result<Generated>
    requires { piece_least ≤ length out.old }
    ensures resumes { IfOk result (Resumes steps settle (length out.old) tally.old network.old first tally.new network.new) }
    ensures grows { Grows (W.contents to.old) (W.contents to.new) }
{
    let mut last = first;
    while last.full {
        let Ok(next) = workload::generate_more(
            last.run, last.seed, last.step, steps, settle, tally, network, out,
        ) else {
            return Ok(Generated {
                full: false,
                ..last
            });
        };
        transfer::write_whole(to, &out[..next.bytes])?;
        if next.step <= last.step {
            return Ok(next);
        }
        last = next;
    }
    Ok(last)
}

// The whole load, from the program's start: its last piece, or the check that refuses its opening.
fn write_load<W: Write>(
    setup: Setup,
    steps: u64,
    settle: u64,
    seed: u64,
    tally: &mut [u64],
    network: &mut [u64],
    out: &mut [u8],
    to: &mut W,
) -> io::Result<Result<Generated, u64>>
    requires { (tally.old ≡ replicate tally_lent 0) × (network.old ≡ replicate network_lent 0) × (piece_least ≤ length out.old) }
    ensures whole { IfOk result (WritesWhole setup steps settle seed (length out.old) tally.new network.new) }
    ensures grows { Grows (W.contents to.old) (W.contents to.new) }
{
    let run = Session::unopened().run;
    let first = match workload::generate(run, setup, steps, settle, seed, tally, network, out) {
        Ok(first) => first,
        Err(check) => return Ok(Err(check)),
    };
    transfer::write_whole(to, &out[..first.bytes])?;
    let last = write_rest(first, steps, settle, tally, network, out, to)?;
    Ok(Ok(last))
}

// Writes a load, and answers its last piece, or the check that refuses its opening.
pub fn run<W: Write>(
    setup: Setup,
    steps: u64,
    settle: u64,
    seed: u64,
    to: &mut W,
) -> io::Result<Result<Generated, u64>>
    ensures writes { IfOk result (ProgramWrites setup steps settle seed) }
    ensures grows { Grows (W.contents to.old) (W.contents to.new) }
{
    let mut tally = [0u64; printout::TALLY_LENT];
    let mut network = [0u64; printout::NETWORK_LENT];
    let mut out = [0u8; PIECE_BYTES];
    write_load(
        setup,
        steps,
        settle,
        seed,
        &mut tally,
        &mut network,
        &mut out,
        to,
    )
}
