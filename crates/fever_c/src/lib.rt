// The archive for C: each export is the library's function of the same name, with the same promise. Every function takes every argument; a refused call
// has changed nothing that was lent. Numbers and words alone go in and out, as C has them.
#![tactic(auto)]

ghost use Rattle.std.specs.Prelude.{[], ◌∷◌};
ghost use Rattle.types.specs.declared.Form.TheVariants as Form;
ghost use Rattle.types.specs.Runs.{plan_in};
ghost use Rattle.words.specs.Events.{event_of};
ghost use Rattle.fever.specs.Clauses.{lent_of, OpensWords, AppliesWords, AppliesEvents, move_of, StepsWords, ReadsWords, WritesEvent, WritesSetup};
ghost use Rattle.fever.specs.Loads.{GeneratesWords, GeneratesMore};
ghost use Rattle.fever.specs.Traffic.{ReportsTraffic};
ghost use Rattle.fever.specs.Carrying.{CarriesWords};

// A setup is opened.
#[unsafe(no_mangle)]
pub extern "C" fn fever_open(
    setup: &[u64],
    run: &mut [u64],
    tally: &mut [u64],
    network: &mut [u64],
) -> u64
    ensures { OpensWords setup.now (lent_of run.old tally.old network.old) result
        (lent_of run.new tally.new network.new) }
{
    fever::fever_open(setup, run, tally, network)
}

// An event is applied.
#[unsafe(no_mangle)]
pub extern "C" fn fever_apply(
    run: &mut [u64],
    form: u64,
    kind: u64,
    view: u64,
    processor: u64,
    tally: &mut [u64],
    network: &mut [u64],
) -> u64
    ensures { AppliesWords form kind view processor (lent_of run.old tally.old network.old) result
        (lent_of run.new tally.new network.new) }
{
    fever::fever_apply(run, form, kind, view, processor, tally, network)
}

// Events are applied one after the other, and each one's words become its answer.
#[unsafe(no_mangle)]
pub extern "C" fn fever_apply_all(
    run: &mut [u64],
    tally: &mut [u64],
    network: &mut [u64],
    events: &mut [u64],
) -> u64
    ensures { AppliesEvents events.old (lent_of run.old tally.old network.old) result
        (lent_of run.new tally.new network.new) events.new }
{
    fever::fever_apply_all(run, tally, network, events)
}

// One processor takes an input.
#[unsafe(no_mangle)]
pub extern "C" fn fever_step(
    n: u64,
    delta: u64,
    gamma: u64,
    views: u64,
    k: u64,
    processor: &mut [u64],
    input: u64,
    view: u64,
) -> u64
    ensures { StepsWords (move_of (plan_in (n ∷ delta ∷ gamma ∷ views ∷ k ∷ [])) input view processor.old) processor.old result processor.new }
{
    fever::fever_step(n, delta, gamma, views, k, processor, input, view)
}

// A line, without its newline, is read.
#[unsafe(no_mangle)]
pub extern "C" fn fever_read_line(line: &[u8], words: &mut [u64]) -> u64
    ensures { ReadsWords line.now words.old result words.new }
{
    fever::fever_read_line(line, words)
}

// The line of an event is written.
#[unsafe(no_mangle)]
pub extern "C" fn fever_write_event(
    form: u64,
    kind: u64,
    view: u64,
    processor: u64,
    out: &mut [u8],
) -> u64
    ensures { WritesEvent (event_of form kind view processor) out.old result out.new }
{
    fever::fever_write_event(form, kind, view, processor, out)
}

// The line of a setup is written.
#[unsafe(no_mangle)]
pub extern "C" fn fever_write_setup(setup: &[u64], out: &mut [u8]) -> u64
    ensures { WritesSetup setup.now out.old result out.new }
{
    fever::fever_write_setup(setup, out)
}

// A load is made, from its opening on.
#[unsafe(no_mangle)]
pub extern "C" fn fever_generate(
    setup: &[u64],
    run: &mut [u64],
    tally: &mut [u64],
    network: &mut [u64],
    load: &mut [u64],
    out: &mut [u8],
) -> u64
    ensures { GeneratesWords setup.now (lent_of run.old tally.old network.old) load.old out.old result
        (lent_of run.new tally.new network.new) load.new out.new }
{
    fever::fever_generate(setup, run, tally, network, load, out)
}

// A load goes on where it stands.
#[unsafe(no_mangle)]
pub extern "C" fn fever_generate_more(
    run: &mut [u64],
    tally: &mut [u64],
    network: &mut [u64],
    load: &mut [u64],
    out: &mut [u8],
) -> u64
    ensures { GeneratesMore (lent_of run.old tally.old network.old) load.old out.old result
        (lent_of run.new tally.new network.new) load.new out.new }
{
    fever::fever_generate_more(run, tally, network, load, out)
}

// A run's traffic is told.
#[unsafe(no_mangle)]
pub extern "C" fn fever_traffic(
    run: &[u64],
    tally: &[u64],
    network: &[u64],
    report: &mut [u64],
) -> u64
    ensures { ReportsTraffic (lent_of run.now tally.now network.now) report.old result report.new }
{
    fever::fever_traffic(run, tally, network, report)
}

// A run held in four words a message is carried over to two.
#[unsafe(no_mangle)]
pub extern "C" fn fever_pack(run: &[u64], tally: &[u64], network: &[u64], target: &mut [u64]) -> u64
    ensures { CarriesWords Form.Wide Form.Packed (lent_of run.now tally.now network.now) target.old result
        target.new }
{
    fever::fever_pack(run, tally, network, target)
}

// And back.
#[unsafe(no_mangle)]
pub extern "C" fn fever_unpack(
    run: &[u64],
    tally: &[u64],
    network: &[u64],
    target: &mut [u64],
) -> u64
    ensures { CarriesWords Form.Packed Form.Wide (lent_of run.now tally.now network.now) target.old result
        target.new }
{
    fever::fever_unpack(run, tally, network, target)
}
