// The library for C and Rust: the simulator, one processor's pacemaker, lines, loads out of a seed number, reports of a run's traffic and runs carried
// over to a network of another form, over numbers and lent words and bytes. Every function takes every argument; a refused call has changed nothing that was lent.
// In every module what is answered is a number, a check or 0, and what is lent are words, as C has them. A run is taken out of its words once a call,
// lent whole to what alters or reads it, and written back where it was altered.
#![tactic(auto)]

mod generating;
mod layout;
mod reporting;
mod steps;

ghost use Rattle.std.specs.Prelude.{[], ◌∷◌};
ghost use Rattle.types.specs.Runs.{plan_in};
ghost use Rattle.words.specs.Events.{event_of};
ghost use Rattle.fever.specs.Clauses.{lent_of, OpensWords, AppliesWords, AppliesEvents, move_of, StepsWords, ReadsWords, StandsFor, WritesEvent, WritesSetup};
ghost use Rattle.fever.specs.Loads.{GeneratesWords, GeneratesMore};
ghost use Rattle.fever.specs.Traffic.{ReportsTraffic};
ghost use Rattle.fever.specs.Carrying.{CarriesWords};

use lines::Read;
use types::{Form, Plan};
use words::Numbers;

// A setup is opened.
pub fn fever_open(setup: &[u64], run: &mut [u64], tally: &mut [u64], network: &mut [u64]) -> u64
    ensures { OpensWords setup.now (lent_of run.old tally.old network.old) result
        (lent_of run.new tally.new network.new) }
{
    if setup.len() < layout::SETUP_WORDS || run.len() < layout::RUN_WORDS {
        return 1;
    }
    let start = layout::setup_in(setup);
    let mut own = layout::run_in(run);
    let answer = simulator::open_in_place(&mut own, start, tally, network);
    layout::put_outcome(run, answer, &own)
}

// An event is applied.
pub fn fever_apply(
    run: &mut [u64],
    form: u64,
    kind: u64,
    view: u64,
    processor: u64,
    tally: &mut [u64],
    network: &mut [u64],
) -> u64
    ensures { AppliesWords form kind view processor (lent_of run.old tally.old network.old) result
        (lent_of run.new tally.new network.new) }
{
    if words::event_of(form, kind, view, processor).lacks_form() {
        return 1;
    }
    if let Some(check) = layout::run_check(run) {
        return check;
    }
    let numbers = Numbers {
        form,
        kind,
        view,
        processor,
    };
    steps::apply_event(run, numbers, tally, network)
}

// Events are applied one after the other, and each one's words become its answer.
pub fn fever_apply_all(
    run: &mut [u64],
    tally: &mut [u64],
    network: &mut [u64],
    events: &mut [u64],
) -> u64
    ensures { AppliesEvents events.old (lent_of run.old tally.old network.old) result
        (lent_of run.new tally.new network.new) events.new }
{
    if let Some(check) = layout::run_check(run) {
        return check;
    }
    let mut own = layout::run_in(run);
    simulator::apply_events(&mut own, tally, network, events);
    layout::put_run(run, &own);
    0
}

// One processor takes an input.
pub fn fever_step(
    n: u64,
    delta: u64,
    gamma: u64,
    views: u64,
    k: u64,
    processor: &mut [u64],
    input: u64,
    view: u64,
) -> u64
    ensures { StepsWords (move_of (plan_in (n ∷ delta ∷ gamma ∷ views ∷ k ∷ [])) input view processor.old) processor.old result processor.new }
{
    let plan = Plan {
        n,
        delta,
        gamma,
        views,
        k,
    };
    steps::step_record(plan, processor, input, view)
}

// A line, without its newline, is read.
pub fn fever_read_line(line: &[u8], words: &mut [u64]) -> u64
    ensures { ReadsWords line.now words.old result words.new }
{
    if words.len() < layout::READING_WORDS {
        return 1;
    }
    match reader::skim_line(line) {
        Read::Event(event) => layout::put_event(words, event),
        Read::Opening => layout::put_setup(words, reader::read_setup(line)),
        Read::NoForm => 1,
    }
}

// How many bytes a writer says it wrote; 0 for none.
fn count_bytes(written: Result<usize, u64>) -> u64
    ensures { StandsFor result written }
{
    match written {
        Ok(k) => k as u64,
        Err(_) => 0,
    }
}

// The line of an event is written.
pub fn fever_write_event(form: u64, kind: u64, view: u64, processor: u64, out: &mut [u8]) -> u64
    ensures { WritesEvent (event_of form kind view processor) out.old result out.new }
{
    let event = words::event_of(form, kind, view, processor);
    count_bytes(writer::write_event(event, out))
}

// The line of a setup is written.
pub fn fever_write_setup(setup: &[u64], out: &mut [u8]) -> u64
    ensures { WritesSetup setup.now out.old result out.new }
{
    if setup.len() < layout::SETUP_WORDS {
        0
    } else {
        count_bytes(writer::write_setup(layout::setup_in(setup), out))
    }
}

// A load is made, from its opening on.
pub fn fever_generate(
    setup: &[u64],
    run: &mut [u64],
    tally: &mut [u64],
    network: &mut [u64],
    load: &mut [u64],
    out: &mut [u8],
) -> u64
    ensures { GeneratesWords setup.now (lent_of run.old tally.old network.old) load.old out.old result
        (lent_of run.new tally.new network.new) load.new out.new }
{
    if setup.len() < layout::SETUP_WORDS
        || run.len() < layout::RUN_WORDS
        || load.len() < generating::LOAD_WORDS
    {
        return 1;
    }
    let made = workload::generate(
        layout::run_in(run),
        layout::setup_in(setup),
        load[generating::STEPS],
        load[generating::SETTLE],
        load[generating::SEED],
        tally,
        network,
        out,
    );
    generating::put_load(run, load, made)
}

// A load goes on where it stands.
pub fn fever_generate_more(
    run: &mut [u64],
    tally: &mut [u64],
    network: &mut [u64],
    load: &mut [u64],
    out: &mut [u8],
) -> u64
    ensures { GeneratesMore (lent_of run.old tally.old network.old) load.old out.old result
        (lent_of run.new tally.new network.new) load.new out.new }
{
    if load.len() < generating::LOAD_WORDS {
        return 1;
    }
    if let Some(check) = layout::run_check(run) {
        return check;
    }
    let made = workload::generate_more(
        layout::run_in(run),
        load[generating::SEED],
        load[generating::STEP],
        load[generating::STEPS],
        load[generating::SETTLE],
        tally,
        network,
        out,
    );
    generating::put_load(run, load, made)
}

// A run's traffic is told.
pub fn fever_traffic(run: &[u64], tally: &[u64], network: &[u64], report: &mut [u64]) -> u64
    ensures { ReportsTraffic (lent_of run.now tally.now network.now) report.old result report.new }
{
    if report.len() < reporting::REPORT_WORDS {
        return 1;
    }
    if let Some(check) = layout::run_check(run) {
        return check;
    }
    let totals = sums::totals(&layout::run_in(run), tally, network);
    reporting::put_report(report, totals)
}

// A run is carried over from a network of one form to one of another.
fn carry_words(
    from: Form,
    to: Form,
    run: &[u64],
    tally: &[u64],
    network: &[u64],
    target: &mut [u64],
) -> u64
    ensures { CarriesWords from to (lent_of run.now tally.now network.now) target.old result target.new }
{
    if run.len() < layout::RUN_WORDS {
        return 1;
    }
    let own = layout::run_in(run);
    if 1 < run[layout::SETTLED] {
        return if carrying::target_outside(to, &own, target) {
            6
        } else {
            9
        };
    }
    match carrying::carry(from, to, &own, tally, network, target) {
        Ok(()) => 0,
        Err(check) => check,
    }
}

// A run held in four words a message is carried over to two. C has a name for each direction.
pub fn fever_pack(run: &[u64], tally: &[u64], network: &[u64], target: &mut [u64]) -> u64
    ensures { CarriesWords Form.Wide Form.Packed (lent_of run.now tally.now network.now) target.old result
        target.new }
{
    carry_words(Form::Wide, Form::Packed, run, tally, network, target)
}

// And back.
pub fn fever_unpack(run: &[u64], tally: &[u64], network: &[u64], target: &mut [u64]) -> u64
    ensures { CarriesWords Form.Packed Form.Wide (lent_of run.now tally.now network.now) target.old result
        target.new }
{
    carry_words(Form::Packed, Form::Wide, run, tally, network, target)
}
