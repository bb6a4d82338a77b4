// Setups, runs and what was read, from words and into words.
ghost use Rattle.std.specs.Prelude.{◌≡◌, ◌+◌, ◌≤◌, length, MatchOption};
ghost use Rattle.types.specs.Quantities.{table_clocks};
ghost use Rattle.types.specs.Runs.{plan_in};
ghost use Rattle.types.specs.Traffic.{count_numbers};
ghost use Rattle.model.specs.State.{check_of};
ghost use Rattle.lines.specs.Clauses.{event_reading, read_check};
ghost use Rattle.reader.specs.Lines.{opening_or};
ghost use Rattle.writer.specs.Stamps.{Room, Stamped};
ghost use Rattle.fever.specs.Layout.{table_in, counts_at, setup_length, setup_in, run_length, run_in, run_over, OfRun, OfNoRun, reading_length};
ghost use Rattle.fever.specs.Clauses.{run_left, reading_left};

use types::{Answer, Counts, Event, Plan, Run, Setup, Traffic};
use words::Numbers;
use writer::pieces::put_items;

pub(crate) const SETUP_WORDS: usize = 70;

pub(crate) const RUN_WORDS: usize = 147;

pub(crate) const READING_WORDS: usize = 74;

// Which word of a run or a setup holds what, from the plan's five on.
const FAULTY: usize = 5;

const START_CLOCKS: usize = 6;

const TIME: usize = 6;

pub(crate) const SETTLED: usize = 7;

const GST: usize = 8;

const HELD: usize = 9;

const CLOCKS: usize = 10;

const VIEWS: usize = 74;

const SENT: usize = 138;

const DELIVERED: usize = 142;

const WAITS: usize = 146;

// The clocks of a table.
const TABLE: usize = 64;

// What stands for an opening where a line was read.
const OPENING: u64 = 6;

// The 64 words from a place on.
fn table_in(words: &[u64], at: usize) -> [u64; 64]
    requires { at + table_clocks ≤ length words.now }
    ensures { result ≡ table_in at words.now }
{
    let mut table = [0; TABLE];
    table.copy_from_slice(&words[at..at + TABLE]);
    table
}

// The check that refuses the words of a run whatever else is lent: 1 where they are too few, 9 where the settled word is of no run.
pub(crate) fn run_check(words: &[u64]) -> Option<u64>
    ensures { MatchOption result (OfRun words.now) (OfNoRun words.now) }
{
    if words.len() < RUN_WORDS {
        Some(1)
    } else if 1 < words[SETTLED] {
        Some(9)
    } else {
        None
    }
}

// The plan of a run or a setup.
fn plan_in(words: &[u64]) -> Plan
    requires { 5 ≤ length words.now }
    ensures { result ≡ plan_in words.now }
{
    Plan {
        n: words[0],
        delta: words[1],
        gamma: words[2],
        views: words[3],
        k: words[4],
    }
}

// The setup in the first 70 words.
pub(crate) fn setup_in(words: &[u64]) -> Setup
    requires { setup_length ≤ length words.now }
    ensures { result ≡ setup_in words.now }
{
    Setup {
        plan: plan_in(words),
        faulty: words[FAULTY],
        clocks: table_in(words, START_CLOCKS),
    }
}

// Four words from a place on, by kind.
fn counts_in(words: &[u64], at: usize) -> Counts
    requires { at + 4 ≤ length words.now }
    ensures { result ≡ counts_at at words.now }
{
    Counts {
        views: words[at],
        votes: words[at + 1],
        vcs: words[at + 2],
        qcs: words[at + 3],
    }
}

// The run in the first 147 words.
pub(crate) fn run_in(words: &[u64]) -> Run
    requires { run_length ≤ length words.now }
    ensures { result ≡ run_in words.now }
{
    Run {
        plan: plan_in(words),
        faulty: words[FAULTY],
        time: words[TIME],
        settled: words[SETTLED] == 1,
        gst: words[GST],
        held: words[HELD] as usize,
        clocks: table_in(words, CLOCKS),
        views: table_in(words, VIEWS),
        traffic: Traffic {
            sent: counts_in(words, SENT),
            delivered: counts_in(words, DELIVERED),
            waits: words[WAITS],
        },
    }
}

// Values from a place on, which have room there. Answers the place behind them.
pub(crate) fn put_slice(out: &mut [u64], at: usize, items: &[u64]) -> usize
    requires { Room out.old at items.now }
    ensures { Stamped out.old at items.now result out.new }
{
    put_items(out, at, items)
}

// Four counts, by kind, from a place on. Answers the place behind them.
pub(crate) fn put_counts(words: &mut [u64], at: usize, counts: Counts) -> usize
    requires { Room words.old at (count_numbers counts) }
    ensures { Stamped words.old at (count_numbers counts) result words.new }
{
    let numbers = [counts.views, counts.votes, counts.vcs, counts.qcs];
    put_slice(words, at, &numbers)
}

// The first 147 words become those of the run.
pub(crate) fn put_run(words: &mut [u64], run: &Run)
    requires { run_length ≤ length words.old }
    ensures { words.new ≡ run_over words.old run.now }
{
    let numbers = [
        run.plan.n,
        run.plan.delta,
        run.plan.gamma,
        run.plan.views,
        run.plan.k,
        run.faulty,
        run.time,
        types::settled_as(run.settled),
        run.gst,
        run.held as u64,
    ];
    // The tables apart from any words: so they are copied without the question whether the words overlap them.
    let clocks = run.clocks;
    let views = run.views;
    let first = put_slice(words, 0, &numbers);
    let second = put_slice(words, first, &clocks);
    let sent = put_slice(words, second, &views);
    let delivered = put_counts(words, sent, run.traffic.sent);
    let waits = put_counts(words, delivered, run.traffic.delivered);
    put_slice(words, waits, &[run.traffic.waits]);
}

// What a call left of the run, if it was accepted. Answers the check that refused it or ended its ticks, or 0.
pub(crate) fn put_outcome(words: &mut [u64], answer: Answer, run: &Run) -> u64
    requires { run_length ≤ length words.old }
    ensures { (result ≡ check_of answer) × (words.new ≡ run_left words.old answer run.now) }
{
    match answer {
        Answer::Done(_, _) => {
            put_run(words, run);
            0
        }
        Answer::Stopped(_, _, check) => {
            put_run(words, run);
            check
        }
        Answer::Refused(check) => check,
    }
}

// The first 74 words become those of the line of an event.
pub(crate) fn put_event(words: &mut [u64], event: Event) -> u64
    requires { reading_length ≤ length words.old }
    ensures { (result ≡ 0) × (words.new ≡ reading_left words.old (event_reading event)) }
{
    let Numbers {
        form,
        kind,
        view,
        processor,
    } = words::numbers_of(event);
    let next = put_slice(words, 0, &[form, kind, view, processor]);
    words[next..READING_WORDS].fill(0);
    0
}

// The first 74 words become those of the line of a setup; where it has no processors, the line was none of the forms. Answers the check, or 0.
pub(crate) fn put_setup(words: &mut [u64], setup: Setup) -> u64
    requires { reading_length ≤ length words.old }
    ensures { (result ≡ read_check (opening_or setup).read) × (words.new ≡ reading_left words.old (opening_or setup)) }
{
    if setup.plan.n == 0 {
        return 1;
    }
    let heading = [
        OPENING,
        0,
        0,
        0,
        setup.plan.n,
        setup.plan.delta,
        setup.plan.gamma,
        setup.plan.views,
        setup.plan.k,
        setup.faulty,
    ];
    let next = put_slice(words, 0, &heading);
    put_slice(words, next, &setup.clocks);
    0
}
