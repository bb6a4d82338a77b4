// One event, and one processor's input, on lent words.
ghost use Rattle.std.specs.Prelude.{◌≡◌, ℕ, ◌≤◌, length, get_or};
ghost use Rattle.model.specs.Processors.{messages_of, stepped};
ghost use Rattle.model.specs.Events.{applied};
ghost use Rattle.words.specs.Events.{event_as};
ghost use Rattle.fever.specs.Layout.{run_length, settled_word, record_length, record_in};
ghost use Rattle.fever.specs.Clauses.{lent_of, lent_state, called, told, move_of, StepsWords};

use crate::layout;
use types::{Input, Plan, Processor, Sends};
use words::Numbers;

const RECORD_WORDS: usize = 4;

// The event of four numbers is applied to a run that has all of its words and a settled word. Answers its check; its run is written if it was accepted.
pub(crate) fn apply_event(
    run: &mut [u64],
    numbers: Numbers,
    tally: &mut [u64],
    network: &mut [u64],
) -> u64
    requires { (run_length ≤ length run.old) × (get_or run.old settled_word 0 ≤ 1) }
    ensures { called result (lent_of run.new tally.new network.new) ≡
        told run.old (applied (event_as numbers) (lent_state (lent_of run.old tally.old network.old))) }
{
    let mut own = layout::run_in(run);
    let mut event = [numbers.form, numbers.kind, numbers.view, numbers.processor];
    simulator::apply_events(&mut own, tally, network, &mut event);
    let check = event[1];
    if 0 < check && event[2] == 0 {
        return check;
    }
    layout::put_run(run, &own);
    check
}

// How many messages a processor sends.
fn count_sent(sends: Sends) -> u64
    ensures { (p : ℕ) → result ≡ length (messages_of p sends) }
{
    match sends {
        Sends::Nothing => 0,
        Sends::Vote(_) => 1,
        Sends::ViewAndVote(_) => 2,
    }
}

// One processor's record.
fn record_in(words: &[u64]) -> Processor
    requires { record_length ≤ length words.now }
    ensures { result ≡ record_in words.now }
{
    Processor {
        number: words[0],
        clock: words[1],
        view: words[2],
    }
}

// The record takes an input: the pacemaker alters it where it stands.
fn take_input(plan: Plan, words: &mut [u64], input: Input) -> u64
    requires { record_length ≤ length words.old }
    ensures { StepsWords (stepped plan (record_in words.old) input) words.old result words.new }
{
    let mut own = record_in(words);
    match pacemaker::step_in_place(plan, &mut own, input) {
        Ok(sends) => {
            let values = [own.number, own.clock, own.view, count_sent(sends)];
            layout::put_slice(words, 0, &values);
            0
        }
        Err(check) => check,
    }
}

// The same with the input in numbers.
pub(crate) fn step_record(plan: Plan, words: &mut [u64], input: u64, view: u64) -> u64
    ensures { StepsWords (move_of plan input view words.old) words.old result words.new }
{
    if words.len() < RECORD_WORDS {
        return 1;
    }
    match input {
        0 => take_input(plan, words, Input::Tick),
        3 => take_input(plan, words, Input::Vc(view)),
        4 => take_input(plan, words, Input::Qc(view)),
        _ => 1,
    }
}
