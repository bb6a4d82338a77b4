// Writing one line of a schedule or of its printout into lent bytes: a form and a newline. And a report of the traffic, which has several.
#![tactic(auto)]

mod answers;
mod events;
mod numbers;
pub mod pieces;
mod setups;
mod totals;

ghost use Rattle.std.specs.Prelude.{◌≡◌, ◌<◌, ◌≤◌, false, length};
ghost use Rattle.types.specs.Quantities.{n_most};
ghost use Rattle.types.specs.Messages.{lacks_form};
ghost use Rattle.lines.specs.Forms.{clocks_form, opening_form, set_form, event_form, setup_form, lacks_setup_form};
ghost use Rattle.lines.specs.Printout.{answer_form, processor_form, totals_text, totals_most};
ghost use Rattle.lines.specs.Clauses.{line, Writes, Prints};

use answers::write_numbers;
use types::{Answer, Event, Plan, Setup, Totals};

// The most bytes of a report.
pub const TOTALS_MOST: usize = 468;

// The line of an event.
pub fn write_event(event: Event, out: &mut [u8]) -> Result<usize, u64>
    ensures { Writes (lacks_form event) (event_form event) out.old result out.new }
{
    if event.lacks_form() {
        return Err(1);
    }
    let length = events::event_length(event) + 1;
    if out.len() < length {
        return Err(1);
    }
    let end = events::put_event(out, event);
    pieces::put_byte(out, end, b'\n');
    Ok(length)
}

// The bytes of an event's line, whether it has a form or not. `event_length` is not asked, so that it has one caller and is compiled into it: each
// call of a function with two would copy the event.
pub fn event_bytes(event: Event) -> usize
    ensures { result ≡ length (line (event_form event)) }
{
    match event {
        Event::Deliver(m) => 11 + events::message_length(m),
        Event::Sign(m) => 8 + events::message_length(m),
        Event::Show(m) => 8 + events::message_length(m),
        Event::Settle => 9,
        Event::Tick(m) => 8 + pieces::width(m),
    }
}

// The line of an opening, in its parts.
fn write_opening(
    word: &[u8],
    numbers: &[u64],
    faulty: u64,
    clocks: &[u64],
    out: &mut [u8],
) -> Result<usize, u64>
    requires { (length word.now ≤ n_most) × (length numbers.now ≤ n_most) × (0 < length clocks.now) × (length clocks.now ≤ n_most) }
    ensures { Writes false (opening_form word.now numbers.now (set_form faulty) (clocks_form clocks.now)) out.old result out.new }
{
    let bytes = setups::opening_length(word, numbers, faulty, clocks) + 1;
    if out.len() < bytes {
        return Err(1);
    }
    let end = setups::put_opening(out, word, numbers, faulty, clocks);
    pieces::put_byte(out, end, b'\n');
    Ok(bytes)
}

// The line of a setup.
pub fn write_setup(setup: Setup, out: &mut [u8]) -> Result<usize, u64>
    ensures { Writes (lacks_setup_form setup) (setup_form setup) out.old result out.new }
{
    let plan = setup.plan;
    if plan.n == 0 || Plan::N_MOST < plan.n {
        return Err(1);
    }
    let numbers = [plan.n, plan.delta, plan.gamma, plan.views, plan.k];
    let clocks = &setup.clocks[..plan.n as usize];
    write_opening(b"open", &numbers, setup.faulty, clocks, out)
}

// The line of an answer.
#[tactic(auto, unfolding(lines::specs::Printout::answer_form))]
pub fn write_answer(answer: Answer, out: &mut [u8]) -> Result<usize, u64>
    ensures { Writes false (answer_form answer) out.old result out.new }
{
    match answer {
        Answer::Done(ticks, held) => write_numbers(b"done", &[ticks, held as u64], out),
        Answer::Stopped(ticks, held, check) => {
            write_numbers(b"stopped", &[ticks, held as u64, check], out)
        }
        Answer::Refused(check) => write_numbers(b"refused", &[check], out),
    }
}

// The line at the end of a printout for one processor.
pub fn write_processor(number: u64, view: u64, clock: u64, out: &mut [u8]) -> Result<usize, u64>
    ensures { Writes false (processor_form number view clock) out.old result out.new }
{
    write_numbers(b"cabinet", &[number, view, clock], out)
}

// The report of a run's traffic, or the line of the check that refuses it.
pub fn write_totals(totals: Result<Totals, u64>, out: &mut [u8]) -> Result<usize, u64>
    ensures { Prints totals_most (totals_text totals) out.old result out.new }
{
    if out.len() < TOTALS_MOST {
        return Err(1);
    }
    match totals {
        Ok(told) => Ok(totals::put_traffic(out, told.traffic, told.held)),
        Err(check) => write_answer(Answer::Refused(check), out),
    }
}
