// Answers and the closing lines, printed into lent bytes that have room for them. Each function answers how many bytes it printed.
ghost use Rattle.std.specs.Prelude.{cond, ◌||◌, [], ◌*◌, ◌≤◌, length, ltb};
ghost use Rattle.types.specs.Quantities.{table_clocks, correct};
ghost use Rattle.lines.specs.Clauses.{line, Put};
ghost use Rattle.lines.specs.Printout.{answer_form, processor_form, printed_most};
ghost use Rattle.printout.specs.Printout.{processor_lines, closing};

use printout::Session;
use types::{Answer, Plan, Run};

// An answer.
pub(crate) fn print_answer(answer: Answer, out: &mut [u8]) -> usize
    requires { printed_most ≤ length out.old }
    ensures { Put (line (answer_form answer)) out.old result out.new }
{
    match writer::write_answer(answer, out) {
        Ok(k) => k,
        Err(_) => 0,
    }
}

// The line of a processor, if it is correct.
fn print_processor(plan: Plan, faulty: u64, p: u64, view: u64, clock: u64, out: &mut [u8]) -> usize
    requires { printed_most ≤ length out.old }
    ensures { Put (cond (correct plan faulty p) (line (processor_form p view clock)) []) out.old result out.new }
{
    if !plan.correct(faulty, p) {
        return 0;
    }
    match writer::write_processor(p, view, clock, out) {
        Ok(k) => k,
        Err(_) => 0,
    }
}

// The lines of all correct processors.
fn print_processors(run: &Run, out: &mut [u8]) -> usize
    requires { table_clocks * printed_most ≤ length out.old }
    ensures { Put (processor_lines run.now table_clocks) out.old result out.new }
{
    let mut at = 0;
    for p in 0..64 {
        at += print_processor(
            run.plan,
            run.faulty,
            p as u64,
            run.views[p],
            run.clocks[p],
            &mut out[at..],
        );
    }
    at
}

// What comes at the end.
#[tactic(auto, unfolding(printout::specs::Printout::closing))]
pub(crate) fn print_closing(session: &Session, out: &mut [u8]) -> usize
    requires { table_clocks * printed_most ≤ length out.old }
    ensures { Put (closing session.now) out.old result out.new }
{
    if session.opened {
        print_processors(&session.run, out)
    } else {
        0
    }
}

// A line that is left: bytes behind the last newline, `rest` of them at hand.
pub(crate) fn print_left(late: bool, rest: usize, out: &mut [u8]) -> usize
    requires { printed_most ≤ length out.old }
    ensures { Put (cond (late || ltb 0 rest) (line (answer_form (Answer.Refused 1))) []) out.old result out.new }
{
    if late || 0 < rest {
        print_answer(Answer::Refused(1), out)
    } else {
        0
    }
}
