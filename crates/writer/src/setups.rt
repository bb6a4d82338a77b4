// The form of an opening, in its parts: how many bytes it has, and its bytes written. The clocks that are lent are those of the line, one of each processor.
ghost use Rattle.std.specs.Prelude.{◌≡◌, ◌*◌, ◌<◌, ◌≤◌, length};
ghost use Rattle.types.specs.Quantities.{n_most};
ghost use Rattle.lines.specs.Forms.{set_form, clocks_form, opening_form};
ghost use Rattle.lines.specs.Splitting.{line_most};
ghost use Rattle.writer.specs.Setups.{front_form};
ghost use Rattle.writer.specs.Stamps.{Room, Stamped};

use crate::{numbers, pieces};

// The bytes of the set.
fn set_length(faulty: u64) -> usize
    ensures { (result ≡ length (set_form faulty)) × (result ≤ 21) }
{
    1 + pieces::width(faulty)
}

// The set.
fn put_set(out: &mut [u8], at: usize, faulty: u64) -> usize
    requires { Room out.old at (set_form faulty) }
    ensures { Stamped out.old at (set_form faulty) result out.new }
{
    pieces::put_spaced(out, at, faulty)
}

// The bytes of what stands before the numbers of the table: beside word, numbers and set there are 3, a bracket and " (".
fn front_length(word: &[u8], numbers: &[u64], faulty: u64) -> usize
    requires { (length word.now ≤ n_most) × (length numbers.now ≤ n_most) }
    ensures { (result ≡ length (front_form word.now numbers.now (set_form faulty))) × (result ≤ 23 * n_most) }
{
    3 + word.len() + numbers::numbers_length(numbers) + set_length(faulty)
}

// What stands before the numbers of the table.
fn put_front(out: &mut [u8], word: &[u8], numbers: &[u64], faulty: u64) -> usize
    requires { Room out.old 0 (front_form word.now numbers.now (set_form faulty)) }
    ensures { Stamped out.old 0 (front_form word.now numbers.now (set_form faulty)) result out.new }
{
    let inner = pieces::put_byte(out, 0, b'(');
    let first = pieces::put_slice(out, inner, word);
    let set = numbers::put_numbers(out, first, numbers);
    let table = put_set(out, set, faulty);
    pieces::put_slice(out, table, b" (")
}

// Clocks with a blank between them.
fn put_clocks(out: &mut [u8], at: usize, clocks: &[u64]) -> usize
    requires { (0 < length clocks.now) × Room out.old at (clocks_form clocks.now) }
    ensures { Stamped out.old at (clocks_form clocks.now) result out.new }
{
    let end = pieces::put_number(out, at, clocks[0]);
    numbers::put_numbers(out, end, &clocks[1..])
}

// The bytes of an opening's form: the clocks have a blank before each but the first, and two brackets stand at the end.
pub(crate) fn opening_length(word: &[u8], numbers: &[u64], faulty: u64, clocks: &[u64]) -> usize
    requires { (length word.now ≤ n_most) × (length numbers.now ≤ n_most) × (0 < length clocks.now) × (length clocks.now ≤ n_most) }
    ensures { (result ≡ length (opening_form word.now numbers.now (set_form faulty) (clocks_form clocks.now))) × (result ≤ line_most) }
{
    front_length(word, numbers, faulty) + numbers::numbers_length(clocks) + 1
}

// An opening's form, from the first byte on.
pub(crate) fn put_opening(
    out: &mut [u8],
    word: &[u8],
    numbers: &[u64],
    faulty: u64,
    clocks: &[u64],
) -> usize
    requires { (0 < length clocks.now) × Room out.old 0 (opening_form word.now numbers.now (set_form faulty) (clocks_form clocks.now)) }
    ensures { Stamped out.old 0 (opening_form word.now numbers.now (set_form faulty) (clocks_form clocks.now)) result out.new }
{
    let first = put_front(out, word, numbers, faulty);
    let end = put_clocks(out, first, clocks);
    pieces::put_slice(out, end, b"))")
}
