// Numbers, each behind a blank: how many bytes they have, and their bytes written.
ghost use Rattle.std.specs.Prelude.{◌≡◌, ◌*◌, ◌≤◌, length};
ghost use Rattle.types.specs.Quantities.{n_most};
ghost use Rattle.lines.specs.Forms.{joined, spaced};
ghost use Rattle.writer.specs.Stamps.{Room, Stamped};

use crate::pieces;

// The bytes of numbers with a blank before each.
pub(crate) fn numbers_length(numbers: &[u64]) -> usize
    requires { length numbers.now ≤ n_most }
    ensures { (result ≡ length (joined (spaced numbers.now))) × (result ≤ 21 * n_most) }
{
    let mut bytes = 0;
    for n in numbers {
        bytes += 1 + pieces::width(*n);
    }
    bytes
}

// Numbers with a blank before each.
pub(crate) fn put_numbers(out: &mut [u8], at: usize, numbers: &[u64]) -> usize
    requires { Room out.old at (joined (spaced numbers.now)) }
    ensures { Stamped out.old at (joined (spaced numbers.now)) result out.new }
{
    let mut end = at;
    for n in numbers {
        end = pieces::put_spaced(out, end, *n);
    }
    end
}
