// The pieces of a line, written into lent bytes that have room for them: a byte, a word, a number. Each answers the place behind what it wrote.
ghost use Rattle.std.specs.Prelude.{◌≡◌, ◌+◌, ◌<◌, ◌≤◌, [], ◌∷◌, ◌++◌, length};
ghost use Rattle.lines.specs.Decimal.{decimal};
ghost use Rattle.lines.specs.Forms.{one_blank};
ghost use Rattle.writer.specs.Stamps.{Room, Stamped};

// One byte.
pub(crate) fn put_byte(out: &mut [u8], at: usize, byte: u8) -> usize
    requires { Room out.old at (byte ∷ []) }
    ensures { Stamped out.old at (byte ∷ []) result out.new }
{
    out[at] = byte;
    at + 1
}

// Items in a row: the bytes of a word, or words of lent memory.
pub(crate) fn put_slice<T: Copy>(out: &mut [T], at: usize, items: &[T]) -> usize
    requires { Room out.old at items.now }
    ensures { Stamped out.old at items.now result out.new }
{
    let end = at + items.len();
    out[at..end].copy_from_slice(items);
    end
}

// The same at any place: where there is no room for all of them nothing is written, and the place named is answered.
pub fn put_items<T: Copy>(out: &mut [T], at: usize, items: &[T]) -> usize
    ensures written { Room out.old at items.now → Stamped out.old at items.now result out.new }
    ensures kept { length out.old < at + length items.now → (result ≡ at) × (out.new ≡ out.old) }
{
    if at <= out.len() && items.len() <= out.len() - at {
        put_slice(out, at, items)
    } else {
        at
    }
}

// How many digits a number has. The library's `ilog10` takes 11 instructions for any number; this takes 5 for one digit, which most numbers of an answer
// have, 14 for two and 7 more for each further one.
pub(crate) fn width(n: u64) -> usize
    ensures { (result ≡ length (decimal n)) × (result ≤ 20) }
{
    let mut digits = 1;
    let mut rest = n;
    while 10 <= rest {
        rest /= 10;
        digits += 1;
    }
    digits
}

// The digits of a number, from the last to the first.
pub(crate) fn put_number(out: &mut [u8], at: usize, n: u64) -> usize
    requires { Room out.old at (decimal n) }
    ensures { Stamped out.old at (decimal n) result out.new }
{
    let end = at + width(n);
    let mut rest = n;
    for i in (at..end).rev() {
        out[i] = b'0' + (rest % 10) as u8;
        rest /= 10;
    }
    end
}

// A blank and then a number.
pub(crate) fn put_spaced(out: &mut [u8], at: usize, n: u64) -> usize
    requires { Room out.old at (one_blank ++ decimal n) }
    ensures { Stamped out.old at (one_blank ++ decimal n) result out.new }
{
    let digits = put_byte(out, at, b' ');
    put_number(out, digits, n)
}
