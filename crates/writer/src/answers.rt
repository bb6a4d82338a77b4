// The printed lines: a word and numbers behind it, in brackets.
ghost use Rattle.std.specs.Prelude.{◌≤◌, false, length};
ghost use Rattle.types.specs.Quantities.{n_most};
ghost use Rattle.lines.specs.Forms.{numbers_form};
ghost use Rattle.lines.specs.Splitting.{line_most};
ghost use Rattle.lines.specs.Clauses.{Writes};
ghost use Rattle.writer.specs.Stamps.{Room, Stamped};

use crate::{numbers, pieces};

// The form, from the first byte on.
fn put_form(out: &mut [u8], word: &[u8], numbers: &[u64]) -> usize
    requires { Room out.old 0 (numbers_form word.now numbers.now) }
    ensures { Stamped out.old 0 (numbers_form word.now numbers.now) result out.new }
{
    let inner = pieces::put_byte(out, 0, b'(');
    let first = pieces::put_slice(out, inner, word);
    let end = numbers::put_numbers(out, first, numbers);
    pieces::put_byte(out, end, b')')
}

// The line: beside the word and the numbers the form has two brackets.
pub(crate) fn write_numbers(word: &[u8], numbers: &[u64], out: &mut [u8]) -> Result<usize, u64>
    requires { (length word.now ≤ line_most) × (length numbers.now ≤ n_most) }
    ensures { Writes false (numbers_form word.now numbers.now) out.old result out.new }
{
    let form = word.len() + numbers::numbers_length(numbers) + 2;
    let bytes = form + 1;
    if out.len() < bytes {
        return Err(1);
    }
    // `write_event` and `write_opening` end like this too. One function for all, lent the writing of the form, would be no plainer: what it asks of the closure it is lent is longer than these lines.
    let end = put_form(out, word, numbers);
    pieces::put_byte(out, end, b'\n');
    Ok(bytes)
}
