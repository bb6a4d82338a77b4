// For C: the search for newlines, which the comparison and the benchmark call.
#![tactic(auto)]

ghost use Rattle.std.specs.Prelude.{◌≡◌};
ghost use Rattle.lines.specs.Splitting.{before_newline};
ghost use Rattle.lines.specs.Search.{reported};

// How many bytes stand before the first newline; all where there is none.
#[unsafe(no_mangle)]
pub extern "C" fn before_newline(bytes: &[u8]) -> usize
    ensures { result ≡ before_newline bytes.now }
{
    lines::before_newline(bytes)
}

// Whether one of the eight bytes of a word is a newline.
#[unsafe(no_mangle)]
pub extern "C" fn has_newline(word: u64) -> bool
    ensures { result ≡ reported word }
{
    lines::search::has_newline(word)
}
