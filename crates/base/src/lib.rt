// Sets of processors below 64, each one 64-bit number with bit p for processor p; and quotients.
#![tactic(auto)]

pub mod quotients;

ghost use Rattle.std.specs.Prelude.{◌≡◌};
ghost use Rattle.base.specs.Sets.{member, insert_word, size};

// How many numbers a set can hold.
pub const BITS: u64 = 64;

// Whether p is in s.
pub fn member(s: u64, p: u64) -> bool
    ensures { result ≡ member s p }
{
    p < BITS && (s >> p) % 2 == 1
}

// s with p; a number that no set can hold is left out.
pub fn insert(s: u64, p: u64) -> u64
    ensures { result ≡ insert_word s p }
{
    if p < BITS { s | (1u64 << p) } else { s }
}

// How many are in s.
pub fn size(s: u64) -> u64
    ensures { result ≡ size s }
{
    u64::from(s.count_ones())
}
