// Quotients: those by 2 to 8 of numbers below 8,192 are told by a product, which takes less time than a division.
ghost use Rattle.std.specs.Prelude.{◌≡◌, true, ◌/◌};
ghost use Rattle.base.specs.Factors.{factors_of, factor_of, FactorTells};

// The divisors that have a factor.
const DIVISOR_LEAST: u64 = 2;

const DIVISOR_MOST: u64 = 8;

// The numbers that a factor divides are below this one.
pub const NUMBERS: u64 = 8192;

// The unit of a factor: that of d is UNIT / d, rounded down, and 1 more.
const UNIT: u64 = 65536;

// From this divisor on the factor stands in the second word. Each has sixteen bits, that of d from bit 16 (d mod 4) on.
const SECOND: u64 = 5;

const FIRST_FACTORS: u64 = 0x5556_8001_0000_4001;

const SECOND_FACTORS: u64 = 0x2493_2aab_3334_2001;

const FACTOR_BITS: u64 = 16;

const FACTORS_EACH: u64 = 4;

// The word that has the factor of d.
fn factors(d: u64) -> u64
    ensures { result ≡ factors_of d }
{
    if d < SECOND {
        FIRST_FACTORS
    } else {
        SECOND_FACTORS
    }
}

// The factor of d.
fn factor(d: u64) -> u64
    ensures { result ≡ factor_of d }
{
    let place = d % FACTORS_EACH * FACTOR_BITS;
    (factors(d) >> place) % UNIT
}

// Whether the product with a factor tells the quotient.
fn by_factor(a: u64, d: u64) -> bool
    ensures { result ≡ true → FactorTells a d }
{
    a < NUMBERS && (DIVISOR_LEAST..=DIVISOR_MOST).contains(&d)
}

// a divided by d, rounded down; by 0 it is 0.
pub fn quotient(a: u64, d: u64) -> u64
    ensures { result ≡ a / d }
{
    if by_factor(a, d) {
        a * factor(d) / UNIT
    } else {
        a.checked_div(d).unwrap_or(0)
    }
}
