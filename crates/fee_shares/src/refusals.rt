// When a sum or a split is refused, and why.
ghost use Rattle.std.specs.Prelude.{◌≡◌, ◌+◌, ◌≤◌, leb, length};
ghost use Rattle.numbers.specs.Refusals.{number_in};
ghost use Rattle.fee_shares.specs.Shares.{total};
ghost use Rattle.fee_shares.specs.Refusals.{LIMIT, MOST_WEIGHTS, as_many, any_large, refusal};

use numbers::Refusal;

// The most that a fee or a sum may be: 1,000,000,000.00.
pub const LIMIT: u64 = 100_000_000_000;

// At most so many weights.
pub const MOST_WEIGHTS: usize = 64;

// Each weight is below this.
const WEIGHT_END: u32 = 16_777_216;

// Whether the sum of two amounts is within the limit, however large they are.
pub fn within(a: u64, b: u64) -> bool
    ensures { result ≡ leb (a + b) LIMIT }
{
    if a > LIMIT {
        return false;
    }
    b <= LIMIT - a
}

// Whether there are 1 to 64 weights, and as many places.
fn as_many(n: usize, places: usize) -> bool
    ensures { result ≡ as_many n places }
{
    (1 <= n) & ((n <= MOST_WEIGHTS) & (places == n))
}

// Whether some weight is too large; of no weights none is.
fn any_large(weights: &[u32]) -> bool
    ensures { result ≡ any_large weights.now }
{
    weights.iter().any(|w| *w >= WEIGHT_END)
}

// All weights together; of no weights 0.
pub fn total_of(weights: &[u32]) -> u64
    requires { length weights.now ≤ MOST_WEIGHTS }
    ensures { result ≡ total weights.now }
{
    weights.iter().map(|w| u64::from(*w)).sum()
}

// Why a call with so many places is refused, if it is: the first refusal that applies.
pub fn refusal_of(fee: u64, weights: &[u32], places: usize) -> Result<(), Refusal>
    ensures { number_in result ≡ refusal fee weights.now places }
{
    let counted = as_many(weights.len(), places);
    if !counted {
        return Err(Refusal::NotAsMany);
    }
    if fee > LIMIT {
        return Err(Refusal::TooLarge);
    }
    if any_large(weights) {
        return Err(Refusal::TooLarge);
    }
    if total_of(weights) == 0 {
        return Err(Refusal::AllZero);
    }
    Ok(())
}
