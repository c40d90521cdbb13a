// The shares of a fee: each is its proportion rounded down, and the cents left over go one each to the largest remainders, the lower number first among
// equals.
ghost use Rattle.std.specs.Prelude.{◌≡◌, ◌&&◌, ◌||◌, ◌*◌, ◌/◌, ◌%◌, ◌^◌, ◌≤◌, ◌<◌, eqb, ltb, length};
ghost use Rattle.fee_shares.specs.Sums.{sum_to, list_to, at};
ghost use Rattle.fee_shares.specs.Shares.{total, floor, left, ahead, share};
ghost use Rattle.fee_shares.specs.Refusals.{LIMIT, WEIGHT_END};
ghost use Rattle.fee_shares.specs.Steps.{Granted, Rests};

use crate::refusals::MOST_WEIGHTS;

// What one weight has of a fee: whole cents, and what is left of the division.
#[derive(Clone, Copy)]
pub struct Part {
    pub cents: u64,
    pub rest: u64,
}

// The remainders of all weights, and the cents that rounding down gives out.
#[derive(Clone, Copy)]
pub struct Divided {
    pub rests: [u64; MOST_WEIGHTS],
    pub given: u64,
}

// Whether number j with remainder x comes before number i with remainder r; no number comes before itself.
fn comes_before(x: u64, j: usize, r: u64, i: usize) -> bool
    ensures { result ≡ (ltb r x || (eqb x r && ltb j i)) }
{
    (r < x) | ((x == r) & (j < i))
}

// How often `all` goes into `whole`: rounded down.
fn down(whole: u64, all: u64) -> u64
    requires { (whole < 2 ^ 63) × (0 < all) }
    ensures { result ≡ whole / all }
{
    whole / all
}

// What one weight of `all` has, rounded down, and the remainder.
fn part_of(fee: u64, weight: u32, all: u64) -> Part
    requires { (fee ≤ LIMIT) × ((weight < WEIGHT_END) × (0 < all)) }
    ensures { (result.cents ≡ fee * weight / all) × (result.rest ≡ fee * weight % all) }
{
    let whole = fee * u64::from(weight);
    Part {
        cents: down(whole, all),
        rest: whole % all,
    }
}

// The remainder of each weight, and the whole cents of all of them; past the last weight the remainders are 0.
pub fn divide(fee: u64, weights: &[u32], all: u64) -> Divided
    requires granted { Granted fee weights.now }
    requires all_value { all ≡ total weights.now }
    ensures rests { Rests fee weights.now result.rests }
    ensures given { result.given ≡ sum_to (length weights.now) (floor fee weights.now) }
{
    let mut rests = [0u64; MOST_WEIGHTS];
    let mut given: u64 = 0;
    for (i, weight) in weights.iter().enumerate() {
        let part = part_of(fee, *weight, all);
        rests[i] = part.rest;
        given += part.cents;
    }
    Divided { rests, given }
}

// How many come before number i.
fn ahead_of(rests: &[u64], i: usize) -> u64
    requires { i < length rests.now }
    ensures { result ≡ ahead (length rests.now) (at rests.now) i }
{
    let mut count: u64 = 0;
    for (j, rest) in rests.iter().enumerate() {
        count += u64::from(comes_before(*rest, j, rests[i], i));
    }
    count
}

// Each share in its place, where `over` cents are left over.
pub fn write_shares(
    fee: u64,
    weights: &[u32],
    all: u64,
    rests: &[u64],
    over: u64,
    shares: &mut [u64],
)
    requires granted { Granted fee weights.now }
    requires all_value { all ≡ total weights.now }
    requires rests { Rests fee weights.now rests.now }
    requires over_value { over ≡ left fee weights.now }
    requires shares_len { length shares.old ≡ length weights.now }
    ensures { shares.new ≡ list_to (length weights.now) (share fee weights.now) }
{
    let rests = &rests[..weights.len()];
    for (i, share) in shares.iter_mut().enumerate() {
        let part = part_of(fee, weights[i], all);
        let count = ahead_of(rests, i);
        *share = part.cents + u64::from(count < over);
    }
}
