// A tally: counts of PSMs, of distinct and of unique peptides, the rows of each section, and missing cells; and the sum of two.
#![tactic(auto)]

ghost use Rattle.std.specs.Prelude.{◌≡◌, ◌+◌, is_none, MatchOption};
ghost use Rattle.numbers.specs.Refusals.{number_in, answer_or};
ghost use Rattle.tally.specs.Tally.{totals, tally_of, is_past, sum_of, zero, outcome, added};
ghost use Rattle.tally.specs.Steps.{Summed};

use numbers::Refusal;

// How many PSMs.
// Kept: three types, so that no counter is added to another; one type over a kind would need a marker and a field for each.
#[derive(Clone, Copy)]
pub struct Psms(pub u64);

// How many peptides, each counted once in a run.
#[derive(Clone, Copy)]
pub struct Distinct(pub u64);

// How many peptides that no other protein has.
#[derive(Clone, Copy)]
pub struct Unique(pub u64);

// How many totals there are.
pub const TOTALS: usize = 8;

// The eight totals, in the order of the record.
#[derive(Clone, Copy)]
pub struct Tally {
    pub psms: Psms,
    pub distinct: Distinct,
    pub unique: Unique,
    pub protein_rows: u64,
    pub peptide_rows: u64,
    pub psm_rows: u64,
    pub small_molecule_rows: u64,
    pub missing: u64,
}

impl Psms {
    // No PSMs.
    pub const ZERO: Psms = Psms(0);

    // The sum; none where it passes 64 bits.
    pub fn add(self, other: Psms) -> Option<Psms>
        ensures sum { MatchOption result (sum_of self.0 other.0 ≡ 0) (λ x. x.0 ≡ sum_of self.0 other.0) }
        ensures past { is_none result ≡ is_past (self.0 + other.0) }
    {
        Some(Psms(self.0.checked_add(other.0)?))
    }
}

impl Distinct {
    // No distinct peptides.
    pub const ZERO: Distinct = Distinct(0);

    // The sum; none where it passes 64 bits.
    pub fn add(self, other: Distinct) -> Option<Distinct>
        ensures sum { MatchOption result (sum_of self.0 other.0 ≡ 0) (λ x. x.0 ≡ sum_of self.0 other.0) }
        ensures past { is_none result ≡ is_past (self.0 + other.0) }
    {
        Some(Distinct(self.0.checked_add(other.0)?))
    }
}

impl Unique {
    // No unique peptides.
    pub const ZERO: Unique = Unique(0);

    // The sum; none where it passes 64 bits.
    pub fn add(self, other: Unique) -> Option<Unique>
        ensures sum { MatchOption result (sum_of self.0 other.0 ≡ 0) (λ x. x.0 ≡ sum_of self.0 other.0) }
        ensures past { is_none result ≡ is_past (self.0 + other.0) }
    {
        Some(Unique(self.0.checked_add(other.0)?))
    }
}

// The tally of nothing.
pub fn nothing() -> Tally
    ensures { result ≡ zero }
{
    Tally {
        psms: Psms::ZERO,
        distinct: Distinct::ZERO,
        unique: Unique::ZERO,
        protein_rows: 0,
        peptide_rows: 0,
        psm_rows: 0,
        small_molecule_rows: 0,
        missing: 0,
    }
}

// The sum of two tallies, total by total; none where one of the eight passes 64 bits.
fn sum(a: Tally, b: Tally) -> Option<Tally>
    ensures { Summed a b result }
{
    Some(Tally {
        psms: a.psms.add(b.psms)?,
        distinct: a.distinct.add(b.distinct)?,
        unique: a.unique.add(b.unique)?,
        protein_rows: a.protein_rows.checked_add(b.protein_rows)?,
        peptide_rows: a.peptide_rows.checked_add(b.peptide_rows)?,
        psm_rows: a.psm_rows.checked_add(b.psm_rows)?,
        small_molecule_rows: a.small_molecule_rows.checked_add(b.small_molecule_rows)?,
        missing: a.missing.checked_add(b.missing)?,
    })
}

// The sum of two tallies, total by total. Refused where one of the eight sums passes 64 bits.
pub fn add(a: Tally, b: Tally) -> Result<Tally, Refusal>
    ensures { outcome (number_in result) (answer_or zero result) ≡ added a b }
{
    sum(a, b).ok_or(Refusal::Past64Bits)
}

// The tally with these totals, one to a place.
pub fn from_places(places: [u64; TOTALS]) -> Tally
    ensures { result ≡ tally_of places }
{
    Tally {
        psms: Psms(places[0]),
        distinct: Distinct(places[1]),
        unique: Unique(places[2]),
        protein_rows: places[3],
        peptide_rows: places[4],
        psm_rows: places[5],
        small_molecule_rows: places[6],
        missing: places[7],
    }
}

// The totals of a tally, one to a place.
pub fn to_places(tally: Tally) -> [u64; TOTALS]
    ensures { result ≡ totals tally }
{
    [
        tally.psms.0,
        tally.distinct.0,
        tally.unique.0,
        tally.protein_rows,
        tally.peptide_rows,
        tally.psm_rows,
        tally.small_molecule_rows,
        tally.missing,
    ]
}
