// Sharing a remainder over weights (docs/RULES.md, "Sharing rules").
// A sharing rule is a trait; each rule has a file named after it, and what both share stands here.
#![tactic(auto)]

ghost use Rattle.std.specs.Prelude.{◌≡◌, ℕ, ◌*◌, ◌/◌, ◌%◌, ◌≤◌, List, map as mapped, length, ℤ, MatchOption, find, not, unsigned_abs};
ghost use Rattle.sharing.specs.Laws.{Lawful};
ghost use Rattle.sharing.specs.Limits.{in_range, refusal, weight_refusal, answer, afterwards, magnitudes, Admits, Within};
ghost use Rattle.sharing.specs.Rules.{signed, by_magnitude};
ghost use Rattle.sharing.specs.Signs.{Splits};
ghost use Rattle.units.specs.Sums.{sum_n, page};

pub mod largest_remainder;
pub mod refusal;
pub mod running;

use arrayvec::ArrayVec;
use refusal::SharingRefusal;

// Within these limits a remainder times the total weight stays below 2^63.
const MOST_HALERS: u64 = 600_000_000_000;

const MOST_WEIGHTS: usize = 20;

const MOST_KWH: i64 = 499_999;

// A sharing rule stands for one map from a remainder in halers and the weights in kWh to their parts.
// It answers by it, or refuses; it is asked by reference, so that answering alters nothing.
pub trait Sharing {
    ghost map: { Self → ℤ → List ℕ → List ℤ };

    // Fills the page with the parts, 0 past the last weight; a refusal leaves it untouched.
    fn share(
        &self,
        remainder: i64,
        weights: &[i64],
        parts: &mut [i64; 20],
    ) -> Result<(), SharingRefusal>
        ensures answer { result ≡ answer (refusal remainder weights.now) }
        ensures page { parts.new ≡ afterwards (refusal remainder weights.now) (map self.now remainder (magnitudes weights.now)) parts.old };

    ghost lawful: { (s : Self) → Lawful (map s) };
}

// Whether a weight is in range.
fn in_range(kwh: i64) -> bool
    ensures { result ≡ in_range kwh }
{
    (0..=MOST_KWH).contains(&kwh)
}

// The first weight out of range.
fn first_out_of_range(weights: &[i64]) -> Option<i64>
    ensures { result ≡ find (λ w. not (in_range w)) weights.now }
{
    weights.iter().copied().find(|kwh| !in_range(*kwh))
}

// Refuses the first weight out of range.
fn admit_weights(weights: &[i64]) -> Result<(), SharingRefusal>
    ensures { result ≡ answer (weight_refusal weights.now) }
{
    match first_out_of_range(weights) {
        Some(kwh) => Err(SharingRefusal::Weight { kwh }),
        None => Ok(()),
    }
}

// Refuses what is out of range, and nothing else.
fn admit(remainder: i64, weights: &[i64]) -> Result<(), SharingRefusal>
    ensures { Admits remainder weights.now result }
{
    if remainder.unsigned_abs() > MOST_HALERS {
        return Err(SharingRefusal::Remainder { halers: remainder });
    }
    if weights.len() > MOST_WEIGHTS {
        return Err(SharingRefusal::Count {
            weights: weights.len() as i64,
        });
    }
    admit_weights(weights)
}

// A number for each weight, in order. It is filled by `push`: `collect` asks for an allocator, and answers a `Result`.
type Numbers = ArrayVec<u64, 20>;

// Halers to be divided over weights, and the total of the weights, which is not 0.
#[derive(Drop)]
struct Split {
    halers: u64,
    weights: Numbers,
    total: u64,
    ghost few: { halers ≤ 600000000000 },
    ghost whole: { total ≡ sum_n weights.items },
    ghost some: { 1 ≤ total },
    ghost light: { total ≤ 9999980 },
}

impl Split {
    // What is divided of a remainder over weights in range: nothing, where no weight is above 0.
    fn of(remainder: i64, weights: &[i64]) -> Option<Split>
        requires { Within remainder weights.now }
        ensures { MatchOption result (sum_n (magnitudes weights.now) ≡ 0) (λ s. (s.halers ≡ unsigned_abs remainder) × (s.weights.items ≡ magnitudes weights.now)) }
    {
        let weights = magnitudes(weights);
        let total = sum(&weights);
        if total == 0 {
            return None;
        }
        Some(Split {
            halers: remainder.unsigned_abs(),
            weights,
            total,
        })
    }

    // The whole part of halers × weight / total.
    fn floor(&self, weight: u64) -> u64
        requires { weight ≤ self.now.total }
        ensures { result ≡ self.now.halers * weight / self.now.total }
    {
        self.halers * weight / self.total
    }

    // What halers × weight / total leaves.
    fn rest(&self, weight: u64) -> u64
        requires { weight ≤ self.now.total }
        ensures { result ≡ self.now.halers * weight % self.now.total }
    {
        self.halers * weight % self.total
    }
}

// A way of dividing halers over weights: the shares that it gives, and the laws that they keep.
trait Division {
    ghost shares: { Self → ℕ → List ℕ → List ℕ };

    fn divide(&self, split: &Split) -> Numbers
        ensures { result.items ≡ shares self.now split.now.halers split.now.weights.items };

    ghost splits: { (s : Self) → Splits (shares s) };
}

// Shares by a way of dividing: the shares of the remainder's magnitude, each with its sign.
fn share_by<D: Division>(
    division: &D,
    remainder: i64,
    weights: &[i64],
    parts: &mut [i64; 20],
) -> Result<(), SharingRefusal>
    ensures answer { result ≡ answer (refusal remainder weights.now) }
    ensures page { parts.new ≡ afterwards (refusal remainder weights.now) (by_magnitude (D.shares division.now) remainder (magnitudes weights.now)) parts.old }
{
    admit(remainder, weights)?;
    *parts = parts_by(division, remainder, weights);
    Ok(())
}

// The page of the parts of a remainder over weights in range.
fn parts_by<D: Division>(division: &D, remainder: i64, weights: &[i64]) -> [i64; 20]
    requires { Within remainder weights.now }
    ensures { result ≡ page (by_magnitude (D.shares division.now) remainder (magnitudes weights.now)) }
{
    match Split::of(remainder, weights) {
        Some(split) => restore(remainder < 0, &division.divide(&split)),
        None => [0; 20],
    }
}

// The weights as magnitudes.
fn magnitudes(weights: &[i64]) -> Numbers
    requires { length weights.now ≤ 20 }
    ensures { result.items ≡ magnitudes weights.now }
{
    let mut kwh = Numbers::new();
    for weight in weights {
        kwh.push(weight.unsigned_abs());
    }
    kwh
}

// The sum of numbers that is at most the largest remainder.
fn sum(numbers: &[u64]) -> u64
    requires { sum_n numbers.now ≤ 600000000000 }
    ensures { result ≡ sum_n numbers.now }
{
    numbers.iter().sum()
}

// A magnitude with a sign.
fn with_sign(negative: bool, m: u64) -> i64
    requires { m ≤ 600000000000 }
    ensures { result ≡ signed negative m }
{
    if negative { -(m as i64) } else { m as i64 }
}

// The page of the shares under a sign, and 0 past the last.
fn restore(negative: bool, shares: &[u64]) -> [i64; 20]
    requires few { length shares.now ≤ 20 }
    requires halers { sum_n shares.now ≤ 600000000000 }
    ensures { result ≡ page (mapped (signed negative) shares.now) }
{
    let mut parts = [0; 20];
    for (i, share) in shares.iter().enumerate() {
        parts[i] = with_sign(negative, *share);
    }
    parts
}

#[cfg(test)]
mod tests;
