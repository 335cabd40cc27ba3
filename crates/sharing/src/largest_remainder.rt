// The largest remainder rule: every party gets its floor, and the halers left over go one each to the largest remainders.
ghost use Rattle.std.specs.Prelude.{◌≡◌, ℕ, ◌+◌, ◌<◌, ◌≤◌, map, length, None, if◌then◌else◌, nat_lt, slice_index};
ghost use Rattle.std.specs.List.{range_with_len};
ghost use Rattle.sharing.specs.Limits.{refusal, answer, afterwards, magnitudes};
ghost use Rattle.sharing.specs.Rules.{largest_remainder, largest_shares, floors, rests as all_rests, before, rank, Serves};
ghost use Rattle.units.specs.Sums.{sum_n};
ghost use Rattle.sharing.specs.Ranks.{largest_lawful, largest_splits};

use super::refusal::SharingRefusal;
use super::{Division, Numbers, Sharing, Split, share_by, sum};

#[derive(Clone, Copy)]
pub struct LargestRemainder;

impl Sharing for LargestRemainder {
    ghost map = { λ _ n ws. largest_remainder n ws };

    ghost lawful = { λ s. largest_lawful };

    // Every part is its floor or one haler more, and who has one more comes before who has not.
    fn share(
        &self,
        remainder: i64,
        weights: &[i64],
        parts: &mut [i64; 20],
    ) -> Result<(), SharingRefusal>
        ensures answer { result ≡ answer (refusal remainder weights.now) }
        ensures page { parts.new ≡ afterwards (refusal remainder weights.now) (largest_remainder remainder (magnitudes weights.now)) parts.old }
        ensures serves { refusal remainder weights.now ≡ None → Serves remainder (magnitudes weights.now) parts.new }
    {
        share_by(self, remainder, weights, parts)
    }
}

impl Division for LargestRemainder {
    ghost shares = { λ _ m ws. largest_shares m ws };

    ghost splits = { λ s. largest_splits };

    fn divide(&self, split: &Split) -> Numbers {
        let (floors, rests) = floors_and_rests(split);
        serve(split.halers - sum(&floors), &rests, &floors)
    }
}

// The floor of each weight's share, and its remainder: two lists and no list of pairs, since parties are ranked by the remainders alone and the floors are added up.
fn floors_and_rests(split: &Split) -> (Numbers, Numbers)
    ensures floors { result.0.items ≡ floors split.now.halers split.now.weights.items }
    ensures rests { result.1.items ≡ all_rests split.now.halers split.now.weights.items }
{
    let mut floors = Numbers::new();
    let mut rests = Numbers::new();
    for weight in split.weights.iter() {
        floors.push(split.floor(*weight));
        rests.push(split.rest(*weight));
    }
    (floors, rests)
}

// The floors, with one haler more for each party that has fewer before it than halers are left.
fn serve(left: u64, rests: &[u64], floors: &[u64]) -> Numbers
    requires few { length floors.now ≤ 20 }
    requires even { length rests.now ≡ length floors.now }
    requires halers { sum_n floors.now ≤ 600000000000 }
    ensures { result.items ≡ map (λ k. slice_index floors.now k + (if nat_lt (rank rests.now k) left then 1 else 0)) (range_with_len 0 (length floors.now)) }
{
    let mut shares = Numbers::new();
    for (k, floor) in floors.iter().enumerate() {
        shares.push(*floor + u64::from(place_in_line(rests, k) < left));
    }
    shares
}

// How many parties come before party k.
fn place_in_line(rests: &[u64], k: usize) -> u64
    requires { k < length rests.now }
    ensures { result ≡ rank rests.now k }
{
    (0..rests.len())
        .filter(|j| comes_before(rests, *j, k))
        .count() as u64
}

// Whether party j comes before party k.
fn comes_before(rests: &[u64], j: usize, k: usize) -> bool
    requires one { j < length rests.now }
    requires other { k < length rests.now }
    ensures { result ≡ before rests.now j k }
{
    rests[k] < rests[j] || rests[j] == rests[k] && j < k
}
