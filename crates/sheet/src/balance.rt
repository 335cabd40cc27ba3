// Balancing: the remainder, its parts by the rule, amounts, and the operator's part.
ghost use Rattle.std.specs.Prelude.{◌≡◌, ℕ, ◌≤◌, map, length, take, ℤ, pos, ◌+ℤ◌, neg_ℤ, None, unsigned_abs};
ghost use Rattle.units.specs.Sums.{page, sum_n, sum_z};
ghost use Rattle.sharing.specs.Limits.{magnitudes, refusal};
ghost use Rattle.sheet.specs.Bounds.{Within};
ghost use Rattle.sheet.specs.Evaluation.{added, operator_by, parts_by, weight, weights};
ghost use Rattle.sheet.specs.Gathering.{facts};
ghost use Rattle.std.proofs.Common.{rules};

use super::balanced::Balanced;
use super::priced::Priced;
use super::row::Row;
use super::{Column, Figure, sum, totalled};
use sharing::Sharing;

// The column of weights: the magnitudes of the readings.
#[derive(Clone, Copy)]
struct Weights;

impl Figure for Weights {
    ghost figure = { λ s r. pos (weight r) };

    ghost limit = { 499999 };

    ghost small = { Prim.search rules };

    fn of(&self, row: &Row) -> i64 {
        row.reading.unsigned_abs() as i64
    }
}

// What is to be shared, and by what: the remainder N, the weights of so many parties and their total W. No rule refuses it.
// The weights lie on a page of 20 places with their count, as all numbers of a sheet.
#[derive(Clone, Copy)]
struct Shared {
    remainder: i64,
    count: usize,
    weights: [i64; 20],
    weight: i64,
    ghost few: { count ≤ 20 },
    ghost bound: { unsigned_abs remainder ≤ 600000000000 },
    ghost taken: { refusal remainder (take count weights) ≡ None },
    ghost total: { weight ≡ pos (sum_n (magnitudes (take count weights))) },
}

impl Shared {
    // The parts of the remainder by a rule. Without a weight there is nothing to share.
    fn parts<S: Sharing>(&self, rule: &S) -> [i64; 20]
        ensures value { result ≡ page (parts_by (S.map rule.now) self.now.remainder (magnitudes (take self.now.count self.now.weights))) }
        ensures whole { sum_z result +ℤ operator_by self.now.remainder (magnitudes (take self.now.count self.now.weights)) ≡ self.now.remainder }
        ensures within { Within 600000000000 result }
    {
        let mut parts = [0; 20];
        if self.weight > 0 {
            match rule.share(self.remainder, &self.weights[..self.count], &mut parts) {
                Ok(()) => {}
                Err(_) => unreachable(),
            }
        }
        parts
    }

    // The operator's part: the remainder if no party has a weight.
    fn operator(&self) -> i64
        ensures { result ≡ operator_by self.now.remainder (magnitudes (take self.now.count self.now.weights)) }
    {
        if self.weight > 0 { 0 } else { self.remainder }
    }
}

// A page of amounts: first amounts and parts, place by place.
// `array::from_fn` was tried: of each value it says that some state of the closure gave it, and not that the borrowed pages stayed the same.
fn amounts_of(firsts: &[i64; 20], parts: &[i64; 20]) -> [i64; 20]
    requires firsts { Within 30000000000 firsts.now }
    requires parts { Within 600000000000 parts.now }
    ensures value { result ≡ added firsts.now parts.now }
    ensures sum { sum_z result ≡ sum_z firsts.now +ℤ sum_z parts.now }
    ensures bound { Within 630000000000 result }
{
    let mut amounts = *firsts;
    for (i, part) in parts.iter().enumerate() {
        amounts[i] += *part;
    }
    amounts
}

impl Priced {
    // The remainder and the weights of the sheet.
    fn to_share(&self) -> Shared
        ensures remainder { result.remainder ≡ neg_ℤ (sum_z self.now.firsts) }
        ensures weights { magnitudes (take result.count result.weights) ≡ weights (facts self.now.gathered).rows }
    {
        let Column { figures, total } = totalled(&Weights, &self.gathered);
        Shared {
            remainder: -sum(&self.firsts),
            count: self.gathered.count,
            weights: figures,
            weight: total,
        }
    }

    // Balances the sheet: splits the remainder by a rule, or leaves it to the operator where no party has a weight.
    pub fn balance<S: Sharing>(self, rule: &S) -> Balanced
        ensures priced { result.priced ≡ self }
        ensures remainder { result.remainder ≡ neg_ℤ (sum_z self.firsts) }
        ensures weight { result.weight ≡ pos (sum_n (weights (facts self.gathered).rows)) }
        ensures parts { result.parts ≡ page (parts_by (S.Sharing.map rule.now) result.remainder (weights (facts self.gathered).rows)) }
        ensures amounts { result.amounts ≡ added self.firsts result.parts }
        ensures operator { result.operator ≡ operator_by result.remainder (weights (facts self.gathered).rows) }
    {
        let shared = self.to_share();
        let parts = shared.parts(rule);
        let amounts = amounts_of(&self.firsts, &parts);
        Balanced {
            priced: self,
            remainder: shared.remainder,
            weight: shared.weight,
            parts,
            amounts,
            operator: shared.operator(),
        }
    }
}
