ghost use Rattle.std.specs.Prelude.{◌≡◌, pos, ◌+ℤ◌};
ghost use Rattle.units.specs.Sums.{sum_z};
ghost use Rattle.sheet.specs.Bounds.{Within};

use super::priced::Priced;

// A balanced sheet: remainder N, total weight W, parts, amounts, and the operator's part. Amounts and operator's part add up to 0 in every one that exists.
#[derive(Drop)]
pub struct Balanced {
    pub(crate) priced: Priced,
    pub(crate) remainder: i64,
    pub(crate) weight: i64,
    pub(crate) parts: [i64; 20],
    pub(crate) amounts: [i64; 20],
    pub(crate) operator: i64,
    ghost zero: { sum_z amounts +ℤ operator ≡ pos 0 },
    ghost settled: { Within 630000000000 amounts },
}
