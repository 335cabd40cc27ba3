// Tenths of a haler and halers (docs/RULES.md, "Units and signs" and "Rounding"), and numbers that cannot pass a limit.
// The crates above share its definitions of rounding, sums and pages of 20, and its lemmas on them.
#![tactic(auto)]

ghost use Rattle.std.specs.Prelude.{◌≡◌, ◌≤◌, ◌&&◌, ◌*ℤ◌, if◌then◌else◌, IfSome, Some, None, nat_le, unsigned_abs};
ghost use Rattle.std.specs.Option.{option_map};
ghost use Rattle.units.specs.Rounding.{nearest, rounded, Nearest};

pub mod limited;

use limited::Limited;

// The whole number nearest to total / divisor, halves away from 0; none where the divisor is 0.
#[tactic(auto, using(crate::proofs::Nearby::answered_below, crate::proofs::Nearby::answered_from))]
pub fn nearest(total: i64, divisor: u64) -> Option<i64>
    ensures value { result ≡ (if nat_le 1 divisor then Some (nearest total divisor) else None) }
    ensures nearest { IfSome result (Nearest total divisor) }
{
    let magnitude = (total.unsigned_abs() + divisor / 2).checked_div(divisor)?;
    if total < 0 {
        0_i64.checked_sub_unsigned(magnitude)
    } else {
        0_i64.checked_add_unsigned(magnitude)
    }
}

// Tenths to the nearest haler, halves away from 0.
pub fn round_tenths(tenths: i64) -> i64
    ensures value { result ≡ rounded tenths }
    ensures nearest { Nearest tenths 10 result }
{
    nearest(tenths, 10).unwrap()
}

// The product itself, where it is in range.
fn product(kwh: i64, price: i64) -> i64
    requires { (unsigned_abs kwh ≤ 2000000) × (unsigned_abs price ≤ 99999) }
    ensures value { result ≡ kwh *ℤ price }
    ensures bound { unsigned_abs result ≤ 199998000000 }
{
    kwh * price
}

// The tenths of an energy at a price: none beyond ±2,000,000 kWh, which no imbalance passes, or beyond ±99,999 CZK/MWh.
pub fn tenths_at(kwh: i64, price: i64) -> Option<i64>
    ensures value { result ≡ (if nat_le (unsigned_abs kwh) 2000000 && nat_le (unsigned_abs price) 99999 then Some (kwh *ℤ price) else None) }
{
    if kwh.unsigned_abs() > 2_000_000 || price.unsigned_abs() > 99_999 {
        return None;
    }
    Some(product(kwh, price))
}

impl<const MOST: u64> Limited<MOST> {
    // The number, or none beyond ±MOST.
    pub fn new(value: i64) -> Option<Limited<MOST>>
        ensures { option_map (λ (l : Limited MOST). l.value) result ≡ (if nat_le (unsigned_abs value) MOST then Some value else None) }
    {
        if value.unsigned_abs() > MOST {
            return None;
        }
        Some(Limited { value })
    }

    pub fn value(&self) -> i64
        ensures { result ≡ self.now.value }
    {
        self.value
    }
}
