// The rules in use, picked by their numbers (docs/RULES.md, "book and show").
#![tactic(auto)]

ghost use Rattle.std.specs.Prelude.{◌≡◌, [], ◌∷◌, ◌≤◌, ℤ, pos, if◌then◌else◌, nat_le, unsigned_abs};
ghost use Rattle.entries.specs.Fields.{first_of, value_check, within};
ghost use Rattle.hourly.specs.Records.{record_figures};
ghost use Rattle.pricing.specs.Prices.{answered};
ghost use Rattle.rules.specs.Choice.{chosen, pricing_checks, pricing_chosen, pricing_map, rules_checks, rules_chosen, sharing_checks, sharing_chosen, sharing_map};
ghost use Rattle.std.proofs.Common.{rules, arith};
ghost use Rattle.std.proofs.lemmas.Bool.{cond_both, leb-true};
ghost use Rattle.pricing.specs.Regulated.{regulating_bounded};
ghost use Rattle.rules.specs.declared.choice.ChosenPricing.TheVariants.{Regulating, Ladder};
ghost use Rattle.sharing.specs.Ranks.{largest_lawful};
ghost use Rattle.sharing.specs.Runs.{running_lawful};
ghost use Rattle.rules.specs.declared.choice.ChosenSharing.TheVariants.{Running, LargestRemainder};

pub mod choice;

use choice::{ChosenPricing, ChosenSharing, Rules};
use entries::refusal::Refusal;
use hourly::record::HourRecord;
use pricing::Pricing;
use pricing::ladder::Ladder;
use pricing::price::Price;
use pricing::prices::{Prices, PricingRefusal};
use pricing::regulating::Regulating;
use sharing::Sharing;
use sharing::largest_remainder::LargestRemainder;
use sharing::refusal::SharingRefusal;
use sharing::running::Running;

// Prices by the regulating rule; a default out of range counts as 0.
fn regulated(default: i64, system: i64, hour: &HourRecord) -> Result<Prices, PricingRefusal>
    ensures { result ≡ answered (pricing_map (ChosenPricing.Regulating default)) system (record_figures hour.now) }
{
    match Price::new(default).or(Price::new(0)) {
        Some(default) => Regulating { default }.prices(system, hour),
        None => unreachable(),
    }
}

impl Pricing for ChosenPricing {
    ghost map = { pricing_map };

    ghost bounded = { elim [
      | Regulating default ↦
          regulating_bounded (if nat_le (unsigned_abs default) 99999 then default else pos 0)
          (cond_both (nat_le (unsigned_abs default) 99999) default (pos 0) (λ (p : ℤ). unsigned_abs p ≤ 99999) (λ t. leb-true (unsigned_abs default) 99999 t) (λ _. omega arith))
      | Ladder ↦ λ si h ok. Prim.search rules
    ] };

    fn prices(&self, system: i64, hour: &HourRecord) -> Result<Prices, PricingRefusal> {
        match self {
            ChosenPricing::Regulating { default } => regulated(*default, system, hour),
            ChosenPricing::Ladder => Ladder.prices(system, hour),
        }
    }
}

impl Sharing for ChosenSharing {
    ghost map = { sharing_map };

    ghost lawful = { elim [ Running ↦ running_lawful | LargestRemainder ↦ largest_lawful ] };

    fn share(
        &self,
        remainder: i64,
        weights: &[i64],
        parts: &mut [i64; 20],
    ) -> Result<(), SharingRefusal> {
        match self {
            ChosenSharing::Running => Running.share(remainder, weights, parts),
            ChosenSharing::LargestRemainder => LargestRemainder.share(remainder, weights, parts),
        }
    }
}

// The number as a default: that of a price.
fn in_range(given: i64) -> Result<i64, Refusal>
    ensures { result ≡ chosen (first_of (value_check (within 99999) given ∷ [])) given }
{
    let price = Price::new(given).ok_or(Refusal::OutOfRange { given })?;
    Ok(price.value())
}

// The pricing rule of this number, with this default.
fn pricing_rule(number: i64, default: i64) -> Result<ChosenPricing, Refusal>
    ensures { result ≡ chosen (first_of (pricing_checks number default)) (pricing_chosen number default) }
{
    match number {
        1 => Ok(ChosenPricing::Regulating {
            default: in_range(default)?,
        }),
        2 => {
            in_range(default)?;
            Ok(ChosenPricing::Ladder)
        }
        _ => Err(Refusal::OutOfRange { given: number }),
    }
}

// The sharing rule of this number.
fn sharing_rule(number: i64) -> Result<ChosenSharing, Refusal>
    ensures { result ≡ chosen (first_of (sharing_checks number)) (sharing_chosen number) }
{
    match number {
        1 => Ok(ChosenSharing::Running),
        2 => Ok(ChosenSharing::LargestRemainder),
        _ => Err(Refusal::OutOfRange { given: number }),
    }
}

// The rules of these numbers; refused are, in this order, the pricing rule's number, the default and the sharing rule's number.
pub fn choose(pricing: i64, default: i64, sharing: i64) -> Result<Rules, Refusal>
    ensures { result ≡ chosen (first_of (rules_checks pricing default sharing)) (rules_chosen pricing default sharing) }
{
    let pricing = pricing_rule(pricing, default)?;
    let sharing = sharing_rule(sharing)?;
    Ok(Rules { pricing, sharing })
}

#[cfg(test)]
mod tests {
    use super::*;
    use refusals::Tells;

    // The place of the refusal, if the numbers pick no rules.
    fn refused(pricing: i64, default: i64, sharing: i64) -> Option<i64> {
        match choose(pricing, default, sharing) {
            Ok(_) => None,
            Err(refusal) => Some(refusal.place()),
        }
    }

    #[test]
    fn rules_have_numbers(rt: HostRuntime) {
        assert_eq!(rt; refused(1, -99_999, 2), None);
        assert_eq!(rt; refused(2, 99_999, 1), None);
        assert_eq!(rt; refused(0, 100_000, 3), Some(0));
        assert_eq!(rt; refused(3, 0, 1), Some(3));
        assert_eq!(rt; refused(2, 100_000, 3), Some(100_000));
        assert_eq!(rt; refused(1, -100_000, 1), Some(-100_000));
        assert_eq!(rt; refused(1, 0, 3), Some(3));
        assert_eq!(rt; refused(1, 0, -1), Some(-1));
    }
}
