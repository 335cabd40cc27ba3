// The running rule: every part is the difference of two floors, so that the parts lose nothing.
ghost use Rattle.std.specs.Prelude.{◌≡◌};
ghost use Rattle.sharing.specs.Rules.{running, running_shares};
ghost use Rattle.sharing.specs.Runs.{running_lawful, running_splits};

use super::refusal::SharingRefusal;
use super::{Division, Numbers, Sharing, Split, share_by};

#[derive(Clone, Copy)]
pub struct Running;

impl Sharing for Running {
    ghost map = { λ _ n ws. running n ws };

    ghost lawful = { λ s. running_lawful };

    fn share(
        &self,
        remainder: i64,
        weights: &[i64],
        parts: &mut [i64; 20],
    ) -> Result<(), SharingRefusal> {
        share_by(self, remainder, weights, parts)
    }
}

impl Division for Running {
    ghost shares = { λ _ m ws. running_shares m ws };

    ghost splits = { λ s. running_splits };

    fn divide(&self, split: &Split) -> Numbers {
        let mut shares = Numbers::new();
        let mut upto = 0;
        let mut low = 0;
        for weight in split.weights.iter() {
            upto += *weight;
            let high = split.floor(upto);
            shares.push(high - low);
            low = high;
        }
        shares
    }
}
