ghost use Rattle.sheet.specs.Bounds.{Within};

use super::gathered::Gathered;
use pricing::prices::Prices;

// A priced sheet: imbalances and their sum, both prices, and first amounts, on pages of 20 places. It tells no amounts: it is not balanced yet.
#[derive(Drop)]
pub struct Priced {
    pub(crate) gathered: Gathered,
    pub(crate) imbalances: [i64; 20],
    pub(crate) system: i64,
    pub(crate) prices: Prices,
    pub(crate) firsts: [i64; 20],
    ghost modest: { Within 30000000000 firsts },
}
