// What a balanced sheet tells.
use pricing::prices::Prices;

// A party's line, from its cell to its amount: kWh, tenths, CZK/MWh, halers.
#[derive(Clone, Copy, PartialEq, Eq, Debug)]
pub struct Line {
    pub position: i64,
    pub regulating: i64,
    pub tenths: i64,
    pub reading: i64,
    pub imbalance: i64,
    pub price: i64,
    pub first: i64,
    pub part: i64,
    pub amount: i64,
}

// The hour as a whole: the number of parties, system imbalance, both prices, remainder N, total weight W and the operator's part.
#[derive(Clone, Copy)]
pub struct Totals {
    pub parties: usize,
    pub system: i64,
    pub prices: Prices,
    pub remainder: i64,
    pub weight: i64,
    pub operator: i64,
}
