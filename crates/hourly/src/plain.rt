// What lies on the pages: plain numbers, of which any may come (docs/RULES.md, "Cells" and "Hour records").

// A party's hour. Where `metered` is false there is no reading, and `reading` is 0 in a sound cell.
#[derive(Clone, Copy, Default, PartialEq, Eq, Debug)]
pub struct PlainCell {
    pub position: i64,
    pub regulating: i64,
    pub tenths: i64,
    pub metered: bool,
    pub reading: i64,
    pub last: i64,
}

// The deliveries of one direction. Where `delivered` is false there was none, and `extreme` is 0 in sound ones.
#[derive(Clone, Copy, Default, PartialEq, Eq, Debug)]
pub struct PlainDeliveries {
    pub kwh: u64,
    pub total: i64,
    pub delivered: bool,
    pub extreme: i64,
}

// The regulating deliveries of an hour.
#[derive(Clone, Copy, Default, PartialEq, Eq, Debug)]
pub struct PlainRecord {
    pub upward: PlainDeliveries,
    pub downward: PlainDeliveries,
}
