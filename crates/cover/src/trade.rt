// A trade as one party's cells would take it: at places `start` to `end` - 1, `kwh` more sold in each hour, or bought if negative.
#[derive(Clone, Copy, Default)]
pub struct Trade {
    pub start: usize,
    pub end: usize,
    pub kwh: i64,
}
