// A party's money in halers, as plain numbers (docs/RULES.md, "Accounts and day states").
#[derive(Clone, Copy, Default)]
pub struct Account {
    pub cash: i64,
    pub settled: i64,
}
