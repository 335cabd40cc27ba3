// A party's statement, in halers (docs/RULES.md, "book and show").
#[derive(Clone, Copy)]
pub struct Statement {
    pub balance: i64,
    pub need: i64,
}
