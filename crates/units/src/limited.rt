ghost use Rattle.std.specs.Prelude.{◌≤◌, unsigned_abs};

// A whole number within ±MOST. None exists beyond. A ghost field and no model, so that a law reads the bound off a value.
#[derive(Clone, Copy, PartialEq, Eq, Debug)]
pub struct Limited<const MOST: u64> {
    pub(crate) value: i64,
    pub ghost limited: { unsigned_abs value ≤ MOST },
}
