ghost use Rattle.std.specs.Prelude.{◌≡◌, ◌≤◌, true, unsigned_abs};
ghost use Rattle.hourly.specs.Bounds.{within_opt};

// A party's hour (docs/RULES.md, "Cells"): position in kWh, regulating kWh and tenths, reading in kWh, last amount in halers. None exists outside these bounds.
#[derive(Clone, Copy, PartialEq, Eq, Debug)]
pub struct Cell {
    pub position: i64,
    pub regulating: i64,
    pub tenths: i64,
    pub reading: Option<i64>,
    pub last: i64,
    ghost placed: { unsigned_abs position ≤ 499999 },
    ghost regulated: { unsigned_abs regulating ≤ 999998 },
    ghost paid: { unsigned_abs tenths ≤ 99998800002 },
    ghost metered: { within_opt 499999 reading ≡ true },
    ghost settled: { unsigned_abs last ≤ 630000000000 },
}
