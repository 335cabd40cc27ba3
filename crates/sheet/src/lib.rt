// One hour, evaluated (docs/RULES.md, "One hour, evaluated"): a sheet is gathered, then priced, then balanced, and each step uses up the sheet before it.
#![tactic(auto)]

ghost use Rattle.std.specs.Prelude.{◌≡◌, ℕ, ◌*◌, ◌≤◌, map, length, ℤ, unsigned_abs};
ghost use Rattle.units.specs.Sums.{page, sum_z};
ghost use Rattle.sheet.specs.Bounds.{RowsWithin, Within};
ghost use Rattle.sheet.specs.Evaluation.{price_for};
ghost use Rattle.sheet.specs.Gathering.{facts};
ghost use Rattle.sheet.specs.declared.row.Row.{Row};

mod balance;
pub mod balanced;
mod evaluate;
mod gather;
pub mod gathered;
pub mod line;
mod price;
pub mod priced;
pub mod row;
mod tell;

pub use evaluate::settle_hour;
use gathered::Gathered;
use pricing::prices::Prices;
use row::Row;

// A figure that every row has, and the limit that it never passes.
trait Figure {
    ghost figure: { Self → Row → ℤ };

    ghost limit: { ℕ };

    fn of(&self, row: &Row) -> i64
        ensures value { result ≡ figure self.now row.now }
        ensures within { unsigned_abs result ≤ limit };

    ghost small: { limit ≤ 30000000000 };
}

// A figure of each row on a page of 20 places, 0 past the last row.
fn figures_of<F: Figure>(figure: &F, sheet: &Gathered) -> [i64; 20]
    ensures value { result ≡ page (map (F.figure figure.now) (facts sheet.now).rows) }
    ensures bound { Within F.limit result }
{
    let mut figures = [0; 20];
    for (i, row) in party_rows(sheet).iter().enumerate() {
        figures[i] = figure.of(row);
    }
    figures
}

// The sum of a page, which lies within 20 times any limit of its numbers.
// A loop, since of an iterator's `sum` of signed numbers no bound is known.
fn sum(xs: &[i64; 20]) -> i64
    requires { Within 30000000000 xs.now }
    ensures value { result ≡ sum_z xs.now }
    ensures bound { (limit : ℕ) → Within limit xs.now → unsigned_abs result ≤ 20 * limit }
{
    let mut sum = 0;
    for x in xs {
        sum += *x;
    }
    sum
}

// A column of a sheet: a figure of each row, and their total.
#[derive(Clone, Copy)]
struct Column {
    figures: [i64; 20],
    total: i64,
}

// The column of a figure.
fn totalled<F: Figure>(figure: &F, sheet: &Gathered) -> Column
    ensures figures { result.figures ≡ page (map (F.figure figure.now) (facts sheet.now).rows) }
    ensures total { result.total ≡ sum_z (map (F.figure figure.now) (facts sheet.now).rows) }
    ensures each { Within F.limit result.figures }
    ensures bound { unsigned_abs result.total ≤ 20 * F.limit }
{
    let figures = figures_of(figure, sheet);
    let total = sum(&figures);
    Column { figures, total }
}

// The price of an imbalance.
fn price_for(prices: &Prices, kwh: i64) -> i64
    ensures { result ≡ price_for prices.now kwh }
{
    if kwh < 0 { prices.short } else { prices.long }
}

// The rows of a sheet's parties.
fn party_rows(sheet: &Gathered) -> &[Row]
    ensures value { result.now ≡ (facts sheet.now).rows }
    ensures few { length result.now ≤ 20 }
    ensures within { RowsWithin result.now }
{
    &sheet.rows[..sheet.count]
}
