// The worked figures as one theorem, and the worked hours as plain numbers for whoever wants to evaluate them.
#![tactic(auto)]

ghost use Rattle.std.specs.Prelude.{◌≡◌, ◌≤◌, map, unsigned_abs};
ghost use Rattle.hourly.specs.Cells.{read};
ghost use Rattle.worked.specs.Figures.{Figures, metered, worked_cells};

pub mod hours;

use hourly::plain::PlainCell;
use hours::WorkedHour;

// The figures stand.
fn figures_stand()
    ensures { Figures }
{}

// A party's cell with a position and a reading.
fn metered_cell(position: i64, reading: i64) -> PlainCell
    requires { (unsigned_abs position ≤ 499999) × (unsigned_abs reading ≤ 499999) }
    ensures { read result ≡ metered position reading }
{
    PlainCell {
        position,
        metered: true,
        reading,
        ..PlainCell::default()
    }
}

// The cells of a worked hour, of which the figures hold.
pub fn worked_cells(hour: WorkedHour) -> [PlainCell; 2]
    ensures cells { map read result ≡ worked_cells hour }
    ensures figures { Figures }
{
    figures_stand();
    match hour {
        WorkedHour::Traded => [metered_cell(1_000, 900), metered_cell(-1_000, -1_050)],
        WorkedHour::Corrected => [metered_cell(1_000, 900), metered_cell(-1_000, -1_000)],
        WorkedHour::Unmetered => {
            let delivers = PlainCell {
                regulating: 100,
                tenths: 200_000,
                metered: true,
                ..PlainCell::default()
            };
            [delivers, metered_cell(0, 0)]
        }
    }
}
