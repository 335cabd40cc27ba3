// Evaluates the worked hours and some more, from the first step to the last, and prints every step as a table.
#![tactic(auto)]

use hourly::plain::{PlainCell, PlainRecord};
use hourly::record::HourRecord;
use pricing::Pricing;
use pricing::ladder::Ladder;
use pricing::price::Price;
use pricing::prices::Prices;
use pricing::regulating::Regulating;
use refusals::Tells;
use sharing::Sharing;
use sharing::largest_remainder::LargestRemainder;
use sharing::running::Running;
use sheet::balanced::Balanced;
use sheet::line::{Line, Totals};
use sheet::settle_hour;
use std::fmt;
use worked::hours::WorkedHour;
use worked::worked_cells;

const COLUMNS: &str =
    "party  position  regulating  reading  imbalance  price  first amount       part     amount";

// A party's line as a row of the table: kWh, CZK/MWh, halers.
#[derive(Drop)]
struct TableRow {
    party: usize,
    line: Line,
}

impl fmt::Display for TableRow {
    fn fmt<W: fmt::Write>(&self, f: &mut fmt::Formatter<W>) -> fmt::Result {
        let party = self.party;
        let Line {
            position,
            regulating,
            tenths: _,
            reading,
            imbalance,
            price,
            first,
            part,
            amount,
        } = self.line;
        write!(
            f,
            "{party:>5} {position:>9} {regulating:>11} {reading:>8} {imbalance:>10} {price:>6} {first:>13} {part:>10} {amount:>10}"
        )
    }
}

// The hour as a whole.
#[derive(Drop)]
struct Summary(Totals);

impl fmt::Display for Summary {
    fn fmt<W: fmt::Write>(&self, f: &mut fmt::Formatter<W>) -> fmt::Result {
        let Totals {
            parties: _,
            system,
            prices: Prices { long, short },
            remainder,
            weight,
            operator,
        } = self.0;
        write!(
            f,
            "system imbalance {system} kWh; prices {long} long, {short} short; N {remainder}, W {weight}; operator {operator}"
        )
    }
}

// The whole sheet, or why there is none.
#[derive(Drop)]
struct Table<'a>(&'a Balanced);

impl<'a> fmt::Display for Table<'a> {
    fn fmt<W: fmt::Write>(&self, f: &mut fmt::Formatter<W>) -> fmt::Result {
        let sheet = self.0;
        if let Some(refusal) = sheet.refusal() {
            let number = refusal.number();
            let place = refusal.place();
            return writeln!(f, "not evaluated: refusal {number}, place {place}");
        }
        let totals = sheet.totals();
        writeln!(f, "{COLUMNS}")?;
        // A line is asked for, and printed, by the party's number.
        for party in 1..=totals.parties {
            if let Some(line) = sheet.line(party) {
                let row = TableRow { party, line };
                writeln!(f, "{row}")?;
            }
        }
        let summary = Summary(totals);
        writeln!(f, "{summary}")
    }
}

// Prints the sheet of an hour under a title.
fn show<P: Pricing, S: Sharing>(
    rt: &HostRuntime,
    title: &str,
    cells: &[PlainCell],
    deliveries: &PlainRecord,
    pricing: &P,
    sharing: &S,
) -> anyhow::Result<()> {
    let sheet = settle_hour(10, cells, deliveries, pricing, sharing);
    let table = Table(&sheet);
    println!(rt; "{title}")?;
    println!(rt; "{table}")?;
    Ok(())
}

// The hours of the worked figures, by the ladder and the running rule.
fn show_worked(rt: &HostRuntime) -> anyhow::Result<()> {
    let hours = [
        (
            "Two parties that traded 1000 kWh: ladder, running",
            WorkedHour::Traded,
        ),
        (
            "The same hour, party 2's reading corrected: ladder, running",
            WorkedHour::Corrected,
        ),
        (
            "Nothing metered, party 1 delivers 100 kWh at 2000: ladder, running",
            WorkedHour::Unmetered,
        ),
    ];
    for (title, hour) in hours {
        let cells = worked_cells(hour);
        show(
            rt,
            title,
            &cells,
            &PlainRecord::default(),
            &Ladder,
            &Running,
        )?;
    }
    Ok(())
}

// The record of upward deliveries of 400 kWh at 3000 and 100 kWh at 5000.
fn two_deliveries() -> Option<PlainRecord> {
    let first = HourRecord::default().deliver(400, 3_000)?;
    Some(first.deliver(100, 5_000)?.to_plain())
}

// An hour with upward deliveries of 400 kWh at 3000 and 100 kWh at 5000, which party 1 made, while party 2 takes what it has not bought.
fn show_regulated(
    rt: &HostRuntime,
    title: &str,
    default: Price,
    reading: i64,
) -> anyhow::Result<()> {
    let delivers = PlainCell {
        regulating: 500,
        tenths: 1_700_000,
        metered: true,
        reading: 500,
        ..PlainCell::default()
    };
    let takes = PlainCell {
        metered: true,
        reading,
        ..PlainCell::default()
    };
    let Some(deliveries) = two_deliveries() else {
        return Ok(());
    };
    show(
        rt,
        title,
        &[delivers, takes],
        &deliveries,
        &Regulating { default },
        &LargestRemainder,
    )
}

// An hour in which party 2's reading is missing.
fn show_missing(rt: &HostRuntime) -> anyhow::Result<()> {
    let missing = PlainCell::default();
    let metered = PlainCell {
        metered: true,
        ..missing
    };
    show(
        rt,
        "Party 2 without a reading: ladder, running",
        &[metered, missing],
        &PlainRecord::default(),
        &Ladder,
        &Running,
    )
}

fn run(rt: &HostRuntime) -> anyhow::Result<()> {
    show_worked(rt)?;
    if let Some(default) = Price::new(4_000) {
        show_regulated(
            rt,
            "Upward 400 kWh at 3000 and 100 kWh at 5000, 2000 kWh lacking: regulating, largest remainder",
            default,
            -2_000,
        )?;
        show_regulated(
            rt,
            "The same deliveries, nothing lacking: regulating, largest remainder",
            default,
            0,
        )?;
    }
    show_missing(rt)
}

fn main(rt: HostRuntime) -> anyhow::Result<()> {
    run(&rt)
}
