// Gathering: the rows of an hour from its cells.
ghost use Rattle.std.specs.Prelude.{◌≡◌, ◌≤◌, [], map, length, take, replicate, is_none, Some, None, MatchResult, position};
ghost use Rattle.hourly.specs.Cells.{read};
ghost use Rattle.hourly.specs.Records.{record_read};
ghost use Rattle.sheet.specs.Bounds.{RowWithin, RowsWithin, zero_row};
ghost use Rattle.sheet.specs.Gathering.{facts, gather_refusal, no_facts, row_of, row_page, rows_gathered, told};

use super::gathered::Gathered;
use super::row::{Row, SheetRefusal};
use hourly::cell::Cell;
use hourly::plain::{PlainCell, PlainRecord};
use hourly::record::HourRecord;
use refusals::{Tells, Told};

impl Tells for SheetRefusal {
    ghost told = { told };

    fn told(&self) -> Told {
        let (number, place) = match self {
            SheetRefusal::Parties => (11, 0),
            SheetRefusal::Day { day } => (2, *day),
            SheetRefusal::Hour { hour } => (3, *hour),
            SheetRefusal::Reading { hour, party } => {
                (10, i64::from(*hour) * 100 + i64::from(*party))
            }
        };
        Told { number, place }
    }
}

// What an evaluation reads of a cell.
fn row_at(p: &PlainCell) -> Row
    ensures value { result ≡ row_of (read p.now) }
    ensures within { RowWithin result }
{
    let cell = Cell::from_plain(p);
    let reading = cell.reading.unwrap_or(0);
    Row {
        position: cell.position,
        regulating: cell.regulating,
        tenths: cell.tenths,
        reading,
    }
}

// Rows of zeros.
fn no_rows() -> [Row; 20]
    ensures value { result ≡ replicate 20 zero_row }
    ensures within { RowsWithin result }
{
    [Row {
        position: 0,
        regulating: 0,
        tenths: 0,
        reading: 0,
    }; 20]
}

// The rows of the cells, and rows of zeros past them.
fn rows_of(cells: &[PlainCell]) -> [Row; 20]
    requires { length cells.now ≤ 20 }
    ensures page { result ≡ row_page (map row_of (map read cells.now)) }
    ensures value { take (length cells.now) result ≡ map row_of (map read cells.now) }
    ensures within { RowsWithin result }
{
    let mut rows = no_rows();
    for (i, cell) in cells.iter().enumerate() {
        rows[i] = row_at(cell);
    }
    rows
}

// Whether a cell has no reading.
fn lacks_reading(p: &PlainCell) -> bool
    ensures { result ≡ is_none (read p.now).reading }
{
    Cell::from_plain(p).reading.is_none()
}

// The place of the first cell that has no reading.
fn first_without_reading(cells: &[PlainCell]) -> Option<usize>
    ensures { result ≡ position (λ p. is_none (read p).reading) cells.now }
{
    cells.iter().position(lacks_reading)
}

// Refuses an hour that is not of a day or whose cells are not those of 1 to 20 parties, each with a reading.
fn admit(hour: i64, cells: &[PlainCell]) -> Result<(), SheetRefusal>
    ensures { MatchResult result (λ _. (gather_refusal hour (map read cells.now) ≡ None) × (length cells.now ≤ 20)) (λ e. gather_refusal hour (map read cells.now) ≡ Some e) }
{
    if cells.is_empty() || cells.len() > 20 {
        return Err(SheetRefusal::Parties);
    }
    if hour < 1 || hour > 24 {
        return Err(SheetRefusal::Hour { hour });
    }
    match first_without_reading(cells) {
        Some(at) => Err(SheetRefusal::Reading {
            hour: hour as u8,
            party: at as u8 + 1,
        }),
        None => Ok(()),
    }
}

impl Gathered {
    // The sheet of an hour whose cells, one for each party in order, and regulating deliveries lie as plain numbers.
    pub fn gather(hour: i64, cells: &[PlainCell], deliveries: &PlainRecord) -> Gathered
        ensures refusal { result.refusal ≡ gather_refusal hour (map read cells.now) }
        ensures rows { (facts result).rows ≡ rows_gathered hour (map read cells.now) }
        ensures page { result.rows ≡ row_page (rows_gathered hour (map read cells.now)) }
        ensures deliveries { (facts result).deliveries ≡ record_read deliveries.now }
    {
        let deliveries = HourRecord::from_plain(deliveries);
        match admit(hour, cells) {
            Ok(()) => Gathered {
                count: cells.len(),
                rows: rows_of(cells),
                deliveries,
                refusal: None,
            },
            Err(refusal) => Gathered {
                count: 0,
                rows: no_rows(),
                deliveries,
                refusal: Some(refusal),
            },
        }
    }

    // A sheet that met a refusal before any cell was looked at: no party and no delivery.
    pub fn refused(refusal: SheetRefusal) -> Gathered
        ensures refusal { result.refusal ≡ Some refusal }
        ensures facts { facts result ≡ no_facts }
        ensures page { result.rows ≡ row_page [] }
    {
        let rows = no_rows();
        let deliveries = HourRecord::default();
        let refusal = Some(refusal);
        Gathered {
            count: 0,
            rows,
            deliveries,
            refusal,
        }
    }

    // The refusal that gathering met, if any.
    pub fn refusal(&self) -> Option<SheetRefusal>
        ensures { result ≡ self.now.refusal }
    {
        self.refusal
    }
}
