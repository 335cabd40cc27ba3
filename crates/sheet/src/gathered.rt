ghost use Rattle.std.specs.Prelude.{◌≤◌};
ghost use Rattle.sheet.specs.Bounds.{RowsWithin};

use super::row::{Row, SheetRefusal};
use hourly::record::HourRecord;

// A gathered sheet: the rows of the hour's parties and the hour's regulating deliveries. A sheet that met a refusal has no party.
// Here and in the sheets made of it a count stands beside arrays of 20 places, and the refusal beside both: sheets are small values that are moved, with no heap.
#[derive(Drop)]
pub struct Gathered {
    pub(crate) count: usize,
    pub(crate) rows: [Row; 20],
    pub(crate) deliveries: HourRecord,
    pub(crate) refusal: Option<SheetRefusal>,
    ghost few: { count ≤ 20 },
    ghost within: { RowsWithin rows },
}
