use std::marker::Model;

// What an evaluation reads of a party's hour: position, regulating kWh and tenths, and the reading, which is there. None exists outside the bounds of a cell.
#[derive(Clone, Copy)]
pub struct Row {
    pub position: i64,
    pub regulating: i64,
    pub tenths: i64,
    pub reading: i64,
}

impl Model for Row {
    ghost use Rattle.sheet.specs.Bounds.{RowFigures, RowWithin};

    ghost Value = { RowFigures };

    ghost view = { λ r. record { position = r.position; regulating = r.regulating; tenths = r.tenths; reading = r.reading } };

    ghost invariant = { λ r. RowWithin (record { position = r.position; regulating = r.regulating; tenths = r.tenths; reading = r.reading }) };

    ghost inverse = { λ f. record { position = f.position; regulating = f.regulating; tenths = f.tenths; reading = f.reading } };
}

// Why a sheet cannot be gathered. Some of the cases stand among a book's refusals too; a sheet knows of no book, and has no others.
#[derive(Clone, Copy, PartialEq, Eq, Debug)]
pub enum SheetRefusal {
    Parties,
    Day { day: i64 },
    Hour { hour: i64 },
    Reading { hour: u8, party: u8 },
}
