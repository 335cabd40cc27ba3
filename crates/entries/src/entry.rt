// What may be entered in a book (docs/RULES.md, "Entries"). Fields are the numbers as given, of whatever size, so that a refusal can name them.
#[derive(Clone, Copy)]
pub enum Entry {
    Deposit {
        party: i64,
        haler: i64,
    },
    Withdraw {
        party: i64,
        haler: i64,
    },
    Register {
        day: i64,
        from: i64,
        to: i64,
        seller: i64,
        buyer: i64,
        kwh: i64,
    },
    Market {
        day: i64,
        from: i64,
        to: i64,
        seller: i64,
        buyer: i64,
        kwh: i64,
        price: i64,
    },
    Close {
        day: i64,
    },
    Regulate {
        day: i64,
        hour: i64,
        party: i64,
        kwh: i64,
        price: i64,
    },
    Meter {
        day: i64,
        from: i64,
        to: i64,
        party: i64,
        kwh: i64,
    },
    Evaluate {
        day: i64,
        stage: i64,
    },
}

// Where a day stands, in the order that it moves through.
#[derive(Clone, Copy, PartialEq, Eq)]
pub enum DayState {
    Open,
    Closed,
    Daily,
    Monthly,
    Final,
}

// How many parties and days a book has.
#[derive(Clone, Copy)]
pub struct Sizes {
    pub parties: u8,
    pub days: u8,
}
