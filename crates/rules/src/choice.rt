// The rules in use, as one type each: whoever picks a rule by its number has a value of these.
// The default is a plain number, and no `Price`: a type that holds lent pages, as a book does, gets no proof beside a struct with a ghost field.

#[derive(Clone, Copy)]
pub enum ChosenPricing {
    Regulating { default: i64 },
    Ladder,
}

#[derive(Clone, Copy)]
pub enum ChosenSharing {
    Running,
    LargestRemainder,
}

// What a book names for good.
#[derive(Clone, Copy)]
pub struct Rules {
    pub pricing: ChosenPricing,
    pub sharing: ChosenSharing,
}
