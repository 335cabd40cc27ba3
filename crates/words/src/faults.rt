// Why a line is no form that can be entered, and what is told of it.
ghost use Rattle.std.specs.Prelude.{◌≡◌, pos};
ghost use Rattle.words.specs.Told.{told};
ghost use Rattle.words.specs.declared.faults.WordFault.TheVariants.{Bracket};

use brackets::BracketFault;

// A fault of layer 1, carried whole, or one of layer 2; columns count from 1.
#[derive(Clone, Copy, Debug, PartialEq, Eq)]
pub enum WordFault {
    Bracket(BracketFault),
    Head,
    Field { column: u8 },
    Number { column: u8 },
}

// By hand: a clause of `read` rests on what a `?` makes of the fault, which no derive states.
impl From<BracketFault> for WordFault {
    ghost from_gives = { λ f r. r ≡ Bracket f };

    fn from(f: BracketFault) -> WordFault {
        WordFault::Bracket(f)
    }
}

// A refusal as it is answered: with its layer, which what a book or a rule tells of a refusal has not.
#[derive(Clone, Copy, Debug, PartialEq, Eq)]
pub struct Told {
    pub layer: u8,
    pub number: u8,
    pub place: i64,
}

// A refusal that is told at a column.
fn at_column(layer: u8, number: u8, column: u8) -> Told
    ensures { result ≡ record { layer = layer; number = number; place = pos column } }
{
    let place = i64::from(column);
    Told {
        layer,
        number,
        place,
    }
}

impl WordFault {
    // The fault's layer, number and place.
    pub fn told(&self) -> Told
        ensures { result ≡ told self.now }
    {
        match *self {
            WordFault::Bracket(BracketFault::Long) => at_column(1, 23, 201),
            WordFault::Bracket(BracketFault::Byte { column }) => at_column(1, 21, column),
            WordFault::Bracket(BracketFault::Shape { column }) => at_column(1, 22, column),
            WordFault::Head => at_column(2, 31, 2),
            WordFault::Field { column } => at_column(2, 32, column),
            WordFault::Number { column } => at_column(2, 33, column),
        }
    }
}
