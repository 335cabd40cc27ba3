// Why a line is refused, the faults of the layers below and the book's refusals carried whole (docs/RULES.md, "Refusals").
ghost use Rattle.std.specs.Prelude.{◌≡◌};
ghost use Rattle.keeping.specs.Told.{told};
ghost use Rattle.keeping.specs.declared.refusal.Refusal.TheVariants.{Words, Book};

use entries::refusal::Refusal as BookRefusal;
use refusals::Tells;
use words::{Told, WordFault};

// The cases of a journal without a book stand among them, and not in one case that holds its `Refusal`: a word fault then took two steps to come in.
#[derive(Clone, Copy)]
pub enum Refusal {
    // What the layers below refuse.
    Words(WordFault),
    // A form that comes before an accepted book.
    NotOpened,
    // A `book` after an accepted one.
    SecondBook,
    // What the book refuses, or its opening.
    Book(BookRefusal),
}

// Both by hand: clauses rest on what a `?` makes of a fault or a refusal, which no derive states.
impl From<WordFault> for Refusal {
    ghost from_gives = { λ f r. r ≡ Words f };

    fn from(fault: WordFault) -> Refusal {
        Refusal::Words(fault)
    }
}

impl From<BookRefusal> for Refusal {
    ghost from_gives = { λ f r. r ≡ Book f };

    fn from(given: BookRefusal) -> Refusal {
        Refusal::Book(given)
    }
}

impl Refusal {
    // The refusal's layer, number and place.
    pub fn told(&self) -> Told
        ensures { result ≡ told self.now }
    {
        match self {
            Refusal::Words(word_fault) => word_fault.told(),
            Refusal::NotOpened | Refusal::SecondBook => Told {
                layer: 3,
                number: 13,
                place: 0,
            },
            Refusal::Book(refusal) => Told {
                layer: 3,
                number: refusal.number(),
                place: refusal.place(),
            },
        }
    }
}
