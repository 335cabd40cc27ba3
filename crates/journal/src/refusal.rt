// Why a line is refused, the faults of the layers below carried whole (docs/RULES.md, "Refusals").
ghost use Rattle.std.specs.Prelude.{◌≡◌};
ghost use Rattle.journal.specs.Told.{told, refused_by};
ghost use Rattle.journal.specs.declared.refusal.Refusal.TheVariants.{Words};

use answers::Answer;
use words::{Told, WordFault};

#[derive(Clone, Copy)]
pub enum Refusal {
    // What the layers below refuse.
    Words(WordFault),
    // A form that comes before an accepted book.
    NotOpened,
}

// By hand: a clause rests on what a `?` makes of the fault, which no derive states.
impl From<WordFault> for Refusal {
    ghost from_gives = { λ f r. r ≡ Words f };

    fn from(fault: WordFault) -> Refusal {
        Refusal::Words(fault)
    }
}

impl Refusal {
    // The refusal's layer, number and place.
    pub fn told(&self) -> Told
        ensures { result ≡ told self.now }
    {
        match self {
            Refusal::Words(word_fault) => word_fault.told(),
            Refusal::NotOpened => Told {
                layer: 3,
                number: 13,
                place: 0,
            },
        }
    }
}

// The answer that tells a refusal.
pub fn refused(told: Told) -> Answer
    ensures { result ≡ refused_by told }
{
    Answer::Refused {
        layer: told.layer,
        number: told.number,
        place: told.place,
    }
}
