// What every refusal tells: its number and its place (docs/RULES.md, "Refusals").
#![tactic(auto)]

ghost use Rattle.std.specs.Prelude.{◌≡◌};
ghost use Rattle.refusals.specs.declared.Told.{Told};

// The number of a refusal, and the place that it is told with.
#[derive(Clone, Copy, PartialEq, Eq, Debug)]
pub struct Told {
    pub number: u8,
    pub place: i64,
}

// A refusal: one definition gives both its number and its place.
pub trait Tells {
    ghost told: { Self → Told };

    fn told(&self) -> Told
        ensures { result ≡ told self.now };

    fn number(&self) -> u8
        ensures { result ≡ (told self.now).number }
    {
        self.told().number
    }

    fn place(&self) -> i64
        ensures { result ≡ (told self.now).place }
    {
        self.told().place
    }
}
