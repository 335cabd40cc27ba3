// The statement of a party (docs/RULES.md, "book and show").
ghost use Rattle.std.specs.Prelude.{◌≡◌, ◌-◌, ◌<◌, length, pos, IfOk};
ghost use Rattle.needs.specs.Need.{need_of};
ghost use Rattle.cover.specs.Prices.{in_use};
ghost use Rattle.entries.specs.Fields.{verdict};
ghost use Rattle.book.specs.Standing.{index};
ghost use Rattle.book.specs.Checks.{balance_at};
ghost use Rattle.book.specs.Sales.{cells_of, states_of};
ghost use Rattle.book.specs.Held.{standing_on};
ghost use Rattle.book.specs.Books.{held, terms_by};
ghost use Rattle.book.specs.Posting.{show_refusal, statement_at, statement_on};

use crate::book::{Book, Ledger};
use crate::index;
use crate::statement::Statement;
use cover::prices::ParametricPrices;
use entries::check_party;
use entries::refusal::Refusal;
use needs::need;
use pricing::Pricing;
use sharing::Sharing;

impl Ledger<'_> {
    // What a party needs.
    fn need_now(&self, party: usize) -> i64
        requires { party < self.now.sizes.parties }
        ensures long { length (states_of self.now) ≡ self.now.sizes.days }
        ensures value { result ≡ pos (need_of in_use (states_of self.now) (cells_of self.now party)) }
    {
        let prices = ParametricPrices::in_use();
        need(&prices, self.day_states(), self.cells_of(party)).unwrap()
    }

    // A party's balance.
    fn balance(&self, party: usize) -> i64
        ensures { result ≡ balance_at (standing_on self.now) party }
    {
        let account = self.account(party);
        account.cash + account.settled
    }
}

impl<P: Pricing, S: Sharing> Book<'_, P, S> {
    // The statement of a party of the book.
    fn statement_of(&self, party: usize) -> Statement
        requires { party < self.now.ledger.sizes.parties }
        ensures { result ≡ statement_at (terms_by P.Pricing.map S.Sharing.map self.now) (standing_on (held self.now)) party }
    {
        Statement {
            balance: self.ledger.balance(party),
            need: self.ledger.need_now(party),
        }
    }

    // That the book has a party.
    fn check_shown(&self, party: i64) -> Result<(), Refusal>
        ensures value { result ≡ verdict (show_refusal (terms_by P.Pricing.map S.Sharing.map self.now) (held self.now) party) }
        ensures known { IfOk result (λ _. index party < self.now.ledger.sizes.parties) }
    {
        check_party(&self.ledger.sizes(), party)
    }

    // The statement of a party, which alters nothing.
    pub fn statement(&self, party: i64) -> Result<Statement, Refusal>
        ensures { result ≡ statement_on (terms_by P.Pricing.map S.Sharing.map self.now) (held self.now) party }
    {
        self.check_shown(party)?;
        Ok(self.statement_of(index(party)))
    }
}
