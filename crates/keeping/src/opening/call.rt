// The line call: one line in, its answer out (docs/RULES.md, "The line call").
ghost use Rattle.std.specs.Prelude.{◌≡◌};
ghost use Rattle.book.specs.Books.{held};
ghost use Rattle.keeping.specs.View.{View, rules_of, view};
ghost use Rattle.keeping.specs.Entered.{after_in, answer_in, book_after, book_answer, replied, stated};
ghost use Rattle.keeping.specs.Answered.{Answered, Entered, LineCall};
ghost use Rattle.keeping.specs.Cutting.{answered_cut};

use super::{asked, open_on};
use crate::keeper::{Journal, Stage};
use crate::refusal::Refusal;
use answers::Answer;
use book::book::Book;
use book::pages::Pages;
use book::statement::Statement;
use entries::entry::Sizes;
use entries::refusal::Refusal as BookRefusal;
use entries::reply::{Receipt, Reply};
use journal::Keeping;
use rules::choice::{ChosenPricing, ChosenSharing};
use std::mem;
use words::Form;

// What the book's reply is answered; of an evaluation, the payments of so many parties.
fn replied(parties: u8, reply: Reply) -> Result<Answer, Refusal>
    ensures { result ≡ replied parties reply }
{
    match reply? {
        Receipt::Accepted => Ok(Answer::Accepted),
        Receipt::Paid { payments, operator } => Ok(Answer::Paid {
            parties: parties as usize,
            payments,
            operator,
        }),
    }
}

// A party's statement as an answer.
fn stated(party: i64, statement: Result<Statement, BookRefusal>) -> Result<Answer, Refusal>
    ensures { result ≡ stated party statement }
{
    let Statement { balance, need } = statement?;
    Ok(Answer::Statement {
        party,
        balance,
        need,
    })
}

// What a form is answered by a book.
fn answered_by(
    book: &mut Book<'_, ChosenPricing, ChosenSharing>,
    form: &Form,
) -> Result<Answer, Refusal>
    ensures answer { result ≡ book_answer (rules_of book.old) (held book.old) form.now }
    ensures after { held book.new ≡ book_after (rules_of book.old) (held book.old) form.now }
    ensures rules { rules_of book.new ≡ rules_of book.old }
{
    match form {
        Form::Book { .. } => Err(Refusal::SecondBook),
        Form::Entry(entry) => {
            let Sizes { parties, .. } = book.sizes();
            replied(parties, book.enter(entry))
        }
        Form::Show { party } => stated(*party, book.statement(*party)),
    }
}

impl Journal<'_> {
    // What a form is answered. A book that is accepted takes the pages, and lies on their first parts.
    fn answer(&mut self, form: &Form) -> Result<Answer, Refusal>
        ensures answer { result ≡ answer_in (view self.old) form.now }
        ensures after { view self.new ≡ after_in (view self.old) form.now }
    {
        match &mut self.stage {
            Stage::Empty(pages) => {
                let opening = asked(&self.limits, pages, form)?;
                let pages = Pages {
                    cells: mem::take(&mut pages.cells),
                    records: mem::take(&mut pages.records),
                };
                self.stage = Stage::Opened(open_on(pages, &opening));
                Ok(Answer::Accepted)
            }
            Stage::Opened(book) => answered_by(book, form),
        }
    }

    // The layers in their order.
    fn enter(&mut self, line: &[u8]) -> Result<Answer, Refusal>
        ensures { Entered (view self.old) line.now result (view self.new) }
    {
        let form = words::read(line)?;
        self.answer(&form)
    }

    // The line call.
    pub fn answer_line(&mut self, out: &mut [u8], number: i64, line: &[u8]) -> Option<usize>
        ensures { LineCall (view self.old) out.old number line.now result (view self.new) out.new }
    {
        self.answer_line_kept(out, number, line)
    }
}

impl Keeping for Journal<'_> {
    ghost kept = { View };

    ghost view = { view };

    ghost answered = { Answered };

    ghost cut = { answered_cut };

    fn answer_to_kept(&mut self, line: &[u8]) -> Answer {
        self.enter(line)
            .unwrap_or_else(|refusal| journal::refused(refusal.told()))
    }
}
