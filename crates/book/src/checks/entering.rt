// Entering: what passes every check is written (docs/RULES.md, "Entries").
ghost use Rattle.std.specs.Prelude.{◌≡◌};
ghost use Rattle.entries.specs.Fields.{verdict};
ghost use Rattle.book.specs.Books.{held, terms_by};
ghost use Rattle.book.specs.Posting.{afterwards, refusal_on, reply_on};

use crate::book::Book;
use entries::entry::Entry;
use entries::refusal::Refusal;
use entries::reply::{Receipt, Reply};
use pricing::Pricing;
use sharing::Sharing;

impl<P: Pricing, S: Sharing> Book<'_, P, S> {
    // Enters an entry, if nothing refuses it. Apart from `enter`, since a public function has no proof file of its own.
    fn post(&mut self, entry: &Entry) -> Result<(), Refusal>
        ensures answer { result ≡ verdict (refusal_on (terms_by P.Pricing.map S.Sharing.map self.old) (held self.old) entry.now) }
        ensures held { held self.new ≡ afterwards (terms_by P.Pricing.map S.Sharing.map self.old) (held self.old) entry.now }
        ensures pricing { self.new.pricing ≡ self.old.pricing }
        ensures sharing { self.new.sharing ≡ self.old.sharing }
    {
        self.check(entry)?;
        self.ledger.write(entry);
        Ok(())
    }

    // Enters an entry of any kind. A refusal leaves everything as it was.
    pub fn enter(&mut self, entry: &Entry) -> Reply
        ensures answer { result ≡ reply_on (terms_by P.Pricing.map S.Sharing.map self.old) (held self.old) entry.now }
        ensures held { held self.new ≡ afterwards (terms_by P.Pricing.map S.Sharing.map self.old) (held self.old) entry.now }
        ensures pricing { self.new.pricing ≡ self.old.pricing }
        ensures sharing { self.new.sharing ≡ self.old.sharing }
    {
        self.post(entry)?;
        Ok(Receipt::Accepted)
    }
}
