// A book and the history of its entries (docs/RULES.md, "Histories"), for the kinds of entry that a book takes today.
#![tactic(auto)]

ghost use Rattle.std.specs.Prelude.{◌≡◌};
ghost use Rattle.book.specs.Books.{held, terms_by};
ghost use Rattle.book.specs.Posting.{afterwards, reply_on};
ghost use Rattle.histories.specs.Agreement.{AlwaysAgree, Follows, OpenedReflects};
ghost use Rattle.histories.specs.Covered.{KeepsCover, LeavesCovered};

use book::book::Book;
use entries::entry::Entry;
use entries::reply::Reply;
use pricing::Pricing;
use sharing::Sharing;

// The book's own entering, seen from its histories. Its contract is that of `enter`: a public function has no proof file of its own.
fn followed<P: Pricing, S: Sharing>(book: &mut Book<'_, P, S>, entry: &Entry) -> Reply
    ensures reply { result ≡ reply_on (terms_by P.Pricing.map S.Sharing.map book.old) (held book.old) entry.now }
    ensures held { held book.new ≡ afterwards (terms_by P.Pricing.map S.Sharing.map book.old) (held book.old) entry.now }
    ensures pricing { book.new.pricing ≡ book.old.pricing }
    ensures sharing { book.new.sharing ≡ book.old.sharing }
    ensures follows { Follows (terms_by P.Pricing.map S.Sharing.map book.old) (held book.old) entry.now result (held book.new) }
    ensures opening { OpenedReflects }
    ensures agreement { AlwaysAgree }
    ensures cover { KeepsCover }
    ensures named { LeavesCovered }
{
    book.enter(entry)
}

// Enters an entry of any kind, as the book itself does. Of every history that the book reflects, the reply is the one that the history gives, and the book then reflects that history with the
// entry added. With this stand the laws that follow from it: a newly opened book reflects the empty history, so that book and history agree after any entries; no entry but
// an evaluation takes a party from covered to uncovered; and an accepted registration, trade or withdrawal leaves the parties that it names covered.
pub fn enter<P: Pricing, S: Sharing>(book: &mut Book<'_, P, S>, entry: &Entry) -> Reply
    ensures reply { result ≡ reply_on (terms_by P.Pricing.map S.Sharing.map book.old) (held book.old) entry.now }
    ensures held { held book.new ≡ afterwards (terms_by P.Pricing.map S.Sharing.map book.old) (held book.old) entry.now }
    ensures pricing { book.new.pricing ≡ book.old.pricing }
    ensures sharing { book.new.sharing ≡ book.old.sharing }
    ensures follows { Follows (terms_by P.Pricing.map S.Sharing.map book.old) (held book.old) entry.now result (held book.new) }
    ensures opening { OpenedReflects }
    ensures agreement { AlwaysAgree }
    ensures cover { KeepsCover }
    ensures named { LeavesCovered }
{
    followed(book, entry)
}
