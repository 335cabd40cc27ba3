// The calls that make one kind of entry each (docs/RULES.md, "Entries"). Fields are the numbers as given, of whatever size.
// Each says in full what it leaves as it was, as every public call of the repository does: whoever makes a call reads its contract alone.
#![tactic(auto)]

ghost use Rattle.std.specs.Prelude.{◌≡◌};
ghost use Rattle.entries.specs.declared.entry.Entry.TheVariants.{Close, Deposit, Market, Meter, Register, Regulate, Withdraw};
ghost use Rattle.book.specs.Books.{held, terms_by};
ghost use Rattle.book.specs.Posting.{afterwards, reply_on};

use book::book::Book;
use entries::entry::Entry;
use entries::reply::Reply;
use pricing::Pricing;
use sharing::Sharing;

// Adds to a party's cash.
pub fn deposit<P: Pricing, S: Sharing>(book: &mut Book<'_, P, S>, party: i64, haler: i64) -> Reply
    ensures reply { result ≡ reply_on (terms_by P.Pricing.map S.Sharing.map book.old) (held book.old) (Deposit party haler) }
    ensures held { held book.new ≡ afterwards (terms_by P.Pricing.map S.Sharing.map book.old) (held book.old) (Deposit party haler) }
    ensures pricing { book.new.pricing ≡ book.old.pricing }
    ensures sharing { book.new.sharing ≡ book.old.sharing }
{
    let payment = Entry::Deposit { party, haler };
    book.enter(&payment)
}

// Takes from a party's cash.
pub fn withdraw<P: Pricing, S: Sharing>(book: &mut Book<'_, P, S>, party: i64, haler: i64) -> Reply
    ensures reply { result ≡ reply_on (terms_by P.Pricing.map S.Sharing.map book.old) (held book.old) (Withdraw party haler) }
    ensures held { held book.new ≡ afterwards (terms_by P.Pricing.map S.Sharing.map book.old) (held book.old) (Withdraw party haler) }
    ensures pricing { book.new.pricing ≡ book.old.pricing }
    ensures sharing { book.new.sharing ≡ book.old.sharing }
{
    let payout = Entry::Withdraw { party, haler };
    book.enter(&payout)
}

// Registers what a seller sells a buyer in each hour of a range.
pub fn register<P: Pricing, S: Sharing>(
    book: &mut Book<'_, P, S>,
    day: i64,
    from: i64,
    to: i64,
    seller: i64,
    buyer: i64,
    kwh: i64,
) -> Reply
    ensures reply { result ≡ reply_on (terms_by P.Pricing.map S.Sharing.map book.old) (held book.old) (Register day from to seller buyer kwh) }
    ensures held { held book.new ≡ afterwards (terms_by P.Pricing.map S.Sharing.map book.old) (held book.old) (Register day from to seller buyer kwh) }
    ensures pricing { book.new.pricing ≡ book.old.pricing }
    ensures sharing { book.new.sharing ≡ book.old.sharing }
{
    let registration = Entry::Register {
        day,
        from,
        to,
        seller,
        buyer,
        kwh,
    };
    book.enter(&registration)
}

// Enters a trade made on the market, which moves cash from buyer to seller too.
pub fn market<P: Pricing, S: Sharing>(
    book: &mut Book<'_, P, S>,
    day: i64,
    from: i64,
    to: i64,
    seller: i64,
    buyer: i64,
    kwh: i64,
    price: i64,
) -> Reply
    ensures reply { result ≡ reply_on (terms_by P.Pricing.map S.Sharing.map book.old) (held book.old) (Market day from to seller buyer kwh price) }
    ensures held { held book.new ≡ afterwards (terms_by P.Pricing.map S.Sharing.map book.old) (held book.old) (Market day from to seller buyer kwh price) }
    ensures pricing { book.new.pricing ≡ book.old.pricing }
    ensures sharing { book.new.sharing ≡ book.old.sharing }
{
    let trade = Entry::Market {
        day,
        from,
        to,
        seller,
        buyer,
        kwh,
        price,
    };
    book.enter(&trade)
}

// Ends trading for a day.
pub fn close<P: Pricing, S: Sharing>(book: &mut Book<'_, P, S>, day: i64) -> Reply
    ensures reply { result ≡ reply_on (terms_by P.Pricing.map S.Sharing.map book.old) (held book.old) (Close day) }
    ensures held { held book.new ≡ afterwards (terms_by P.Pricing.map S.Sharing.map book.old) (held book.old) (Close day) }
    ensures pricing { book.new.pricing ≡ book.old.pricing }
    ensures sharing { book.new.sharing ≡ book.old.sharing }
{
    let end = Entry::Close { day };
    book.enter(&end)
}

// Enters a delivery of regulating energy.
pub fn regulate<P: Pricing, S: Sharing>(
    book: &mut Book<'_, P, S>,
    day: i64,
    hour: i64,
    party: i64,
    kwh: i64,
    price: i64,
) -> Reply
    ensures reply { result ≡ reply_on (terms_by P.Pricing.map S.Sharing.map book.old) (held book.old) (Regulate day hour party kwh price) }
    ensures held { held book.new ≡ afterwards (terms_by P.Pricing.map S.Sharing.map book.old) (held book.old) (Regulate day hour party kwh price) }
    ensures pricing { book.new.pricing ≡ book.old.pricing }
    ensures sharing { book.new.sharing ≡ book.old.sharing }
{
    let delivery = Entry::Regulate {
        day,
        hour,
        party,
        kwh,
        price,
    };
    book.enter(&delivery)
}

// Sets a party's reading in each hour of a range.
pub fn meter<P: Pricing, S: Sharing>(
    book: &mut Book<'_, P, S>,
    day: i64,
    from: i64,
    to: i64,
    party: i64,
    kwh: i64,
) -> Reply
    ensures reply { result ≡ reply_on (terms_by P.Pricing.map S.Sharing.map book.old) (held book.old) (Meter day from to party kwh) }
    ensures held { held book.new ≡ afterwards (terms_by P.Pricing.map S.Sharing.map book.old) (held book.old) (Meter day from to party kwh) }
    ensures pricing { book.new.pricing ≡ book.old.pricing }
    ensures sharing { book.new.sharing ≡ book.old.sharing }
{
    let reading = Entry::Meter {
        day,
        from,
        to,
        party,
        kwh,
    };
    book.enter(&reading)
}

#[cfg(test)]
mod tests;
