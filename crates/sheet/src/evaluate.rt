// One hour from the first step to the last.
ghost use Rattle.std.specs.Prelude.{◌≡◌, map};
ghost use Rattle.hourly.specs.Cells.{read};
ghost use Rattle.hourly.specs.Records.{record_read};
ghost use Rattle.sheet.specs.Gathering.{gather_refusal};
ghost use Rattle.sheet.specs.Sheets.{Conserves, evaluated, hour_facts, written};

use super::balanced::Balanced;
use super::gathered::Gathered;
use hourly::plain::{PlainCell, PlainRecord};
use pricing::Pricing;
use sharing::Sharing;

// The three steps, one after the other. Its contract is that of `settle_hour`: a public function has no proof file of its own, so that a wrong body of it is refused by what it promises.
fn evaluate<P: Pricing, S: Sharing>(
    hour: i64,
    cells: &[PlainCell],
    deliveries: &PlainRecord,
    pricing: &P,
    sharing: &S,
) -> Balanced
    ensures refusal { result.priced.gathered.refusal ≡ gather_refusal hour (map read cells.now) }
    ensures evaluated { written result ≡ evaluated (P.Pricing.map pricing.now) (S.Sharing.map sharing.now) (hour_facts hour (map read cells.now) (record_read deliveries.now)) }
    ensures conserves { Conserves (P.Pricing.map pricing.now) (S.Sharing.map sharing.now) }
{
    Gathered::gather(hour, cells, deliveries)
        .price(pricing)
        .balance(sharing)
}

// Evaluates an hour whose cells, one for each party in order, and regulating deliveries lie as plain numbers. Where gathering meets a refusal the sheet has no party, and carries it.
pub fn settle_hour<P: Pricing, S: Sharing>(
    hour: i64,
    cells: &[PlainCell],
    deliveries: &PlainRecord,
    pricing: &P,
    sharing: &S,
) -> Balanced
    ensures refusal { result.priced.gathered.refusal ≡ gather_refusal hour (map read cells.now) }
    ensures evaluated { written result ≡ evaluated (P.Pricing.map pricing.now) (S.Sharing.map sharing.now) (hour_facts hour (map read cells.now) (record_read deliveries.now)) }
    ensures conserves { Conserves (P.Pricing.map pricing.now) (S.Sharing.map sharing.now) }
{
    evaluate(hour, cells, deliveries, pricing, sharing)
}
