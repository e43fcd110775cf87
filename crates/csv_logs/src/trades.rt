//! The lines of a trade log.
ghost use Rattle.std.specs.Prelude.{◌≡◌, Err, IfErr, IfOk, Ok, OnOk};
ghost use Rattle.csv_logs.specs.Columns.{test_result};
ghost use Rattle.csv_logs.specs.Steps.{TakesFields, entry_says};
ghost use Rattle.csv_logs.specs.TradeLines.{HasPartyNames, HasTradeNames, row_parties, trade_of_row, written_parties, written_trade};
ghost use Rattle.log_source.specs.Collectors.{HasPlace};

use crate::columns::{known_key, known_name, price_at, quantity_at, stamp_at, test_key, test_name};
use crate::nine_fields::NineFields;
use audit_base::faults::{NoMemory, Reason};
use audit_base::numbers::{Price, Quantity};
use audit_base::records::TradeRecord;
use audit_base::stamp_reader::StampReader;
use audit_base::stamps::Stamp;
use log_source::collector::Collector;

/// Whether columns 4 to 7 hold names: firm and id of the bid, then those of the ask.
#[inline(always)]
fn test_parties(fields: &NineFields<'_>) -> Result<(), Reason>
    ensures tests { result ≡ test_result (row_parties fields.now) }
    ensures named { OnOk result (HasPartyNames fields.now) }
    ensures read { OnOk result (row_parties fields.now ≡ Ok (written_parties fields.now)) }
    ensures why { IfErr result (λ why. row_parties fields.now ≡ Err why) }
{
    test_key(4, fields)?;
    test_key(6, fields)
}

/// What a trade line says apart from names.
#[derive(Clone, Copy)]
pub(crate) struct TradeTerms {
    pub(crate) time: Stamp,
    pub(crate) quantity: Quantity,
    pub(crate) price: Price,
}

/// Tests all nine columns in turn, and gives what they say apart from names.
#[tactic(auto, unfolding(crate::specs::TradeLines::trade_of_row))]
fn trade_terms(fields: &NineFields<'_>, stamps: &mut StampReader) -> Result<TradeTerms, Reason>
    ensures named { OnOk result (HasTradeNames fields.now) }
    ensures read { IfOk result
        (λ terms. trade_of_row fields.now ≡ Ok (written_trade terms fields.now)) }
    ensures why { IfErr result (λ why. trade_of_row fields.now ≡ Err why) }
{
    test_name(1, fields)?;
    let time = stamp_at(2, fields, stamps)?;
    test_name(3, fields)?;
    test_parties(fields)?;
    let quantity = quantity_at(8, fields)?;
    let price = price_at(9, fields)?;
    Ok(TradeTerms {
        time,
        quantity,
        price,
    })
}

/// Hands on the record that nine fields mean in a trade log, or gives the first column that is
/// not in its form. The record is made where it is handed on, and not copied.
pub(crate) fn take_trade<K: Collector<Entry = TradeRecord>>(
    entries: &mut K,
    fields: &NineFields<'_>,
    stamps: &mut StampReader,
) -> Result<Result<(), Reason>, NoMemory>
    requires { HasPlace K.has_taken entries.old }
    ensures { let says = entry_says (trade_of_row fields.now) in
        IfOk result (TakesFields says (K.has_taken entries.old) (K.has_taken entries.new)) }
{
    match trade_terms(fields, stamps) {
        Ok(terms) => {
            entries.take(TradeRecord {
                trade: known_name(1, fields),
                time: terms.time,
                symbol: known_name(3, fields),
                buy: known_key(4, fields),
                sell: known_key(6, fields),
                quantity: terms.quantity,
                price: terms.price,
            })?;
            Ok(Ok(()))
        }
        Err(why) => Ok(Err(why)),
    }
}

/// Whether nine fields mean a record in a trade log, or else the first column
/// that is not in its form.
pub(crate) fn test_trade(fields: &NineFields<'_>, stamps: &mut StampReader) -> Result<(), Reason>
    ensures { result ≡ test_result (trade_of_row fields.now) }
{
    trade_terms(fields, stamps)?;
    Ok(())
}
