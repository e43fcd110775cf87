//! All offences of a rejected log, as they are told. After `NoMemory` nothing is known of `out`.
ghost use Rattle.std.specs.Prelude.{◌≡◌, ◌++◌, [], ◌∷◌, IfOk, OnOk};
ghost use Rattle.audit_base.specs.Deals.{IsDealList};
ghost use Rattle.audit_base.specs.Orders.{IsOrderList};
ghost use Rattle.call_offences.specs.Inside.{AreOffencesInside, IsListingInside, IsOffenceInside};
ghost use Rattle.call_offences.specs.Listings.{findings_of_listing};
ghost use Rattle.offence_list.specs.ListedOffences.{finding_of_offence, findings_of_offences};
ghost use Rattle.offence_list.specs.Offences.{continuous_offences_of, offence_kind};
ghost use Rattle.offence_list.specs.OffenceTexts.{offence_line};
ghost use Rattle.symbol_offences.specs.OffenceLines.{offence_lines, quoted_offence};
ghost use Rattle.symbol_offences.specs.Quotes.{quotes_with};
ghost use Rattle.symbol_offences.specs.SymbolBeforeRule.{AreInLogOrder};
ghost use Rattle.symbol_offences.specs.Telling.{IsListingUnder, offences_quoted};

use crate::quotes::{append_quotes, ending_place};
use crate::symbol_before_rule::QuotedRecords;
use audit_base::faults::NoMemory;
use audit_base::findings::Finding;
use audit_base::orders::Deal;
use audit_base::terms::Rule;
use call_offences::listing::{Listing, call_offences};
use continuous_offences::listing::continuous_offences;
use offence_list::kinds::OffenceKind;
use offence_list::offence_lines::{append_count_line, append_offence_line};
use offence_list::offences::ListedOffence;
use order_list::lists::OrderList;
use std::alloc::Global;

/// Every offence of deals in continuous trading, whose first is known.
fn all_continuous_offences(
    alloc: Global,
    orders: &OrderList<'_>,
    deals: &[Deal],
    first: &Finding,
) -> Result<Listing, NoMemory>
    requires order_list { IsOrderList orders.now }
    requires deal_list { IsDealList orders.now deals.now }
    ensures list { let kind = offence_kind first.now.property in
        let offences = continuous_offences_of kind orders.now deals.now first.now in IfOk result
        (λ found. findings_of_listing orders.now first.now found ≡ offences) }
    ensures inside { IfOk result (IsListingInside orders.now) }
{
    match OffenceKind::of(first.property) {
        OffenceKind::Alone => Ok(Listing::Alone),
        OffenceKind::OfDeal | OffenceKind::OfPriority | OffenceKind::OfBook => {
            let found = continuous_offences(alloc, orders, deals)?;
            Ok(Listing::Listed(found))
        }
    }
}

/// The offences of deals under the rule, whose first is known.
pub(crate) fn all_offences(
    alloc: Global,
    rule: Rule,
    orders: &OrderList<'_>,
    deals: &[Deal],
    first: &Finding,
) -> Result<Listing, NoMemory>
    requires order_list { IsOrderList orders.now }
    requires deal_list { IsDealList orders.now deals.now }
    ensures list { IfOk result (IsListingUnder rule orders.now deals.now first.now) }
    ensures inside { IfOk result (IsListingInside orders.now) }
{
    match rule.call_rule() {
        Some(rule) => call_offences(alloc, rule, orders, deals, first),
        None => all_continuous_offences(alloc, orders, deals, first),
    }
}

/// The line of a finding, and the records that it quotes, with the one that ended an order.
fn append_with_quotes(
    alloc: Global,
    quoted: &QuotedRecords,
    finding: &Finding,
    ending: Option<u32>,
    out: &mut Vec<u8>,
) -> Result<(), NoMemory>
    requires { AreInLogOrder quoted.now }
    ensures { let quotes = quotes_with quoted.now finding.now ending in OnOk result
        (out.new.items ≡ out.old.items ++ (offence_line finding.now ++ quotes)) }
{
    append_offence_line(alloc, finding, out)?;
    append_quotes(alloc, quoted, finding, ending, out)
}

/// The line of a finding about these orders, and the records that it quotes.
fn append_quoted(
    alloc: Global,
    orders: &OrderList<'_>,
    quoted: &QuotedRecords,
    finding: &Finding,
    out: &mut Vec<u8>,
) -> Result<(), NoMemory>
    requires order_list { IsOrderList orders.now }
    requires in_order { AreInLogOrder quoted.now }
    ensures { let lines = quoted_offence orders.now quoted.now finding.now in
        OnOk result (out.new.items ≡ out.old.items ++ lines) }
{
    append_with_quotes(alloc, quoted, finding, ending_place(orders, finding), out)
}

/// The same of an offence of a list.
fn append_offence(
    alloc: Global,
    orders: &OrderList<'_>,
    quoted: &QuotedRecords,
    offence: &ListedOffence,
    out: &mut Vec<u8>,
) -> Result<(), NoMemory>
    requires order_list { IsOrderList orders.now }
    requires in_order { AreInLogOrder quoted.now }
    requires inside { IsOffenceInside orders.now offence.now }
    ensures { let finding = finding_of_offence orders.now offence.now in
        let lines = quoted_offence orders.now quoted.now finding in
        OnOk result (out.new.items ≡ out.old.items ++ lines) }
{
    let finding = orders.finding(offence.flaw());
    append_quoted(alloc, orders, quoted, &finding, out)
}

/// The lines of all offences of a list.
fn append_each(
    alloc: Global,
    orders: &OrderList<'_>,
    quoted: &QuotedRecords,
    found: &[ListedOffence],
    out: &mut Vec<u8>,
) -> Result<(), NoMemory>
    requires order_list { IsOrderList orders.now }
    requires in_order { AreInLogOrder quoted.now }
    requires inside { AreOffencesInside orders.now found.now }
    ensures { let lines = offences_quoted orders.now quoted.now found.now in
        OnOk result (out.new.items ≡ out.old.items ++ lines) }
{
    for offence in found {
        append_offence(alloc, orders, quoted, offence, out)?;
    }
    Ok(())
}

/// The lines of all offences of a list, and how many there are.
#[tactic(auto, using(crate::proofs::TextLemmas::listed_lines))]
fn append_list(
    alloc: Global,
    orders: &OrderList<'_>,
    quoted: &QuotedRecords,
    found: &[ListedOffence],
    out: &mut Vec<u8>,
) -> Result<(), NoMemory>
    requires order_list { IsOrderList orders.now }
    requires in_order { AreInLogOrder quoted.now }
    requires inside { AreOffencesInside orders.now found.now }
    ensures { let findings = findings_of_offences orders.now found.now in
        let lines = offence_lines orders.now quoted.now findings in
        OnOk result (out.new.items ≡ out.old.items ++ lines) }
{
    append_each(alloc, orders, quoted, found, out)?;
    append_count_line(alloc, found.len(), out)
}

/// The lines of a finding that stands alone, about these orders.
#[tactic(auto, using(crate::proofs::TextLemmas::alone_lines))]
fn append_alone(
    alloc: Global,
    orders: &OrderList<'_>,
    quoted: &QuotedRecords,
    finding: &Finding,
    out: &mut Vec<u8>,
) -> Result<(), NoMemory>
    requires order_list { IsOrderList orders.now }
    requires in_order { AreInLogOrder quoted.now }
    ensures { let lines = offence_lines orders.now quoted.now (finding.now ∷ []) in
        OnOk result (out.new.items ≡ out.old.items ++ lines) }
{
    append_quoted(alloc, orders, quoted, finding, out)?;
    append_count_line(alloc, 1, out)
}

/// The lines of a finding before the rule, which stands alone and is about no order of a list.
#[tactic(auto, using(crate::proofs::TextLemmas::before_rule_lines))]
pub(crate) fn append_before_rule(
    alloc: Global,
    quoted: &QuotedRecords,
    finding: &Finding,
    out: &mut Vec<u8>,
) -> Result<(), NoMemory>
    requires { AreInLogOrder quoted.now }
    ensures { let lines = offence_lines [] quoted.now (finding.now ∷ []) in
        OnOk result (out.new.items ≡ out.old.items ++ lines) }
{
    append_with_quotes(alloc, quoted, finding, None, out)?;
    append_count_line(alloc, 1, out)
}

/// The lines of all offences, of which this finding is the first.
pub(crate) fn append_listing(
    alloc: Global,
    orders: &OrderList<'_>,
    quoted: &QuotedRecords,
    first: &Finding,
    listing: &Listing,
    out: &mut Vec<u8>,
) -> Result<(), NoMemory>
    requires order_list { IsOrderList orders.now }
    requires in_order { AreInLogOrder quoted.now }
    requires inside { IsListingInside orders.now listing.now }
    ensures { let findings = findings_of_listing orders.now first.now listing.now in
        let lines = offence_lines orders.now quoted.now findings in
        OnOk result (out.new.items ≡ out.old.items ++ lines) }
{
    match listing {
        Listing::Alone => append_alone(alloc, orders, quoted, first, out),
        Listing::Listed(found) => append_list(alloc, orders, quoted, found, out),
    }
}
