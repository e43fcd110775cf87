//! What makes the picture of a verdict.
ghost use Rattle.std.specs.Prelude.{ℕ, List, Option, IfOk};
ghost use Rattle.audit_base.specs.declared.findings.Finding.{Finding};
ghost use Rattle.audit_base.specs.declared.orders.Deal.{Deal};
ghost use Rattle.audit_base.specs.declared.orders.Order.{Order};
ghost use Rattle.audit_base.specs.declared.terms.Rule.{Rule};
ghost use Rattle.audit_base.specs.Deals.{IsDealList};
ghost use Rattle.audit_base.specs.Orders.{IsOrderList};

use audit_base::faults::NoMemory;
use audit_base::findings::Finding;
use audit_base::orders::Deal;
use audit_base::terms::Rule;
use order_list::lists::OrderList;
use page_markup::markup::Markup;
use std::alloc::Global;

/// A maker of pictures. Contracts see what its pictures show.
pub trait Drawing {
    // The markup is the picture of these orders and deals under a rule, with what was found of
    // them.
    ghost is_picture: { Rule → List Order → List Deal → Option Finding → List ℕ → Type 0 };

    /// The section of a page that has the picture, or no markup where there is none. Err only out
    /// of memory.
    fn picture(
        alloc: Global,
        rule: Rule,
        orders: &OrderList<'_>,
        deals: &[Deal],
        finding: &Option<Finding>,
    ) -> Result<Markup, NoMemory>
        requires order_list { IsOrderList orders.now }
        requires deal_list { IsDealList orders.now deals.now }
        ensures { IfOk result (λ made. is_picture rule orders.now deals.now finding.now made) };
}
