//! What a reading of two logs is about, before any rule is looked at.
ghost use Rattle.std.specs.Prelude.{◌≡◌};
ghost use Rattle.audit_base.specs.Histories.{instant_order_finding};
ghost use Rattle.record_verdict.specs.Scopes.{admission_of, unadmitted_order_finding};

use audit_base::findings::Finding;
use audit_base::flaws::{Evidence, Flaw};
use audit_base::names::Name;
use audit_base::terms::Rule;
use order_list::lists::OrderList;

/// Which orders of a symbol may be in its log.
#[derive(Clone, Copy, Debug, PartialEq, Eq)]
pub enum Admission {
    /// Orders that rest: a call auction takes no order that is done with at once.
    Resting,
    /// All orders.
    All,
}

/// The symbol whose records are looked at, and which of its orders are admitted.
#[derive(Clone, Copy, Debug)]
pub struct Scope {
    pub symbol: Name,
    pub admission: Admission,
}

/// Finding 16: the first order that does not rest.
fn first_instant(orders: &OrderList<'_>) -> Option<Finding>
    ensures { result ≡ instant_order_finding orders.now }
{
    for index in 0..orders.len() {
        let order = orders.at(index);
        if !order.life().rests() {
            let place = order.place();
            let evidence = Evidence::InstantOrder;
            return Some(orders.finding(Flaw { place, evidence }));
        }
    }
    None
}

impl Admission {
    /// Which orders a rule admits: a rule of a call those that rest, `continuous` all.
    pub fn of(rule: Rule) -> Admission
        ensures { result ≡ admission_of rule }
    {
        match rule.call_rule() {
            Some(_) => Admission::Resting,
            None => Admission::All,
        }
    }

    /// Finding 16: the least of the orders that is not admitted.
    pub fn first_unadmitted(self, orders: &OrderList<'_>) -> Option<Finding>
        ensures { result ≡ unadmitted_order_finding self orders.now }
    {
        match self {
            Admission::Resting => first_instant(orders),
            Admission::All => None,
        }
    }
}
