//! The finding of a flaw: what is wrong with a record, with the names of the orders that it shows.
ghost use Rattle.std.specs.Prelude.{◌≡◌};
ghost use Rattle.audit_base.specs.Flaws as spec;

use super::lists::OrderList;
use audit_base::findings::{Finding, OrderLine};
use audit_base::flaws::Flaw;
use audit_base::order_lines::OrderLines;

impl<'a> OrderLines for OrderList<'a> {
    ghost orders = { λ orders. orders };

    fn line_at(&self, index: usize, traded: u128) -> Option<OrderLine> {
        if index < self.len() {
            Some(self.at(index).line(traded))
        } else {
            None
        }
    }
}

impl<'a> OrderList<'a> {
    /// The finding of a flaw: property, log and place, with what shows it. The indices in it are
    /// those of this list.
    pub fn finding(&self, flaw: Flaw) -> Finding
        requires { spec.IsEvidenceInside self.now flaw.evidence }
        ensures { result ≡ spec.finding_of self.now flaw }
    {
        flaw.finding_among(self)
    }
}
