//! What draws the picture of a page.
ghost use Rattle.audit_base.specs.Deals.{IsDealList};
ghost use Rattle.audit_base.specs.Orders.{IsOrderList};

use audit_base::faults::NoMemory;
use audit_base::findings::Finding;
use audit_base::orders::Deal;
use audit_base::terms::Rule;
use desk_page::drawings::Drawing;
use order_list::lists::OrderList;
use page_markup::markup::Markup;
use rule_drawing::pictures::rule_picture;
use std::alloc::Global;

/// The pictures of `rule_drawing`.
pub struct RulePictures;

impl Drawing for RulePictures {
    ghost use Rattle.rule_drawing.specs.RulePictures.{IsRulePicture};

    ghost is_picture = { IsRulePicture };

    fn picture(
        alloc: Global,
        rule: Rule,
        orders: &OrderList<'_>,
        deals: &[Deal],
        finding: &Option<Finding>,
    ) -> Result<Markup, NoMemory> {
        rule_picture(alloc, rule, orders, deals, finding)
    }
}
