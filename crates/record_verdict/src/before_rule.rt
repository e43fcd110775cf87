//! What the records of two logs give before the rule is looked at. Every command that judges two
//! logs reads them to here, and goes its own way from here on.
ghost use Rattle.std.specs.Prelude.{◌≡◌, ◌<◌, ◌≤◌, ◌-◌, ◌^◌, None, length};
ghost use Rattle.audit_base.specs.Deals.{DealsInRange, IsDealList};
ghost use Rattle.record_verdict.specs.BeforeRule.{finding_or_sound, IsJudgeable};

use audit_base::findings::Finding;
use matching_core::deals_draft::ResolvedTrades;

/// What the records of two logs give before the rule is looked at.
#[derive(Drop)]
pub enum BeforeRule {
    /// The history or its trades have a finding, and this is the first.
    Found(Finding),
    /// The trades are sound: the orders of the history, and the deals between them.
    Sound(ResolvedTrades),
}

impl BeforeRule {
    /// The first finding of trades that have been gathered, or that they are sound.
    pub fn of(resolved: ResolvedTrades) -> BeforeRule
        requires fits_places { resolved.count < 2 ^ 32 - 1 }
        requires counted { resolved.finding ≡ None
            → length resolved.deals.items ≤ resolved.count }
        requires deal_list { resolved.finding ≡ None
            → IsDealList resolved.history resolved.deals.items }
        requires numbers { resolved.finding ≡ None → DealsInRange resolved.deals.items }
        ensures found { result ≡ finding_or_sound resolved resolved.finding }
        ensures judgeable { IsJudgeable result }
    {
        let finding = resolved.finding;
        match finding {
            Some(finding) => BeforeRule::Found(finding),
            None => BeforeRule::Sound(resolved),
        }
    }
}
