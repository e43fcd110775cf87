//! What a property is said of, by which a first finding decides what stands behind it.
ghost use Rattle.std.specs.Prelude.{◌≡◌};
ghost use Rattle.offence_list.specs.Offences.{offence_kind};

use audit_base::findings::Property;

/// What a property is said of.
#[derive(Clone, Copy, Debug, PartialEq, Eq)]
pub enum OffenceKind {
    /// Of a log as a whole: a finding of this kind stands alone.
    Alone,
    /// Of a deal by itself: properties 7 to 11.
    OfDeal,
    /// Of a deal and an order that waits: properties 12 and 13.
    OfPriority,
    /// Of the orders that rest: property 15.
    OfBook,
}

impl OffenceKind {
    /// What the property is said of.
    pub fn of(property: Property) -> OffenceKind
        ensures { result ≡ offence_kind property }
    {
        match property {
            Property::DuplicateId
            | Property::TimeBack
            | Property::UnknownTarget
            | Property::Unpaired
            | Property::DuplicateTrade
            | Property::UnknownOrder
            | Property::Volume
            | Property::InstantOrder => OffenceKind::Alone,
            Property::Inactive
            | Property::Limit
            | Property::UniformPrice
            | Property::BuyQuantity
            | Property::SellQuantity => OffenceKind::OfDeal,
            Property::BuyPriority | Property::SellPriority => OffenceKind::OfPriority,
            Property::Spread => OffenceKind::OfBook,
        }
    }
}
