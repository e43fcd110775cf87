//! The numbers of rules, properties and logs in the table of cases.
ghost use Rattle.std.specs.Prelude.{◌≡◌, ◌==◌, find, option_copied};
ghost use Rattle.case_sqlite.specs.Codes as code;
ghost use Rattle.case_sqlite.specs.Readings as reading;

use audit_base::findings::Property;
use audit_base::terms::{Rule, Which};

const RULES: [Rule; 5] = [
    Rule::Matching,
    Rule::Fair,
    Rule::Uniform,
    Rule::Maximum,
    Rule::Continuous,
];

const PROPERTIES: [Property; 16] = [
    Property::DuplicateId,
    Property::TimeBack,
    Property::UnknownTarget,
    Property::Unpaired,
    Property::DuplicateTrade,
    Property::UnknownOrder,
    Property::Inactive,
    Property::Limit,
    Property::UniformPrice,
    Property::BuyQuantity,
    Property::SellQuantity,
    Property::BuyPriority,
    Property::SellPriority,
    Property::Volume,
    Property::Spread,
    Property::InstantOrder,
];

/// The number of a rule, 1 to 5.
pub(crate) fn rule_number(rule: Rule) -> u32
    ensures { result ≡ code.rule_number rule }
{
    match rule {
        Rule::Matching => 1,
        Rule::Fair => 2,
        Rule::Uniform => 3,
        Rule::Maximum => 4,
        Rule::Continuous => 5,
    }
}

/// The number of a property, 1 to 16, as findings are numbered.
pub(crate) fn property_number(property: Property) -> u32
    ensures { result ≡ code.property_number property }
{
    match property {
        Property::DuplicateId => 1,
        Property::TimeBack => 2,
        Property::UnknownTarget => 3,
        Property::Unpaired => 4,
        Property::DuplicateTrade => 5,
        Property::UnknownOrder => 6,
        Property::Inactive => 7,
        Property::Limit => 8,
        Property::UniformPrice => 9,
        Property::BuyQuantity => 10,
        Property::SellQuantity => 11,
        Property::BuyPriority => 12,
        Property::SellPriority => 13,
        Property::Volume => 14,
        Property::Spread => 15,
        Property::InstantOrder => 16,
    }
}

/// The number of a log: 1 for the orders, 2 for the trades.
pub(crate) fn log_number(log: Which) -> u32
    ensures { result ≡ code.log_number log }
{
    match log {
        Which::Orders => 1,
        Which::Trades => 2,
    }
}

/// Whether a rule has this number.
fn is_rule(rule: &Rule, number: u32) -> bool
    ensures { result ≡ (code.rule_number rule.now == number) }
{
    rule_number(*rule) == number
}

/// The first of these rules with this number.
fn find_rule(rules: &[Rule], number: u32) -> Option<&Rule>
    ensures { option_copied result ≡ find (λ rule. code.rule_number rule == number) rules.now }
{
    rules.iter().find(|rule| is_rule(rule, number))
}

/// The rule with this number.
pub(crate) fn rule_with(number: u32) -> Option<Rule>
    ensures { result ≡ reading.rule_of_number number }
{
    find_rule(&RULES, number).copied()
}

/// Whether a property has this number.
fn is_property(property: &Property, number: u32) -> bool
    ensures { result ≡ (code.property_number property.now == number) }
{
    property_number(*property) == number
}

/// The first of these properties with this number.
fn find_property(properties: &[Property], number: u32) -> Option<&Property>
    ensures { option_copied result
        ≡ find (λ property. code.property_number property == number) properties.now }
{
    properties
        .iter()
        .find(|property| is_property(property, number))
}

/// The property with this number.
pub(crate) fn property_with(number: u32) -> Option<Property>
    ensures { result ≡ reading.property_of_number number }
{
    find_property(&PROPERTIES, number).copied()
}

/// The log with this number.
pub(crate) fn log_with(number: u32) -> Option<Which>
    ensures { result ≡ reading.log_of_number number }
{
    match number {
        1 => Some(Which::Orders),
        2 => Some(Which::Trades),
        _ => None,
    }
}
