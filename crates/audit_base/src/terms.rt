//! The few words that everything else is said in: sides, logs, forms, rules and lives.
ghost use Rattle.std.specs.Prelude.{◌≡◌};
ghost use Rattle.audit_base.specs.Orders as orders;
ghost use Rattle.audit_base.specs.RuleKinds as kinds;
ghost use Rattle.audit_base.specs.Words.{rule_word};

/// The side of an order: a bid buys, an ask sells (FIX tag 54, values 1 and 2).
#[derive(Clone, Copy, Debug, PartialEq, Eq, Hash, PartialOrd, Ord)]
pub enum Side {
    Buy,
    Sell,
}

impl Side {
    /// The side that it trades with.
    pub fn other(self) -> Side
        ensures { result ≡ orders.other_side self }
    {
        match self {
            Side::Buy => Side::Sell,
            Side::Sell => Side::Buy,
        }
    }
}

/// One of the two logs of an exchange.
#[derive(Clone, Copy, Debug, PartialEq, Eq, Hash)]
pub enum Which {
    Orders,
    Trades,
}

/// The form that a log is written in.
#[derive(Clone, Copy, Debug, PartialEq, Eq, Hash)]
pub enum Form {
    Csv,
    Fix,
}

/// The rule that the trades are judged by.
#[derive(Clone, Copy, Debug, PartialEq, Eq, Hash)]
pub enum Rule {
    /// The trades are a matching.
    Matching,
    /// They are a fair matching.
    Fair,
    /// They are a fair matching of one price, and none of one price has a greater volume.
    Uniform,
    /// They are a fair matching, and none has a greater volume.
    Maximum,
    /// They are what continuous trading by price and time gives.
    Continuous,
}

impl Rule {
    /// The word that command lines and reports use for the rule.
    pub fn word(self) -> &'static [u8]
        ensures { result.now ≡ rule_word self }
    {
        match self {
            Rule::Matching => b"matching",
            Rule::Fair => b"fair",
            Rule::Uniform => b"uniform",
            Rule::Maximum => b"maximum",
            Rule::Continuous => b"continuous",
        }
    }

    /// The rule as one of a call, where it is one.
    pub fn call_rule(self) -> Option<CallRule>
        ensures { result ≡ kinds.call_rule self }
    {
        match self {
            Rule::Matching => Some(CallRule::Matching),
            Rule::Fair => Some(CallRule::Fair),
            Rule::Uniform => Some(CallRule::Greatest(VolumeRule::Uniform)),
            Rule::Maximum => Some(CallRule::Greatest(VolumeRule::Maximum)),
            Rule::Continuous => None,
        }
    }

    /// The rule as one that asks for the greatest volume, where it does.
    pub fn volume_rule(self) -> Option<VolumeRule>
        ensures { result ≡ kinds.volume_rule self }
    {
        match self {
            Rule::Uniform => Some(VolumeRule::Uniform),
            Rule::Maximum => Some(VolumeRule::Maximum),
            Rule::Matching | Rule::Fair | Rule::Continuous => None,
        }
    }

    /// Whether the rule asks for the greatest volume,
    /// so that a certificate can show that it is reached.
    pub fn asks_for_greatest(self) -> bool
        ensures { result ≡ kinds.asks_for_greatest self }
    {
        self.volume_rule().is_some()
    }

    /// Whether the rule determines what each order trades,
    /// so that a table can show it and trades can be expected.
    pub fn has_table(self) -> bool
        ensures { result ≡ kinds.has_table self }
    {
        self.asks_for_greatest() || self.call_rule().is_none()
    }
}

/// A rule of a call that asks for the greatest volume.
#[derive(Clone, Copy, Debug, PartialEq, Eq)]
pub enum VolumeRule {
    /// The greatest of all matchings of one price.
    Uniform,
    /// The greatest of all matchings.
    Maximum,
}

impl VolumeRule {
    /// The rule as one of the five.
    pub fn rule(self) -> Rule
        ensures { result ≡ kinds.rule_of_volume self }
    {
        match self {
            VolumeRule::Uniform => Rule::Uniform,
            VolumeRule::Maximum => Rule::Maximum,
        }
    }

    /// Whether the rule asks for one price too.
    pub fn asks_one_price(self) -> bool
        ensures { result ≡ kinds.asks_one_price self }
    {
        match self {
            VolumeRule::Uniform => true,
            VolumeRule::Maximum => false,
        }
    }
}

/// A rule of a call auction, in which all orders meet at once.
#[derive(Clone, Copy, Debug, PartialEq, Eq)]
pub enum CallRule {
    Matching,
    Fair,
    Greatest(VolumeRule),
}

/// What becomes of an order that is not filled at its own record.
#[derive(Clone, Copy, Debug, PartialEq, Eq, Hash)]
pub enum Life {
    /// It rests until it is filled or ended (FIX tag 59, values 0 and 1).
    Rests,
    /// It lapses: immediate or cancel (FIX tag 59, value 3).
    Immediate,
    /// It trades at any price and then lapses (FIX tag 40, value 1).
    Market,
}

impl Life {
    /// Whether what is left of an order after its own record may wait for others.
    pub fn rests(self) -> bool
        ensures { result ≡ orders.may_rest self }
    {
        match self {
            Life::Rests => true,
            Life::Immediate | Life::Market => false,
        }
    }
}
