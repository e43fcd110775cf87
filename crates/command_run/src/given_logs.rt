//! What two logs give a command that answers by their records.
ghost use Rattle.std.specs.Prelude.{List, Result};
ghost use Rattle.audit_base.specs.declared.faults.BadPlace.{BadPlace as BadPlaceSpec};
ghost use Rattle.audit_base.specs.declared.findings.Finding.{Finding as FindingSpec};
ghost use Rattle.audit_base.specs.declared.records.OrderRecord.{OrderRecord as OrderRecordSpec};
ghost use Rattle.audit_base.specs.declared.records.TradeRecord.{TradeRecord as TradeRecordSpec};
ghost use Rattle.audit_base.specs.declared.terms.Which.{Which as WhichSpec};

/// What two logs give, for proofs alone: of which records of both logs it is given, and of which
/// first bad place of one.
pub trait GivenByLogs {
    /// What is given.
    type Given;

    // It is given by these records of the order log and these trades, or that the reports of the
    // trade log do not pair.
    ghost of_records: { Self.Given → List OrderRecordSpec → Result (List TradeRecordSpec) FindingSpec → Type 0 };

    // It is given by this bad place of a log, which is the first.
    ghost of_bad: { Self.Given → WhichSpec → BadPlaceSpec → Type 0 };
}
