//! That deals have one certificate, and that a text gets one answer, of every order
//! list and all deals.
ghost use Rattle.audit_certificate.specs.OneAnswer.{AgreedRuleIsOne, CertificateIsOne, FirstRefusedIsOne};

/// Under a rule deals have at most one certificate: it has the least price that shows the volume,
/// and the last orders that trade.
pub fn one_certificate()
    ensures { CertificateIsOne }
{}

/// A text agrees under at most one rule, and at most one of its lines is the first that is refused.
pub fn one_answer_for_a_text()
    ensures rule { AgreedRuleIsOne }
    ensures line { FirstRefusedIsOne }
{}
