//! What holds of every certificate. Nothing is computed here: a law is a function's contract, so
//! that the check proves it.
ghost use Rattle.audit_certificate.specs.Laws.{CertificateSoundness, CertificateCompleteness};

use call_laws::existence::extremes_exist;
use call_laws::laws::short_orders_do_not_meet;
use call_laws::optimum::{greatest_matching_reaches_the_least_cut, uniform_optimum};
use volume_bound::laws::cut_bounds_volume;

/// Where a certificate agrees, the deals conform to its rule. This rests on two laws: no
/// matching has a volume above a cut, and none of one price has one above the executable
/// volume at that price.
pub fn certificate_soundness()
    ensures { CertificateSoundness }
{
    cut_bounds_volume();
    uniform_optimum();
}

/// Deals that conform to `uniform` or `maximum` have a certificate, with a least price that passes
/// its line 2, and it agrees.
pub fn certificate_completeness()
    ensures { CertificateCompleteness }
{
    extremes_exist();
    greatest_matching_reaches_the_least_cut();
    short_orders_do_not_meet();
}
