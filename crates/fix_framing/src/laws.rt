//! Laws of frames, apart from the code. They say why a log has one reading, however it is cut. They
//! hold of FIX 4.4, and of every list of headers of which none is a prefix of another.
ghost use Rattle.std.specs.Prelude.{◌≡◌, ◌≢◌, ℕ, List, [], ◌++◌, Some, None};
ghost use Rattle.fix_framing.specs.Headers.{AreHeaders, fix44, any_version};
ghost use Rattle.fix_framing.specs.Frames.{IsFrame, IsFrameWith, frame_fault_with};
ghost use Rattle.fix_framing.specs.declared.frames.FrameFault.{FrameFault};

use crate::frames::FrameFault;

/// No header of FIX 4.4 is a prefix of another, nor one of any version.
#[tactic(auto, unfolding(crate::specs::Headers::header, crate::specs::Headers::any_version))]
pub fn no_header_begins_another()
    ensures one { AreHeaders fix44 }
    ensures any { AreHeaders any_version }
{}

/// A message of FIX 4.4 is one of any version, with the same body.
pub fn one_version_is_of_any()
    ensures { (frame body : List ℕ) → IsFrame frame body → IsFrameWith any_version frame body }
{}

/// Unique reading: no message begins another, since the length comes before the body.
pub fn frames_have_one_reading()
    // No message is a proper prefix of a message.
    ensures prefix { (headers : List (List ℕ)) (frame more body other : List ℕ)
        → AreHeaders headers → IsFrameWith headers frame body
        → IsFrameWith headers (frame ++ more) other → more ≡ [] }
    // Two messages that begin one text are one, with one body, and leave one rest.
    ensures one { (headers : List (List ℕ)) (frame other body its more rest : List ℕ)
        → AreHeaders headers → IsFrameWith headers frame body → IsFrameWith headers other its
        → frame ++ more ≡ other ++ rest → (frame ≡ other) × (body ≡ its) × (more ≡ rest) }
{}

/// A text is judged once: bytes that follow change neither a message nor a fault other than
/// Truncated, and a message that is not all there is Truncated.
pub fn frames_are_judged_once()
    // A proper prefix of a message is Truncated.
    ensures cut { (headers : List (List ℕ)) (front more body : List ℕ)
        → AreHeaders headers → IsFrameWith headers (front ++ more) body → more ≢ []
        → frame_fault_with headers front ≡ Some FrameFault.Truncated }
    // Where a message begins, nothing is at fault, whatever follows.
    ensures message { (headers : List (List ℕ)) (frame body more : List ℕ)
        → AreHeaders headers → IsFrameWith headers frame body
        → frame_fault_with headers (frame ++ more) ≡ None }
    // A fault other than Truncated stays, whatever follows.
    ensures stays { (headers : List (List ℕ)) (text more : List ℕ) (fault : FrameFault)
        → AreHeaders headers → frame_fault_with headers text ≡ Some fault
        → fault ≢ FrameFault.Truncated → frame_fault_with headers (text ++ more) ≡ Some fault }
{}
