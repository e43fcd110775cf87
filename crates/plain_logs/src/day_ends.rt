//! How the writing of a day ends.
ghost use Rattle.std.specs.Prelude.{◌≡◌};

use fix_days::faults::BadMessage;
use fix_framing::frames::FrameFault;
use log_source::shelf::{Failed, StartFault};
use log_source::take::TakeFault;

/// The end of a day: the plain text of its last messages, which is not written yet, and the first
/// bad message, if there is one.
#[derive(Drop)]
pub struct DayEnd {
    pub text: Vec<u8>,
    pub bad: Option<BadMessage>,
}

/// The end of a line that is read alone: the plain text of its last messages, how many good ones it
/// has, and its first bad message, if there is one.
#[derive(Drop)]
pub(crate) struct LineEnd {
    pub(crate) text: Vec<u8>,
    pub(crate) bodies: u32,
    pub(crate) bad: Option<BadMessage>,
}

/// A bad message that was passed over.
#[derive(Clone, Copy, Debug, PartialEq, Eq)]
pub(crate) struct PassedMessage {
    /// One more than the number of messages before it in the day, good and bad ones.
    pub(crate) place: u64,
    /// The offset of its first byte in the day's bytes.
    pub(crate) offset: u64,
    /// The first test of a frame that fails there.
    pub(crate) fault: FrameFault,
}

/// The end of a line of a day: the plain text of its last messages, and the message of it that was
/// passed over, if there is one.
#[derive(Drop)]
pub(crate) struct DayLineEnd {
    pub(crate) text: Vec<u8>,
    pub(crate) bad: Option<PassedMessage>,
}

/// Why a day was not written up to its end.
#[derive(Clone, Copy, Debug, PartialEq, Eq)]
pub enum PlainFault {
    /// The log was not read to its end. What was read of it is written.
    Log(TakeFault),
    /// A write failed.
    Sink,
}

impl From<StartFault> for PlainFault {
    ghost use Rattle.log_source.specs.Taking.{take_fault_of_start};
    ghost use Rattle.plain_logs.specs.declared.day_ends.PlainFault.TheVariants.{Log};

    ghost from_gives = { λ fault made. made ≡ Log (take_fault_of_start fault) };

    fn from(fault: StartFault) -> PlainFault {
        PlainFault::Log(TakeFault::from(fault))
    }
}

impl From<Failed> for PlainFault {
    ghost use Rattle.log_source.specs.declared.take.TakeFault.TheVariants.{Fault};
    ghost use Rattle.plain_logs.specs.declared.day_ends.PlainFault.TheVariants.{Log};

    ghost from_gives = { λ _ made. made ≡ Log Fault };

    fn from(_fault: Failed) -> PlainFault {
        PlainFault::Log(TakeFault::Fault)
    }
}
