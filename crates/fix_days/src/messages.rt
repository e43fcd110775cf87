//! The messages of a text that comes in pieces, of FIX 4.0 to 4.4 or FIXT 1.1, with CR and LF
//! between them: each body is handed on, up to the first place where no message begins.
ghost use Rattle.std.specs.Prelude.{◌≡◌, ◌+◌, ◌<◌, ◌^◌, ℕ, List, [], None, Some, IfOk, OnOk, MatchBool};
ghost use Rattle.log_source.specs.Feeds.{HasRoom};
ghost use Rattle.log_source.specs.Handing.{HandsOnMore};
ghost use Rattle.fix_framing.specs.Framing.{bytes_held};
ghost use Rattle.fix_days.specs.Framed.{IsTextReading};
ghost use Rattle.fix_days.specs.Answers.{HasReadBodies};
ghost use Rattle.fix_days.specs.Messages.{IsMessagesOf, IsMessagesWithinLimit, HasText, TakesMessage, TakesNoMessage};

use crate::bodies::Bodies;
use crate::faults::BadMessage;
use crate::read_day::ReadDay;
use audit_base::faults::NoMemory;
use fix_framing::framer::{Framer, Step};
use fix_framing::frames::FrameFault;
use fix_framing::headers::AnyVersion;
use std::alloc::Global;

/// What is kept of a text that comes in pieces. Only the message that is not all there is kept as
/// bytes. After a bad message further pieces are taken without being looked at.
#[derive(Drop)]
pub(crate) struct Messages<B> {
    alloc: Global,
    /// How many bytes of the day are before the text.
    pub(crate) start: u8,
    /// The bytes of the message that is not all there.
    framer: Framer<AnyVersion>,
    /// What has been handed the bodies of the messages before it.
    pub(crate) bodies: B,
    /// How many messages these are.
    count: u32,
    /// The first bad message.
    bad: Option<BadMessage>,
}

// The bad message at this offset of the text, after this many messages.
fn bad_at(start: u8, count: u32, at: u64, fault: FrameFault) -> BadMessage
    requires place { count + 1 < 2 ^ 32 }
    requires offset { at < 2 ^ 63 }
    ensures { result ≡ record { place = count + 1; offset = start + at; fault = fault } }
{
    BadMessage {
        place: count + 1,
        offset: u64::from(start) + at,
        fault,
    }
}

impl<B: Bodies> Messages<B> {
    /// The messages of no bytes, over a taker that has been handed nothing.
    pub(crate) fn over(alloc: Global, bodies: B) -> Self
        requires { B.has_taken bodies [] }
        ensures stands { IsMessagesOf B.has_taken result [] }
        ensures open { result.bad ≡ None }
        ensures start { result.start ≡ 0 }
    {
        Messages {
            alloc,
            start: 0,
            framer: Framer::new(alloc),
            bodies,
            count: 0,
            bad: None,
        }
    }

    // Drops what is held, at a bad message.
    fn shut(&mut self, bad: BadMessage)
        ensures bad { self.new.bad ≡ Some bad }
        ensures nothing { bytes_held self.new.framer ≡ [] }
        ensures bodies { self.new.bodies ≡ self.old.bodies }
        ensures start { self.new.start ≡ self.old.start }
    {
        self.framer = Framer::new(self.alloc);
        self.bad = Some(bad);
    }

    // Takes the next message. True says that there was one, and that another may follow.
    fn take_next(&mut self) -> Result<bool, NoMemory>
        requires good { self.old.bad ≡ None }
        requires room { HasText B.has_taken self.old }
        ensures { IfOk result (λ more. MatchBool more (TakesMessage B.has_taken self.old self.new)
            (TakesNoMessage B.has_taken self.old self.new)) }
    {
        match self.framer.next_frame() {
            Step::Wait => Ok(false),
            Step::Fault { at, fault } => {
                let bad = bad_at(self.start, self.count, at, fault);
                self.shut(bad);
                Ok(false)
            }
            Step::Whole { body, to, .. } => {
                self.bodies.take(&self.framer.held()[body..to])?;
                self.count += 1;
                Ok(true)
            }
        }
    }

    // Takes messages as long as there is one.
    fn take_messages(&mut self) -> Result<(), NoMemory>
        requires good { self.old.bad ≡ None }
        requires room { HasText B.has_taken self.old }
        ensures { OnOk result (TakesNoMessage B.has_taken self.old self.new) }
    {
        'messages: loop {
            if !self.take_next()? {
                return Ok(());
            }
        }
    }

    /// Takes the next piece of the text.
    pub(crate) fn feed(&mut self, piece: &[u8]) -> Result<(), NoMemory>
        requires { HasRoom (IsMessagesOf B.has_taken) self.old piece.now }
        ensures stands { OnOk result (HandsOnMore (IsMessagesOf B.has_taken self.old)
            (IsMessagesOf B.has_taken self.new) piece.now) }
        ensures start { OnOk result (self.new.start ≡ self.old.start) }
    {
        if self.bad.is_some() {
            return Ok(());
        }
        self.framer.feed(piece)?;
        self.take_messages()
    }

    /// The taker, which has been handed exactly the bodies of the text up to its first bad message,
    /// and that message.
    pub(crate) fn close(self) -> ReadDay<B>
        requires { IsMessagesWithinLimit B.has_taken self }
        ensures { (text : List ℕ) → IsMessagesOf B.has_taken self text
            → HasReadBodies (B.has_taken result.bodies) (IsTextReading self.start text) result.bad }
    {
        if let Some(bad) = self.bad {
            return ReadDay {
                bodies: self.bodies,
                bad: Some(bad),
            };
        }
        match self.framer.finish() {
            Ok(()) => ReadDay {
                bodies: self.bodies,
                bad: None,
            },
            Err(at) => ReadDay {
                bodies: self.bodies,
                bad: Some(bad_at(self.start, self.count, at, FrameFault::Truncated)),
            },
        }
    }
}
