//! A framed day: messages one after another, with CR and LF between them, as in a FIX log. One byte
//! order mark of UTF-8, EF BB BF, is passed over at the start of the day, and nowhere else.
ghost use Rattle.std.specs.Prelude.{◌≡◌, ◌<◌, ◌≤◌, ◌∷◌, [], ℕ, List, IfOk, OnOk, IsTrue, ◌↔◌, length};
ghost use Rattle.log_source.specs.Feeds.{HasRoom};
ghost use Rattle.log_source.specs.Handing.{HandsOnMore};
ghost use Rattle.fix_days.specs.Framed.{IsFramedReading, mark};
ghost use Rattle.fix_days.specs.Answers.{HasReadBodies};
ghost use Rattle.fix_days.specs.Feeds.{IsFramedFeedOf, IsFramedFeedWithinLimit};
ghost use Rattle.fix_days.specs.Fronts.{HasReadFramed};
ghost use Rattle.fix_days.specs.Starts.{BeginsDay, HasFront, HasWholeFront};

use crate::bodies::Bodies;
use crate::messages::Messages;
use crate::read_day::ReadDay;
use audit_base::faults::NoMemory;
use log_source::feed::Feed;
use std::alloc::Global;
use std::mem;

/// The byte order mark of UTF-8.
const MARK: [u8; 3] = [0xEF, 0xBB, 0xBF];

/// What is kept of a framed day that comes in pieces, of at most `LONGEST_READ` bytes in all: the
/// bytes of the message that is not all there, fewer than 1,048,606, and the first three bytes.
/// Each body is handed on as soon as its message is all there.
#[derive(Drop)]
pub struct FramedFeed<B> {
    /// The first three bytes of the day, or as many as have come.
    front: Vec<u8>,
    /// The messages of the text after the mark, once three bytes have come.
    messages: Messages<B>,
}

/// Whether the bytes are the mark.
fn is_mark(bytes: &[u8]) -> bool
    ensures { IsTrue result ↔ (bytes.now ≡ mark) }
{
    bytes == MARK.as_slice()
}

impl<B: Bodies> FramedFeed<B> {
    /// A feed that has been handed no bytes, over a taker that has been handed nothing.
    pub fn over(alloc: Global, bodies: B) -> Self
        requires { B.has_taken bodies [] }
        ensures { IsFramedFeedOf B.has_taken result [] }
    {
        FramedFeed {
            front: Vec::new(alloc),
            messages: Messages::over(alloc, bodies),
        }
    }

    /// Gives back the taker that has been handed the bodies so far, and puts this one in its place,
    /// which is handed those to come.
    pub fn replace(&mut self, bodies: B) -> B
        ensures taken { result ≡ self.old.messages.bodies }
        ensures placed { self.new.messages.bodies ≡ bodies }
        ensures kept { (day : List ℕ) (handed : List (List ℕ))
            → HasReadFramed self.old day handed → HasReadFramed self.new day handed }
    {
        mem::replace(&mut self.messages.bodies, bodies)
    }

    // Hands on what has come first, unless it is the mark.
    fn begin(&mut self) -> Result<(), NoMemory>
        requires { HasFront B.has_taken self.old }
        ensures { OnOk result (BeginsDay B.has_taken self.old self.new) }
    {
        if is_mark(&self.front) {
            self.messages.start = 3;
            return Ok(());
        }
        self.messages.feed(&self.front)
    }

    // Takes a piece where three bytes haven't come before it.
    fn take_first(&mut self, piece: &[u8]) -> Result<(), NoMemory>
        requires short { length self.old.front.items < 3 }
        requires room { HasRoom (IsFramedFeedOf B.has_taken) self.old piece.now }
        ensures { OnOk result (HandsOnMore (IsFramedFeedOf B.has_taken self.old)
            (IsFramedFeedOf B.has_taken self.new) piece.now) }
    {
        let count = piece.len().min(3 - self.front.len());
        self.front.extend_from_slice(&piece[..count])?;
        if self.front.len() < 3 {
            return Ok(());
        }
        self.begin()?;
        self.messages.feed(&piece[count..])
    }

    // Hands on a day of fewer than three bytes.
    fn end_front(&mut self) -> Result<(), NoMemory>
        requires { IsFramedFeedWithinLimit B.has_taken self.old }
        ensures { OnOk result (HasWholeFront B.has_taken self.old self.new) }
    {
        if self.front.len() < 3 {
            return self.messages.feed(&self.front);
        }
        Ok(())
    }

    /// The taker, which has been handed exactly the bodies of the messages of the day that has
    /// come, in order, up to the first bad one, and that one: together what the reading of the
    /// whole day says, for every day that the feed stands for.
    pub fn close(mut self) -> Result<ReadDay<B>, NoMemory>
        requires { IsFramedFeedWithinLimit B.has_taken self }
        ensures { (day : List ℕ) → IsFramedFeedOf B.has_taken self day
            → IfOk result (λ read. HasReadBodies (B.has_taken read.bodies) (IsFramedReading day)
            read.bad) }
    {
        self.end_front()?;
        Ok(self.messages.close())
    }
}

impl<B: Bodies> Feed for FramedFeed<B> {
    ghost stands_for = { IsFramedFeedOf B.has_taken };

    fn feed(&mut self, piece: &[u8]) -> Result<(), NoMemory> {
        if self.front.len() < 3 {
            return self.take_first(piece);
        }
        self.messages.feed(piece)
    }
}
