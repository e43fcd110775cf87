//! A feed that reads each message of a FIX log and counts its kind, those that are passed over
//! too.
ghost use Rattle.std.specs.Prelude.{◌≡◌, ℕ, List, [], None, Some, IfOk, MatchBool, OnOk};
ghost use Rattle.fix_framing.specs.Framing.{bytes_held};
ghost use Rattle.fix_messages.specs.Steps.{IsBadMessagePlace};
ghost use Rattle.log_contents.specs.Contents.{HasRecords};
ghost use Rattle.log_contents.specs.MessageFeeds.{AnswersContents, CountsMessage, CountsNoMessage, HasMessages, IsMessageFeedOf, IsMessageFeedWithinLimit};
ghost use Rattle.log_source.specs.Collectors.{HasPlace};

use crate::contents::Contents;
use crate::record_facts::TimedRecord;
use audit_base::faults::{BadPlace, LogFault, NoMemory, Reason};
use audit_base::stamp_reader::StampReader;
use fix_fields::notes::TagNotes;
use fix_framing::framer::{Framer, Step};
use fix_messages::entries::FixRecord;
use fix_messages::feeds::{FixFeed, frame_reason};
use log_source::feed::Feed;
use seeded_hash::seed::HashSeed;
use std::alloc::Global;

/// What is kept of a FIX log that comes in pieces: the message that is not all there, and the
/// contents of those before it. After a bad message further pieces are taken without being looked
/// at. A bad message and its place are those of an audit: the place is one more than the number of
/// records before it, whatever else was passed over.
#[derive(Drop)]
pub struct MessageFeed<R> {
    feed: FixFeed<Contents<R>>,
}

/// The place of a bad message that begins at this offset.
fn bad_at<R: TimedRecord>(contents: &Contents<R>, offset: u64, reason: Reason) -> BadPlace
    requires { HasPlace (HasRecords R.symbol_of R.time_of) contents.now }
    ensures { let has = HasRecords R.symbol_of R.time_of in
        IsBadMessagePlace (has contents.now) offset reason result }
{
    BadPlace {
        place: contents.facts.count + 1,
        offset,
        reason,
    }
}

impl<R: FixRecord + TimedRecord> MessageFeed<R> {
    /// A feed that has been handed no bytes. Symbols and kinds are found by hashes of this seed.
    pub fn new(alloc: Global, seed: HashSeed) -> Self
        ensures { IsMessageFeedOf (HasRecords R.symbol_of R.time_of) R.meaning result [] }
    {
        MessageFeed {
            feed: FixFeed {
                alloc,
                framer: Framer::new(alloc),
                entries: Contents::new(alloc, seed),
                bad: None,
            },
        }
    }

    // Drops what is held, at a bad place.
    fn shut(&mut self, bad: BadPlace)
        ensures bad { self.new.feed.bad ≡ Some bad }
        ensures nothing { bytes_held self.new.feed.framer ≡ [] }
    {
        self.feed.framer = Framer::new(self.feed.alloc);
        self.feed.bad = Some(bad);
    }

    // Takes the next message. True says that it was good, and that another may follow.
    fn take_next(
        &mut self,
        notes: &mut TagNotes,
        stamps: &mut StampReader,
    ) -> Result<bool, NoMemory>
        requires good { self.old.feed.bad ≡ None }
        requires room { HasMessages (HasRecords R.symbol_of R.time_of) R.meaning self.old }
        ensures { let has = HasRecords R.symbol_of R.time_of in
            IfOk result (λ more. MatchBool more (CountsMessage has R.meaning self.old self.new)
            (CountsNoMessage has R.meaning self.old self.new)) }
    {
        match self.feed.framer.next_frame() {
            Step::Wait => Ok(false),
            Step::Fault { at, fault } => {
                let bad = bad_at(&self.feed.entries, at, frame_reason(fault));
                self.shut(bad);
                Ok(false)
            }
            Step::Whole { start, body, to } => {
                let held = self.feed.framer.held();
                let alloc = self.feed.alloc;
                let contents = &mut self.feed.entries;
                match contents.take_message(alloc, held, body, to, notes, stamps)? {
                    Ok(()) => Ok(true),
                    Err(reason) => {
                        let bad = bad_at(&self.feed.entries, start, reason);
                        self.shut(bad);
                        Ok(false)
                    }
                }
            }
        }
    }

    // Takes messages as long as there is one and it is good. All have their values noted in the
    // same notes, and their points in time read by one reader.
    fn take_messages(&mut self) -> Result<(), NoMemory>
        requires good { self.old.feed.bad ≡ None }
        requires room { HasMessages (HasRecords R.symbol_of R.time_of) R.meaning self.old }
        ensures { let has = HasRecords R.symbol_of R.time_of in
            OnOk result (CountsNoMessage has R.meaning self.old self.new) }
    {
        let mut notes = TagNotes::new();
        let mut stamps = StampReader::new();
        'messages: loop {
            if !self.take_next(&mut notes, &mut stamps)? {
                return Ok(());
            }
        }
    }

    /// The contents of the log that has come, or its first bad message, for every log that the
    /// feed stands for.
    pub fn close(mut self) -> Result<Contents<R>, LogFault>
        requires { IsMessageFeedWithinLimit (HasRecords R.symbol_of R.time_of) R.meaning self }
        ensures { let has = HasRecords R.symbol_of R.time_of in
            (log : List ℕ) → IsMessageFeedOf has R.meaning self log
            → AnswersContents has R.meaning log result }
    {
        if let Some(bad) = self.feed.bad {
            return Err(LogFault::Bad(bad));
        }
        if self.take_messages().is_err() {
            return Err(LogFault::Memory);
        }
        if let Some(bad) = self.feed.bad {
            return Err(LogFault::Bad(bad));
        }
        match self.feed.framer.finish() {
            Ok(()) => Ok(self.feed.entries),
            Err(at) => Err(LogFault::Bad(bad_at(&self.feed.entries, at, Reason::Truncated))),
        }
    }
}

impl<R: FixRecord + TimedRecord> Feed for MessageFeed<R> {
    ghost stands_for = { IsMessageFeedOf (HasRecords R.symbol_of R.time_of) R.meaning };

    fn feed(&mut self, piece: &[u8]) -> Result<(), NoMemory> {
        if self.feed.bad.is_some() {
            return Ok(());
        }
        self.feed.framer.feed(piece)?;
        self.take_messages()
    }
}
