//! Feeds: what takes a FIX log piece by piece, hands on its records,
//! and stops at the first bad message.
ghost use Rattle.std.specs.Prelude.{◌≡◌, ◌-◌, ◌<◌, ◌≤◌, ◌^◌, ℕ, List, [], All, None, Some, Ok, length, vec_len, IfOk, OnOk, MatchBool};
ghost use Rattle.log_source.specs.Collectors.{HasNineBytesEach, HasPlace};
ghost use Rattle.log_source.specs.Feeds.{HasRoom};
ghost use Rattle.log_source.specs.Handing.{HandsOnMore};
ghost use Rattle.fix_framing.specs.Framing.{bytes_held};
ghost use Rattle.fix_messages.specs.Feeds.{IsFixFeedOf, AnswersFixCollected, AnswersMessageRecords, IsFixFeedWithinLimit};
ghost use Rattle.fix_messages.specs.Logs.{frame_reason, read_fix_log};
ghost use Rattle.fix_messages.specs.Steps.{TakesNoMessage, TakesMessage, HasLog, IsBadMessagePlace};

use crate::entries::{FixRecord, take_body};
use crate::meanings::Report;
use audit_base::faults::{BadPlace, LogFault, NoMemory, Reason};
use audit_base::records::OrderRecord;
use audit_base::stamp_reader::StampReader;
use fix_fields::notes::TagNotes;
use fix_framing::framer::{Framer, Step};
use fix_framing::frames::FrameFault;
use fix_framing::headers::Fix44;
use log_source::collector::Collector;
use log_source::feed::Feed;
use std::alloc::Global;

/// How many bytes of a piece are framed at a time. A framer copies what it is fed, so it holds no
/// second copy of a whole piece, and what it holds stays near the processor.
const PART: usize = 32_768;

/// What is kept of a log that comes in pieces. A piece may end anywhere. Only the
/// message that is not all there is kept as bytes. After a bad message further pieces
/// are taken without being looked at.
#[derive(Drop)]
pub struct FixFeed<K> {
    pub alloc: Global,
    /// The bytes of the message that is not all there.
    pub framer: Framer<Fix44>,
    /// What has been handed the records of the messages before it, in order.
    pub entries: K,
    /// The first bad message.
    pub bad: Option<BadPlace>,
}

/// The feed of an order log.
pub type FixOrderFeed = FixFeed<Vec<OrderRecord>>;

/// The feed of a trade log. Its records are reports, two for each trade.
pub type FixReportFeed = FixFeed<Vec<Report>>;

/// A fault of a frame as the reason of a bad place.
pub fn frame_reason(fault: FrameFault) -> Reason
    ensures { result ≡ frame_reason fault }
{
    match fault {
        FrameFault::Begin => Reason::Begin,
        FrameFault::Length => Reason::Length,
        FrameFault::Truncated => Reason::Truncated,
        FrameFault::Trailer => Reason::Trailer,
        FrameFault::Checksum => Reason::Checksum,
    }
}

// Where the part of a piece ends that begins at this byte.
fn part_end(piece: &[u8], at: usize) -> usize
    requires { at < length piece.now }
    ensures more { at < result }
    ensures inside { result ≤ length piece.now }
{
    if piece.len() - at > PART {
        at + PART
    } else {
        piece.len()
    }
}

// The place of a bad message that begins at this offset.
fn bad_at<K: Collector>(entries: &K, offset: u64, reason: Reason) -> BadPlace
    requires { HasPlace K.has_taken entries.now }
    ensures { IsBadMessagePlace (K.has_taken entries.now) offset reason result }
{
    BadPlace {
        place: entries.count() + 1,
        offset,
        reason,
    }
}

impl<R: FixRecord, K: Collector<Entry = R>> FixFeed<K> {
    /// A feed that has been handed no bytes, over a collector that has been handed nothing.
    pub fn over(alloc: Global, entries: K) -> Self
        requires { K.has_taken entries [] }
        ensures { IsFixFeedOf K.has_taken R.meaning result [] }
    {
        FixFeed {
            alloc,
            framer: Framer::new(alloc),
            entries,
            bad: None,
        }
    }

    // Drops what is held, at a bad place.
    fn shut(&mut self, bad: BadPlace)
        ensures bad { self.new.bad ≡ Some bad }
        ensures nothing { bytes_held self.new.framer ≡ [] }
    {
        self.framer = Framer::new(self.alloc);
        self.bad = Some(bad);
    }

    // Takes the next message. True says that it was good, and that another may follow.
    fn take_next(
        &mut self,
        notes: &mut TagNotes,
        stamps: &mut StampReader,
    ) -> Result<bool, NoMemory>
        requires good { self.old.bad ≡ None }
        requires room { HasLog K.has_taken R.meaning self.old }
        ensures { IfOk result (λ more. MatchBool more
            (TakesMessage K.has_taken R.meaning self.old self.new)
            (TakesNoMessage K.has_taken R.meaning self.old self.new)) }
    {
        match self.framer.next_frame() {
            Step::Wait => Ok(false),
            Step::Fault { at, fault } => {
                let bad = bad_at(&self.entries, at, frame_reason(fault));
                self.shut(bad);
                Ok(false)
            }
            Step::Whole { start, body, to } => {
                let held = self.framer.held();
                match take_body(&mut self.entries, held, body, to, notes, stamps)? {
                    Ok(()) => Ok(true),
                    Err(reason) => {
                        let bad = bad_at(&self.entries, start, reason);
                        self.shut(bad);
                        Ok(false)
                    }
                }
            }
        }
    }

    // Takes messages as long as there is one and it is good. All have their values noted in the
    // same notes, and their points in time read by one reader.
    fn take_messages(&mut self) -> Result<(), NoMemory>
        requires good { self.old.bad ≡ None }
        requires room { HasLog K.has_taken R.meaning self.old }
        ensures { OnOk result (TakesNoMessage K.has_taken R.meaning self.old self.new) }
    {
        let mut notes = TagNotes::new();
        let mut stamps = StampReader::new();
        'messages: loop {
            if !self.take_next(&mut notes, &mut stamps)? {
                return Ok(());
            }
        }
    }

    // Hands on a part of a piece. After a bad message it is not looked at.
    fn feed_part(&mut self, part: &[u8]) -> Result<(), NoMemory>
        requires { HasRoom (IsFixFeedOf K.has_taken R.meaning) self.old part.now }
        ensures { OnOk result (HandsOnMore (IsFixFeedOf K.has_taken R.meaning self.old)
            (IsFixFeedOf K.has_taken R.meaning self.new) part.now) }
    {
        if self.bad.is_some() {
            return Ok(());
        }
        self.framer.feed(part)?;
        self.take_messages()
    }

    /// The collector, which has been handed exactly the records of the log that has come, or its
    /// first bad message: what the reading of the whole log gives, for every log that the feed
    /// stands for. Each record is sound: one of life Market has the market price of its side.
    /// Each has at least nine bytes of the log, so there is a place for one more.
    #[tactic(auto, using(crate::proofs::PricedLemmas::log_sound, crate::proofs::SizeLemmas::log_nine))]
    pub fn close(mut self) -> Result<K, LogFault>
        requires { IsFixFeedWithinLimit K.has_taken R.meaning self }
        ensures reads { (log : List ℕ) → IsFixFeedOf K.has_taken R.meaning self log
            → AnswersFixCollected K.has_taken (read_fix_log R.meaning log) result }
        ensures fits_places { IfOk result (HasPlace K.has_taken) }
        ensures nine { (log : List ℕ) → IfOk (read_fix_log R.meaning log)
            (λ entries. HasNineBytesEach entries log) }
        ensures sound { (log : List ℕ) → IfOk (read_fix_log R.meaning log) (All R.sound) }
    {
        R::means_sound_records();
        if let Some(bad) = self.bad {
            return Err(LogFault::Bad(bad));
        }
        if self.take_messages().is_err() {
            return Err(LogFault::Memory);
        }
        if let Some(bad) = self.bad {
            return Err(LogFault::Bad(bad));
        }
        match self.framer.finish() {
            Ok(()) => Ok(self.entries),
            Err(at) => Err(LogFault::Bad(bad_at(&self.entries, at, Reason::Truncated))),
        }
    }
}

impl<R: FixRecord> FixFeed<Vec<R>> {
    /// A feed that has been handed no bytes.
    pub fn new(alloc: Global) -> Self
        ensures { IsFixFeedOf ⟦<Vec<R> as Collector>⟧.has_taken R.meaning result [] }
    {
        FixFeed::over(alloc, Vec::new(alloc))
    }

    /// The records of the log that has come, or its first bad message: what the reading of the
    /// whole log gives, for every log that the feed stands for.
    pub fn finish(self) -> Result<Vec<R>, LogFault>
        requires { IsFixFeedWithinLimit ⟦<Vec<R> as Collector>⟧.has_taken R.meaning self }
        ensures reads { let has_taken = ⟦<Vec<R> as Collector>⟧.has_taken in
            (log : List ℕ) → IsFixFeedOf has_taken R.meaning self log
            → AnswersMessageRecords (read_fix_log R.meaning log) result }
        ensures sound { IfOk result (λ entries. All R.sound entries.items) }
        ensures fits_places { IfOk result (λ entries. vec_len entries < 2 ^ 32 - 1) }
        ensures nine { let has_taken = ⟦<Vec<R> as Collector>⟧.has_taken in
            (log : List ℕ) → IsFixFeedOf has_taken R.meaning self log
            → IfOk result (λ entries. HasNineBytesEach entries.items log) }
    {
        self.close()
    }
}

impl<R: FixRecord, K: Collector<Entry = R>> Feed for FixFeed<K> {
    ghost stands_for = { IsFixFeedOf K.has_taken R.meaning };

    fn feed(&mut self, piece: &[u8]) -> Result<(), NoMemory> {
        let mut at = 0;
        while at < piece.len() {
            let end = part_end(piece, at);
            self.feed_part(&piece[at..end])?;
            at = end;
        }
        Ok(())
    }
}
