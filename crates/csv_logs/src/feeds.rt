//! Feeds: what takes a log piece by piece, hands on its records, keeps the line that has not
//! ended, and stops at the first bad line.
ghost use Rattle.std.specs.Prelude.{◌≡◌, ℕ, List, ◌+◌, ◌-◌, ◌<◌, ◌≤◌, ◌^◌, ◌++◌, ◌∷◌, [], All, IfErr, IfOk, IsTrue, OnOk, vec_len};
ghost use Rattle.std.specs.List.{list_all};
ghost use Rattle.log_source.specs.Feeds.{HasRoom};
ghost use Rattle.log_source.specs.Collectors.{HasNineBytesEach, HasPlace};
ghost use Rattle.csv_logs.specs.Columns.{is_unquoted_byte};
ghost use Rattle.csv_logs.specs.Readers.{IsReading, IsReadingLine, PassesLine, is_closed};
ghost use Rattle.csv_logs.specs.Feeds.{AnswersCollected, AnswersLogRecords, IsCsvFeedWithinLimit, IsCsvFeedOf};
ghost use Rattle.csv_logs.specs.Steps.{FeedEndsLine, FeedEndsLines, FeedTakesPiece, FeedHasLine, FeedHasLines, FeedMovesPastLine, KeepsAllButRest};
ghost use Rattle.csv_logs.specs.Lines.{without_cr};
ghost use Rattle.csv_logs.specs.Logs.{read_csv_log};

use crate::entries::{CsvRecord, take_fields, take_text};
use crate::fields::Fields;
use crate::lines::{
    is_closed, is_plain, is_unquoted, is_unquoted_unless_known, line_at, split_line, without_cr,
};
use audit_base::faults::{BadPlace, LogFault, NoMemory, Reason};
use audit_base::records::{OrderRecord, TradeRecord};
use audit_base::stamp_reader::StampReader;
use csv::{Reader, ReaderBuilder};
use log_source::collector::Collector;
use log_source::feed::Feed;
use std::alloc::Global;
use std::io::Read;
use std::mem;

/// What is kept of a log that comes in pieces. A piece may end anywhere: within the byte order
/// mark, between CR and LF, within a quoted field. Only the line that has not ended is kept as
/// bytes. After a bad line further pieces are taken without being looked at.
#[derive(Drop)]
pub struct CsvFeed<K> {
    pub alloc: Global,
    /// What has been handed the records of the lines that have ended, in order.
    pub entries: K,
    /// The bytes of the line that has not ended.
    pub rest: Vec<u8>,
    /// How many bytes came up to the last LF and with it.
    pub offset: u64,
    /// Whether the header has come.
    pub header: bool,
    /// The first bad line, once it has ended.
    pub bad: Option<BadPlace>,
}

/// The feed of an order log.
pub type CsvOrderFeed = CsvFeed<Vec<OrderRecord>>;

/// The feed of a trade log.
pub type CsvTradeFeed = CsvFeed<Vec<TradeRecord>>;

impl<R: CsvRecord, K: Collector<Entry = R>> CsvFeed<K> {
    /// A feed that has been handed no bytes, over a collector that has been handed nothing.
    pub fn over(alloc: Global, entries: K) -> Self
        requires { K.has_taken entries [] }
        ensures { IsCsvFeedOf K.has_taken R.names R.meaning result [] }
    {
        CsvFeed {
            alloc,
            entries,
            rest: Vec::new(alloc),
            offset: 0,
            header: false,
            bad: None,
        }
    }

    // Goes on after a line that is not empty and has been taken, given where it starts, how many
    // bytes it has with its LF, and what its result was.
    fn move_on(&mut self, start: u64, size: usize, outcome: Result<(), Reason>)
        requires place { IfErr outcome (λ why. HasPlace K.has_taken self.old.entries) }
        requires fits { self.old.offset + size < 2 ^ 64 }
        requires good { self.old.bad ≡ None }
        ensures moved { self.old.offset ≤ self.new.offset }
        ensures moves { FeedMovesPastLine K.has_taken outcome start size self.old self.new }
        ensures entries { self.new.entries ≡ self.old.entries }
        ensures rest { self.new.rest.items ≡ self.old.rest.items }
    {
        match outcome {
            Ok(()) => {
                self.header = true;
                self.offset += size as u64;
            }
            Err(reason) => {
                self.bad = Some(BadPlace {
                    place: self.entries.count() + 1,
                    offset: start,
                    reason,
                });
            }
        }
    }

    // Takes a line that has ended, without its LF.
    fn end_line(&mut self, line: &[u8]) -> Result<(), NoMemory>
        requires good { self.old.bad ≡ None }
        requires room { FeedHasLine K.has_taken R.names R.meaning self.old line.now }
        ensures moved { OnOk result (self.old.offset ≤ self.new.offset) }
        ensures taken { let ends = FeedEndsLine K.has_taken R.names R.meaning self.old self.new in
            OnOk result (ends line.now []) }
        ensures rest { OnOk result (self.new.rest.items ≡ self.old.rest.items) }
    {
        let size = line.len() + 1;
        let (start, text) = line_at(self.offset, line);
        if text.is_empty() {
            self.offset += size as u64;
            return Ok(());
        }
        let outcome = take_text(
            self.alloc,
            &mut self.entries,
            self.header,
            text,
            &mut StampReader::new(),
        )?;
        self.move_on(start, size, outcome);
        Ok(())
    }

    // Takes a closed line that has ended, without its LF, from a reader that is at it, given
    // whether it is known to be unquoted. The reader is then at the next line.
    fn read_line<I: Read>(
        &mut self,
        reader: &mut Reader<I>,
        fields: &mut Fields,
        stamps: &mut StampReader,
        line: &[u8],
        unquoted: bool,
    ) -> Result<(), NoMemory>
        requires good { self.old.bad ≡ None }
        requires started { 0 < self.old.offset }
        requires room { FeedHasLine K.has_taken R.names R.meaning self.old line.now }
        requires closed { IsTrue (is_closed (without_cr line.now)) }
        requires unquoted { let text = without_cr line.now in
            IsTrue unquoted → IsTrue (list_all is_unquoted_byte text) }
        requires reading { IsReadingLine I.remaining reader.old line.now }
        ensures moved { OnOk result (self.old.offset ≤ self.new.offset) }
        ensures taken { let ends = FeedEndsLine K.has_taken R.names R.meaning self.old self.new in
            OnOk result (ends line.now []) }
        ensures rest { OnOk result (self.new.rest.items ≡ self.old.rest.items) }
        ensures reading { OnOk result (PassesLine I.remaining reader.old reader.new line.now) }
    {
        if without_cr(line).is_empty() {
            return self.end_line(line);
        }
        fields.read_next(reader, unquoted)?;
        let outcome = take_fields(&mut self.entries, self.header, fields, stamps)?;
        self.move_on(self.offset, line.len() + 1, outcome);
        Ok(())
    }

    // The line that `rest` and this end make, which is not kept any more.
    fn take_rest(&mut self, end: &[u8]) -> Result<Vec<u8>, NoMemory>
        ensures line { IfOk result (λ line. line.items ≡ self.old.rest.items ++ end.now) }
        ensures rest { OnOk result (self.new.rest.items ≡ []) }
        ensures others { OnOk result (KeepsAllButRest self.old self.new) }
    {
        let mut line = mem::replace(&mut self.rest, Vec::new(self.alloc));
        line.extend_from_slice(end)?;
        Ok(line)
    }

    // Takes closed lines from the start of a text, as far as there are such, from a reader that
    // is at it, and gives the rest.
    fn read_lines<'p, I: Read>(
        &mut self,
        reader: &mut Reader<I>,
        fields: &mut Fields,
        stamps: &mut StampReader,
        text: &'p [u8],
    ) -> Result<&'p [u8], NoMemory>
        requires started { 0 < self.old.offset }
        requires rest { self.old.rest.items ≡ [] }
        requires room { HasRoom (IsCsvFeedOf K.has_taken R.names R.meaning) self.old text.now }
        requires reading { IsReading I.remaining reader.old text.now }
        ensures goes { let goes = FeedTakesPiece K.has_taken R.names R.meaning self.old self.new in
            IfOk result (λ left. goes text.now left.now) }
        ensures rest { OnOk result (self.new.rest.items ≡ []) }
    {
        let mut left = text;
        let plain = is_plain(left);
        'lines: while self.bad.is_none() {
            let Some((line, later)) = split_line(left) else {
                break;
            };
            let text = without_cr(line);
            let unquoted = is_unquoted_unless_known(plain, text);
            if !unquoted && !is_closed(text) {
                break;
            }
            self.read_line(reader, fields, stamps, line, unquoted)?;
            left = later;
        }
        Ok(left)
    }

    // Takes a closed line that has ended, without its LF, from a reader that is at it, and closed
    // lines from the start of the text after it, as far as there are such, and gives the rest.
    fn read_on<'p, I: Read>(
        &mut self,
        reader: &mut Reader<I>,
        line: &[u8],
        text: &'p [u8],
    ) -> Result<&'p [u8], NoMemory>
        requires good { self.old.bad ≡ None }
        requires started { 0 < self.old.offset }
        requires rest { self.old.rest.items ≡ [] }
        requires room { FeedHasLines K.has_taken R.names R.meaning self.old line.now text.now }
        requires closed { IsTrue (is_closed (without_cr line.now)) }
        requires reading { IsReading I.remaining reader.old (line.now ++ 10 ∷ text.now) }
        ensures taken { let ends = FeedEndsLines K.has_taken R.names R.meaning self.old self.new in
            IfOk result (λ left. ends line.now text.now left.now) }
        ensures rest { OnOk result (self.new.rest.items ≡ []) }
    {
        let mut fields = Fields::new(self.alloc);
        let mut stamps = StampReader::new();
        let unquoted = is_unquoted(without_cr(line));
        self.read_line(reader, &mut fields, &mut stamps, line, unquoted)?;
        self.read_lines(reader, &mut fields, &mut stamps, text)
    }

    // Takes a line that has ended, without its LF, and closed lines from the start of the text
    // after it, as far as there are such, and gives the rest. Where the line is closed too, one
    // reader reads all of them.
    fn take_lines<'p>(&mut self, line: &[u8], text: &'p [u8]) -> Result<&'p [u8], NoMemory>
        requires good { self.old.bad ≡ None }
        requires rest { self.old.rest.items ≡ [] }
        requires room { FeedHasLines K.has_taken R.names R.meaning self.old line.now text.now }
        ensures taken { let ends = FeedEndsLines K.has_taken R.names R.meaning self.old self.new in
            IfOk result (λ left. ends line.now text.now left.now) }
        ensures rest { OnOk result (self.new.rest.items ≡ []) }
    {
        if self.offset == 0 || !is_closed(without_cr(line)) {
            self.end_line(line)?;
            return Ok(text);
        }
        let ended = line.chain(b"\n".as_slice());
        let mut reader = ReaderBuilder::new()
            .has_headers(false)
            .flexible(true)
            .from_reader(self.alloc, ended.chain(text));
        self.read_on(&mut reader, line, text)
    }

    // Takes the end of a line whose front is in `rest`, without its LF, and closed lines from the
    // start of the text after it, and gives the rest of that.
    fn end_rest<'p>(&mut self, end: &[u8], text: &'p [u8]) -> Result<&'p [u8], NoMemory>
        requires good { self.old.bad ≡ None }
        requires room { let line = self.old.rest.items ++ end.now in
            FeedHasLines K.has_taken R.names R.meaning self.old line text.now }
        ensures { let ends = FeedEndsLines K.has_taken R.names R.meaning self.old self.new in
            let line = self.old.rest.items ++ end.now in
            IfOk result (λ left. ends line text.now left.now) }
    {
        let mut line = self.take_rest(end)?;
        let left = self.take_lines(&line, text)?;
        line.clear();
        self.rest = line;
        Ok(left)
    }

    // Keeps the front of a line that has not ended.
    fn keep_rest(&mut self, front: &[u8]) -> Result<(), NoMemory>
        ensures rest { OnOk result (self.new.rest.items ≡ self.old.rest.items ++ front.now) }
        ensures others { OnOk result (KeepsAllButRest self.old self.new) }
    {
        self.rest.extend_from_slice(front)?;
        Ok(())
    }

    /// The collector, which has been handed exactly the records of the log that has come, or its
    /// first bad line: what the reading of the whole log gives, for every log that the feed
    /// stands for. Each record is sound: one of life Market has the market price of its side.
    /// Each has at least nine bytes of the log, so there is a place for one more.
    #[tactic(auto, using(crate::proofs::ReadingLemmas::log_sound, crate::proofs::SizeLemmas::log_nine))]
    pub fn close(mut self) -> Result<K, LogFault>
        requires { IsCsvFeedWithinLimit K.has_taken R.names R.meaning self }
        ensures reads { (log : List ℕ) → IsCsvFeedOf K.has_taken R.names R.meaning self log
            → AnswersCollected K.has_taken (read_csv_log R.names R.meaning log) result }
        ensures fits_places { IfOk result (HasPlace K.has_taken) }
        ensures nine { (log : List ℕ) → IfOk (read_csv_log R.names R.meaning log)
            (λ entries. HasNineBytesEach entries log) }
        ensures sound { (log : List ℕ) → IfOk (read_csv_log R.names R.meaning log) (All R.sound) }
    {
        R::means_sound_records();
        if let Some(bad) = self.bad {
            return Err(LogFault::Bad(bad));
        }
        let size = self.offset + self.rest.len() as u64;
        // The last line may lack its LF.
        let last = self.take_rest(&[])?;
        self.end_line(&last)?;
        match self.bad {
            Some(bad) => Err(LogFault::Bad(bad)),
            None if self.header => Ok(self.entries),
            None => Err(LogFault::Bad(BadPlace {
                place: 1,
                offset: size,
                reason: Reason::Header,
            })),
        }
    }
}

impl<R: CsvRecord> CsvFeed<Vec<R>> {
    /// A feed that has been handed no bytes.
    pub fn new(alloc: Global) -> Self
        ensures { IsCsvFeedOf ⟦<Vec<R> as Collector>⟧.has_taken R.names R.meaning result [] }
    {
        CsvFeed::over(alloc, Vec::new(alloc))
    }

    /// The records of the log that has come, or its first bad line: what the reading of the whole
    /// log gives, for every log that the feed stands for.
    pub fn finish(self) -> Result<Vec<R>, LogFault>
        requires { IsCsvFeedWithinLimit ⟦<Vec<R> as Collector>⟧.has_taken R.names R.meaning self }
        ensures reads { let has_taken = ⟦<Vec<R> as Collector>⟧.has_taken in
            (log : List ℕ) → IsCsvFeedOf has_taken R.names R.meaning self log
            → AnswersLogRecords (read_csv_log R.names R.meaning log) result }
        ensures sound { IfOk result (λ entries. All R.sound entries.items) }
        ensures fits_places { IfOk result (λ entries. vec_len entries < 2 ^ 32 - 1) }
        ensures nine { let has_taken = ⟦<Vec<R> as Collector>⟧.has_taken in
            (log : List ℕ) → IsCsvFeedOf has_taken R.names R.meaning self log
            → IfOk result (λ entries. HasNineBytesEach entries.items log) }
    {
        self.close()
    }
}

impl<R: CsvRecord, K: Collector<Entry = R>> Feed for CsvFeed<K> {
    ghost stands_for = { IsCsvFeedOf K.has_taken R.names R.meaning };

    fn feed(&mut self, piece: &[u8]) -> Result<(), NoMemory> {
        let mut left = piece;
        'lines: while self.bad.is_none() {
            match split_line(left) {
                Some((end, later)) => {
                    left = self.end_rest(end, later)?;
                }
                None => return self.keep_rest(left),
            }
        }
        Ok(())
    }
}
