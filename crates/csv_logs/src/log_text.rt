//! The text of a log, which grows by a line with each record.
ghost use Rattle.std.specs.Prelude.{◌≡◌, ◌∷◌, [], List, IfOk, OnOk};
ghost use Rattle.log_source.specs.Handing.{HandsOnMore};
ghost use Rattle.csv_logs.specs.Written.{IsReadBack, log_text};
ghost use Rattle.csv_logs.specs.WrittenLines.{IsAtLine, IsConvertedLog, IsLogText};

use crate::written_lines::LogLine;
use audit_base::faults::NoMemory;
use csv::{Writer, WriterBuilder};
use log_source::collector::Collector;
use std::alloc::Global;
use std::marker::PhantomData;

/// The canonical text of a log of some records: the header, and a line for each.
#[derive(Drop)]
pub struct LogText<R> {
    alloc: Global,
    writer: Writer<Vec<u8>>,
    of: PhantomData<R>,
}

impl<R: LogLine> LogText<R> {
    /// The text of a log without records.
    pub fn new(alloc: Global) -> Result<LogText<R>, NoMemory>
        ensures { IfOk result (λ text. IsLogText R.names R.meaning R.sound R.fields text []) }
    {
        let mut writer = WriterBuilder::new().from_writer(Vec::new(alloc));
        R::write_names(&mut writer)?;
        Ok(LogText {
            alloc,
            writer,
            of: PhantomData,
        })
    }

    /// Adds the line of a record.
    pub fn add(&mut self, entry: &R) -> Result<(), NoMemory>
        requires { IsAtLine self.old.writer }
        ensures { OnOk result (HandsOnMore (IsLogText R.names R.meaning R.sound R.fields self.old)
            (IsLogText R.names R.meaning R.sound R.fields self.new) (entry.now ∷ [])) }
    {
        entry.write(self.alloc, &mut self.writer)
    }

    /// The whole text, which is read again as the records.
    pub fn end(self) -> Result<Vec<u8>, NoMemory>
        ensures text { (entries : List R)
            → IsLogText R.names R.meaning R.sound R.fields self entries
            → IfOk result (λ text. text.items ≡ log_text R.names R.fields entries) }
        ensures again { (entries : List R)
            → IsLogText R.names R.meaning R.sound R.fields self entries
            → IsReadBack R.names R.meaning R.sound R.fields entries }
    {
        match self.writer.into_inner() {
            Ok(text) => Ok(text),
            Err(_) => Err(NoMemory),
        }
    }
}

/// A log that is written as it is read, in whatever form: a collector that keeps no record,
/// only the canonical text.
#[derive(Drop)]
pub struct ConvertedLog<R> {
    text: LogText<R>,
    count: u32,
}

impl<R: LogLine> ConvertedLog<R> {
    /// A log that has been handed no records.
    pub fn new(alloc: Global) -> Result<ConvertedLog<R>, NoMemory>
        ensures { IfOk result (λ log. IsConvertedLog R.names R.meaning R.sound R.fields log []) }
    {
        Ok(ConvertedLog {
            text: LogText::new(alloc)?,
            count: 0,
        })
    }

    /// The canonical text of the records.
    pub fn end(self) -> Result<Vec<u8>, NoMemory>
        ensures { (entries : List R)
            → IsConvertedLog R.names R.meaning R.sound R.fields self entries
            → IfOk result (λ text. text.items ≡ log_text R.names R.fields entries) }
    {
        self.text.end()
    }
}

impl<R: LogLine> Collector for ConvertedLog<R> {
    ghost use Rattle.std.specs.Prelude.{true};
    ghost use Rattle.csv_logs.specs.WrittenLines.{IsConvertedLog};

    type Entry = R;

    ghost has_taken = { IsConvertedLog R.names R.meaning R.sound R.fields };

    ghost wants = { λ log symbol. true };

    fn take(&mut self, entry: R) -> Result<(), NoMemory> {
        self.text.add(&entry)?;
        self.count += 1;
        Ok(())
    }

    fn wants(&self, _symbol: &[u8]) -> bool {
        true
    }

    fn pass_over(&mut self) {}

    fn count(&self) -> u32 {
        self.count
    }
}
