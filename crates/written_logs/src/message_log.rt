//! The collector that writes a FIX log.
ghost use Rattle.std.specs.Prelude.{◌≡◌, ◌++◌, [], ℕ, List, OnOk};
ghost use Rattle.written_logs.specs.MessageLogs.{IsMessageLog};

use audit_base::faults::NoMemory;
use audit_base::records::{LogRecord, OrderRecord, TradeRecord};
use fix_messages::writers::{write_order, write_trade};
use log_source::collector::Collector;
use std::alloc::Global;
use std::marker::PhantomData;

/// A record that can be written as messages.
pub(crate) trait LogMessage: LogRecord {
    // The messages of the record.
    ghost message: { Self → List ℕ };

    // All parts of the record are in their forms.
    ghost in_form: { Self → Type 0 };

    /// Appends the messages of the record.
    fn write_message(&self, alloc: Global, out: &mut Vec<u8>) -> Result<(), NoMemory>
        ensures appended { OnOk result (out.new.items ≡ out.old.items ++ message self.now) }
        ensures in_form { OnOk result (in_form self.now) };
}

impl LogMessage for OrderRecord {
    ghost use Rattle.fix_messages.specs.Written.{order_message, IsOrderInForm};

    ghost message = { order_message };

    ghost in_form = { IsOrderInForm };

    fn write_message(&self, alloc: Global, out: &mut Vec<u8>) -> Result<(), NoMemory> {
        write_order(alloc, self, out)
    }
}

impl LogMessage for TradeRecord {
    ghost use Rattle.fix_messages.specs.Written.{trade_message_pair, IsTradeInForm};

    ghost message = { trade_message_pair };

    ghost in_form = { IsTradeInForm };

    fn write_message(&self, alloc: Global, out: &mut Vec<u8>) -> Result<(), NoMemory> {
        write_trade(alloc, self, out)
    }
}

/// A FIX log that is written as another log is read, in whatever form: a collector that keeps no
/// record, only the messages.
#[derive(Drop)]
pub(crate) struct MessageLog<R> {
    alloc: Global,
    pub(crate) text: Vec<u8>,
    count: u32,
    of: PhantomData<R>,
}

impl<R: LogMessage> MessageLog<R> {
    /// A log that has been handed no records.
    pub(crate) fn new(alloc: Global) -> MessageLog<R>
        ensures { IsMessageLog R.message R.in_form result [] }
    {
        MessageLog {
            alloc,
            text: Vec::new(alloc),
            count: 0,
            of: PhantomData,
        }
    }
}

impl<R: LogMessage> Collector for MessageLog<R> {
    ghost use Rattle.std.specs.Prelude.{true};
    ghost use Rattle.written_logs.specs.MessageLogs.{IsMessageLog};

    type Entry = R;

    ghost has_taken = { IsMessageLog R.message R.in_form };

    ghost wants = { λ log symbol. true };

    fn take(&mut self, entry: R) -> Result<(), NoMemory> {
        entry.write_message(self.alloc, &mut self.text)?;
        self.count += 1;
        Ok(())
    }

    fn wants(&self, _symbol: &[u8]) -> bool {
        true
    }

    fn pass_over(&mut self) {}

    fn count(&self) -> u32 {
        self.count
    }
}
