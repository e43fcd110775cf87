//! What is known of a log, message by message.
ghost use Rattle.std.specs.Prelude.{◌≡◌, ◌-◌, ◌≤◌, ◌∷◌, [], IfOk, OnOk, length};
ghost use Rattle.std.specs.List.{slice_range};
ghost use Rattle.audit_base.specs.Sizes.{longest_body};
ghost use Rattle.fix_fields.specs.TagNotes.{HasNotes};
ghost use Rattle.fix_messages.specs.Bodies.{body_says, with_reason};
ghost use Rattle.fix_messages.specs.BodyFields.{fields_of};
ghost use Rattle.fix_messages.specs.Steps.{TakesSaid};
ghost use Rattle.log_contents.specs.Contents.{HasKinds, HasRecords, kind_if_read};
ghost use Rattle.log_contents.specs.Kinds.{kind_of_message};
ghost use Rattle.log_source.specs.Collectors.{HasPlace};
ghost use Rattle.log_source.specs.Handing.{HandsOnMore};

use crate::kind_counts::KindCounts;
use crate::message_kinds::{passed_kind, told_value};
use crate::message_values::type_value;
use crate::record_facts::{RecordFacts, TimedRecord};
use audit_base::faults::{NoMemory, Reason};
use audit_base::stamp_reader::StampReader;
use fix_fields::field::FieldFault;
use fix_fields::notes::TagNotes;
use fix_fields::split::note_front_fields;
use fix_messages::entries::FixRecord;
use seeded_hash::seed::HashSeed;
use std::alloc::Global;

/// What is known of a log: what its records say, and how often each kind is there.
#[derive(Drop)]
pub struct Contents<R> {
    pub facts: RecordFacts<R>,
    pub kinds: KindCounts,
}

impl<R: TimedRecord> Contents<R> {
    /// Of an empty log. Symbols and kinds are found by hashes of this seed. Takes no memory.
    pub fn new(alloc: Global, seed: HashSeed) -> Self
        ensures records { HasRecords R.symbol_of R.time_of result [] }
        ensures kinds { HasKinds result [] }
    {
        Contents {
            facts: RecordFacts::new(alloc, seed),
            kinds: KindCounts::new(alloc, seed),
        }
    }

    /// Counts the kind of a message, by its body and the notes of its fields, and whether it is
    /// read.
    fn count_message(
        &mut self,
        alloc: Global,
        is_read: bool,
        body: &[u8],
        notes: &TagNotes,
    ) -> Result<(), NoMemory>
        requires notes { HasNotes body.now notes.now }
        requires place { HasPlace HasKinds self.old }
        ensures facts { self.new.facts ≡ self.old.facts }
        ensures kinds { let kind = kind_if_read is_read (fields_of body.now) in
            OnOk result (HandsOnMore (HasKinds self.old) (HasKinds self.new) (kind ∷ [])) }
    {
        if is_read {
            self.kinds.count(told_value(type_value(body, notes)))
        } else {
            let kind = passed_kind(alloc, body, notes)?;
            self.kinds.count(&kind)
        }
    }
}

impl<R: FixRecord + TimedRecord> Contents<R> {
    /// Takes the record that the fields of a body mean, if they mean one, counts the kind of the
    /// message, and gives the first test that the fields fail.
    fn take_fields(
        &mut self,
        alloc: Global,
        body: &[u8],
        notes: &TagNotes,
        stamps: &mut StampReader,
    ) -> Result<Result<(), Reason>, NoMemory>
        requires notes { HasNotes body.now notes.now }
        requires records { HasPlace (HasRecords R.symbol_of R.time_of) self.old }
        requires kinds { HasPlace HasKinds self.old }
        ensures records { let has = HasRecords R.symbol_of R.time_of in
            IfOk result (TakesSaid (with_reason (R.meaning (fields_of body.now)))
            (has self.old) (has self.new)) }
        ensures kinds { IfOk result
            (TakesSaid (with_reason (kind_of_message R.meaning (fields_of body.now)))
            (HasKinds self.old) (HasKinds self.new)) }
    {
        let before = self.facts.count;
        match R::take_fields(&mut self.facts, body, notes, stamps)? {
            Ok(()) => {
                self.count_message(alloc, before < self.facts.count, body, notes)?;
                Ok(Ok(()))
            }
            Err(reason) => Ok(Err(reason)),
        }
    }

    /// Takes the message whose body is in a text from one byte on and up to another: its record,
    /// if it means one, and its kind; and gives the first test that it fails. Notes are taken of
    /// its fields in place of what was noted before.
    pub(crate) fn take_message(
        &mut self,
        alloc: Global,
        text: &[u8],
        from: usize,
        to: usize,
        notes: &mut TagNotes,
        stamps: &mut StampReader,
    ) -> Result<Result<(), Reason>, NoMemory>
        requires records { HasPlace (HasRecords R.symbol_of R.time_of) self.old }
        requires kinds { HasPlace HasKinds self.old }
        requires ordered { from ≤ to }
        requires inside { to ≤ length text.now }
        requires short { to - from ≤ longest_body }
        ensures records { let has = HasRecords R.symbol_of R.time_of in
            IfOk result (TakesSaid (body_says R.meaning (slice_range text.now from to))
            (has self.old) (has self.new)) }
        ensures kinds { let says = body_says (kind_of_message R.meaning) in
            IfOk result (TakesSaid (says (slice_range text.now from to))
            (HasKinds self.old) (HasKinds self.new)) }
    {
        let body = &text[from..to];
        match note_front_fields(&text[from..], to - from, notes) {
            Ok(()) => self.take_fields(alloc, body, notes, stamps),
            Err(FieldFault::Field(at)) => Ok(Err(Reason::Field(at))),
            Err(FieldFault::MsgType) => Ok(Err(Reason::MsgType)),
            Err(FieldFault::Memory) => Err(NoMemory),
        }
    }
}
