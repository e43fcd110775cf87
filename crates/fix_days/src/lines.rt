//! A day on lines: each message on a line, after anything, in a dress in which a text may stand for
//! SOH. What is after a message on its line is searched as a line is.
ghost use Rattle.std.specs.Prelude.{◌≡◌, ◌+◌, ◌≤◌, ◌<◌, ◌^◌, [], ℕ, Bool, List, None, IfOk, OnOk, MatchBool, IsTrue, length, drop, vec_len};
ghost use Rattle.std.specs.List.{list_all};
ghost use Rattle.fix_days.specs.Answers.{HasCounted, HasReadBodies};
ghost use Rattle.fix_days.specs.Fronts.{HasReadLines, line_count};
ghost use Rattle.fix_days.specs.Lines.{IsLineReading, is_graphic, is_soh_text};
ghost use Rattle.fix_days.specs.LineFeeds.{IsLineFeedOf, IsLineFeedWithinLimit};
ghost use Rattle.fix_days.specs.LineSteps.{DropsTo, EndsLines, HasDay, ShutsAt, TakesLine, TakesNoLine, unread};
ghost use Rattle.fix_days.specs.Looks.{LookSays};
ghost use Rattle.fix_days.specs.Searches.{HasNoneFrom, IsFirstFrom};

use crate::beginnings::first_beginning;
use crate::bodies::Bodies;
use crate::faults::BadMessage;
use crate::looking::{Look, look_at};
use crate::read_day::{DayCount, ReadDay};
use audit_base::faults::NoMemory;
use audit_base::sizes::SOH;
use fix_framing::frames::FrameFault;
use log_source::feed::Feed;
use std::alloc::Global;
use std::marker::{Brand, PhantomData};
use std::mem;

/// The text that stands for SOH in a day, for proofs alone. What hands pieces to feeds of any kind
/// can say of one only which day it has been handed, and not which text it was made for. So the
/// type of a feed says that. Whoever makes one picks the text, at `Brand`, and nothing of it is
/// there when the program runs.
pub trait SohGhost {
    ghost text: { List ℕ };
}

impl SohGhost for Brand {
    ghost use Rattle.std.specs.Prelude.{◌∷◌};
    ghost use Rattle.audit_base.specs.Sizes.{soh};

    ghost text = { soh ∷ [] };
}

/// Whether each byte is from 0x21 to 0x7E.
fn are_graphic(text: &[u8]) -> bool
    ensures { result ≡ list_all is_graphic text.now }
{
    text.iter().all(u8::is_ascii_graphic)
}

/// Whether the text may stand for SOH: SOH itself, or 1 to 5 bytes from 0x21 to 0x7E.
pub fn is_soh_text(text: &[u8]) -> bool
    ensures { result ≡ is_soh_text text.now }
{
    1 <= text.len() && text.len() <= 5 && (are_graphic(text) || [SOH].starts_with(text))
}

/// What is kept of a day on lines that comes in pieces, of at most `LONGEST_READ` bytes in all: the
/// bytes from the beginning of a message that is not all there, or the last six if none begins.
#[derive(Drop)]
pub struct LineFeed<B, S> {
    /// The text that stands for SOH.
    soh: Vec<u8>,
    /// The bytes that are held: the last ones of all bytes fed.
    held: Vec<u8>,
    /// How many bytes were dropped before them.
    base: u64,
    /// How many of the bytes held are read.
    next: usize,
    /// No message begins from there on and before this place.
    searched: usize,
    /// What the bytes of the next message stand for, as far as it was looked at.
    message: Vec<u8>,
    /// What has been handed the bodies of the messages before it.
    bodies: B,
    /// How many messages these are.
    count: u32,
    /// The first bad message.
    bad: Option<BadMessage>,
    of: PhantomData<S>,
}

/// Drops the first bytes.
fn drop_front(bytes: &mut Vec<u8>, count: usize)
    requires { count ≤ vec_len bytes.old }
    ensures { bytes.new.items ≡ drop count bytes.old.items }
{
    if count > 0 {
        let length = bytes.len();
        bytes.copy_within(count..length, 0);
        bytes.truncate(length - count);
    }
}

impl<B: Bodies, S: SohGhost> LineFeed<B, S> {
    /// A feed that has been handed no bytes, over a taker that has been handed nothing. `soh` is
    /// the text that stands for SOH in the day.
    pub fn over(alloc: Global, soh: Vec<u8>, bodies: B) -> Self
        requires soh { soh.items ≡ S.text }
        requires is { IsTrue (is_soh_text S.text) }
        requires nothing { B.has_taken bodies [] }
        ensures { IsLineFeedOf S.text B.has_taken result [] }
    {
        LineFeed {
            soh,
            held: Vec::new(alloc),
            base: 0,
            next: 0,
            searched: 0,
            message: Vec::new(alloc),
            bodies,
            count: 0,
            bad: None,
            of: PhantomData,
        }
    }

    /// Gives back the taker that has been handed the bodies so far, and puts this one in its place,
    /// which is handed those to come.
    pub fn replace(&mut self, bodies: B) -> B
        ensures taken { result ≡ self.old.bodies }
        ensures placed { self.new.bodies ≡ bodies }
        ensures kept { (day : List ℕ) (handed : List (List ℕ))
            → HasReadLines S.text self.old day handed → HasReadLines S.text self.new day handed }
    {
        mem::replace(&mut self.bodies, bodies)
    }

    // Drops the bytes before this place: those after it are read next, from where they are
    // searched.
    fn drop_to(&mut self, place: usize, searched: usize)
        requires place { place ≤ length self.old.held.items }
        requires room { self.old.base + length self.old.held.items < 2 ^ 63 }
        ensures { DropsTo place searched self.old self.new }
    {
        drop_front(&mut self.held, place);
        self.base += place as u64;
        self.next = 0;
        self.searched = searched;
    }

    // No message begins in the bytes held. Of these the last six are kept, since a beginning may
    // end with bytes that come, and a digit may be before it.
    fn keep_last(&mut self)
        requires good { self.old.bad ≡ None }
        requires within { self.old.next ≤ length self.old.held.items }
        requires room { self.old.base + length self.old.held.items < 2 ^ 63 }
        requires none { HasNoneFrom (unread self.old) self.old.searched }
        ensures { (ended : Bool) → TakesNoLine S.text B.has_taken ended self.old self.new }
    {
        let length = self.held.len();
        if length - self.next < 6 {
            self.drop_to(self.next, self.searched);
        } else {
            self.drop_to(length - 6, 1);
        }
    }

    // Drops what is held, at a bad message.
    fn shut(&mut self, place: usize, fault: FrameFault)
        requires place { place ≤ length self.old.held.items }
        requires room { self.old.base + length self.old.held.items < 2 ^ 63 }
        requires count { self.old.count + 1 < 2 ^ 32 }
        ensures { ShutsAt place fault self.old self.new }
    {
        self.bad = Some(BadMessage {
            place: self.count + 1,
            offset: self.base + place as u64,
            fault,
        });
        self.held.clear();
        self.message.clear();
    }

    // Takes what was looked at. True says that it was a message, and that another may follow.
    fn take_look(&mut self, step: usize, ended: bool, look: Look) -> Result<bool, NoMemory>
        requires good { self.old.bad ≡ None }
        requires room { HasDay S.text B.has_taken ended self.old }
        requires found { IsFirstFrom (unread self.old) self.old.searched step }
        requires says { LookSays S.text self.old.held.items (self.old.next + step) ended
            self.old.message.items look }
        ensures { IfOk result (λ more. MatchBool more
            (TakesLine S.text B.has_taken ended self.old self.new)
            (TakesNoLine S.text B.has_taken ended self.old self.new)) }
    {
        match look {
            Look::Message { body, to, end } => {
                self.bodies.take(&self.message[body..to])?;
                self.count += 1;
                self.next = end;
                self.searched = 0;
                Ok(true)
            }
            Look::Wait => {
                self.drop_to(self.next + step, 0);
                Ok(false)
            }
            Look::Fault(fault) => {
                self.shut(self.next + step, fault);
                Ok(false)
            }
        }
    }

    // Takes the next message. True says that there was one, and that another may follow. `ended`
    // says that no bytes will follow.
    fn take_next(&mut self, ended: bool) -> Result<bool, NoMemory>
        requires good { self.old.bad ≡ None }
        requires room { HasDay S.text B.has_taken ended self.old }
        ensures { IfOk result (λ more. MatchBool more
            (TakesLine S.text B.has_taken ended self.old self.new)
            (TakesNoLine S.text B.has_taken ended self.old self.new)) }
    {
        let Some(step) = first_beginning(&self.held[self.next..], self.searched) else {
            self.keep_last();
            return Ok(false);
        };
        let place = self.next + step;
        let look = look_at(&self.soh, &self.held, place, ended, &mut self.message)?;
        self.take_look(step, ended, look)
    }

    // Takes messages as long as there is one.
    fn take_messages(&mut self, ended: bool) -> Result<(), NoMemory>
        requires good { self.old.bad ≡ None }
        requires room { HasDay S.text B.has_taken ended self.old }
        ensures { OnOk result (TakesNoLine S.text B.has_taken ended self.old self.new) }
    {
        'messages: loop {
            if !self.take_next(ended)? {
                return Ok(());
            }
        }
    }

    // Takes what is left at the end of the day.
    fn end_lines(&mut self) -> Result<(), NoMemory>
        requires { IsLineFeedWithinLimit S.text B.has_taken self.old }
        ensures { OnOk result ((day : List ℕ) → IsLineFeedOf S.text B.has_taken self.old day
            → EndsLines S.text B.has_taken self.new day) }
    {
        if self.bad.is_some() {
            return Ok(());
        }
        self.take_messages(true)
    }

    // How many bodies were handed on.
    fn handed_on(&self) -> u32
        ensures { result ≡ line_count self.now }
    {
        match self.bad {
            Some(bad) => bad.place.saturating_sub(1),
            None => self.count,
        }
    }

    // Forgets the day. What has been handed its bodies, the text for SOH and the memory stay.
    fn clear(&mut self)
        requires soh { self.old.soh.items ≡ S.text }
        requires is { IsTrue (is_soh_text S.text) }
        ensures anew { HasReadLines S.text self.new [] [] }
        ensures bodies { self.new.bodies ≡ self.old.bodies }
    {
        self.held.clear();
        self.base = 0;
        self.next = 0;
        self.searched = 0;
        self.message.clear();
        self.count = 0;
        self.bad = None;
    }

    /// Ends the day, as `close`, and says how many bodies were handed on. The feed may then be
    /// handed another day, whose bodies the same taker is handed behind those of this one.
    pub fn end_day(&mut self) -> Result<DayCount, NoMemory>
        requires is { IsTrue (is_soh_text S.text) }
        requires within { IsLineFeedWithinLimit S.text B.has_taken self.old }
        ensures ends { (day : List ℕ) → IsLineFeedOf S.text B.has_taken self.old day
            → IfOk result (λ end. HasReadBodies
            (HasCounted (B.has_taken self.new.bodies) end.bodies) (IsLineReading S.text day)
            end.bad) }
        ensures anew { OnOk result (HasReadLines S.text self.new [] []) }
    {
        self.end_lines()?;
        let end = DayCount {
            bodies: self.handed_on(),
            bad: self.bad,
        };
        self.clear();
        Ok(end)
    }

    /// The taker, which has been handed exactly the bodies of the messages of the day that has
    /// come, in order, up to the first bad one, and that one: together what the reading of the
    /// whole day says, for every day that the feed stands for.
    pub fn close(mut self) -> Result<ReadDay<B>, NoMemory>
        requires { IsLineFeedWithinLimit S.text B.has_taken self }
        ensures { (day : List ℕ) → IsLineFeedOf S.text B.has_taken self day
            → IfOk result (λ read. HasReadBodies (B.has_taken read.bodies)
            (IsLineReading S.text day) read.bad) }
    {
        self.end_lines()?;
        Ok(ReadDay {
            bodies: self.bodies,
            bad: self.bad,
        })
    }
}

impl<B: Bodies, S: SohGhost> Feed for LineFeed<B, S> {
    ghost stands_for = { IsLineFeedOf S.text B.has_taken };

    fn feed(&mut self, piece: &[u8]) -> Result<(), NoMemory> {
        if self.bad.is_some() {
            return Ok(());
        }
        self.held.extend_from_slice(piece)?;
        self.take_messages(false)
    }
}
