// The receiver's start, and its taking of a datagram.
#![tactic(auto, using(crate::proofs::Rules::found, crate::proofs::Rules::ladder, crate::proofs::Rules::names, crate::proofs::Rules::rows))]

ghost use Rattle.std.specs.Prelude.{◌≡◌, false};
ghost use Rattle.wire.specs.Refusals.{bad_setting};
ghost use Rattle.moldudp64.specs.Header.{end_count};
ghost use Rattle.wire.specs.Words.{refused_by};
ghost use Rattle.moldudp64.specs.Downstream.{data_packet, heartbeat, end_of_session, downstream_words};
ghost use Rattle.receiver.specs.Table.{ask_outcome, table, numbered};
ghost use Rattle.receiver.specs.Receiver.{receiver, refused_receiver, unnamed, named_by, other_session, open_for};
ghost use Rattle.receiver.specs.Receiver.{below_read, refusal_read, row_read};
ghost use Rattle.receiver.specs.Receiver.{ReadAsWhole, Starts, Takes, TakesRead, TakesRow};
ghost use Rattle.receiver.specs.Statements.{ReceiverPromises};
ghost use Rattle.receiver.specs.Condition3.{Condition3, RefusedChangeNothing};
ghost use Rattle.receiver.specs.Witnesses.{NotVacuous, NotWeak};
ghost use Rattle.receiver.specs.Calls.{CallsDeliverTrue};

use moldudp64::downstream::Downstream;
use moldudp64::{downstream, header};
use wire::kinds::{MessageCount, MessagePlace, SESSION_SIZE, SequenceNumber};
use wire::refusal::Refusal;
use wire::{compare, kinds, parts, refusal};

// The place of a name's last byte.
const LAST_OF_NAME: usize = SESSION_SIZE - 1;

// The number stands in front of the name, so that no padding is copied between them.
#[derive(Clone, Copy, Debug, PartialEq, Eq)]
pub struct Receiver {
    // The number of the next message to deliver.
    pub next: SequenceNumber,
    // The session's name; ten spaces until it is learned.
    pub session: [u8; SESSION_SIZE],
    // The most messages that one request asks for.
    pub limit: MessageCount,
    pub ended: bool,
}

// What the receiver answers to a datagram.
#[derive(Clone, Copy, Debug, PartialEq, Eq)]
pub enum Answer {
    // Messages to deliver: the number of the first, how many, and the place of the first in its datagram, which is how
    // many are skipped before it.
    Deliver {
        first: SequenceNumber,
        count: MessageCount,
        skipped: MessagePlace,
    },
    Old,
    Quiet,
    // A request to send: the first number wanted, and how many.
    Ask {
        from: SequenceNumber,
        count: MessageCount,
    },
    Ended,
    Refused(Refusal),
}

// The answer to a datagram, and the receiver to use next.
#[derive(Clone, Copy, Debug, PartialEq, Eq)]
pub struct Taken {
    pub answer: Answer,
    pub receiver: Receiver,
}

// The refusal of a start, its number 0 where there is none, and the receiver.
#[derive(Clone, Copy, Debug, PartialEq, Eq)]
pub struct Started {
    pub refusal: Refusal,
    pub receiver: Receiver,
}

// A refused start: an ended receiver, its name ten spaces, its numbers 1.
fn refused_start() -> Started
    ensures { (result.refusal.number ≡ bad_setting) × (result.receiver ≡ refused_receiver) }
{
    Started {
        refusal: refusal::BAD_SETTING,
        receiver: Receiver {
            session: kinds::BLANK,
            next: SequenceNumber(1),
            limit: MessageCount(1),
            ended: true,
        },
    }
}

// What the reader refused. One of number 0, which was made up, refuses nothing.
fn check_read(packet: Result<Downstream, Refusal>) -> Result<(), Refusal>
    ensures { result ≡ refused_by (downstream_words packet).refusal }
{
    match packet {
        Ok(_) => Ok(()),
        Err(refused) => {
            if refused.number == 0 {
                return Ok(());
            }
            Err(refused)
        }
    }
}

impl Receiver {
    // The settings that a start takes: the smallest and largest number, the smallest and largest asking limit.
    pub const LEAST_NUMBER: SequenceNumber = kinds::LEAST_NUMBER;

    pub const LARGEST_NUMBER: SequenceNumber = kinds::LARGEST_NUMBER;

    pub const LEAST_LIMIT: MessageCount = kinds::LEAST_LIMIT;

    pub const LARGEST_LIMIT: MessageCount = kinds::LARGEST_LIMIT;

    // A fresh receiver, or the refusal 19. A blank name, ten spaces, is learned from the first accepted datagram.
    #[tactic(auto, using(crate::proofs::Rules::starts))]
    pub fn new(session: [u8; SESSION_SIZE], next: SequenceNumber, limit: MessageCount) -> Started
        ensures starts { Starts result session next.0 limit.0 }
        ensures condition_3 { Condition3 }
        ensures refused { RefusedChangeNothing }
        ensures not_vacuous { NotVacuous }
        ensures not_weak { NotWeak }
        ensures calls { CallsDeliverTrue }
    {
        if next < Receiver::LEAST_NUMBER || Receiver::LARGEST_NUMBER < next {
            return refused_start();
        }
        if limit < Receiver::LEAST_LIMIT || Receiver::LARGEST_LIMIT < limit {
            return refused_start();
        }
        Started {
            refusal: refusal::NONE,
            receiver: Receiver {
                session,
                next,
                limit,
                ended: false,
            },
        }
    }

    // Takes a datagram, with one walk over its blocks: the table works on what the reader found.
    #[tactic(auto, using(crate::proofs::Rules::wholes))]
    pub fn take(self, datagram: &[u8]) -> Taken
        ensures takes { Takes result self datagram.now }
        ensures promises { ReceiverPromises }
    {
        self.take_read(downstream::read(datagram), datagram)
    }

    // The same by what was read, so that a caller can look at that before it has a receiver. It may be made up, or of
    // another datagram than the one whose session is compared and taken: condition 3 is about a datagram's own reading.
    #[tactic(auto, using(crate::proofs::Rules::takes))]
    pub fn take_read(self, packet: Result<Downstream, Refusal>, datagram: &[u8]) -> Taken
        ensures takes_read { TakesRead result self datagram.now (downstream_words packet) }
        ensures as_whole { ReadAsWhole }
    {
        if let Err(refused) = self.check(packet, datagram) {
            return Taken {
                answer: Answer::Refused(refused),
                receiver: self,
            };
        }
        self.named_by(datagram).take_row(packet)
    }

    // What the reader refused, or 17, 18, 20. The session is compared once, for every kind of packet.
    pub fn check(self, packet: Result<Downstream, Refusal>, datagram: &[u8]) -> Result<(), Refusal>
        ensures { result ≡ refused_by (refusal_read self datagram.now (downstream_words packet)) }
    {
        check_read(packet)?;
        if self.is_other_session(datagram) {
            return Err(refusal::SESSION_DIFFERS);
        }
        if self.ended {
            return Err(refusal::SESSION_ENDED);
        }
        if self.ends_below(packet) {
            return Err(refusal::END_BELOW_EXPECTED);
        }
        Ok(())
    }

    // Whether it is an end of session below the expected number.
    fn ends_below(self, packet: Result<Downstream, Refusal>) -> bool
        ensures { result ≡ below_read self (downstream_words packet) }
    {
        match packet {
            Ok(Downstream::EndOfSession { next }) => next < self.next,
            Ok(Downstream::Data { .. }) => false,
            Ok(Downstream::Heartbeat { .. }) => false,
            Err(_) => false,
        }
    }

    // Whether the datagram is of another session; without a name, whether its session is blank. A name that doesn't end
    // in a space isn't blank, which is told first.
    #[tactic(auto, using(crate::proofs::Rules::names))]
    fn is_other_session(self, datagram: &[u8]) -> bool
        ensures { result ≡ other_session self datagram.now }
    {
        let name = self.session;
        if name[LAST_OF_NAME] != b' ' {
            return !header::has_session(datagram, name);
        }
        if header::has_session(datagram, name) {
            self.is_unnamed()
        } else {
            !self.is_unnamed()
        }
    }

    // Whether it isn't ended and has the datagram's session for its name. A name that ends in a space may be no name
    // yet, and doesn't count: a caller that wants a short way has one for nearly every name.
    pub fn is_open_for(self, datagram: &[u8]) -> bool
        ensures { result ≡ open_for self datagram.now }
    {
        let name = self.session;
        if self.ended {
            return false;
        }
        if name[LAST_OF_NAME] == b' ' {
            return false;
        }
        header::has_session(datagram, name)
    }

    // Whether its name is still to be learned.
    fn is_unnamed(self) -> bool
        ensures { result ≡ unnamed self.session }
    {
        let name = self.session;
        compare::is_name(&name, kinds::BLANK)
    }

    // The receiver under its name, or the datagram's where it has none yet: the one place where a name is learned. A
    // datagram that isn't of another session has that name in either case, so nothing is tested.
    #[tactic(auto, using(crate::proofs::Rules::names))]
    fn named_by(self, datagram: &[u8]) -> Receiver
        requires { other_session self datagram.now ≡ false }
        ensures { result ≡ named_by self datagram.now }
    {
        let next = self.next;
        let limit = self.limit;
        Receiver {
            session: parts::first(datagram),
            next,
            limit,
            ended: self.ended,
        }
    }

    // The row for what was read. A refusal of number 0, which no reader gives, is handed up.
    fn take_row(self, packet: Result<Downstream, Refusal>) -> Taken
        requires { (downstream_words packet).refusal ≡ 0 }
        ensures { TakesRow result self (row_read self (downstream_words packet)) }
    {
        match packet {
            Ok(Downstream::Data { first, count }) => self.take_data(first, count),
            Ok(Downstream::Heartbeat { next }) => self.take_heartbeat(next),
            Ok(Downstream::EndOfSession { next }) => self.take_end(next),
            Err(r) => Taken {
                answer: Answer::Refused(r),
                receiver: self,
            },
        }
    }

    // The receiver with another number, and ended or not: the one place where its number moves, or it ends.
    fn moved(self, next: SequenceNumber, ended: bool) -> Receiver
        ensures { result ≡ receiver self.session next.0 self.limit.0 ended }
    {
        let session = self.session;
        let limit = self.limit;
        Receiver {
            session,
            next,
            limit,
            ended,
        }
    }

    // The row for a number above n: ask from n, for the smaller of the distance and the limit.
    fn ask(self, above: SequenceNumber) -> Taken
        ensures { TakesRow result self (ask_outcome self.limit.0 self.next.0 above.0) }
    {
        let next = self.next;
        let limit = self.limit;
        Taken {
            answer: Answer::Ask {
                from: next,
                count: next.gap(above).min(limit),
            },
            receiver: self,
        }
    }

    // The rows for data: as many messages of it as can be numbered.
    pub fn take_data(self, first: SequenceNumber, count: MessageCount) -> Taken
        ensures { TakesRow result self (table self.limit.0 self.next.0 data_packet first.0
            (numbered first.0 count.0)) }
    {
        let next = self.next;
        if next < first {
            return self.ask(first);
        }
        let end = first.plus(count);
        if next < end {
            return Taken {
                answer: Answer::Deliver {
                    first: next,
                    count: next.gap(end),
                    skipped: first.place_of(next),
                },
                receiver: self.moved(end, self.ended),
            };
        }
        Taken {
            answer: Answer::Old,
            receiver: self,
        }
    }

    // The rows for a heartbeat.
    pub fn take_heartbeat(self, at: SequenceNumber) -> Taken
        ensures { TakesRow result self (table self.limit.0 self.next.0 heartbeat at.0 0) }
    {
        let next = self.next;
        if next < at {
            return self.ask(at);
        }
        if at < next {
            return Taken {
                answer: Answer::Old,
                receiver: self,
            };
        }
        Taken {
            answer: Answer::Quiet,
            receiver: self,
        }
    }

    // The rows for an end of session that isn't below n.
    fn take_end(self, at: SequenceNumber) -> Taken
        ensures { TakesRow result self (table self.limit.0 self.next.0 end_of_session at.0 end_count) }
    {
        let next = self.next;
        if next < at {
            return self.ask(at);
        }
        Taken {
            answer: Answer::Ended,
            receiver: self.moved(next, true),
        }
    }
}
