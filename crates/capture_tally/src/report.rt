// The report, from record to record.
#![tactic(auto, using(crate::proofs::Rules::reports))]

ghost use Rattle.std.specs.Prelude.{◌≡◌};
ghost use Rattle.capture_tally.specs.Report.{fresh_of, lent_report, step_of, cut_of};
ghost use Rattle.capture_tally.specs.Sums.{Sums};

use crate::tally::Tally;
use capture_records::records;
use early_holding::holding::EarlyReceiver;
use early_receiver::early;

#[derive(Clone, Copy)]
pub struct Report {
    pub receiver: EarlyReceiver,
    // Records read, the refused among them.
    pub records: u32,
    pub tally: Tally,
}

impl Report {
    // The most records that are read.
    pub const MOST_RECORDS: u32 = records::MOST_RECORDS;

    // A report of no records.
    pub fn new(receiver: EarlyReceiver) -> Report
        ensures { result ≡ fresh_of receiver }
    {
        Report {
            receiver,
            records: 0,
            tally: Tally::NONE,
        }
    }

    // The report after one more record, and what is then held in the lengths and slots that are lent; all as it was,
    // where it has the most records already.
    pub fn step(self, lengths: &mut [u8], slots: &mut [u8], datagram: &[u8]) -> Report
        ensures slots_after { lent_report result lengths.new slots.new
            ≡ step_of (lent_report self lengths.old slots.old) datagram.now }
        ensures sums { Sums }
    {
        if self.records == Report::MOST_RECORDS {
            return self;
        }
        let taken = early::take(self.receiver, lengths, slots, datagram);
        Report {
            receiver: taken.receiver,
            records: self.records + 1,
            tally: self.tally.plus(Tally::of(taken.answer, taken.request)),
        }
    }

    // The report after a record that is cut short: one refusal, of which the receiver learns nothing. As it was,
    // where it has the most records already.
    pub fn cut(self) -> Report
        ensures { result ≡ cut_of self }
    {
        if self.records == Report::MOST_RECORDS {
            return self;
        }
        let cut = Tally {
            refused: 1,
            ..Tally::NONE
        };
        Report {
            records: self.records + 1,
            tally: self.tally.plus(cut),
            ..self
        }
    }
}
