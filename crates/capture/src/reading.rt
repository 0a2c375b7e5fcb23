// A capture that comes in pieces. What is there is fed; the bytes that were not used are kept, and fed again in front
// of the next piece. The receiver's lengths and slots are lent to every call, as the one before left them.
#![tactic(auto, using(crate::proofs::Rules::readings))]

ghost use Rattle.std.specs.Prelude.{◌≡◌};
ghost use Rattle.wire.specs.Output.{Writes};
ghost use Rattle.capture_events.specs.Events.{read_records, read_settings, read_on, waits_at};
ghost use Rattle.capture_tally.specs.Report.{fresh_of, lent_report};
ghost use Rattle.capture.specs.Reading.{fed, start_reading, lent_reading, lent_fed, started_of};
ghost use Rattle.capture.specs.Reading.{room_of, at_of, is_over};
ghost use Rattle.capture.specs.Reading.{fed_by, end_of, feed_of, finish_of, text_of, Prints};
ghost use Rattle.capture.specs.Whole.{CapturePromises};

use capture_lines;
use capture_records::records;
use capture_settings::settings;
use capture_settings::settings::Settings;
use capture_tally::report::Report;
use capture_text::report_text;
use capture_text::report_text::ROOM;
use early_condition_3;
use wire::kinds;
use wire::kinds::{LENGTH_SIZE, MessageCount, SequenceNumber};
use wire::refusal::Refusal;

// What comes next of a capture: its settings, or records; or nothing, at its end or where its settings are refused. No
// `Place` of `capture_events`, which says how many records may be read: here the report's records do.
#[derive(Clone, Copy)]
pub enum Stage {
    Settings,
    Records,
    Done,
    Refused,
}

// How far a capture was read.
#[derive(Clone, Copy)]
pub struct Reading {
    pub stage: Stage,
    pub report: Report,
}

// What a reading prints: so many bytes at the front. There is no heap for a text of its own size.
#[derive(Clone, Copy)]
pub struct Printed {
    pub text: [u8; ROOM],
    pub size: usize,
}

// A reading after some bytes, and how many of them were used.
#[derive(Clone, Copy)]
pub struct Fed {
    pub reading: Reading,
    pub used: usize,
}

// The report after every whole record in front of some bytes, at most as many as are read, and how many bytes those
// take. Once no more may be read, whatever follows is passed over.
fn take_records(start: Report, lengths: &mut [u8], slots: &mut [u8], bytes: &[u8]) -> Fed
    ensures { lent_fed result lengths.new slots.new
        ≡ fed_by (lent_report start lengths.old slots.old)
        (read_records (room_of start) bytes.now) }
{
    let mut report = start;
    let mut rest = bytes;
    while report.records < Report::MOST_RECORDS {
        let Some(size) = records::read(rest) else {
            return Fed {
                reading: Reading {
                    stage: Stage::Records,
                    report,
                },
                used: bytes.len() - rest.len(),
            };
        };
        report = report.step(lengths, slots, &rest[LENGTH_SIZE..size]);
        rest = &rest[size..];
    }
    Fed {
        reading: Reading {
            stage: Stage::Done,
            report,
        },
        used: bytes.len(),
    }
}

// A report of no records yet, its receiver started by settings.
fn fresh(settings: Settings) -> Report
    ensures { result ≡ fresh_of (started_of settings) }
{
    let Settings {
        session,
        next,
        limit,
    } = settings;
    Report::new(early_condition_3::start(session, next, limit).receiver)
}

// The settings in front, and the records after them. A report that had none stays, where the settings are bad.
fn open(report: Report, lengths: &mut [u8], slots: &mut [u8], bytes: &[u8]) -> Fed
    ensures { lent_fed result lengths.new slots.new
        ≡ fed_by (lent_report report lengths.old slots.old) (read_settings bytes.now) }
{
    match settings::read(bytes) {
        Ok(opened) => {
            let fed = take_records(
                fresh(opened.settings),
                lengths,
                slots,
                &bytes[opened.size..],
            );
            Fed {
                used: opened.size + fed.used,
                ..fed
            }
        }
        Err(_) => Fed {
            reading: Reading {
                stage: Stage::Refused,
                report,
            },
            used: bytes.len(),
        },
    }
}

// The report at the end of the input, where so many bytes are left.
fn end(report: Report, left: usize) -> Report
    ensures { result ≡ end_of report left }
{
    if left == 0 { report } else { report.cut() }
}

impl Reading {
    // Nothing read yet: the receiver is a refused one.
    pub fn new() -> Reading
        ensures { result ≡ start_reading }
    {
        let refused = early_condition_3::start(
            kinds::BLANK,
            SequenceNumber(0),
            MessageCount(0),
        ).receiver;
        Reading {
            stage: Stage::Settings,
            report: Report::new(refused),
        }
    }

    // What the bytes make of a reading, taken as enough to tell the settings.
    fn advance(self, lengths: &mut [u8], slots: &mut [u8], bytes: &[u8]) -> Fed
        ensures { lent_fed result lengths.new slots.new
            ≡ fed_by (lent_report self.report lengths.old slots.old)
            (read_on (at_of self) bytes.now) }
    {
        match self.stage {
            Stage::Settings => open(self.report, lengths, slots, bytes),
            Stage::Records => take_records(self.report, lengths, slots, bytes),
            // bytes that change nothing: all are used
            Stage::Done | Stage::Refused => Fed {
                reading: self,
                used: bytes.len(),
            },
        }
    }

    // Whether the settings may still be longer than so many bytes.
    fn waits(self, size: usize) -> bool
        ensures { result ≡ waits_at (at_of self) size }
    {
        matches!(self.stage, Stage::Settings) && size < settings::LONGEST
    }

    // Whether nothing that follows changes it.
    pub fn is_over(self) -> bool
        ensures { result ≡ is_over self.stage }
    {
        matches!(self.stage, Stage::Done | Stage::Refused)
    }

    // Feeds some bytes, after which more may come.
    pub fn feed(self, lengths: &mut [u8], slots: &mut [u8], bytes: &[u8]) -> Fed
        ensures slots_after { lent_fed result lengths.new slots.new
            ≡ feed_of (lent_reading self lengths.old slots.old) bytes.now }
        ensures promises { CapturePromises }
    {
        if self.waits(bytes.len()) {
            return Fed {
                reading: self,
                used: 0,
            };
        }
        self.advance(lengths, slots, bytes)
    }

    // Feeds the last bytes: what is left of them is a record that is cut short, and counts as one refusal.
    pub fn finish(self, lengths: &mut [u8], slots: &mut [u8], bytes: &[u8]) -> Reading
        ensures { lent_reading result lengths.new slots.new
            ≡ finish_of (lent_reading self lengths.old slots.old) bytes.now }
    {
        let Fed { reading, used } = self.advance(lengths, slots, bytes);
        match reading.stage {
            Stage::Records => Reading {
                stage: Stage::Done,
                report: end(reading.report, bytes.len() - used),
            },
            _ => reading,
        }
    }

    // Writes what a reading prints: the report, or that the settings are refused, as they also are while none were
    // read.
    pub fn write(self, out: &mut [u8]) -> Result<usize, Refusal>
        ensures { Writes result out.old out.new 0 0 (text_of self) }
    {
        match self.stage {
            Stage::Settings | Stage::Refused => capture_lines::put_refused(out, b"settings="),
            Stage::Records | Stage::Done => report_text::write_report(out, self.report),
        }
    }

    // What it prints, whole: every text fits.
    pub fn printed(self) -> Printed
        ensures { Prints result (text_of self) }
    {
        let mut text = [0u8; ROOM];
        let size = self.write(&mut text).unwrap_or(0);
        Printed { text, size }
    }
}
