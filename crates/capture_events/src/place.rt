// How far a capture was read, and its events one by one.
#![tactic(auto, using(crate::proofs::Rules::looking, crate::proofs::Rules::telling))]

ghost use Rattle.std.specs.Prelude.{◌≡◌};
ghost use Rattle.capture_events.specs.Events.{settings, records, is_over_at, waits_at};
ghost use Rattle.capture_events.specs.Next.{at_of, next_of, read_by, OneByOne, EndsAt};

use capture_records::records;
use capture_records::records::MOST_RECORDS;
use capture_settings::settings;
use capture_settings::settings::Settings;

// What comes next of a capture: its settings, or records, so many at most; or nothing, at its end or where its settings
// are refused.
#[derive(Clone, Copy)]
pub enum Place {
    Settings,
    Records { left: u32 },
    Done,
    Refused,
}

// The event in front of some bytes.
#[derive(Clone, Copy)]
pub enum Found {
    Opened(Settings),
    BadSettings,
    // A record: its datagram is what follows its length.
    Datagram,
}

// An event, or none: a record that isn't whole yet, or bytes that are passed over; what comes next then; and how many
// bytes were used.
#[derive(Clone, Copy)]
pub struct Next {
    pub event: Option<Found>,
    pub place: Place,
    pub used: usize,
}

// The settings in front. Bad ones end it, whatever follows.
fn open(bytes: &[u8]) -> Next
    ensures { read_by result bytes.now ≡ next_of settings bytes.now }
{
    match settings::read(bytes) {
        Ok(opened) => Next {
            event: Some(Found::Opened(opened.settings)),
            place: Place::Records { left: MOST_RECORDS },
            used: opened.size,
        },
        Err(_) => Next {
            event: Some(Found::BadSettings),
            place: Place::Refused,
            used: bytes.len(),
        },
    }
}

// The record in front, where one more may be read; else whatever follows is passed over.
fn record(left: u32, bytes: &[u8]) -> Next
    ensures { read_by result bytes.now ≡ next_of (records left) bytes.now }
{
    if left == 0 {
        return Next {
            event: None,
            place: Place::Done,
            used: bytes.len(),
        };
    }
    match records::read(bytes) {
        None => Next {
            event: None,
            place: Place::Records { left },
            used: 0,
        },
        Some(size) => Next {
            event: Some(Found::Datagram),
            place: Place::Records { left: left - 1 },
            used: size,
        },
    }
}

impl Place {
    // The event in front of some bytes, taken as enough to tell the settings.
    pub fn look(self, bytes: &[u8]) -> Next
        ensures bytes_value { read_by result bytes.now ≡ next_of (at_of self) bytes.now }
        ensures one_by_one { OneByOne }
    {
        match self {
            Place::Settings => open(bytes),
            Place::Records { left } => record(left, bytes),
            Place::Done | Place::Refused => Next {
                event: None,
                place: self,
                used: bytes.len(),
            },
        }
    }

    // Whether so many bytes may be too few to tell the settings.
    pub fn waits(self, size: usize) -> bool
        ensures { result ≡ waits_at (at_of self) size }
    {
        matches!(self, Place::Settings) && size < settings::LONGEST
    }

    // Whether nothing that follows is looked at.
    pub fn is_over(self) -> bool
        ensures { result ≡ is_over_at (at_of self) }
    {
        matches!(self, Place::Done | Place::Refused)
    }

    // What comes next at the end of the input, however many bytes are left: those of a record that is cut short.
    pub fn end(self) -> Place
        ensures { EndsAt self result }
    {
        match self {
            Place::Records { .. } => Place::Done,
            _ => self,
        }
    }
}
