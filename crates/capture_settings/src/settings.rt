// The settings of a capture, read strictly: no carriage return, sign, space, empty number or leading zero.
#![tactic(auto, using(crate::proofs::Rules::opening))]

ghost use Rattle.std.specs.Prelude.{◌≡◌};
ghost use Rattle.capture_settings.specs.Settings.{opened_of, numbers_of, settings_of};
ghost use Rattle.capture_settings.specs.Statements.{SettingsPromises};

use crate::lines;
use wire::kinds::{MessageCount, SESSION_SIZE, SequenceNumber};
use wire::refusal::Refusal;
use wire::{compare, kinds, parts, refusal};

// The name of the session, the number that it is followed from, and the asking limit.
#[derive(Clone, Copy)]
pub struct Settings {
    pub session: [u8; SESSION_SIZE],
    pub next: SequenceNumber,
    pub limit: MessageCount,
}

// Settings that were read, and how many bytes they take.
#[derive(Clone, Copy)]
pub struct Opened {
    pub settings: Settings,
    pub size: usize,
}

// The bytes that all settings have: the three keys, the name, and its line feed.
const FIXED_SIZE: usize = 8 + 5 + 6 + SESSION_SIZE + 1;

// The most bytes that good settings take: 20 digits, 5 digits, and a line feed after each.
pub const LONGEST: usize = FIXED_SIZE + (20 + 1) + (5 + 1);

// The lines of the two numbers, after that of the name.
fn numbers(session: [u8; SESSION_SIZE], s: &[u8]) -> Result<Opened, Refusal>
    ensures { result ≡ opened_of (numbers_of session s.now) }
{
    let a = lines::past(s, b"next=");
    let next = lines::number_line(a).ok_or(refusal::BAD_SETTING)?;
    let b = lines::past(&a[next.size..], b"limit=");
    let limit = lines::number_line(b).ok_or(refusal::BAD_SETTING)?;
    let n = next.value;
    let most = limit.value;
    if n < kinds::LEAST_NUMBER.0 {
        return Err(refusal::BAD_SETTING);
    }
    if most < u64::from(kinds::LEAST_LIMIT.0) {
        return Err(refusal::BAD_SETTING);
    }
    if u64::from(kinds::LARGEST_LIMIT.0) < most {
        return Err(refusal::BAD_SETTING);
    }
    Ok(Opened {
        settings: Settings {
            session,
            next: SequenceNumber(n),
            limit: MessageCount(most as u16),
        },
        size: FIXED_SIZE + next.size + limit.size,
    })
}

// The settings at the front of a capture, or 19. What stands after them is not looked at.
pub fn read(bytes: &[u8]) -> Result<Opened, Refusal>
    ensures value { result ≡ opened_of (settings_of bytes.now) }
    ensures promises { SettingsPromises }
{
    let a = lines::past(bytes, b"session=");
    if a.len() <= SESSION_SIZE {
        return Err(refusal::BAD_SETTING);
    }
    if a[SESSION_SIZE] != lines::LINE_FEED {
        return Err(refusal::BAD_SETTING);
    }
    let name = &a[..SESSION_SIZE];
    if !lines::is_printable(name) {
        return Err(refusal::BAD_SETTING);
    }
    if compare::is_name(name, kinds::BLANK) {
        return Err(refusal::BAD_SETTING);
    }
    numbers(parts::first(a), &a[SESSION_SIZE + 1..])
}
