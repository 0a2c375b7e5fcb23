// The scan over the packets in a buffer.
#![tactic(auto, using(crate::proofs::Rules::scans))]

ghost use Rattle.soupbintcp.specs.Scan.{Scans, ScanPromises};

use crate::head::Head;
use crate::packet::Sender;
use crate::{fields, head};
use text_fields::number::NumberState;
use text_fields::session::SessionState;
use text_fields::{number, session};
use wire::refusal;
use wire::refusal::Refusal;

// How many good packets a scan passed, their bytes, and the refusal that stopped it: none where there were too few bytes.
#[derive(Clone, Copy, Debug, PartialEq, Eq)]
pub struct Scanned {
    pub packets: usize,
    pub bytes: usize,
    pub stop: Option<Refusal>,
}

// Scans the packets at the front of a stream, up to the first that is refused or not whole.
pub fn scan(stream: &[u8], sender: Sender) -> Scanned
    ensures scans { Scans result sender stream.now }
    ensures promises { ScanPromises }
{
    let mut rest = stream;
    let mut packets: usize = 0;
    let mut bytes: usize = 0;
    let stop = 'packets: loop {
        let size = match head::read(rest, sender) {
            Head::NeedMore => break 'packets None,
            Head::Refused(r) => break 'packets Some(r),
            Head::Whole { size } => size,
        };
        let letter = fields::letter(rest);
        let name = fields::session_field(rest, letter);
        let mut named = SessionState::Blank;
        for &b in name {
            named = session::step(named, b);
            if let SessionState::Bad = named {
                break 'packets Some(refusal::FIELD_BAD);
            }
        }
        if !session::is_good(named, fields::is_blank_allowed(letter)) {
            break 'packets Some(refusal::FIELD_BAD);
        }
        let digits = fields::number_field(rest, letter);
        let mut counted = NumberState::Blank;
        for &d in digits {
            counted = number::step(counted, d);
            if let NumberState::Bad = counted {
                break 'packets Some(refusal::FIELD_BAD);
            }
        }
        let read = number::value(counted, fields::least(letter));
        if fields::packet(rest, letter, true, read).is_none() {
            break 'packets Some(refusal::FIELD_BAD);
        }
        rest = &rest[size..];
        bytes += size;
        packets += 1;
    };
    Scanned {
        packets,
        bytes,
        stop,
    }
}
