// The decision on a login, from its entry and the record that was found for it, the session and number that it asks
// for, and the server's session and last number.
#![tactic(auto, using(crate::proofs::Rules::decisions))]

ghost use Rattle.std.specs.Prelude.{◌≡◌};
ghost use Rattle.login.specs.Account.{verdict_on};
ghost use Rattle.login.specs.Decision.{session_holds, number_holds, granted, decision_words, decision_of};
ghost use Rattle.login.specs.Promises.{LoginPromises};

use crate::account;
use crate::account::{Account, Found};
use soupbintcp::packet;
use wire::kinds::{SESSION_SIZE, SequenceNumber};
use wire::refusal::Refusal;
use wire::{compare, kinds, refusal};

// What is decided on a login that was asked for, where it isn't refused.
#[derive(Clone, Copy, Debug, PartialEq, Eq)]
pub enum Decision {
    // It is accepted; the number is that of the next message to send.
    Accepted { number: SequenceNumber },
    // The reason is `A` or `S`.
    Rejected { reason: u8 },
}

// The session rule: blank, or exactly the server's.
fn session_holds(asked: &[u8], session: [u8; SESSION_SIZE]) -> bool
    ensures { result ≡ session_holds asked.now session }
{
    compare::is_name(asked, kinds::BLANK) || compare::is_name(asked, session)
}

// The number rule: at most one past the last, without a sum that may wrap.
fn number_holds(wanted: SequenceNumber, last: SequenceNumber) -> bool
    ensures { result ≡ number_holds wanted.0 last.0 }
{
    wanted.0.saturating_sub(1) <= last.0
}

// The number that is granted: wanted 0 gives the larger of 1 and last, any other itself.
fn grant(wanted: SequenceNumber, last: SequenceNumber) -> SequenceNumber
    ensures { result.0 ≡ granted wanted.0 last.0 }
{
    if wanted.is_zero() {
        last.max(kinds::LEAST_NUMBER)
    } else {
        wanted
    }
}

// The decision: the account, then the session, then the number; or 19, whatever refused the lookup. The record is
// compared with the entry here, so that no caller's word for it is needed.
#[tactic(auto, using(crate::proofs::Rules::deciding))]
pub fn decide(
    found: Found,
    entry: Account,
    asked: &[u8],
    wanted: SequenceNumber,
    session: [u8; SESSION_SIZE],
    last: SequenceNumber,
) -> Result<Decision, Refusal>
    ensures result_value { decision_words result ≡ decision_of (verdict_on found entry) asked.now wanted.0
        session last.0 }
    ensures promises { LoginPromises }
{
    let Ok(record) = found else {
        return Err(refusal::BAD_SETTING);
    };
    let known = record.is_some_and(|account| account::is_known(account, entry));
    if !known {
        return Ok(Decision::Rejected {
            reason: packet::NOT_AUTHORIZED,
        });
    }
    if !session_holds(asked, session) || !number_holds(wanted, last) {
        return Ok(Decision::Rejected {
            reason: packet::SESSION_NOT_AVAILABLE,
        });
    }
    Ok(Decision::Accepted {
        number: grant(wanted, last),
    })
}
