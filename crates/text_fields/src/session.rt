// A session field: spaces, then letters or digits.
#![tactic(auto, using(crate::proofs::Rules::sessions))]

ghost use Rattle.std.specs.Prelude.{◌≡◌};
ghost use Rattle.text_fields.specs.Session.{session_step, session_good, good_session, SessionFold};

use crate::letters;

// What the bytes of a field so far are: spaces alone, a name after them, or no session.
#[derive(Clone, Copy, Debug, PartialEq, Eq)]
pub enum SessionState {
    Blank,
    Named,
    Bad,
}

// One byte more.
pub fn step(state: SessionState, b: u8) -> SessionState
    ensures value { result ≡ session_step state b }
    ensures fold { SessionFold }
{
    match state {
        SessionState::Bad => SessionState::Bad,
        SessionState::Blank if b == letters::SPACE => SessionState::Blank,
        _ if letters::is_letter_or_digit(b) => SessionState::Named,
        _ => SessionState::Bad,
    }
}

// Whether a whole field is a session; a blank one only where it may be.
pub fn is_good(state: SessionState, blank: bool) -> bool
    ensures { result ≡ session_good blank state }
{
    match state {
        SessionState::Blank => blank,
        SessionState::Named => true,
        SessionState::Bad => false,
    }
}

// Whether the bytes of a field are a session; blank only where it may be.
pub fn is_session(field: &[u8], blank: bool) -> bool
    ensures { result ≡ good_session blank field.now }
{
    let mut state = SessionState::Blank;
    for &b in field {
        state = step(state, b);
    }
    is_good(state, blank)
}
