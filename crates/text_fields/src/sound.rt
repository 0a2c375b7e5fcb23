// Username and password: letters or digits from the left end on, then spaces.
#![tactic(auto, using(crate::proofs::Rules::logins))]

ghost use Rattle.std.specs.Prelude.{◌≡◌};
ghost use Rattle.text_fields.specs.Sound.{sound, SoundExactlyWhen, sound_username, sound_password};

use crate::letters;

// Bytes of a username and of a password.
pub const USERNAME_SIZE: usize = 6;

pub const PASSWORD_SIZE: usize = 10;

// The fewest letters or digits of a sound one.
const LEAST_USERNAME: usize = 1;

const LEAST_PASSWORD: usize = 1;

// Whether a field is sound: at least so many letters or digits at its left end, and then spaces alone. One pass over
// all bytes, with no branch on any in this source; SECURITY.md says what was seen in the compiled code.
fn is_sound(field: &[u8], least: usize) -> bool
    ensures { result ≡ sound least field.now }
{
    let mut size: usize = 0;
    let mut in_word = true;
    let mut good = true;
    for &b in field {
        in_word &= letters::is_letter_or_digit(b);
        good &= in_word | (b == letters::SPACE);
        size += in_word as usize;
    }
    good & (least <= size)
}

// Whether a field is a sound username.
pub fn is_username(field: &[u8]) -> bool
    ensures value { result ≡ sound_username field.now }
    ensures exactly_when { SoundExactlyWhen }
{
    is_sound(field, LEAST_USERNAME)
}

// Whether a field is a sound password.
pub fn is_password(field: &[u8]) -> bool
    ensures value { result ≡ sound_password field.now }
    ensures exactly_when { SoundExactlyWhen }
{
    is_sound(field, LEAST_PASSWORD)
}
