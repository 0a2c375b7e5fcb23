// Account records, and what one says of an entry, which is a username and a password like it.
#![tactic(auto, using(crate::proofs::Rules::accounts))]

ghost use Rattle.std.specs.Prelude.{◌≡◌, [], ◌∷◌};
ghost use Rattle.login.specs.Account.{same_text, sound_account, is_of, has_password, is_known};

use text_fields::letters::lower;
use text_fields::sound;
use text_fields::sound::{PASSWORD_SIZE, USERNAME_SIZE};
use wire::refusal::Refusal;

// An account record. It has no Debug, as that would print the password, and no `==`, as that may end at the first byte
// that differs.
#[derive(Clone, Copy)]
pub struct Account {
    pub username: [u8; USERNAME_SIZE],
    pub password: [u8; PASSWORD_SIZE],
}

// The most records of a table.
pub const MOST_ACCOUNTS: usize = 1024;

// What a lookup finds: the record that decides, none where none does, or 19 for a table of too many records. Whoever
// made it up, it lets no one in but an entry with this record's username and password.
pub type Found = Result<Option<Account>, Refusal>;

// Whether two usernames have the same text. The first difference ends it, as most records of a table differ early;
// SECURITY.md says what the time then tells.
fn is_same_username(a: &[u8], b: &[u8]) -> bool
    ensures { result ≡ same_text a.now b.now }
{
    a.len() == b.len() && a.iter().zip(b).all(|(x, y)| lower(*x) == lower(*y))
}

// Whether two passwords have the same text. Every byte is compared: neither a zero, a space nor a difference ends it
// early. The bytes that differ are counted, as a compiler may make branches of a chain of tests, and of a sum it did
// not; SECURITY.md says what was seen in the compiled code.
fn is_same_password(a: &[u8], b: &[u8]) -> bool
    ensures { result ≡ same_text a.now b.now }
{
    if a.len() != b.len() {
        return false;
    }
    let mut differ: usize = 0;
    for (x, y) in a.iter().zip(b) {
        differ += (lower(*x) != lower(*y)) as usize;
    }
    differ == 0
}

// Whether both fields are sound.
pub fn is_sound(account: Account) -> bool
    ensures { result ≡ sound_account account }
{
    sound::is_username(&account.username) && sound::is_password(&account.password)
}

// Whether a field has the entry's username.
pub(crate) fn has_username(field: &[u8], entry: Account) -> bool
    ensures { result ≡ same_text field.now entry.username }
{
    is_same_username(field, &entry.username)
}

// Whether a record is sound and has the entry's username: the first such record of a table decides. Few records have
// the username, so it is looked at first.
pub fn is_of(account: Account, entry: Account) -> bool
    ensures { result ≡ is_of account entry }
{
    has_username(&account.username, entry) && is_sound(account)
}

// Whether the entry is sound and has the record's password.
fn has_password(account: Account, entry: Account) -> bool
    ensures { result ≡ has_password account entry }
{
    is_sound(entry) && is_same_password(&account.password, &entry.password)
}

// Whether a record opens the door to an entry: it is of the entry, and has its password.
pub fn is_known(account: Account, entry: Account) -> bool
    ensures { result ≡ is_known (account ∷ []) entry }
{
    is_of(account, entry) && has_password(account, entry)
}
