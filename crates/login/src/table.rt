// The lookup in a table that is lent as bytes, 16 to a record: username, then password. Bytes left over are no record.
#![tactic(auto, using(crate::proofs::Rules::tables))]

ghost use Rattle.std.specs.Prelude.{◌≡◌, ◌≤◌, length, ltb};
ghost use Rattle.login.specs.Account.{is_of, most_accounts, found_in};
ghost use Rattle.login.specs.Table.{account_size, account_of, accounts_of};
ghost use Rattle.login.specs.Statements.{FoundDecides};

use crate::account;
use crate::account::{Account, Found, MOST_ACCOUNTS};
use text_fields::sound::{PASSWORD_SIZE, USERNAME_SIZE};
use wire::{parts, refusal};

// Bytes of a record.
pub const RECORD_SIZE: usize = USERNAME_SIZE + PASSWORD_SIZE;

// Whether a table has too many records: 19.
pub fn is_too_long(table: &[u8]) -> bool
    ensures { result ≡ ltb most_accounts (length (accounts_of table.now)) }
{
    MOST_ACCOUNTS < table.len() / RECORD_SIZE
}

// The first record of a table.
fn first(table: &[u8]) -> Account
    requires { account_size ≤ length table.now }
    ensures { result ≡ account_of table.now }
{
    Account {
        username: parts::first(table),
        password: parts::first(&table[USERNAME_SIZE..]),
    }
}

// Whether the first record of a table is sound and has the entry's username. Few have the username, so it is compared
// first, and where it stands.
fn first_is_of(table: &[u8], entry: Account) -> bool
    requires { account_size ≤ length table.now }
    ensures { result ≡ is_of (account_of table.now) entry }
{
    account::has_username(&table[..USERNAME_SIZE], entry) && account::is_sound(first(table))
}

// The record of a table that decides on an entry: the first sound one with its username. An unsound entry is not looked
// for.
pub fn lookup(table: &[u8], entry: Account) -> Found
    ensures value { result ≡ found_in (accounts_of table.now) entry }
    ensures decides { FoundDecides }
{
    if is_too_long(table) {
        return Err(refusal::BAD_SETTING);
    }
    if !account::is_sound(entry) {
        return Ok(None);
    }
    for record in table.chunks_exact(RECORD_SIZE) {
        if first_is_of(record, entry) {
            return Ok(Some(first(record)));
        }
    }
    Ok(None)
}
