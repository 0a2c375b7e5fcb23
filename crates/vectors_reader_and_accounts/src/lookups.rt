// The lookup in a table of account records: `a` is the table, with records of zero bytes where it gives fewer than
// there are, `b` the entry, `n` how many records are used.
use accounts::RECORDS;
use login::account;
use login::account::{Account, Found};
use login::table::RECORD_SIZE;
use text_fields::sound::{PASSWORD_SIZE, USERNAME_SIZE};
use vector_lines::{parse, print};
use wire::kinds::ByteOffset;
use wire::parts;

// Bytes of a table.
pub(crate) const TABLE_SIZE: usize = RECORDS * RECORD_SIZE;

// The record at a place.
fn record_at(bytes: &[u8], at: usize) -> Account {
    let record = parts::part(bytes, ByteOffset(at), RECORD_SIZE);
    Account {
        username: parts::first(record),
        password: parts::first(parts::part(record, ByteOffset(USERNAME_SIZE), PASSWORD_SIZE)),
    }
}

// The records of a table.
pub(crate) fn by_value(table: &[u8]) -> [Account; RECORDS] {
    [
        record_at(table, 0),
        record_at(table, RECORD_SIZE),
        record_at(table, 2 * RECORD_SIZE),
        record_at(table, 3 * RECORD_SIZE),
    ]
}

// How many records are used.
pub(crate) fn used(fields: &[u8]) -> usize {
    parse::number(fields, b'n') as usize
}

// What was found says of the entry.
fn told(rt: &impl Print, found: Found, entry: Account) {
    match found {
        Err(_) => print::text(rt, b"too-many"),
        Ok(Some(account)) if account::is_known(account, entry) => print::text(rt, b"known"),
        Ok(_) => print::text(rt, b"unknown"),
    }
}

pub(crate) fn ask(rt: &impl Print, fields: &[u8]) {
    let mut table = [0u8; TABLE_SIZE];
    parse::bytes(fields, b'a', &mut table);
    let mut entry = [0u8; RECORD_SIZE];
    parse::bytes(fields, b'b', &mut entry);
    let asked = record_at(&entry, 0);
    told(
        rt,
        accounts::lookup_among(by_value(&table), used(fields), asked),
        asked,
    );
}
