// Accounts that are kept in a lent table of account records: the login lookup, and the server's step over such a table.
#![tactic(auto, using(crate::proofs::Rules::accounts))]

ghost use Rattle.std.specs.Prelude.{◌≡◌, take};
ghost use Rattle.login.specs.Account.{found_in};
ghost use Rattle.login.specs.Statements.{FoundDecides};
ghost use Rattle.soupbintcp_server.specs.Server.{ServerSteps, server_step};
ghost use Rattle.soupbintcp_server.specs.Statements.{OnlyByTheRules};
ghost use Rattle.accounts.specs.Accounts.{used_of, FlatIsTheSame};

use login::account;
use login::account::{Account, Found, MOST_ACCOUNTS};
use soupbintcp_server::server;
use soupbintcp_server::server::{Server, Stepped};
use wire::refusal;

// How many records a table by value has.
pub const RECORDS: usize = 4;

// The record of a table that decides on an entry: the first sound one with its username. None is found among too many
// records, and an unsound entry is not looked for.
pub fn lookup(table: &[Account], entry: Account) -> Found
    ensures { (result ≡ found_in table.now entry) × FoundDecides × FlatIsTheSame }
{
    if MOST_ACCOUNTS < table.len() {
        return Err(refusal::BAD_SETTING);
    }
    if !account::is_sound(entry) {
        return Ok(None);
    }
    for &account in table {
        if account::is_of(account, entry) {
            return Ok(Some(account));
        }
    }
    Ok(None)
}

// Takes the front of a client's stream, as the server's own step does with a table that is lent as bytes.
pub fn step(server: Server, table: &[Account], stream: &[u8]) -> Stepped
    ensures server_steps { ServerSteps result (server_step table.now server stream.now) }
    ensures accepts { OnlyByTheRules result table.now server stream.now }
{
    server.step_with(lookup(table, server::entry(stream)), stream)
}

// How many records of a table by value are used: more than there are means all of them.
fn used_of(used: usize) -> usize
    ensures { result ≡ used_of used }
{
    used.min(RECORDS)
}

// The lookup in the first records of a table by value, for a caller that lends no slice of records.
pub fn lookup_among(table: [Account; RECORDS], used: usize, entry: Account) -> Found
    ensures { (result ≡ found_in (take (used_of used) table) entry) × FoundDecides }
{
    lookup(&table[..used_of(used)], entry)
}

// The step over the first records of a table by value.
pub fn step_among(server: Server, table: [Account; RECORDS], used: usize, stream: &[u8]) -> Stepped
    ensures server_steps { ServerSteps result (server_step (take (used_of used) table) server stream.now) }
    ensures accepts { OnlyByTheRules result (take (used_of used) table) server stream.now }
{
    server.step_with(lookup_among(table, used, server::entry(stream)), stream)
}
