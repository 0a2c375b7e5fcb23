// The SoupBinTCP session at the client.
use vector_lines::NO_FUNCTION;

pub fn call(function: u64, a: &[u8], n: u64, lent: &mut [u8], words: &mut [u64]) -> u32 {
    match function {
        80 => exports_client::eiderwagon_client_start(a, n, lent),
        81 => exports_client::eiderwagon_client_step(lent, a, words),
        _ => NO_FUNCTION,
    }
}
