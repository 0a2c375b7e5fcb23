// The SoupBinTCP session at the server. The reply is written into `out`, beside the lent state.
use vector_lines::NO_FUNCTION;

pub fn call(
    function: u64,
    a: &[u8],
    b: &[u8],
    out: &mut [u8],
    n: u64,
    lent: &mut [u8],
    words: &mut [u64],
) -> u32 {
    match function {
        60 => exports_server::eiderwagon_server_start(a, n, lent),
        61 => exports_server::eiderwagon_server_step(lent, a, b, words),
        62 => exports_server::eiderwagon_server_set_last(lent, n),
        63 => exports_reply::eiderwagon_server_reply(lent, a, b, out, words),
        _ => NO_FUNCTION,
    }
}
