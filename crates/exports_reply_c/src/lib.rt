// The SoupBinTCP session at the server with its reply, for hosts in other languages. `include/eiderwagon.h` says what
// the function takes and answers. (A crate of its own: with one caller a step is compiled into it.)
// Made by tools/library.py from the crate exports_reply, whose functions it calls.
#![tactic(auto)]

ghost use Rattle.std.specs.Prelude.{[], ◌∷◌};
ghost use Rattle.login.specs.Table.{accounts_of};
ghost use Rattle.host_answers.specs.Answers.{RefusesOnly};
ghost use Rattle.exports_reply.specs.Calls.{RepliesAtServer, RefusedReplyChangesNothing};
ghost use Rattle.exports_reply.specs.Run.{EveryServerCallHandsOn};

// Takes the packet at the front of a client's stream, and writes the reply, A or J, where there is one.
#[unsafe(no_mangle)]
pub extern "C" fn eiderwagon_server_reply(
    state: &mut [u8],
    accounts: &[u8],
    stream: &[u8],
    out: &mut [u8],
    words: &mut [u64],
) -> u32
    ensures replies_at_server { RepliesAtServer result state.old state.new (accounts_of accounts.now)
        stream.now out.old out.new words.old words.new }
    ensures refuses { RefusesOnly result (19 ∷ 21 ∷ 22 ∷ 23 ∷ 24 ∷ 25 ∷ 41 ∷ 32 ∷ 31 ∷ 46 ∷ []) }
    ensures refused { RefusedReplyChangesNothing }
    ensures hands_on { EveryServerCallHandsOn }
{
    exports_reply::eiderwagon_server_reply(state, accounts, stream, out, words)
}
