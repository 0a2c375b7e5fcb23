// The session at the server with its reply as bytes: a step that writes A, with the server's session and the granted
// number, or J with its reason.
#![tactic(auto, using(crate::proofs::Rules::replies))]

ghost use Rattle.std.specs.Prelude.{◌≡◌};
ghost use Rattle.login.specs.Table.{accounts_of};
ghost use Rattle.soupbintcp_server.specs.Server.{server_step};
ghost use Rattle.soupbintcp_reply.specs.Reply.{Replies, with_reply};
ghost use Rattle.soupbintcp_reply.specs.Statements.{ReplyPromises};

use soupbintcp_server::server::{Server, Stepped};
use soupbintcp_session::answer::Answer;
use soupbintcp_writer::server;
use wire::refusal::Refusal;

// The answer to the front of a stream, how many bytes it took, how many bytes of the output the reply has, and the
// server to use next.
#[derive(Clone, Copy, Debug, PartialEq, Eq)]
pub struct Replied {
    pub answer: Answer,
    pub size: usize,
    pub written: usize,
    pub server: Server,
}

// A step whose reply was written; or, where that was refused, the server as it was, with nothing taken and nothing
// written.
#[tactic(auto, unfolding(crate::specs::Reply::with_reply))]
fn with_reply(server: Server, stepped: Stepped, written: Result<usize, Refusal>) -> Replied
    ensures { result ≡ with_reply server stepped written }
{
    match written {
        Ok(written) => Replied {
            answer: stepped.answer,
            size: stepped.size,
            written,
            server: stepped.server,
        },
        Err(r) => Replied {
            answer: Answer::Refused(r),
            size: 0,
            written: 0,
            server,
        },
    }
}

// Takes the front of a client's stream, the accounts being lent as bytes, and writes the reply at the front of the
// output. A refusal, the step's or then the reply's (46, 41), changes nothing.
pub fn step(server: Server, table: &[u8], stream: &[u8], out: &mut [u8]) -> Replied
    ensures replies { Replies result server
        (server_step (accounts_of table.now) server stream.now)
        out.old out.new }
    ensures promises { ReplyPromises }
{
    let stepped = server.step(table, stream);
    match stepped.answer {
        Answer::Accepted { number } => {
            let written = server::write_accepted(out, server.session, number);
            with_reply(server, stepped, written)
        }
        Answer::Rejected { reason } => {
            with_reply(server, stepped, server::write_rejected(out, reason))
        }
        _ => with_reply(server, stepped, Ok(0)),
    }
}
