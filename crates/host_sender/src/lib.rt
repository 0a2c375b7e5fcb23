// Who sends a SoupBinTCP stream, as a host says it.
#![tactic(auto, using(crate::proofs::Rules::senders))]

ghost use Rattle.std.specs.Prelude.{◌≡◌};
ghost use Rattle.host_sender.specs.Sender.{sender_of};

use soupbintcp::packet::Sender;

// 0 is the server, every other number the client.
pub fn sender_of(number: u8) -> Sender
    ensures { result ≡ sender_of number }
{
    if number == 0 {
        Sender::Server
    } else {
        Sender::Client
    }
}
