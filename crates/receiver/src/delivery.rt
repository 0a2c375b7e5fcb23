// What a deliver answer delivers, visited in one walk.
#![tactic(auto, using(crate::proofs::Rules::deliveries))]

ghost use Rattle.std.specs.Prelude.{◌≡◌};
ghost use Rattle.receiver.specs.Delivery.{delivery_cursor, DeliveryVisits};

use moldudp64_messages::cursor::Cursor;
use wire::kinds::{MessageCount, MessagePlace};

// The cursor at the first message that a deliver answer delivers: count and skipped are the answer's, and the
// datagram is the one that was taken.
pub fn start(datagram: &[u8], count: MessageCount, skipped: MessagePlace) -> Cursor
    ensures value { result ≡ delivery_cursor datagram.now count.0 skipped.0 }
    ensures visits { DeliveryVisits }
{
    if !count.fits_behind(skipped) {
        return Cursor::first(MessageCount(0));
    }
    Cursor::first(count.behind(skipped)).skip(datagram, skipped)
}
