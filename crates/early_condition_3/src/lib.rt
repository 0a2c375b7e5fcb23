// The start of the receiver that keeps early messages, which promises order 6's rule and condition 3, and that swapped
// neighbours do no harm (order 13).
#![tactic(auto)]

ghost use Rattle.early_receiver.specs.Early.{lent_after};
ghost use Rattle.early_messages.specs.Delivery.{delivery};
ghost use Rattle.early_condition_3.specs.Start.{StartsEarly};
ghost use Rattle.early_condition_3.specs.Condition3.{EarlyCondition3};
ghost use Rattle.early_condition_3.specs.Plain.{NeverLess};
ghost use Rattle.early_condition_3.specs.Asks.{AsksWell};
ghost use Rattle.early_condition_3.specs.Rule.{SoundThroughout, OneMessage, FollowsTheRule};
ghost use Rattle.early_condition_3.specs.Swapped.{SwappedNeighbours};
ghost use Rattle.early_condition_3.specs.Witnesses.{NotVacuous, NotWeak, SwappedExample};

use early_holding::holding::EarlyReceiver;
use early_word::Held;
use receiver::receiver::Receiver;
use wire::kinds::{MessageCount, SESSION_SIZE, SequenceNumber};
use wire::refusal::Refusal;

// The refusal of a start, its number 0 where there is none, and the receiver.
#[derive(Clone, Copy)]
pub struct Started {
    pub refusal: Refusal,
    pub receiver: EarlyReceiver,
}

// A fresh receiver that holds nothing, or the refusal 19. A blank name is learned, as by the plain receiver.
pub fn start(session: [u8; SESSION_SIZE], next: SequenceNumber, limit: MessageCount) -> Started
    ensures starts_early { StartsEarly result session next.0 limit.0 }
    ensures condition_3 { EarlyCondition3 }
    ensures swapped { SwappedNeighbours }
    ensures never_less { NeverLess }
    ensures sound { SoundThroughout }
    ensures one_message { OneMessage }
    ensures rule { FollowsTheRule lent_after delivery }
    ensures asks_well { AsksWell }
    ensures not_vacuous { NotVacuous }
    ensures not_weak { NotWeak }
    ensures swapped_example { SwappedExample }
{
    let fresh = Receiver::new(session, next, limit);
    let base = fresh.receiver;
    let refusal = fresh.refusal;
    Started {
        refusal,
        receiver: EarlyReceiver {
            base,
            held: Held::NOTHING,
        },
    }
}
