//! Messages that wait.

use crate::bodies;
use crate::frames::waiting_head;
use crate::written::Written;
use itch_codec::frame_of_two;
use market_types::{Body, Inbound, Memory, Message};
use ouch_codec::encode_reply;

impl Written for Message {
    ghost use Rattle.bundle_frames.specs.Frames.{waiting_frame};

    ghost bytes = { waiting_frame };

    ghost fits = { λ m. Unit {0} };

    #[tactic(auto, unfolding(crate::specs::Frames::waiting_frame))]
    fn put(&self, out: &mut Vec<u8>) -> Result<(), Memory> {
        let head = waiting_head(self);
        match &self.body {
            Body::Wake => frame_of_two(&head, &[], out),
            Body::Order(Inbound::Enter(enter)) => frame_of_two(&head, &bodies::enter(enter), out),
            Body::Order(Inbound::Cancel(cancel)) => {
                frame_of_two(&head, &bodies::cancel(cancel), out)
            }
            Body::Answer(reply) => frame_of_two(&head, encode_reply(reply).as_slice(), out),
            Body::Ask(stock) => frame_of_two(&head, &stock.to_be_bytes(), out),
            Body::Quote(quote) => frame_of_two(&head, &bodies::quote(quote), out),
        }
    }
}
