//! One exchange of a realm: the packet that is forwarded for a request, what a reply to it comes to, and what becomes of
//! it when it is due; with what an event is answered, and what is said to have happened.
//!
//! The definitions of what requests, replies and ticks do to a realm stand here too; the rules that do it, over all
//! entries, stand above.
//!
//! # Proved
//!
//! - what is forwarded for a request is its packet as the lists shape it, under the next free Identifier of its link,
//!   with random words drawn where it is an Access-Request | `send_new`: `out`, `standing`, `next`
//! - what becomes of an entry that is due is what is written, and what happened says so | `act_on_due`: `action`,
//!   `became`; `happening_of`; that a conversation was left, by its `left_by`
//! - what comes of a reply for its entry is what is written, what happened says so, and one that isn't taken wants no
//!   memory | `to_standing`: `turn`, `happening`, `succeeds`
//! - the memory of a tick is taken before it begins, and none is wanted where nothing is due | `room_for`: `room`,
//!   `succeeds`
#![tactic(auto)]

mod answer;
mod answer_builder;
mod buffers;
mod due_action;
mod due_happening;
mod forwarding;
mod happening;
mod kept_request;
mod outs;
mod refused_reply;
mod reply_outcome;
mod tick_memory;

pub use answer::{Answer, Turned, answer_of, nothing, one_packet, refused, refused_turn};
pub use answer_builder::AnswerBuilder;
pub use buffers::Buffers;
pub use due_action::{DueAction, act_on_due};
pub use due_happening::{code_in, happening_of, left_with};
pub use forwarding::{Hop, RequestRef, packet_to_requester, send_new};
pub use happening::{Became, DueHappening, Happening, LeftConversation, Noted, Waited, note_left};
pub use kept_request::waited_in;
pub use outs::Outs;
pub use reply_outcome::{ReplyContext, ReplyOutcome, to_standing};
pub use tick_memory::{Room, TickSlot, room_for};
