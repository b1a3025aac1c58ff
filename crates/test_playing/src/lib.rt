//! The player of rows with memory, which tells what differs: what a row is stands in `row`; a broker of `brokers` plays
//! it in `playing`, and `stored` looks at the steps that one over traces stored. Beside them: a broker that stores its
//! history, the one caller of a hub, and answers as lines. It is a test alone.
#![tactic(auto)]

mod answers;
mod brokers;
mod caller;
mod early;
mod player;
mod playing;
mod row;
mod stored;
mod tally;
mod traces;

pub use answers::{WANTING, is_taken, print_answer, print_fault, print_outs, print_packets};
pub use brokers::{Kept, Playing};
pub use caller::{Caller, Given};
pub use player::{Over, Player};
pub use row::{Row, RowFault, Step};
pub use stored::{are_stored, count_of};
pub use tally::Tally;
