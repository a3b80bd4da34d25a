//! The words of Multi-Paxos: ballots, members and their majorities, slots, pvalues and letters.
#![tactic(auto)]

mod ballot;
mod laws;
mod left;
mod letter;
mod member_set;
mod members;
mod pvalue;
mod slot;
mod slot_map;
mod slot_row;

pub use ballot::Ballot;
pub use laws::{ballot_laws, ballot_order, less_is_below, majorities_share_a_member};
pub use left::{Left, left_of};
pub use letter::{Letter, LetterBody, send_to_all};
pub use member_set::MemberSet;
pub use members::Members;
pub use pvalue::{Pvalue, Pvalues};
pub use slot::Slot;
pub use slot_map::SlotMap;
pub use slot_row::SlotRow;
