//! Worked rows of the queue that are proved, since no run comes to them.
#![tactic(auto)]

mod count_rows;

pub use count_rows::the_greatest_count_of_the_queue_stays;
