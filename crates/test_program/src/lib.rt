//! Worked rows of the program: a run over streams, a server in a thread with two clients over TCP, and the names of faults. The
//! expected values were worked out by hand.
#![tactic(auto)]

#[cfg(test)]
mod always_rows;
#[cfg(test)]
mod client;
#[cfg(test)]
mod fault_rows;
#[cfg(test)]
mod session_rows;
#[cfg(test)]
mod started;
