//! Tests of the codec's calls: tables of rows, each with one loop and one comparison, and transcripts of calls, each
//! compared whole. They are in a crate of their own, so that the crates below are proved once. It has no code but
//! tests. What is a line of the program is in the stored run of `pgvalue` instead, and rows of calls in that of
//! `pgv_calls`, where a row costs no proof.
//!
//! - [`made`]: values that are made, printed and written. [`types`], [`values`]: types and names, and frames in front
//!   of bytes.
//! - [`printed`]: what is printed with a width. [`server_types`]: the built-in types beside a server's.
//! - [`readme`], [`examples`]: the code of the README, and that of `pgv_examples`. [`records`]: records of a server.
//!   [`deep`]: types and values that are nested deep. [`faults`]: readers and writers that fail.
#![tactic(auto)]

#[cfg(test)]
mod deep;
#[cfg(test)]
mod examples;
#[cfg(test)]
mod faults;
#[cfg(test)]
mod made;
#[cfg(test)]
mod printed;
#[cfg(test)]
mod readme;
#[cfg(test)]
mod records;
#[cfg(test)]
mod server_types;
#[cfg(test)]
mod shown;
#[cfg(test)]
mod types;
#[cfg(test)]
mod values;
