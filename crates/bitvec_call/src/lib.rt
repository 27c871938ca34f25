//! Total calls on ranges of bits: each answers a status for every argument, and a refusal changes
//! nothing.
//!
//! A status is 0, or the first of the call's conditions that does not hold: the constants of
//! `status` are their names. Where it is not 0, the memory and the answer are as they were, but for
//! the room that a run of any number of spans is lent. A place counts the bits of a memory from 0
//! on, and a range has the place of its first bit and a count. An order is one of two codes, and
//! words are of any register. What a call costs is said in words of the memory that its range
//! meets.
//!
//! Two conditions are left to a caller, of what is no value that comes from outside: a run is asked
//! of words of at most 64 bits, and `edit_all` of an edit that moves no bit.
#![tactic(auto)]

pub mod bit;
pub mod combine;
pub mod convert;
pub mod copy;
pub mod edit;
pub mod exchange;
pub mod fill;
pub mod find;
pub mod next;
pub mod number;
pub mod plain;
pub mod question;
mod range;
pub mod read;
pub mod read_code;
pub mod run;
pub mod run_in;
pub mod seek;
pub mod signed;
pub mod sorted;
pub mod status;
mod stream;
pub mod version;
pub mod write;
pub mod write_code;
