//! A packet header: four fields that share one word.

ghost use Rattle.std.specs.Prelude.{◌≡◌, ◌↔◌, ℕ, ◌≤◌, IsTrue, length};
ghost use Rattle.bitvec.specs.Memory.{bit_of};
ghost use Rattle.example_packet.specs.declared.header.Header.{Header};
ghost use Rattle.example_packet.specs.Field.{IsSteady};
ghost use Rattle.example_packet.specs.Header.{HasHeader, IsInFields, header_in};

use crate::field::Field;
use bitvec::order::BitOrder;
use bitvec::run::{Command, Reply, Request, can_run, run};

/// The version of the format.
pub const VERSION: Field = Field { start: 0, len: 4 };

/// The class of the traffic.
pub const CLASS: Field = Field { start: 4, len: 6 };

/// The flags.
pub const FLAGS: Field = Field { start: 10, len: 6 };

/// The length of the packet, in bytes.
pub const LENGTH: Field = Field { start: 16, len: 16 };

/// The numbers of a header. Each is meant to be below two to the length of its field: digits past
/// that are not written.
#[derive(Clone, Copy, PartialEq, Eq, Debug)]
pub struct Header {
    /// The number in [`VERSION`].
    pub version: u32,
    /// The number in [`CLASS`].
    pub class: u32,
    /// The number in [`FLAGS`].
    pub flags: u32,
    /// The number in [`LENGTH`].
    pub length: u32,
}

// The request of a command to the span of a number.
fn to(span: usize, command: Command<u32>) -> Request<u32>
    ensures { result ≡ record { span = span; command = command } }
{
    Request { span, command }
}

/// Writes a header into the first word of a memory, each number through the span of its field.
///
/// The spans share the word and no bit of it, which is what [`can_run`] tests, beside that they lie
/// in the memory. Where it refuses, as of a memory without a word, the answer is `false`, and
/// nothing is written.
pub fn write<O: BitOrder<u32>>(header: &Header, memory: &mut [u32]) -> bool
    ensures room { IsTrue result ↔ 1 ≤ length memory.old }
    ensures written { 1 ≤ length memory.old → HasHeader O.at_of header.now memory.new }
    ensures others { (place : ℕ) → 32 ≤ place → bit_of 32 O.at_of memory.new place
        ≡ bit_of 32 O.at_of memory.old place }
    ensures words { length memory.new ≡ length memory.old }
{
    let spans = [
        VERSION.span::<O>(),
        CLASS.span::<O>(),
        FLAGS.span::<O>(),
        LENGTH.span::<O>(),
    ];
    if !can_run(&spans, memory.len()) {
        return false;
    }
    let requests = [
        to(0, VERSION.store::<O>(header.version)),
        to(1, CLASS.store::<O>(header.class)),
        to(2, FLAGS.store::<O>(header.flags)),
        to(3, LENGTH.store::<O>(header.length)),
    ];
    let mut replies = [Reply::NoSpan; 4];
    run(&spans, memory, &requests, &mut replies);
    true
}

/// The header in the first word of a memory.
///
/// Under `Lsb0` and `Msb0` it is the one that was written there, if each of its numbers fits its
/// field.
pub fn read<O: BitOrder<u32>>(memory: &[u32]) -> Header
    requires { 1 ≤ length memory.now }
    ensures fields { result ≡ header_in O.at_of memory.now }
    ensures header { (header : Header) → IsSteady O.at_of → IsInFields header
        → HasHeader O.at_of header memory.now → result ≡ header }
{
    Header {
        version: VERSION.get::<O>(memory),
        class: CLASS.get::<O>(memory),
        flags: FLAGS.get::<O>(memory),
        length: LENGTH.get::<O>(memory),
    }
}
