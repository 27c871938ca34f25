//! A field: a number in some bits of the first word of a memory.
//!
//! The order says where the bits stand, and this shift of a number to its field is right for orders
//! whose positions rise or fall with the indices one by one, as those of `Lsb0` and `Msb0` do.

ghost use Rattle.std.specs.Prelude.{◌≡◌, ℕ, ◌+◌, ◌^◌, ◌<◌, ◌≤◌, ◌⊎◌, length};
ghost use Rattle.bitvec.specs.BitSpan.{span_of};
ghost use Rattle.bitvec.specs.Memory.{bit_of};
ghost use Rattle.bitvec.specs.declared.run.command.Command.TheVariants.{Store};
ghost use Rattle.example_packet.specs.Field.{HasNumber, IsSteady, field_span, lowest_of, number_in};
ghost use Rattle.example_packet.specs.Field.{shifted_number};

use bitvec::index::BitIdx;
use bitvec::order::BitOrder;
use bitvec::ptr::span::BitSpan;
use bitvec::run::Command;

/// The bits of a number: the index of the first in the word, and how many there are, at least one
/// and none past the word's 32.
#[derive(Clone, Copy)]
pub struct Field {
    /// The index of the first bit.
    pub start: u8,
    /// How many bits there are, at least one.
    pub len: u8,
    ghost some: { 1 ≤ len },
    ghost in_word: { start + len ≤ 32 },
}

impl Field {
    /// The field as a span, under any order.
    pub fn span<O>(self) -> BitSpan<u32, O>
        ensures { span_of result ≡ field_span self.start self.len }
    {
        let head = BitIdx::new_unchecked(self.start);
        BitSpan::new(0, head, usize::from(self.len)).unwrap()
    }

    // The position of the field's lowest digit in the word.
    //
    // Under `Lsb0` positions rise with the indices, and the lowest is that of the first; under
    // `Msb0` they fall, and it is that of the last.
    fn lowest<O: BitOrder<u32>>(self) -> u8
        ensures lowest { result ≡ lowest_of O.at_of self.start self.len }
        ensures in_word { result < 32 }
    {
        let first = BitIdx::new_unchecked(self.start);
        let last = BitIdx::new_unchecked(self.start + self.len - 1);
        let first = first.position::<O>().into_inner();
        let last = last.position::<O>().into_inner();
        first.min(last)
    }

    /// The command that writes a number into the field.
    ///
    /// A store shifts nothing: it takes each digit from where it shall stand. So the number is
    /// shifted up to the field first. Digits that lie past the field are not written.
    pub fn store<O: BitOrder<u32>>(self, number: u32) -> Command<u32>
        ensures { result ≡ Store 0 (shifted_number O.at_of self.start self.len number) }
    {
        Command::Store(0, number << self.lowest::<O>())
    }

    /// Writes a number into the field, and leaves every other bit of the memory as it is.
    ///
    /// Digits that lie past the field are not written.
    pub fn put<O: BitOrder<u32>>(self, memory: &mut [u32], number: u32)
        requires { 1 ≤ length memory.old }
        ensures written { HasNumber O.at_of self.start self.len number memory.new }
        ensures others { (place : ℕ)
            → (place < self.start) ⊎ (self.start + self.len ≤ place)
            → bit_of 32 O.at_of memory.new place ≡ bit_of 32 O.at_of memory.old place }
        ensures words { length memory.new ≡ length memory.old }
    {
        let mut part = self.span::<O>().part_mut(memory, 0);
        part.store_value(number << self.lowest::<O>());
    }

    /// The number in the field: its digits where they stand in the word, shifted down.
    ///
    /// Under `Lsb0` and `Msb0` it is the number that was put there, if that has no more digits than
    /// the field has bits.
    pub fn get<O: BitOrder<u32>>(self, memory: &[u32]) -> u32
        requires { 1 ≤ length memory.now }
        ensures field { result ≡ number_in O.at_of self.start self.len memory.now }
        ensures number { (number : ℕ) → IsSteady O.at_of → number < 2 ^ self.len
            → HasNumber O.at_of self.start self.len number memory.now → result ≡ number }
    {
        let part = self.span::<O>().part(memory, 0);
        part.load_value() >> self.lowest::<O>()
    }
}
