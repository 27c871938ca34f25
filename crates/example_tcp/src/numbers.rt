//! One number of a row, where it is known that there is room for it, or that its bits are there.

ghost use Rattle.std.specs.Prelude.{◌≡◌, ◌+◌, ◌^◌, ◌<◌, ◌≤◌, ◌++◌, length};
ghost use Rattle.bitvec_stream.specs.Numbers.{digits_be};
ghost use Rattle.bitvec_stream.specs.Reader.{unread, Passes};
ghost use Rattle.bitvec_stream.specs.Writer.{room, Writes};

use bitvec_stream::prelude::{BitOrder, BitReader, BitRegister, BitWriter};

// Writes a number in `count` bits.
pub(crate) fn put<R: BitRegister, O: BitOrder<R>, N: BitRegister>(
    writer: &mut BitWriter<'_, R, O>,
    count: usize,
    number: N,
)
    requires few { count ≤ N.BITS }
    requires inside { count ≤ length (room writer.old) }
    requires digits { N.number number < 2 ^ count }
    ensures written { Writes writer.old writer.new (digits_be count (N.number number)) }
    ensures left { length (room writer.new) + count ≡ length (room writer.old) }
{
    writer.write_be(count, number).unwrap();
}

// Reads the number of the next `count` bits.
#[tactic(auto, using(crate::proofs::HeaderLemmas::number_below))]
pub(crate) fn next<R: BitRegister, O: BitOrder<R>, N: BitRegister>(
    reader: &mut BitReader<'_, R, O>,
    count: usize,
) -> N
    requires few { count ≤ N.BITS }
    requires inside { count ≤ length (unread reader.old) }
    ensures digits { unread reader.old ≡ digits_be count (N.number result) ++ unread reader.new }
    ensures below { N.number result < 2 ^ count }
    ensures moved { Passes reader.old reader.new count }
    ensures left { length (unread reader.new) + count ≡ length (unread reader.old) }
{
    reader.read_be(count).unwrap()
}
