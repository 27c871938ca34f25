//! Readers and writers of the bits between two places.

ghost use Rattle.std.specs.Prelude.{◌≡◌, ◌+◌, ◌-◌, ◌*◌, ◌≤◌, length, map};
ghost use Rattle.bitvec.specs.Place.{region_max_bits};
ghost use Rattle.bitvec.specs.Span.{span_at};
ghost use Rattle.bitvec_slice.specs.BitSlice.{slice_len};
ghost use Rattle.bitvec_stream.specs.Reader.{source, bits_read, unread};
ghost use Rattle.bitvec_stream.specs.Writer.{target_memory, target_span, bits_written, room};
ghost use Rattle.bitvec_call.specs.Stream.{bits_between};

use crate::range::{bits, span};
use bitvec::mem::BitRegister;
use bitvec::order::BitOrder;
use bitvec_stream::reader::BitReader;
use bitvec_stream::writer::BitWriter;

/// A reader of the bits from a place to before an end.
pub(crate) fn reader_between<R: BitRegister, O: BitOrder<R>>(
    memory: &[R],
    place: usize,
    end: usize,
) -> BitReader<'_, R, O>
    requires short { end - place ≤ region_max_bits }
    requires rises { place ≤ end }
    requires inside { place + (end - place) ≤ length memory.now * R.BITS }
    ensures position { bits_read result ≡ 0 }
    ensures rest { unread result
        ≡ bits_between R.BITS O.at_of place end (map R.number memory.now) }
    ensures len { length (unread result) ≡ end - place }
    ensures source { slice_len (source result) ≡ end - place }
{
    BitReader::new(bits::<R, O>(memory, place, end - place))
}

/// A writer of the bits from a place to before an end.
pub(crate) fn writer_between<R: BitRegister, O: BitOrder<R>>(
    memory: &mut [R],
    place: usize,
    end: usize,
) -> BitWriter<'_, R, O>
    requires short { end - place ≤ region_max_bits }
    requires rises { place ≤ end }
    requires inside { place + (end - place) ≤ length memory.old * R.BITS }
    ensures reference { (target_memory result).ghost_name ≡ memory.entry.ghost_name }
    ensures memory { (target_memory result).now ≡ memory.old }
    ensures span { target_span result ≡ span_at R.BITS place (end - place) }
    ensures position { bits_written result ≡ 0 }
    ensures room { room result
        ≡ bits_between R.BITS O.at_of place end (map R.number memory.old) }
{
    BitWriter::over_unchecked(span::<R, O>(place, end - place), memory)
}
