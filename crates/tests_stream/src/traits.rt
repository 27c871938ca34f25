//! What copies of readers are, and what equality and copies of refusals are.

ghost use Rattle.std.specs.Prelude.{◌≡◌, ◌↔◌, IsTrue, Ok};

use bitvec::mem::BitRegister;
use bitvec::order::BitOrder;
use bitvec_stream::error::{ReadError, WriteError};
use bitvec_stream::reader::BitReader;
use std::alloc::AllocError;

// A copy has still to read what the reader has: so a body of the impl that breaks it is refused,
// though no contract of the layer names it.

fn copied_reader<'a, R: BitRegister, O: BitOrder<R>>(
    reader: &BitReader<'a, R, O>,
) -> Result<BitReader<'a, R, O>, AllocError>
    ensures { result ≡ Ok reader.now }
{
    reader.clone()
}

// A refusal is its case.

fn equal_read_errors(here: ReadError, there: ReadError) -> bool
    ensures { IsTrue result ↔ (here ≡ there) }
{
    here == there
}

fn copied_read_error(error: &ReadError) -> Result<ReadError, AllocError>
    ensures { result ≡ Ok error.now }
{
    error.clone()
}

fn equal_write_errors(here: WriteError, there: WriteError) -> bool
    ensures { IsTrue result ↔ (here ≡ there) }
{
    here == there
}

fn copied_write_error(error: &WriteError) -> Result<WriteError, AllocError>
    ensures { result ≡ Ok error.now }
{
    error.clone()
}
