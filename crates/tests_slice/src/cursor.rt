//! A cursor over a slice: a number of bits is taken at a time, from the first on.

ghost use Rattle.std.specs.Prelude.{◌≡◌, ◌↔◌, ◌≤◌, IsSome, IfSome, MatchOption};
ghost use Rattle.std.specs.Prelude.{take, drop, length};
ghost use Rattle.bitvec_slice.specs.BitSlice.{slice_len, slice_bits};

use bitvec::mem::BitRegister;
use bitvec::order::BitOrder;
use bitvec_slice::slice::BitSlice;

/// A slice, and how many of its bits were taken.
#[derive(Drop)]
struct Cursor<'a, R: BitRegister, O: BitOrder<R>> {
    slice: BitSlice<'a, R, O>,
    position: usize,
    pub ghost within: { position ≤ slice_len slice },
}

impl<'a, R: BitRegister, O: BitOrder<R>> Cursor<'a, R, O> {
    ghost use Rattle.tests_slice.specs.Cursor.{cursor_left};

    fn new(slice: BitSlice<'a, R, O>) -> Self
        ensures { cursor_left result ≡ slice_bits slice.entry }
    {
        Cursor { slice, position: 0 }
    }

    /// How many bits are left.
    fn left(&self) -> usize
        ensures { result ≡ length (cursor_left self.now) }
    {
        self.slice.len() - self.position
    }

    /// The next `count` bits, and `None` where fewer are left, and then the cursor stays.
    fn take(&mut self, count: usize) -> Option<BitSlice<'a, R, O>>
        ensures some { IsSome result ↔ (count ≤ length (cursor_left self.old)) }
        ensures taken { IfSome result (λ part. slice_bits part ≡ take count (cursor_left self.old)) }
        ensures left { MatchOption result (self.new ≡ self.old)
            (λ _. cursor_left self.new ≡ drop count (cursor_left self.old)) }
    {
        if self.slice.len() - self.position < count {
            return None;
        }
        let part = self.slice.get_range(self.position, self.position + count)?;
        self.position += count;
        Some(part)
    }

    /// What is left, as a slice.
    fn rest(&self) -> BitSlice<'a, R, O>
        ensures { slice_bits result ≡ cursor_left self.now }
    {
        let (_, rest) = self.slice.split_at(self.position);
        rest
    }
}

#[cfg(test)]
mod tests {
    use super::Cursor;
    use bitvec::order::Msb0;
    use bitvec_slice::slice::BitSlice;
    use std::test::Fail;

    #[test]
    fn bits_are_taken_in_turn(rt: HostRuntime) -> Result<(), Fail> {
        let memory = [0xA5u8, 0x0F];
        let mut cursor = Cursor::new(BitSlice::<u8, Msb0>::all(&memory).ok().ok_or("long")?);
        assert_eq!(rt; cursor.take(4).ok_or("short")?.count_ones(), 2);
        assert_eq!(rt; cursor.take(8).ok_or("short")?.first_one(), Some(1));
        assert!(rt; cursor.take(5).is_none());
        assert_eq!(rt; cursor.left(), 4);
        assert_eq!(rt; cursor.rest().count_ones(), 4);
        Ok(())
    }
}
