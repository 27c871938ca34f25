//! What is counted and found in a slice, by whole words.

ghost use Rattle.std.specs.Prelude.{◌≡◌, ℕ, ◌+◌, ◌*◌, ◌^◌, ◌<◌, ◌≤◌, ◌↔◌, IsTrue, true, false};
ghost use Rattle.std.specs.Prelude.{not, length, map, nat_abs, slice_index, MatchOption};
ghost use Rattle.std.specs.Bool.{beq};
ghost use Rattle.bitvec.specs.Digit.{digit, count_below};
ghost use Rattle.bitvec.specs.Place.{words_met};

use crate::slice::BitSlice;
use bitvec::index::{BitEnd, BitIdx};
use bitvec::mem;
use bitvec::mem::BitRegister;
use bitvec::order::{BitOrder, first_index, last_index};

impl<'a, R: BitRegister, O: BitOrder<R>> BitSlice<'a, R, O> {
    ghost use Rattle.bitvec_slice.specs.BitSlice.{slice_memory, slice_span, slice_len, slice_word};
    ghost use Rattle.bitvec_slice.specs.BitSlice.{slice_bits};
    ghost use Rattle.bitvec.specs.Truths.{ones_in, AllAre, IsFirst};
    ghost use Rattle.bitvec_slice.specs.Bits.{zeros_in, IsLast};
    ghost use Rattle.bitvec_slice.specs.Bits.{BeginsWith, EndsWith};
    ghost use Rattle.bitvec_slice.specs.Bits.{AllBetween, IsFirstBetween, IsLastBetween};
    ghost use Rattle.bitvec_slice.specs.Bits.{FindsBetween};
    ghost use Rattle.bitvec_slice.specs.Field.{stretch_end};
    ghost use Rattle.bitvec_slice.specs.Chosen.{IsChosen, IsChosenFrom, FindsWord};
    ghost use Rattle.bitvec_slice.specs.Words.{SliceHasDigits};

    // How many bits of the slice in word `k`, counted from its first word, are one.
    fn ones_in_word(&self, k: usize) -> usize
        requires { k < words_met R.BITS (slice_span self.now).head (slice_span self.now).len }
        ensures { result ≡ count_below (digit (slice_word self.now k)) R.BITS }
    {
        self.span.part(self.memory, k).load_value().count_ones() as usize
    }

    // The words behind the slice's first word and before its last, whose bits are all the slice's.
    fn inner_words(&self) -> &'a [R]
        requires { 2 ≤ words_met R.BITS (slice_span self.now).head (slice_span self.now).len }
        ensures count { length result.now + 2
            ≡ words_met R.BITS (slice_span self.now).head (slice_span self.now).len }
        ensures digits { (q p : ℕ) → q < length result.now → p < R.BITS
            → digit (slice_index (map R.number result.now) q) p
            ≡ digit (slice_word self.now (q + 1)) p }
    {
        let first = self.span.address() as usize;
        &self.memory[first + 1..first + self.span.elements() - 1]
    }

    /// How many bits are one. Costs by words.
    pub fn count_ones(&self) -> usize
        ensures { result ≡ ones_in (slice_bits self.now) }
    {
        let met = self.span.elements();
        if met == 0 {
            return 0;
        }
        let mut total = self.ones_in_word(0);
        if met == 1 {
            return total;
        }
        // Only the first word and the last want a mask.
        let inner = self.inner_words();
        for i in 0..inner.len() {
            total += inner[i].count_ones() as usize;
        }
        total + self.ones_in_word(met - 1)
    }

    /// How many bits are zero. Costs by words.
    pub fn count_zeros(&self) -> usize
        ensures { result ≡ zeros_in (slice_bits self.now) }
    {
        self.len() - self.count_ones()
    }

    // Whether word `k`, counted from the slice's first word, has the digits of `lacking`.
    #[inline(always)]
    fn has_digits(&self, k: usize, lacking: R) -> bool
        requires met { k < words_met R.BITS (slice_span self.now).head (slice_span self.now).len }
        requires below { R.number lacking < 2 ^ R.BITS }
        ensures { result ≡ true → SliceHasDigits self.now lacking k (k + 1) }
    {
        self.memory[self.span.address() as usize + k].or(R::ZERO) == lacking
    }

    // The same of four words from word `k` on. All four are looked at, so that LLVM compares them
    // side by side.
    #[inline(always)]
    fn four_have_digits(&self, k: usize, lacking: R) -> bool
        requires met { k + 4 ≤ words_met R.BITS (slice_span self.now).head
            (slice_span self.now).len }
        requires below { R.number lacking < 2 ^ R.BITS }
        ensures { result ≡ true → SliceHasDigits self.now lacking k (k + 4) }
    {
        let first = self.has_digits(k, lacking) & self.has_digits(k + 1, lacking);
        first & self.has_digits(k + 2, lacking) & self.has_digits(k + 3, lacking)
    }

    // The number of a word from word `k` to word `end`, counted from the slice's first word, from
    // word `k` to before which all have the digits of `lacking`: it passes eight words a step.
    fn pass_eights(&self, k: usize, end: usize, lacking: R) -> usize
        requires ordered { k ≤ end }
        requires met { end
            ≤ words_met R.BITS (slice_span self.now).head (slice_span self.now).len }
        requires below { R.number lacking < 2 ^ R.BITS }
        ensures start { k ≤ result }
        ensures end { result ≤ end }
        ensures words { SliceHasDigits self.now lacking k result }
    {
        let mut at = k;
        while end - at >= 8
            && self.four_have_digits(at, lacking) & self.four_have_digits(at + 4, lacking)
        {
            at += 8;
        }
        at
    }

    // The number of the first word from word `k` on that has not the digits of `lacking`, counted
    // from the slice's first word; `end` where all before word `end` have them.
    fn first_other(&self, k: usize, end: usize, lacking: R) -> usize
        requires ordered { k ≤ end }
        requires met { end
            ≤ words_met R.BITS (slice_span self.now).head (slice_span self.now).len }
        requires below { R.number lacking < 2 ^ R.BITS }
        ensures start { k ≤ result }
        ensures end { result ≤ end }
        ensures words { SliceHasDigits self.now lacking k result }
    {
        // (often the next word has what is sought)
        if k == end || !self.has_digits(k, lacking) {
            return k;
        }
        let mut at = self.pass_eights(k, end, lacking);
        while at < end && self.has_digits(at, lacking) {
            at += 1;
        }
        at
    }

    // The number of a word from word `start` to word `end`, counted from the slice's first word,
    // from which on to before word `end` all have the digits of `lacking`: it passes eight words a
    // step.
    fn pass_eights_back(&self, start: usize, end: usize, lacking: R) -> usize
        requires ordered { start ≤ end }
        requires met { end
            ≤ words_met R.BITS (slice_span self.now).head (slice_span self.now).len }
        requires below { R.number lacking < 2 ^ R.BITS }
        ensures start { start ≤ result }
        ensures end { result ≤ end }
        ensures words { SliceHasDigits self.now lacking result end }
    {
        let mut at = end;
        while at - start >= 8
            && self.four_have_digits(at - 4, lacking) & self.four_have_digits(at - 8, lacking)
        {
            at -= 8;
        }
        at
    }

    // The number of a word from word `start` to word `end`, counted from the slice's first word,
    // from which on to before word `end` all have the digits of `lacking`.
    fn last_other(&self, start: usize, end: usize, lacking: R) -> usize
        requires ordered { start ≤ end }
        requires met { end
            ≤ words_met R.BITS (slice_span self.now).head (slice_span self.now).len }
        requires below { R.number lacking < 2 ^ R.BITS }
        ensures start { start ≤ result }
        ensures end { result ≤ end }
        ensures words { SliceHasDigits self.now lacking result end }
    {
        if start == end || !self.has_digits(end - 1, lacking) {
            return end;
        }
        let mut at = self.pass_eights_back(start, end, lacking);
        while start < at && self.has_digits(at - 1, lacking) {
            at -= 1;
        }
        at
    }

    // An index from `from` to `upto`, from `from` to before which no bit is `bit`: it passes over
    // whole words where `from` is the first bit of one.
    fn pass_words(&self, from: usize, upto: usize, bit: bool) -> usize
        requires ordered { from ≤ upto }
        requires inside { upto ≤ slice_len self.now }
        ensures start { from ≤ result }
        ensures end { result ≤ upto }
        ensures lacking { AllBetween (not bit) (slice_bits self.now) from result }
    {
        let head = self.head();
        let width = mem::bits_of::<R>();
        let k = (head + from) / width;
        if k * width != head + from {
            return from;
        }
        let end = (head + upto) / width;
        let lacking = if bit { R::ZERO } else { R::ALL };
        self.first_other(k, end, lacking) * width - head
    }

    // The digits of word `k` that are `bit`, as the ones of a word.
    #[inline(always)]
    fn turned_word(&self, k: usize, bit: bool) -> R
        requires { k < words_met R.BITS (slice_span self.now).head (slice_span self.now).len }
        ensures { (p : ℕ) → p < R.BITS → digit (R.number result) p
            ≡ beq (digit (slice_index (map R.number (slice_memory self.now))
            (nat_abs (slice_span self.now).word + k)) p) bit }
    {
        let word = self.memory[self.span.address() as usize + k];
        if bit { word } else { word.not() }
    }

    // The bits from index `from` to before index `upto` that are `bit`, as the ones of a word: of
    // word `k`, in which they lie.
    #[inline(always)]
    pub(super) fn chosen(&self, k: usize, from: usize, upto: usize, bit: bool) -> R
        requires met { k < words_met R.BITS (slice_span self.now).head (slice_span self.now).len }
        requires some { from < upto }
        requires start { k * R.BITS ≤ (slice_span self.now).head + from }
        requires end { (slice_span self.now).head + upto ≤ (k + 1) * R.BITS }
        requires inside { upto ≤ slice_len self.now }
        ensures { IsChosen R.BITS O.at_of (slice_span self.now).head (slice_bits self.now) k from
            upto bit (R.number result) }
    {
        let start = k * mem::bits_of::<R>();
        let low = (self.head() + from - start) as u8;
        let high = (self.head() + upto - start) as u8;
        let mask = O::mask(
            Some(BitIdx::new_unchecked(low)),
            Some(BitEnd::new_unchecked(high)),
        );
        self.turned_word(k, bit).and(mask.into_inner())
    }

    // The next word behind word `word` in which a bit before index `end` is `bit`: its number, such
    // bits of it as the ones of a word, and the index of the first. `None` only where none is.
    #[inline(always)]
    pub(super) fn chosen_later(&self, word: usize, end: usize, bit: bool) -> Option<(usize, R, u8)>
        requires { end ≤ slice_len self.now }
        ensures { FindsWord self.now bit (stretch_end R.BITS (slice_span self.now).head (slice_len
            self.now) word) end result }
    {
        let head = self.head();
        let width = mem::bits_of::<R>();
        let last = (head + end) / width;
        if last <= word {
            return None;
        }
        // No word before word `last` wants a mask.
        for k in word + 1..last {
            let ones = self.turned_word(k, bit);
            if let Some(index) = first_index::<R, O>(ones) {
                return Some((k, ones, index));
            }
        }
        let from = last * width - head;
        if end <= from {
            return None;
        }
        let ones = self.chosen(last, from, end, bit);
        match first_index::<R, O>(ones) {
            Some(index) => Some((last, ones, index)),
            None => None,
        }
    }

    // The first that is `bit`, of the bits from index `from` to before index `upto`, which lie in
    // word `k`.
    #[inline(always)]
    fn first_in_word(&self, k: usize, from: usize, upto: usize, bit: bool) -> Option<usize>
        requires met { k < words_met R.BITS (slice_span self.now).head (slice_span self.now).len }
        requires some { from < upto }
        requires start { k * R.BITS ≤ (slice_span self.now).head + from }
        requires end { (slice_span self.now).head + upto ≤ (k + 1) * R.BITS }
        requires inside { upto ≤ slice_len self.now }
        ensures { MatchOption result (AllBetween (not bit) (slice_bits self.now) from upto)
            (IsFirstBetween bit (slice_bits self.now) from upto) }
    {
        let word = self.chosen(k, from, upto, bit);
        match first_index::<R, O>(word) {
            Some(index) => Some(k * mem::bits_of::<R>() + usize::from(index) - self.head()),
            None => None,
        }
    }

    // An index from `from` to `upto`, from which to before `upto` no bit is `bit`: it passes over
    // whole words where `upto` is one past the last bit of one.
    fn pass_words_back(&self, from: usize, upto: usize, bit: bool) -> usize
        requires ordered { from ≤ upto }
        requires inside { upto ≤ slice_len self.now }
        ensures start { from ≤ result }
        ensures end { result ≤ upto }
        ensures lacking { AllBetween (not bit) (slice_bits self.now) result upto }
    {
        let head = self.head();
        let width = mem::bits_of::<R>();
        let end = (head + upto) / width;
        if end * width != head + upto {
            return upto;
        }
        let start = (head + from + (width - 1)) / width;
        let lacking = if bit { R::ZERO } else { R::ALL };
        self.last_other(start, end, lacking) * width - head
    }

    // The first that is `bit`, of the bits behind word `word` and before index `upto`: word by word.
    #[inline(always)]
    fn first_behind(&self, word: usize, upto: usize, bit: bool) -> Option<usize>
        requires { upto ≤ slice_len self.now }
        ensures { FindsBetween bit (slice_bits self.now)
            (stretch_end R.BITS (slice_span self.now).head (slice_len self.now) word) upto result }
    {
        let found = self.chosen_later(word, upto, bit)?;
        let (k, _, index) = found;
        let i = k * mem::bits_of::<R>() + usize::from(index) - self.head();
        if upto <= i { None } else { Some(i) }
    }

    // The first that is `bit`, of the bits from index `from` to before index `upto`: it passes over
    // whole words by eights.
    fn first_far(&self, from: usize, upto: usize, bit: bool) -> Option<usize>
        requires { upto ≤ slice_len self.now }
        ensures { FindsBetween bit (slice_bits self.now) from upto result }
    {
        let head = self.head();
        let width = mem::bits_of::<R>();
        let mut next = from;
        while next < upto {
            let k = (head + next) / width;
            let end = upto.min((k + 1) * width - head);
            if let Some(i) = self.first_in_word(k, next, end, bit) {
                return Some(i);
            }
            next = self.pass_words(end, upto, bit);
        }
        None
    }

    // The first that is `bit`, of the bits behind word `word` and before index `upto`: it looks at
    // some words one by one, and then passes over words by eights.
    #[inline(never)]
    fn first_later(&self, word: usize, upto: usize, bit: bool) -> Option<usize>
        requires met { word
            < words_met R.BITS (slice_span self.now).head (slice_span self.now).len }
        requires inside { upto ≤ slice_len self.now }
        ensures { FindsBetween bit (slice_bits self.now)
            (stretch_end R.BITS (slice_span self.now).head (slice_len self.now) word) upto result }
    {
        let width = mem::bits_of::<R>();
        let end = upto.min((word + 1) * width - self.head());
        // (often one of the next words has what is sought)
        let near = end + (upto - end).min(16 * width);
        if let Some(i) = self.first_behind(word, near, bit) {
            return Some(i);
        }
        self.first_far(near, upto, bit)
    }

    // The bits of word `k` from index `from` on that are `bit`, as the ones of a word. Where the
    // word has digits behind the slice's last bit, these may be ones too.
    #[inline(always)]
    fn chosen_from(&self, k: usize, from: usize, bit: bool) -> R
        requires met { k < words_met R.BITS (slice_span self.now).head (slice_span self.now).len }
        requires start { k * R.BITS ≤ (slice_span self.now).head + from }
        requires end { (slice_span self.now).head + from < (k + 1) * R.BITS }
        requires inside { from < slice_len self.now }
        ensures { IsChosenFrom R.BITS O.at_of (slice_span self.now).head (slice_bits self.now) k
            from (slice_len self.now) bit (R.number result) }
    {
        let start = k * mem::bits_of::<R>();
        let low = (self.head() + from - start) as u8;
        let mask = O::mask(Some(BitIdx::new_unchecked(low)), None);
        self.turned_word(k, bit).and(mask.into_inner())
    }

    // The first that is `bit`, of the bits behind word `word` and before index `upto`: it looks at
    // the next word before it calls for the others.
    #[inline(always)]
    fn first_after(&self, word: usize, upto: usize, bit: bool) -> Option<usize>
        requires met { word
            < words_met R.BITS (slice_span self.now).head (slice_span self.now).len }
        requires inside { upto ≤ slice_len self.now }
        ensures { FindsBetween bit (slice_bits self.now)
            (stretch_end R.BITS (slice_span self.now).head (slice_len self.now) word) upto result }
    {
        let k = word + 1;
        let start = k * mem::bits_of::<R>() - self.head();
        if upto <= start {
            return None;
        }
        match first_index::<R, O>(self.turned_word(k, bit)) {
            Some(index) => {
                let i = start + usize::from(index);
                if i < upto { Some(i) } else { None }
            }
            None => self.first_later(k, upto, bit),
        }
    }

    // The first that is `bit`, of the bits from index `from` to before index `upto`.
    //
    // A bit that is found at or behind `upto` shows that none of them is `bit`: so no mask cuts a
    // word where they end.
    #[inline(always)]
    pub(super) fn first_between(&self, from: usize, upto: usize, bit: bool) -> Option<usize>
        requires { upto ≤ slice_len self.now }
        ensures { FindsBetween bit (slice_bits self.now) from upto result }
    {
        if upto <= from {
            return None;
        }
        let width = mem::bits_of::<R>();
        let k = (self.head() + from) / width;
        match first_index::<R, O>(self.chosen_from(k, from, bit)) {
            Some(index) => {
                let i = k * width + usize::from(index) - self.head();
                if i >= upto {
                    return None;
                }
                Some(i)
            }
            None => self.first_after(k, upto, bit),
        }
    }

    // The last that is `bit`, of the bits from index `from` to before index `upto`, which lie in
    // word `k`.
    #[inline(always)]
    fn last_in_word(&self, k: usize, from: usize, upto: usize, bit: bool) -> Option<usize>
        requires met { k < words_met R.BITS (slice_span self.now).head (slice_span self.now).len }
        requires some { from < upto }
        requires start { k * R.BITS ≤ (slice_span self.now).head + from }
        requires end { (slice_span self.now).head + upto ≤ (k + 1) * R.BITS }
        requires inside { upto ≤ slice_len self.now }
        ensures { MatchOption result (AllBetween (not bit) (slice_bits self.now) from upto)
            (IsLastBetween bit (slice_bits self.now) from upto) }
    {
        let word = self.chosen(k, from, upto, bit);
        match last_index::<R, O>(word) {
            Some(index) => Some(k * mem::bits_of::<R>() + usize::from(index) - self.head()),
            None => None,
        }
    }

    // The last that is `bit`, of the bits from index `from` to before index `upto`.
    pub(super) fn last_between(&self, from: usize, upto: usize, bit: bool) -> Option<usize>
        requires { upto ≤ slice_len self.now }
        ensures { MatchOption result (AllBetween (not bit) (slice_bits self.now) from upto)
            (IsLastBetween bit (slice_bits self.now) from upto) }
    {
        let head = self.head();
        let width = mem::bits_of::<R>();
        let mut end = upto;
        while from < end {
            let k = (head + (end - 1)) / width;
            let start = from.max((k * width).saturating_sub(head));
            if let Some(i) = self.last_in_word(k, start, end, bit) {
                return Some(i);
            }
            end = self.pass_words_back(from, start, bit);
        }
        None
    }

    /// The index of the first bit that is one, counted from 0, and `None` where none is.
    ///
    /// By words. In an order that neither rises nor falls the first word, the last and the one that
    /// has the bit go bit by bit.
    pub fn first_one(&self) -> Option<usize>
        ensures { MatchOption result (AllAre false (slice_bits self.now))
            (IsFirst true (slice_bits self.now)) }
    {
        self.first_between(0, self.len(), true)
    }

    /// The index of the first bit that is zero, counted from 0, and `None` where none is.
    ///
    /// By words. In an order that neither rises nor falls the first word, the last and the one that
    /// has the bit go bit by bit.
    pub fn first_zero(&self) -> Option<usize>
        ensures { MatchOption result (AllAre true (slice_bits self.now))
            (IsFirst false (slice_bits self.now)) }
    {
        self.first_between(0, self.len(), false)
    }

    /// The index of the last bit that is one, counted from 0, and `None` where none is.
    ///
    /// By words. In an order that neither rises nor falls the first word, the last and the one that
    /// has the bit go bit by bit.
    pub fn last_one(&self) -> Option<usize>
        ensures { MatchOption result (AllAre false (slice_bits self.now))
            (IsLast true (slice_bits self.now)) }
    {
        self.last_between(0, self.len(), true)
    }

    /// The index of the last bit that is zero, counted from 0, and `None` where none is.
    ///
    /// By words. In an order that neither rises nor falls the first word, the last and the one that
    /// has the bit go bit by bit.
    pub fn last_zero(&self) -> Option<usize>
        ensures { MatchOption result (AllAre true (slice_bits self.now))
            (IsLast false (slice_bits self.now)) }
    {
        self.last_between(0, self.len(), false)
    }

    /// How many bits are zero before the first that is one; all, where none is. Costs as
    /// [`first_one`](BitSlice::first_one) does.
    pub fn leading_zeros(&self) -> usize
        ensures { BeginsWith false (slice_bits self.now) result }
    {
        self.first_one().unwrap_or(self.len())
    }

    /// How many bits are one before the first that is zero; all, where none is. Costs as
    /// [`first_zero`](BitSlice::first_zero) does.
    pub fn leading_ones(&self) -> usize
        ensures { BeginsWith true (slice_bits self.now) result }
    {
        self.first_zero().unwrap_or(self.len())
    }

    /// How many bits are zero behind the last that is one; all, where none is. Costs as
    /// [`last_one`](BitSlice::last_one) does.
    pub fn trailing_zeros(&self) -> usize
        ensures { EndsWith false (slice_bits self.now) result }
    {
        match self.last_one() {
            Some(i) => self.len() - (i + 1),
            None => self.len(),
        }
    }

    /// How many bits are one behind the last that is zero; all, where none is. Costs as
    /// [`last_zero`](BitSlice::last_zero) does.
    pub fn trailing_ones(&self) -> usize
        ensures { EndsWith true (slice_bits self.now) result }
    {
        match self.last_zero() {
            Some(i) => self.len() - (i + 1),
            None => self.len(),
        }
    }

    /// Whether some bit is one. Costs as [`first_one`](BitSlice::first_one) does.
    pub fn any(&self) -> bool
        ensures { (result ≡ false) ↔ AllAre false (slice_bits self.now) }
    {
        self.first_one().is_some()
    }

    /// Whether no bit is one. Costs as [`first_one`](BitSlice::first_one) does.
    pub fn not_any(&self) -> bool
        ensures { IsTrue result ↔ AllAre false (slice_bits self.now) }
    {
        self.first_one().is_none()
    }

    /// Whether every bit is one. Costs as [`first_zero`](BitSlice::first_zero) does.
    pub fn all_ones(&self) -> bool
        ensures { IsTrue result ↔ AllAre true (slice_bits self.now) }
    {
        self.first_zero().is_none()
    }

    /// Whether some bit is zero. Costs as [`first_zero`](BitSlice::first_zero) does.
    pub fn not_all(&self) -> bool
        ensures { (result ≡ false) ↔ AllAre true (slice_bits self.now) }
    {
        self.first_zero().is_some()
    }
}
