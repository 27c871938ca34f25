//! The usual stack of levels, from words alone.

ghost use Rattle.std.specs.Prelude.{◌≡◌, ◌≤◌, length};
ghost use Rattle.freemap.specs.Blocks.{word_count};
ghost use Rattle.freemap.specs.Leveled.{map_of, level_loans};
ghost use Rattle.freemap.specs.Loans.{behind_levels, behind_loans};
ghost use Rattle.freemap.specs.Map.{in_use};
ghost use Rattle.freemap.specs.Summary.{summary_words};

use crate::level::PlainLevel;
use crate::leveled::{LeveledMap, StackedLevel, TwoLevels};
use crate::map::{FreeMap, words_for};
use bitvec::order::{BitOrder, Lsb0};

/// A map under two levels, in words of their own. Requires that the words have room for them:
/// [`summary_words_for`](crate::leveled::summary_words_for) says how many are wanted.
///
/// The words are lent until the map is used for the last time, and each bit of them that is no mark
/// stays as it is. The words that are wanted at least have the marks, and what is behind these
/// words is not changed. Costs by the words of the map.
pub fn two_levels<'a, O: BitOrder<u64>>(
    blocks: FreeMap<'a, O>,
    summary: &'a mut [u64],
) -> TwoLevels<'a, O>
    requires { summary_words (length (in_use blocks)) ≤ length summary.old }
    ensures map { map_of result ≡ blocks.entry }
    ensures behind { behind_loans (level_loans result)
        ≡ behind_levels (λ i. i) (word_count (length (in_use blocks.entry))) summary.old }
{
    let words = words_for(blocks.blocks());
    let groups = words_for(words);
    let (low, high) = summary.split_at_mut(groups);
    let top = PlainLevel::new_unchecked(high, groups);
    let marks = PlainLevel::new_unchecked(low, words);
    LeveledMap::over(blocks, StackedLevel::over(marks, top))
}
