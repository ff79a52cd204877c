//! How the count of words grows.
ghost use Rattle.std.specs.Prelude.{◌≡◌, ◌≤◌};
ghost use Rattle.wic_bitset.specs.Growth.{count_after};
ghost use Rattle.wic_bitset.specs.Words.{most_words};
ghost use Rattle.wic_bitset.specs.Compound.{max_capacity};

// The count of words after word `word`, which is not below the count, was asked.
pub fn grown_count(count: usize, word: usize) -> usize
    requires grows { count ≤ word }
    requires few { word ≤ max_capacity }
    ensures count { result ≡ count_after count word }
    ensures few { result ≤ most_words }
    ensures grows { count ≤ result }
{
    (word + 1).max(2 * count).max(count + 4)
}
