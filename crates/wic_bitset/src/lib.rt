//! Sets of numbers up to 4294967295, in words of a storage that the caller chooses: large, sparse or dense, and kept if an
//! allocation fails.
//!
//! A [`CompoundBitSet`] has one bit per number. Its summary has one bit per word, which says whether the word has a member. A second
//! level has one bit per word of the summary, and so on, four levels in all, each in words of 128 bits. So a walk and the search for the
//! next greatest member pass over empty words unread, however many there are.
//!
//! A contract sees the members, as a finite set, and the number of words; the capacity is the words times the width. The crate is a
//! port of the compound half of `cranelift_bitset`; `members`, `Hash` and the calls on two sets are added.
//!
//! # Example
//!
//! `callers::give_way` puts one number in the place of another. Below the capacity nothing is allocated, so nothing is refused:
//!
//! ```
//! pub fn give_way<T: ScalarBitSetStorage>(set: &mut CompoundBitSet<T>, from: usize, to: usize)
//! ```
//!
//! # Out of memory
//!
//! Only `insert`, `union_with` and the calls with `capacity` in their names grow a set. Each is refused only if a number is at the
//! capacity or above, and then members, maximum and capacity are as before. `try_ensure_capacity` asks once for what later calls
//! need. `try_clone` and `members` allocate what they return.
//!
//! # What it doesn't protect against
//!
//! A set grows to its greatest number: one of `u64` with the one member 4294967295 takes 512 MiB for its words, 8 MiB for the first
//! level of its summary, and 65 KiB for the levels above. Check numbers from untrusted callers before you insert them. `clear` and
//! `remove` give no memory back. The first growth of a set takes five allocations: its words, and four levels of the summary.
//!
//! # Costs
//!
//! | call | time |
//! |---|---|
//! | `contains`, `max`, `is_empty`, `capacity` | constant |
//! | `insert` | constant, or a few steps per level into an empty word; growths copy no more words in all than there are in the end |
//! | `remove`, `pop` | constant, and a few steps per level if a word becomes empty or the maximum goes |
//! | `iter`, `len`, `hash`, `clear`, `==` | each word that has a member, and a few steps per level for it |
//! | `members` | each summary word and each word that has a member, at most once; a clause bounds the number of counted reads |
//! | `intersect_with`, `subtract`, `is_subset`, `is_disjoint` | each word here that has a member, and a few steps per level for it |
//! | `union_with` | each word of the other that has a member, and a few steps per level for it; growths as for `insert` |
//! | `iter_scalars`, `try_clone` | the words |
//!
//! A few steps per level are at most two words read; the last level has at most four words. No clause says how many words of the
//! summary a call reads, but for `members`.
#![tactic(auto)]

#[cfg(test)]
mod callers;
mod combination;
mod compared;
mod growth;
mod iter;
mod iter_scalars;
pub mod laws;
mod levels;
mod marked;
mod number_set;
mod plain;
mod set;
mod store;
mod summarized;
#[cfg(test)]
mod tests;
mod walk;
mod word;
mod word_iter;

pub use iter::Iter;
pub use iter_scalars::IterScalars;
pub use laws::{law_growth, law_members};
pub use set::{CompoundBitSet, MAX_CAPACITY, MAX_NUMBER};
