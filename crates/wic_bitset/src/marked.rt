//! Words, and the set of the numbers of those that have a member, their marks. One level is done here for all: the words of a
//! set with its summary, and each level of the summary with the one above it.
ghost use Rattle.std.specs.Prelude.{◌≡◌, ◌↔◌, ◌+◌, ◌*◌, ◌<◌, ◌≤◌, ℕ, not, true, IsTrue};
ghost use Rattle.std.specs.FinSet as fin_set;
ghost use Rattle.wic_bitset.specs.Combination.{combined, words_to_combine, CombinesWord, HasWordsFor, KeepsNone, TellsChange};
ghost use Rattle.wic_bitset.specs.From.{IsMinFrom};
ghost use Rattle.wic_bitset.specs.Greatest.{IsMax};
ghost use Rattle.wic_bitset.specs.Summary.{Summarizes};
ghost use Rattle.wic_bitset.specs.Words.{EndsBefore};
ghost use Rattle.wic_bitset.specs.Compound.{max_number};

use crate::combination::Combination;
use crate::number_set::NumberSet;
use crate::store::Store;
use crate::word::least_in_word;
use wic_scalar::ScalarBitSetStorage;

/// Puts `i`, for which there is a word, into `words`, and its word into `marks` if that was empty. Returns whether `i` is new.
#[inline]
pub fn insert_into<T: ScalarBitSetStorage, S: NumberSet>(
    words: &mut Store<T>,
    marks: &mut S,
    i: usize,
) -> bool
    requires marks { Summarizes T.width words.old (S.members marks.old) (S.end marks.old) }
    requires within { i < words.old.count * T.width }
    requires number { i ≤ max_number }
    ensures new { result ≡ not (fin_set.contains words.old.members i) }
    ensures members { words.new.members ≡ fin_set.insert words.old.members i }
    ensures count { words.new.count ≡ words.old.count }
    ensures room { words.new.room ≡ words.old.room }
    ensures marks_room { S.room marks.new ≡ S.room marks.old }
    ensures marks { Summarizes T.width words.new (S.members marks.new) (S.end marks.new) }
{
    let k = i / T::width() as usize;
    if words.is_word_empty(k) {
        marks.insert(k);
    }
    words.insert(i)
}

/// Takes `i`, any number, out of `words`, and its word out of `marks` if that is empty then. Returns whether `i` was there.
#[inline]
pub fn remove_from<T: ScalarBitSetStorage, S: NumberSet>(
    words: &mut Store<T>,
    marks: &mut S,
    i: usize,
) -> bool
    requires { Summarizes T.width words.old (S.members marks.old) (S.end marks.old) }
    ensures present { result ≡ fin_set.contains words.old.members i }
    ensures members { words.new.members ≡ fin_set.remove words.old.members i }
    ensures count { words.new.count ≡ words.old.count }
    ensures room { words.new.room ≡ words.old.room }
    ensures marks_room { S.room marks.new ≡ S.room marks.old }
    ensures marks { Summarizes T.width words.new (S.members marks.new) (S.end marks.new) }
{
    if !words.remove(i) {
        return false;
    }
    let word = i / T::width() as usize;
    if words.is_word_empty(word) {
        marks.remove(word);
    }
    true
}

/// Takes every member out: it empties the words that `marks` has, one after the other, and then `marks`.
pub fn clear_marked<T: ScalarBitSetStorage, S: NumberSet>(words: &mut Store<T>, marks: &mut S)
    requires { Summarizes T.width words.old (S.members marks.old) (S.end marks.old) }
    ensures members { words.new.members ≡ fin_set.empty }
    ensures count { words.new.count ≡ words.old.count }
    ensures room { words.new.room ≡ words.old.room }
    ensures marks_room { S.room marks.new ≡ S.room marks.old }
    ensures marks { Summarizes T.width words.new (S.members marks.new) (S.end marks.new) }
{
    let mut next = 0;
    while let Some(k) = marks.least_from(next) {
        words.clear_word(k);
        next = k + 1;
    }
    marks.clear();
}

/// The greatest member: that of the greatest word that `marks` has.
#[inline]
pub fn greatest_marked<T: ScalarBitSetStorage, S: NumberSet>(
    words: &Store<T>,
    marks: &S,
) -> Option<usize>
    requires { Summarizes T.width words.now (S.members marks.now) (S.end marks.now) }
    ensures { IsMax words.now.members result }
{
    match marks.greatest() {
        Some(k) => words.max_of_word(k),
        None => None,
    }
}

/// The greatest member, where none stands after word `k`: in word `k`, or else in the greatest word that `marks` has, which
/// are looked at near `k` first.
#[inline]
pub fn greatest_up_to_word<T: ScalarBitSetStorage, S: NumberSet>(
    words: &Store<T>,
    marks: &S,
    k: usize,
) -> Option<usize>
    requires marks { Summarizes T.width words.now (S.members marks.now) (S.end marks.now) }
    requires there { k < words.now.count }
    requires last { EndsBefore T.width words.now.members (k + 1) }
    ensures { IsMax words.now.members result }
{
    match words.max_of_word(k) {
        Some(greatest) => Some(greatest),
        None => match marks.greatest_up_to(k) {
            Some(last) => words.max_of_word(last),
            None => None,
        },
    }
}

/// The least member from `i` on: in the word of `i`, or else in the next word that `marks` has.
#[inline]
pub fn least_marked_from<T: ScalarBitSetStorage, S: NumberSet>(
    words: &Store<T>,
    marks: &S,
    i: usize,
) -> Option<usize>
    requires { Summarizes T.width words.now (S.members marks.now) (S.end marks.now) }
    ensures { IsMinFrom words.now.members i result }
{
    let first = i / T::width() as usize;
    if first >= words.count() {
        return None;
    }
    if let Some(x) = least_in_word(words, i) {
        return Some(x);
    }
    match marks.least_from(first + 1) {
        Some(k) => least_in_word(words, words.start(k)),
        None => None,
    }
}

/// Whether the two have the same members. It compares the marks first, and then each word that has one.
pub fn same_marked<T: ScalarBitSetStorage, S: NumberSet>(
    words: &Store<T>,
    marks: &S,
    other_words: &Store<T>,
    other_marks: &S,
) -> bool
    requires marks { Summarizes T.width words.now (S.members marks.now) (S.end marks.now) }
    requires other_marks { Summarizes T.width other_words.now (S.members other_marks.now)
        (S.end other_marks.now) }
    ensures { IsTrue result ↔ (words.now.members ≡ other_words.now.members) }
{
    if !marks.is_same(other_marks) {
        return false;
    }
    let mut next = 0;
    while let Some(k) = marks.least_from(next) {
        if !words.has_same_word(other_words, k) {
            return false;
        }
        next = k + 1;
    }
    true
}

/// Makes of word `k` what `how` makes of it and of that of `other`, and puts `k` into `marks`, or takes it out if the word is empty
/// then. Returns whether a member came or went.
pub fn combine_marked_word<T: ScalarBitSetStorage, S: NumberSet>(
    words: &mut Store<T>,
    marks: &mut S,
    other: &Store<T>,
    how: Combination,
    k: usize,
) -> bool
    requires marks { Summarizes T.width words.old (S.members marks.old) (S.end marks.old) }
    requires within { k < words.old.count }
    requires numbers { (i : ℕ) → fin_set.contains other.now.members i ≡ true → i ≤ max_number }
    ensures members { CombinesWord T.width how k
        words.old.members other.now.members words.new.members }
    ensures changed { TellsChange result words.old.members words.new.members }
    ensures count { words.new.count ≡ words.old.count }
    ensures room { words.new.room ≡ words.old.room }
    ensures marks_room { S.room marks.new ≡ S.room marks.old }
    ensures marks { Summarizes T.width words.new (S.members marks.new) (S.end marks.new) }
{
    let changed = words.combine_word(other, how, k);
    if words.is_word_empty(k) {
        marks.remove(k);
    } else {
        marks.insert(k);
    }
    changed
}

/// Makes of `words` what `how` makes of it and of `other`, and returns whether a member came or went. A union goes over the words
/// that `other_marks` has, the others over those that `marks` has.
pub fn combine_marked<T: ScalarBitSetStorage, S: NumberSet>(
    words: &mut Store<T>,
    marks: &mut S,
    other: &Store<T>,
    other_marks: &S,
    how: Combination,
) -> bool
    requires marks { Summarizes T.width words.old (S.members marks.old) (S.end marks.old) }
    requires other_marks { Summarizes T.width other.now (S.members other_marks.now)
        (S.end other_marks.now) }
    requires within { HasWordsFor T.width how other.now.members words.old.count }
    ensures members { (i : ℕ) → fin_set.contains words.new.members i
        ≡ combined how (fin_set.contains words.old.members i)
        (fin_set.contains other.now.members i) }
    ensures changed { TellsChange result words.old.members words.new.members }
    ensures count { words.new.count ≡ words.old.count }
    ensures room { words.new.room ≡ words.old.room }
    ensures marks_room { S.room marks.new ≡ S.room marks.old }
    ensures marks { Summarizes T.width words.new (S.members marks.new) (S.end marks.new) }
{
    let mut changed = false;
    let mut next = 0;
    while let Some(k) = next_to_combine(marks, other_marks, how, next) {
        if combine_marked_word(words, marks, other, how, k) {
            changed = true;
        }
        next = k + 1;
    }
    changed
}

// The next word from `next` on that `how` can change.
#[inline]
fn next_to_combine<S: NumberSet>(
    marks: &S,
    other_marks: &S,
    how: Combination,
    next: usize,
) -> Option<usize>
    ensures { IsMinFrom (words_to_combine how (S.members marks.now) (S.members other_marks.now))
        next result }
{
    match how {
        Combination::Union => other_marks.least_from(next),
        Combination::Intersection => marks.least_from(next),
        Combination::Difference => marks.least_from(next),
    }
}

/// Whether what `how` makes of `words` and `other` has no member of `words`. It goes over the words that `marks` has.
pub fn keeps_none_marked<T: ScalarBitSetStorage, S: NumberSet>(
    words: &Store<T>,
    marks: &S,
    other: &Store<T>,
    how: Combination,
) -> bool
    requires { Summarizes T.width words.now (S.members marks.now) (S.end marks.now) }
    ensures { IsTrue result ↔ KeepsNone how words.now.members other.now.members }
{
    let mut next = 0;
    while let Some(k) = marks.least_from(next) {
        if !words.combines_to_none(other, how, k) {
            return false;
        }
        next = k + 1;
    }
    true
}
