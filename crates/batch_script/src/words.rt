//! Reads the words of the command line.
ghost use Rattle.std.specs.Prelude.{◌≡◌, ◌∷◌, ℕ, [], IfSome, IfNone};
ghost use Rattle.batch_script.specs.Words.{AreForRun, AsksFor};

use crate::number::whole_number;
use wic_vec::{TryString, TryVec};

/// The most batches that a script is generated with.
pub const MOST_BATCHES: u64 = 100000;

/// What the words of the command line ask for.
#[derive(Clone, Copy)]
pub(crate) enum Wish {
    Script,
    Generated(u64, u64),
    Usage,
}

/// What these words ask for.
pub(crate) fn wish_of(words: &TryVec<TryString>) -> Wish
    ensures { AsksFor words.now.items result }
{
    match words.as_slice() {
        [] => Wish::Script,
        [word, seed, count] => match seed_and_count(
            bytes_of(word),
            bytes_of(seed),
            bytes_of(count),
        ) {
            Some((seed, count)) => Wish::Generated(seed, count),
            None => Wish::Usage,
        },
        _ => Wish::Usage,
    }
}

/// The numbers of the run that three words ask for, if they ask for one.
fn seed_and_count(word: &[u8], seed: &[u8], count: &[u8]) -> Option<(u64, u64)>
    ensures some { IfSome result (λ numbers. AreForRun
        (word.now ∷ seed.now ∷ count.now ∷ []) numbers.0 numbers.1) }
    ensures none { IfNone result ((from many : ℕ)
        → ¬ AreForRun (word.now ∷ seed.now ∷ count.now ∷ []) from many) }
{
    if word != b"gen".as_slice() {
        return None;
    }
    let seed = whole_number(seed)?;
    let count = whole_number(count)?;
    if count > MOST_BATCHES {
        return None;
    }
    Some((seed, count))
}

/// The bytes of a text.
fn bytes_of(text: &TryString) -> &[u8]
    ensures { result.now ≡ text.now.bytes }
{
    text.as_str().as_bytes()
}
