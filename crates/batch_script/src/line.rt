//! Reads the first line of an input: a word and up to two numbers. Each byte is read once.
ghost use Rattle.std.specs.Prelude.{◌≡◌, ◌≢◌, ◌<◌, ◌≤◌, ◌∷◌, ◌↔◌, ℕ, List, length, IsTrue, IfSome, IfNone, slice_index};
ghost use Rattle.batch_script.specs.Front.{AreNumbersBefore, EndsLine, HasFault, IsCut};
ghost use Rattle.batch_script.specs.Grammar.{line_of, lines_of};
ghost use Rattle.batch_script.specs.Reading.{HasParts, listed};

use crate::number::read_number;

/// The numbers of a line.
#[derive(Clone, Copy, Debug, PartialEq, Eq)]
pub enum Numbers {
    /// None.
    Zero,
    /// One.
    One(u64),
    /// Two, in order.
    Two(u64, u64),
}

/// The word and the numbers of the first line, and what follows that line; or `None` if the first line is no word with up to
/// two numbers.
#[inline(always)]
pub(crate) fn read_line(input: &[u8]) -> Option<(&[u8], Numbers, &[u8])>
    requires { 0 < length input.now }
    ensures parts { IfSome result (λ read. HasParts (line_of read.0.now (listed read.1)) read.0.now
        (listed read.1)) }
    ensures lines { IfSome result (λ read. lines_of input.now
        ≡ line_of read.0.now (listed read.1) ∷ lines_of read.2.now) }
    ensures shorter { IfSome result (λ read. length read.2.now < length input.now) }
    ensures none { IfNone result (HasFault input.now) }
{
    let (word, rest) = split_word(input);
    match after_space(rest) {
        Some(text) => {
            let (numbers, later) = read_numbers(text)?;
            Some((word, numbers, later))
        }
        None => Some((word, Numbers::Zero, after_line(rest)?)),
    }
}

/// One number or two with one space between them, up to the end of the line, and what follows the line.
#[inline(always)]
fn read_numbers(text: &[u8]) -> Option<(Numbers, &[u8])>
    ensures some { IfSome result (λ read. (rest : List ℕ)
        × AreNumbersBefore text.now (listed read.0) rest read.1.now) }
    ensures none { IfNone result ((numbers rest later : List ℕ) → length numbers ≤ 2
        → ¬ AreNumbersBefore text.now numbers rest later) }
{
    let (first, rest) = read_number(text)?;
    match after_space(rest) {
        Some(more) => {
            let (second, end) = read_number(more)?;
            Some((Numbers::Two(first, second), after_line(end)?))
        }
        None => Some((Numbers::One(first), after_line(rest)?)),
    }
}

/// What follows a space at the front.
#[inline(always)]
fn after_space(text: &[u8]) -> Option<&[u8]>
    ensures some { IfSome result (λ rest. text.now ≡ 32 ∷ rest.now) }
    ensures none { IfNone result ((rest : List ℕ) → text.now ≢ 32 ∷ rest) }
{
    match text {
        [b' ', rest @ ..] => Some(rest),
        _ => None,
    }
}

/// What follows the end of a line at the front.
#[inline(always)]
fn after_line(rest: &[u8]) -> Option<&[u8]>
    ensures some { IfSome result (λ later. EndsLine rest.now later.now) }
    ensures none { IfNone result ((later : List ℕ) → ¬ EndsLine rest.now later) }
{
    match rest {
        [] => Some(rest),
        [b'\n', later @ ..] => Some(later),
        _ => None,
    }
}

/// What stands before the first space or line feed, and what stands from there on.
#[inline(always)]
fn split_word(text: &[u8]) -> (&[u8], &[u8])
    ensures { IsCut text.now result.0.now result.1.now }
{
    let mut end = 0;
    while is_in_word(text, end) {
        end += 1;
    }
    (&text[..end], &text[end..])
}

/// Whether a byte stands at this place that is neither a space nor a line feed.
#[inline(always)]
fn is_in_word(text: &[u8], place: usize) -> bool
    ensures { IsTrue result
        ↔ ((place < length text.now) × (slice_index text.now place ≢ 32)
        × (slice_index text.now place ≢ 10)) }
{
    place < text.len() && text[place] != b' ' && text[place] != b'\n'
}
