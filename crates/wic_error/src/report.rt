//! The three texts of an error.
ghost use Rattle.std.specs.Prelude.{◌≡◌, ◌++◌, ◌∷◌, [], ℕ, List, codes, map, reverse, replicate, length, ◌-◌, IfOk, OnOk};
ghost use Rattle.std.specs.List.{flat_map};
ghost use Rattle.std.specs.Fmt.{decimal};
ghost use Rattle.wic_error.specs.Chain.{first_text, line, report, cause_lines, in_five_places, numbered_lines};
ghost use Rattle.wic_error.specs.Error.{texts_of};

use crate::error::Error;
use crate::kind::Kind;
use std::alloc::Global;
use wic_base::OutOfMemory;
use wic_vec::TryString;

impl<K: Kind> Error<K> {
    /// The text of the first item: of the newest context, or of the out of memory that this error is.
    ///
    /// It stands for `{}` of `Error`.
    pub fn first_text(&self, alloc: Global) -> Result<TryString, OutOfMemory>
        ensures text { IfOk result (λ text. text.bytes ≡ first_text (texts_of K.text self.now)) }
    {
        let mut text = TryString::new(alloc);
        self.push_first(&mut text)?;
        Ok(text)
    }

    // Puts the text of the first item at the end of `out`.
    fn push_first(&self, out: &mut TryString) -> Result<(), OutOfMemory>
        ensures first { OnOk result
            (out.new.bytes ≡ out.old.bytes ++ first_text (texts_of K.text self.now)) }
    {
        match self.chain().next() {
            Some(newest) => newest.push_text(out),
            None => Ok(()),
        }
    }

    /// The texts of all items in one line, joined by a colon and a space, the newest first.
    ///
    /// It stands for `{:#}` of `Error`.
    pub fn line(&self, alloc: Global) -> Result<TryString, OutOfMemory>
        ensures text { IfOk result (λ text. text.bytes ≡ line (texts_of K.text self.now)) }
    {
        let mut text = TryString::new(alloc);
        self.push_line(&mut text)?;
        Ok(text)
    }

    /// Puts the line that `line` returns at the end of `out`, and makes no text of its own. After a refusal a part of the
    /// line may stand there.
    pub fn push_line(&self, out: &mut TryString) -> Result<(), OutOfMemory>
        ensures line { OnOk result
            (out.new.bytes ≡ out.old.bytes ++ line (texts_of K.text self.now)) }
    {
        self.push_first(out)?;
        push_joined(self.causes(), out)
    }

    /// The first text, and if there are further items a heading and a line for each: a single one behind four
    /// blanks, several with their number from 0, right-aligned in five places.
    ///
    /// It stands for `{:?}` of `Error`, with no backtrace.
    pub fn report(&self, alloc: Global) -> Result<TryString, OutOfMemory>
        ensures text { IfOk result (λ text. text.bytes ≡ report (texts_of K.text self.now)) }
    {
        let mut text = self.first_text(alloc)?;
        let causes = self.causes();
        if causes.is_empty() {
            return Ok(text);
        }
        text.push_str("\n\nCaused by:\n")?;
        push_causes(causes, &mut text)?;
        Ok(text)
    }

    /// The links before the newest, the root first.
    fn causes(&self) -> &[K]
        ensures texts { (newest : List ℕ)
            × (texts_of K.text self.now ≡ newest ∷ map K.text (reverse result.now)) }
    {
        match self.repr.links().split_last() {
            Some((_, causes)) => causes,
            None => &[],
        }
    }
}

/// Puts the texts of these links at the end, the last first, each behind a colon and a space.
fn push_joined<K: Kind>(causes: &[K], text: &mut TryString) -> Result<(), OutOfMemory>
    ensures joined { OnOk result (text.new.bytes
        ≡ text.old.bytes
        ++ flat_map (λ cause. codes ": " ++ cause) (map K.text (reverse causes.now))) }
{
    let mut rest = causes;
    while let Some((cause, older)) = rest.split_last() {
        text.push_str(": ")?;
        cause.push_text(text)?;
        rest = older;
    }
    Ok(())
}

/// Puts the lines of these links at the end, the last first.
fn push_causes<K: Kind>(causes: &[K], text: &mut TryString) -> Result<(), OutOfMemory>
    ensures lines { OnOk result (text.new.bytes
        ≡ text.old.bytes ++ cause_lines (map K.text (reverse causes.now))) }
{
    match causes {
        [root] => {
            text.push_str("    ")?;
            root.push_text(text)?;
            text.push_str("\n")
        }
        _ => push_numbered(causes, text),
    }
}

/// Puts the lines of these links at the end, the last first, numbered from 0.
fn push_numbered<K: Kind>(causes: &[K], text: &mut TryString) -> Result<(), OutOfMemory>
    ensures lines { OnOk result (text.new.bytes
        ≡ text.old.bytes ++ numbered_lines 0 (map K.text (reverse causes.now))) }
{
    let mut rest = causes;
    while let Some((cause, older)) = rest.split_last() {
        push_number(causes.len() - rest.len(), text)?;
        cause.push_text(text)?;
        text.push_str("\n")?;
        rest = older;
    }
    Ok(())
}

/// Puts a number at the end, right-aligned in five places, and a colon and a space.
fn push_number(number: usize, text: &mut TryString) -> Result<(), OutOfMemory>
    ensures number { OnOk result (text.new.bytes
        ≡ text.old.bytes ++ in_five_places number ++ codes ": ") }
{
    text.push_str(blanks_before(number))?;
    text.push_decimal(number as u64)?;
    text.push_str(": ")
}

/// The blanks that make a number five places wide.
fn blanks_before(number: usize) -> &'static str
    ensures blanks { result.now ≡ replicate (5 - length (decimal number)) 32 }
{
    match number {
        0..=9 => "    ",
        10..=99 => "   ",
        100..=999 => "  ",
        1000..=9999 => " ",
        _ => "",
    }
}
