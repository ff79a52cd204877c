//! Numbers in decimal at the end of a text.
ghost use Rattle.std.specs.Prelude.{◌≤◌, ◌∷◌, [], ◌++◌, length};
ghost use Rattle.std.specs.Fmt.{decimal};
ghost use Rattle.wic_vec.specs.TryString.{Appends};

use super::TryString;
use super::digits::{MOST_DIGITS, write_digits};
use std::str;
use wic_base::OutOfMemory;

/// How many bytes the word of `TryString::push_number` has at most.
pub const LONGEST_WORD: usize = 8;

impl TryString {
    /// Puts `number` at the end, in decimal with no leading zero. It allocates nothing but the room of the text. It is
    /// refused only if the capacity is below the new length: then the text is as before. Within the capacity it is
    /// never refused and the capacity stays.
    ///
    /// Formatting says nothing of what a refused writer holds; this does.
    pub fn push_decimal(&mut self, number: u64) -> Result<(), OutOfMemory>
        ensures { Appends self.old self.new (decimal number) result }
    {
        let mut digits = [b'0'; MOST_DIGITS];
        let start = write_digits(number, &mut digits, MOST_DIGITS);
        self.push_str(unsafe { str::from_utf8_unchecked(&digits[start..]) })
    }

    /// Puts `number` and a line feed at the end, as one push: both or nothing. Refusals and room are as in
    /// `push_decimal`.
    pub fn push_decimal_line(&mut self, number: u64) -> Result<(), OutOfMemory>
        ensures { Appends self.old self.new (decimal number ++ 10 ∷ []) result }
    {
        let mut line = [b'\n'; MOST_DIGITS + 1];
        let start = write_digits(number, &mut line, MOST_DIGITS);
        self.push_str(unsafe { str::from_utf8_unchecked(&line[start..]) })
    }

    /// Puts `word`, `number` in decimal and a line feed at the end, as one push: all three or nothing. The word has at
    /// most `LONGEST_WORD` bytes; a space between word and number is part of the word. Refusals and room are as in
    /// `push_decimal`.
    pub fn push_number(&mut self, word: &str, number: u64) -> Result<(), OutOfMemory>
        requires { length word.now ≤ LONGEST_WORD }
        ensures { Appends self.old self.new (word.now ++ decimal number ++ 10 ∷ []) result }
    {
        let mut line = [b'\n'; LONGEST_WORD + MOST_DIGITS + 1];
        let end = write_digits(number, &mut line, LONGEST_WORD + MOST_DIGITS);
        let start = end - word.len();
        line[start..end].copy_from_slice(word.as_bytes());
        self.push_str(unsafe { str::from_utf8_unchecked(&line[start..]) })
    }
}
