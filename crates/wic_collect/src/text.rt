//! Texts of a fixed length.
ghost use Rattle.std.specs.Prelude.{◌≡◌, length, IsOk, IfOk};

use std::alloc::Global;
use std::marker::Model;
use wic_base::OutOfMemory;
use wic_vec::{TryClone, TryString};

/// A text of its own, whose length stays. A contract sees it as its UTF-8 bytes.
///
/// A port of `Box<str>`.
#[derive(Drop)]
pub struct BoxedStr {
    text: TryString,
}

impl Model for BoxedStr {
    ghost use Rattle.std.specs.Prelude.{ℕ, List, ◌≡◌, length};

    ghost Value = { List ℕ };

    ghost view = { λ s. s.text.bytes };

    ghost invariant = { λ s. s.text.capacity ≡ length s.text.bytes };
}

impl BoxedStr {
    /// Returns the text in place.
    pub fn as_str(&self) -> &str
        ensures text { result.now ≡ self.now }
    {
        self.text.as_str()
    }

    /// Returns the number of bytes of the text.
    pub fn len(&self) -> usize
        ensures length { result ≡ length self.now }
    {
        self.text.len()
    }

    /// Returns the text as one that can grow, in the same memory, which has room for no more.
    pub fn into_string(self) -> TryString
        ensures text { result.bytes ≡ self }
        ensures capacity { result.capacity ≡ length self }
    {
        self.text
    }
}

/// Returns the text of `s`. It is never refused, and gives back the room that `s` doesn't use.
///
/// A port of `TryString::into_boxed_str`.
pub fn into_boxed_str(mut s: TryString) -> Result<BoxedStr, OutOfMemory>
    ensures text { IfOk result (λ text. text ≡ s.bytes) }
    ensures never_refused { IsOk result }
{
    s.shrink_to_fit()?;
    Ok(BoxedStr { text: s })
}

/// A copy is the same text.
impl TryClone for BoxedStr {
    ghost same = { λ a b. a ≡ b };

    fn try_clone(&self, alloc: Global) -> Result<BoxedStr, OutOfMemory> {
        into_boxed_str(TryString::try_from_str(alloc, self.as_str())?)
    }
}
