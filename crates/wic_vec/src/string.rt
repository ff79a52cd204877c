//! A text whose growth can be refused.
ghost use Rattle.std.specs.Prelude.{◌≡◌, ◌+◌, ◌≤◌, ◌↔◌, ◌==◌, [], length, max};
ghost use Rattle.std.specs.Prelude.{encode_utf8, string_bytes, string_capacity, IsTrue, IsOk, IfOk, OnOk};
ghost use Rattle.wic_vec.specs.TryString.{Appends, Reserves};

mod compare;
mod decimal;
mod digits;

pub use decimal::LONGEST_WORD;
use std::alloc::Global;
use std::marker::Model;
use wic_base::OutOfMemory;

/// A text whose growth can be refused: each call that may allocate returns `OutOfMemory` if that fails.
///
/// A contract sees the UTF-8 bytes of the text, `bytes`, and its `capacity`: how many bytes fit without an
/// allocation.
#[derive(Drop)]
pub struct TryString {
    inner: String,
    // What `capacity` returns. The text inside has room for at least as many bytes.
    capacity: usize,
}

impl Model for TryString {
    ghost use Rattle.std.specs.Prelude.{◌≤◌, string_bytes, string_len};
    ghost use Rattle.std.specs.String.{string_capacity};
    ghost use Rattle.wic_vec.specs.TryString.{TryString as Text, try_string_code};

    ghost Value = { Text };

    ghost coded = { try_string_code };

    ghost view = { λ s. record { bytes = string_bytes s.inner; capacity = s.capacity } };

    ghost invariant = { λ s. (string_len s.inner ≤ s.capacity) × (s.capacity ≤ string_capacity s.inner) };
}

impl TryString {
    /// The empty text, of capacity 0. It doesn't allocate.
    pub fn new(alloc: Global) -> TryString
        ensures empty { result.bytes ≡ [] }
        ensures capacity { result.capacity ≡ 0 }
    {
        TryString {
            inner: String::new(alloc),
            capacity: 0,
        }
    }

    /// The empty text with room for exactly `capacity` bytes. A capacity of 0 is never refused.
    pub fn with_capacity(alloc: Global, capacity: usize) -> Result<TryString, OutOfMemory>
        ensures empty { IfOk result (λ s. s.bytes ≡ []) }
        ensures capacity { IfOk result (λ s. s.capacity ≡ capacity) }
        ensures zero_never_refused { capacity ≡ 0 → IsOk result }
    {
        match String::with_capacity(alloc, capacity) {
            Ok(inner) => Ok(TryString { inner, capacity }),
            Err(_) => Err(OutOfMemory::new(capacity)),
        }
    }

    /// A new text with the characters of `s`, and room for no more. It allocates once.
    pub fn try_from_str(alloc: Global, s: &str) -> Result<TryString, OutOfMemory>
        ensures text { IfOk result (λ text. text.bytes ≡ s.now) }
        ensures capacity { IfOk result (λ text. text.capacity ≡ length s.now) }
    {
        let mut text = TryString::with_capacity(alloc, s.len())?;
        text.push_str(s)?;
        Ok(text)
    }

    /// The same text, in the memory of `s`: it keeps the room of the `String`.
    pub fn from_string(s: String) -> TryString
        ensures text { result.bytes ≡ string_bytes s }
        ensures capacity { result.capacity ≡ string_capacity s }
        ensures within { length result.bytes ≤ result.capacity }
    {
        let capacity = s.capacity();
        TryString { inner: s, capacity }
    }

    /// The same text as a `String`, in the memory of this one.
    pub fn into_string(self) -> String
        ensures text { string_bytes result ≡ self.bytes }
        ensures capacity { self.capacity ≤ string_capacity result }
    {
        let TryString { inner, capacity: _ } = self;
        inner
    }

    /// Makes room for `additional` more bytes, and mostly for further ones, so that many small growths cost little. The
    /// text stays. If the capacity is enough, nothing changes. It is refused only if it is too small, and then the value
    /// is as before.
    pub fn reserve(&mut self, additional: usize) -> Result<(), OutOfMemory>
        ensures same_text { self.new.bytes ≡ self.old.bytes }
        ensures reserves { Reserves self.old self.new additional result }
    {
        if self.has_room_for(additional) {
            return Ok(());
        }
        if self.inner.reserve(additional).is_err() {
            return Err(OutOfMemory::new(self.inner.len().saturating_add(additional)));
        }
        self.capacity = self.inner.capacity();
        Ok(())
    }

    /// Makes room as `reserve` does, and no more than that: if the capacity was too small, it is then the length and
    /// `additional`. It is refused when `reserve` is.
    pub fn reserve_exact(&mut self, additional: usize) -> Result<(), OutOfMemory>
        ensures same_text { self.new.bytes ≡ self.old.bytes }
        ensures reserves { Reserves self.old self.new additional result }
        ensures exact { OnOk result
            (self.new.capacity ≡ max self.old.capacity (length self.old.bytes + additional)) }
    {
        if self.has_room_for(additional) {
            return Ok(());
        }
        let len = self.inner.len();
        if self.inner.reserve_exact(additional).is_err() {
            return Err(OutOfMemory::new(len.saturating_add(additional)));
        }
        self.capacity = len + additional;
        Ok(())
    }

    // Whether so many more bytes fit without an allocation.
    fn has_room_for(&self, additional: usize) -> bool
        ensures room { IsTrue result ↔ (length self.now.bytes + additional ≤ self.now.capacity) }
    {
        additional <= self.capacity - self.inner.len()
    }

    /// Gives back the memory beyond the text, and lowers the capacity to the length. It is never refused: if the
    /// allocator has no smaller block, the text stays in the one it has.
    pub fn shrink_to_fit(&mut self) -> Result<(), OutOfMemory>
        ensures same_text { self.new.bytes ≡ self.old.bytes }
        ensures capacity { self.new.capacity ≡ length self.new.bytes }
        ensures never_refused { IsOk result }
    {
        self.inner.shrink_to_fit();
        self.capacity = self.inner.len();
        Ok(())
    }

    /// Puts the character `c` at the end. It is refused only if the capacity is below the new length: then the text
    /// is as before. Within the capacity it is never refused and the capacity stays.
    pub fn push(&mut self, c: char) -> Result<(), OutOfMemory>
        ensures { Appends self.old self.new (encode_utf8 c) result }
    {
        self.reserve(c.len_utf8())?;
        self.inner.push(c).unwrap();
        Ok(())
    }

    /// Puts the text `s` at the end. It is refused only if the capacity is below the new length: then the text is
    /// as before. Within the capacity it is never refused and the capacity stays.
    pub fn push_str(&mut self, s: &str) -> Result<(), OutOfMemory>
        ensures { Appends self.old self.new s.now result }
    {
        self.reserve(s.len())?;
        self.inner.push_str(s).unwrap();
        Ok(())
    }

    /// The number of bytes that fit without an allocation, those of the text among them. The text inside may have more
    /// room.
    pub fn capacity(&self) -> usize
        ensures capacity { result ≡ self.now.capacity }
        ensures holds_all { length self.now.bytes ≤ result }
    {
        self.capacity
    }

    /// The number of bytes of the text.
    pub fn len(&self) -> usize
        ensures length { result ≡ length self.now.bytes }
        ensures within { result ≤ self.now.capacity }
    {
        self.inner.len()
    }

    /// Whether the text is empty.
    pub fn is_empty(&self) -> bool
        ensures empty { result ≡ (length self.now.bytes == 0) }
    {
        self.inner.is_empty()
    }

    /// The text in place.
    pub fn as_str(&self) -> &str
        ensures text { result.now ≡ self.now.bytes }
    {
        self.inner.as_str()
    }
}

#[cfg(test)]
mod tests;
