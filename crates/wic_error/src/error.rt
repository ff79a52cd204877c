//! Errors as chains of links, which give way to out of memory.
ghost use Rattle.std.specs.Prelude.{◌≡◌, ◌⊎◌, [], ◌∷◌, Some, None, IsTrue, IfOk, IfErr, OnErr, is_some};
ghost use Rattle.std.specs.Option.{option_copied, option_copied_mut};
ghost use Rattle.std.specs.Borrow.{sem};
ghost use Rattle.wic_error.specs.Error.{out_of_memory, links, is_oom, links_of, first_with};

use crate::kind::Kind;
use crate::repr::{Repr, newest_with, take_at};
use std::alloc::Global;
use std::marker::Model;
use wic_base::OutOfMemory;
use wic_vec::TryVec;

/// An error: out of memory, or links that say what went wrong, the newest context first and the root last.
///
/// A contract sees just that: `out_of_memory` with the size that was asked for, or `links` with the newest link and the
/// older ones. In the Rust crate a link is any error type; here all links of an error have one type.
#[derive(Drop)]
pub struct Error<K> {
    pub(crate) repr: Repr<K>,
}

impl<K> Model for Error<K> {
    ghost use Rattle.wic_error.specs.Error.{Error as Chain};
    ghost use Rattle.wic_error.specs.Code.{error_code};

    ghost Value = { Chain K };

    ghost coded = { error_code K.code };

    ghost use Rattle.wic_error.specs.Kept.{seen, IsLinked};

    ghost view = { λ e. seen e.repr };

    ghost invariant = { λ e. IsLinked e.repr };
}

impl<K: Drop> Error<K> {
    /// The error of this one link, or out of memory if there is none for the link.
    pub fn new(alloc: Global, error: K) -> Error<K>
        ensures link { (result ≡ links error []) ⊎ IsTrue (is_oom result) }
    {
        match first_link(alloc, error) {
            Ok(links) => Error {
                repr: Repr::Links(links),
            },
            Err(oom) => Error::from_oom(oom),
        }
    }

    /// The same as `new`.
    pub fn msg(alloc: Global, message: K) -> Error<K>
        ensures link { (result ≡ links message []) ⊎ IsTrue (is_oom result) }
    {
        Error::new(alloc, message)
    }

    /// Puts a context in front of the links. Out of memory stays that same error. If there is no memory for the context,
    /// the result is out of memory, and the links are dropped.
    pub fn context(self, _alloc: Global, context: K) -> Error<K>
        ensures oom_stays { IsTrue (is_oom self) → result ≡ self }
        ensures in_front { (result ≡ links context (links_of self)) ⊎ IsTrue (is_oom result) }
    {
        let Error { repr } = self;
        match repr {
            Repr::Oom(oom) => Error::from_oom(oom),
            Repr::Links(mut links) => match links.push(context) {
                Ok(()) => Error {
                    repr: Repr::Links(links),
                },
                Err(oom) => Error::from_oom(oom),
            },
        }
    }
}

/// A list of this one link.
fn first_link<K: Drop>(alloc: Global, link: K) -> Result<TryVec<K>, OutOfMemory>
    ensures items { IfOk result (λ links. links.items ≡ link ∷ []) }
{
    let mut links = TryVec::new(alloc);
    links.push(link)?;
    Ok(links)
}

impl<K> Error<K> {
    /// Out of memory, of this size. It doesn't allocate. In Rust it is made by `From`, and by `Error::new` of an
    /// `OutOfMemory`.
    pub fn from_oom(oom: OutOfMemory) -> Error<K>
        ensures wanted { result ≡ out_of_memory oom }
    {
        Error {
            repr: Repr::Oom(oom),
        }
    }

    /// Whether this is out of memory. It stands for `Error::is::<OutOfMemory>`.
    pub fn is_oom(&self) -> bool
        ensures answers { result ≡ is_oom self.now }
    {
        match &self.repr {
            Repr::Oom(_) => true,
            Repr::Links(_) => false,
        }
    }
}

/// Out of memory, as `from_oom`.
impl<K> From<OutOfMemory> for Error<K> {
    ghost use Rattle.std.specs.Prelude.{◌≡◌};
    ghost use Rattle.wic_error.specs.Error.{out_of_memory};

    ghost from_gives = { λ oom error. error ≡ out_of_memory oom };

    fn from(oom: OutOfMemory) -> Error<K> {
        Error::from_oom(oom)
    }
}

impl<K: Kind> Error<K> {
    ghost use Rattle.wic_error.specs.Lends.{lends_first};

    /// Whether a link has this number. Out of memory has no link. In Rust a link is found by its type.
    pub fn is(&self, number: u32) -> bool
        ensures answers { result ≡ is_some (first_with K.number number self.now) }
    {
        newest_with(self.repr.links(), number).is_some()
    }

    /// The first link with this number, the newest first, in place; or `None` if no link has it.
    pub fn downcast_ref(&self, number: u32) -> Option<&K>
        ensures first { option_copied result ≡ first_with K.number number self.now }
    {
        let place = newest_with(self.repr.links(), number)?;
        self.repr.link(place)
    }

    /// The first link with this number, the newest first, to be read and written; or `None` if no link has it. Writes
    /// through it change that link; the other links stay.
    pub fn downcast_mut(&mut self, number: u32) -> Option<&mut K>
        ensures* writes_back { sem 𝓛 (lends_first K.row K.number self.entry number result) }
        ensures first { option_copied_mut result ≡ first_with K.number number self.old }
    {
        let place = newest_with(self.repr.links(), number)?;
        self.repr.link_mut(place)
    }
}

impl<K: Kind + Drop> Error<K> {
    /// The first link with this number, the newest first, and the other links are dropped; or the same error if no link
    /// has it. It doesn't allocate.
    pub fn downcast(self, number: u32) -> Result<K, Error<K>>
        ensures found { IfOk result (λ link. first_with K.number number self ≡ Some link) }
        ensures same { IfErr result (λ error. error ≡ self) }
        ensures none { OnErr result (first_with K.number number self ≡ None) }
    {
        let Some(place) = newest_with(self.repr.links(), number) else {
            return Err(self);
        };
        let Error { repr } = self;
        match repr {
            Repr::Links(links) => Ok(take_at(links, place)),
            Repr::Oom(_) => unreachable!(),
        }
    }
}
