//! How an error lies in memory.
ghost use Rattle.std.specs.Prelude.{◌≡◌, ◌<◌, ◌==◌, [], length, reverse, slice_get, find, Some, None, MatchOption};
ghost use Rattle.std.specs.Option.{option_copied, option_copied_mut};
ghost use Rattle.std.specs.Borrow.{sem};
ghost use Rattle.wic_error.specs.Repr.{IsNewestWith};

use crate::kind::Kind;
use wic_base::OutOfMemory;
use wic_vec::TryVec;

/// Out of memory, or the links.
#[derive(Drop)]
pub(crate) enum Repr<K> {
    Oom(OutOfMemory),
    // The root first and the newest context last, so that a context is pushed. There is one at least.
    Links(TryVec<K>),
}

impl<K> Repr<K> {
    ghost use Rattle.wic_error.specs.Kept.{kept_of, oom_of};
    ghost use Rattle.wic_error.specs.Lends.{lends_kept};

    /// The links, the root first.
    pub(crate) fn links(&self) -> &[K]
        ensures kept { result.now ≡ kept_of self.now }
    {
        match self {
            Repr::Oom(_) => &[],
            Repr::Links(links) => links.as_slice(),
        }
    }

    /// The out of memory, if it is one.
    pub(crate) fn oom(&self) -> Option<OutOfMemory>
        ensures wanted { result ≡ oom_of self.now }
    {
        match self {
            Repr::Oom(oom) => Some(*oom),
            Repr::Links(_) => None,
        }
    }

    /// The link at a place.
    pub(crate) fn link(&self, place: usize) -> Option<&K>
        ensures item { option_copied result ≡ slice_get (kept_of self.now) place }
    {
        match self {
            Repr::Oom(_) => None,
            Repr::Links(links) => links.get(place),
        }
    }

    /// The link at a place, to be read and written.
    pub(crate) fn link_mut(&mut self, place: usize) -> Option<&mut K>
        ensures* writes_back { sem 𝓛 (lends_kept K.row self.entry place result) }
        ensures item { option_copied_mut result ≡ slice_get (kept_of self.old) place }
    {
        match self {
            Repr::Oom(_) => None,
            Repr::Links(links) => links.get_mut(place),
        }
    }
}

/// The place of the newest of these links that has the number. The oldest lies first.
pub(crate) fn newest_with<K: Kind>(links: &[K], number: u32) -> Option<usize>
    ensures newest { MatchOption result
        (find (λ k. K.number k == number) (reverse links.now) ≡ None)
        (IsNewestWith (λ k. K.number k == number) links.now) }
{
    let mut rest = links;
    while let Some((link, older)) = rest.split_last() {
        if link.number() == number {
            return Some(older.len());
        }
        rest = older;
    }
    None
}

/// Takes one of these links out, and drops the others.
pub(crate) fn take_at<K: Drop>(mut links: TryVec<K>, place: usize) -> K
    requires { place < length links.items }
    ensures item { slice_get links.items place ≡ Some result }
{
    links.truncate(place + 1);
    links.pop().unwrap()
}
