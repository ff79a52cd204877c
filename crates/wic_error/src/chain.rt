//! The items of an error, one by one.
ghost use Rattle.std.specs.Prelude.{◌≡◌, ◌++◌, OnOk};
ghost use Rattle.std.specs.Iterator.{YieldsFirstBy, item_count};
ghost use Rattle.wic_base.specs.OutOfMemory.{text_of};
ghost use Rattle.wic_error.specs.Error.{items_of, item_text, EndsIn};
ghost use Rattle.wic_error.specs.Chain.{item_of};

use crate::error::Error;
use crate::kind::Kind;
use crate::repr::Repr;
use std::fmt;
use std::iter::FusedIterator;
use std::marker::Model;
use wic_base::{OutOfMemory, TEXT_BEFORE_SIZE, TEXT_BEHIND_SIZE};
use wic_vec::TryString;

/// An item of an error's chain. It stands for the `&dyn Error` that a chain gives in Rust.
#[derive(Drop)]
pub enum ChainItem<'a, K> {
    /// A link, to be read.
    Link(&'a K),
    /// The out of memory that the error is.
    Oom(OutOfMemory),
}

impl<'a, K: Kind> ChainItem<'a, K> {
    /// Puts the text of this item at the end of `out`: that of the link, or the Display text of out of memory. If it is
    /// refused, a prefix of it may stand there.
    pub fn push_text(&self, out: &mut TryString) -> Result<(), OutOfMemory>
        ensures whole { OnOk result
            (out.new.bytes ≡ out.old.bytes ++ item_text K.text (item_of self.now)) }
    {
        match self {
            ChainItem::Link(link) => link.push_text(out),
            ChainItem::Oom(oom) => push_oom_text(*oom, out),
        }
    }
}

/// Prints the item itself: what the link prints, or the text of out of memory.
impl<'a, K: fmt::Display> fmt::Display for ChainItem<'a, K> {
    ghost use Rattle.wic_error.specs.Chain.{item_output};

    ghost output = { item_output K.output };

    fn fmt<W: fmt::Write>(&self, f: &mut fmt::Formatter<W>) -> fmt::Result {
        match self {
            ChainItem::Link(link) => link.fmt(f),
            ChainItem::Oom(oom) => oom.fmt(f),
        }
    }
}

/// Puts the Display text of out of memory at the end of `out`.
fn push_oom_text(oom: OutOfMemory, out: &mut TryString) -> Result<(), OutOfMemory>
    ensures whole { OnOk result (out.new.bytes ≡ out.old.bytes ++ text_of oom) }
{
    out.push_str(TEXT_BEFORE_SIZE)?;
    out.push_decimal(oom.requested_allocation_size() as u64)?;
    out.push_str(TEXT_BEHIND_SIZE)
}

/// Gives the links of an error, the newest first, or the one out of memory, and then `None` for good. A contract sees
/// the items that are still to come.
#[derive(Drop)]
pub struct Chain<'a, K> {
    // The links that are still to come, the root first.
    links: &'a [K],
    oom: Option<OutOfMemory>,
}

impl<'a, K> Model for Chain<'a, K> {
    ghost use Rattle.std.specs.Prelude.{List, ◌++◌, map, reverse};
    ghost use Rattle.std.specs.Coded.{coded_list};
    ghost use Rattle.wic_error.specs.Error.{Item, link, want_of};
    ghost use Rattle.wic_error.specs.Code.{item_code};

    ghost Value = { List (Item K) };

    ghost coded = { coded_list (item_code K.code) };

    ghost view = { λ it. map link (reverse it.links.now) ++ want_of it.oom };
}

impl<K> Error<K> {
    /// The items of this error: its links, the newest first and the root last, or the one out of memory.
    pub fn chain(&self) -> Chain<'_, K>
        ensures items { result ≡ items_of self.now }
    {
        Chain {
            links: self.repr.links(),
            oom: self.repr.oom(),
        }
    }

    /// The last item of `chain`: the root, or the out of memory that this error is.
    pub fn root_cause(&self) -> ChainItem<'_, K>
        ensures last { EndsIn (items_of self.now) (item_of result) }
    {
        match &self.repr {
            Repr::Oom(oom) => ChainItem::Oom(*oom),
            Repr::Links(links) => ChainItem::Link(&links[0]),
        }
    }
}

impl<'a, K> Iterator for Chain<'a, K> {
    type Item = ChainItem<'a, K>;

    ghost next_gives = { YieldsFirstBy item_of (λ items. items) };

    ghost remaining = { item_count (λ items. items) };

    fn next(&mut self) -> Option<ChainItem<'a, K>> {
        if let Some((newest, older)) = self.links.split_last() {
            self.links = older;
            return Some(ChainItem::Link(newest));
        }
        Some(ChainItem::Oom(self.oom.take()?))
    }
}

impl<'a, K> FusedIterator for Chain<'a, K> {}
