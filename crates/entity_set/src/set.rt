//! The set of keys.
ghost use Rattle.std.specs.Prelude.{◌≡◌, ℕ, ◌*◌, ◌<◌, ◌≤◌, ◌↔◌, length, not, true, false, All};
ghost use Rattle.std.specs.Prelude.{IsTrue, IsOk, IsNone, IfOk, IfSome, IfNone, OnOk};
ghost use Rattle.std.specs.List.Sorted.{IsStrictlyIncreasing};
ghost use Rattle.std.specs.FinSet as fin_set;
ghost use Rattle.wic_base.specs.Sets.{AllBelow, HasFrom, HasMore};
ghost use Rattle.wic_bitset.specs.Growth.{count_for};
ghost use Rattle.wic_bitset.specs.Rising.{rising};
ghost use Rattle.wic_bitset.specs.Room.{MakesRoomFor};
ghost use Rattle.entity_set.specs.Entities.{MayGrow, TakesOut};
ghost use Rattle.wic_bitset.specs.Compound.{max_capacity, max_number};

use crate::entity::EntityRef;
use crate::keys::Keys;
use std::alloc::Global;
use std::marker::{Model, PhantomData};
use wic_base::OutOfMemory;
use wic_bitset::CompoundBitSet;

/// A set of keys.
///
/// A contract sees the numbers of its keys, its `members`, a finite set of numbers below the limit of `K`, and its
/// `capacity`: a key whose number is below it needs no allocation. After Cranelift's `EntitySet`.
#[derive(Drop)]
pub struct EntitySet<K: EntityRef> {
    pub(crate) bits: CompoundBitSet,
    keys: PhantomData<K>,
}

impl<K: EntityRef> Model for EntitySet<K> {
    ghost use Rattle.wic_base.specs.Sets.{AllBelow};
    ghost use Rattle.wic_bitset.specs.Compound.{capacity_of};
    ghost use Rattle.entity_set.specs.Entities.{Entities, entities_code};

    ghost Value = { Entities };

    ghost coded = { entities_code };

    ghost view = { λ s. record { members = s.bits.members; capacity = capacity_of 64 s.bits } };

    ghost invariant = { λ s. AllBelow K.limit s.bits.members };
}

impl<K: EntityRef> EntitySet<K> {
    /// The empty set, of capacity 0. It allocates nothing.
    pub fn new(alloc: Global) -> EntitySet<K>
        ensures members { result.members ≡ fin_set.empty }
        ensures capacity { result.capacity ≡ 0 }
    {
        EntitySet {
            bits: CompoundBitSet::new(alloc),
            keys: PhantomData,
        }
    }

    /// The empty set with room for the keys whose numbers are below `n`, at most `MAX_CAPACITY` of wic_bitset: as many words of 64
    /// numbers as the rule of growth gives. An `n` of 0 is never refused.
    pub fn with_capacity(alloc: Global, n: usize) -> Result<EntitySet<K>, OutOfMemory>
        requires within { n ≤ max_capacity }
        ensures members { IfOk result (λ set. set.members ≡ fin_set.empty) }
        ensures capacity { IfOk result (λ set. n ≤ set.capacity) }
        ensures grown { IfOk result (λ set. set.capacity ≡ count_for 64 0 n * 64) }
        ensures zero_never_refused { n ≡ 0 → IsOk result }
    {
        let bits = CompoundBitSet::with_capacity(alloc, n)?;
        Ok(EntitySet {
            bits,
            keys: PhantomData,
        })
    }

    /// Makes room for the keys whose numbers are below `n`, at most `MAX_CAPACITY` of wic_bitset. It is refused only if `n` is
    /// above the capacity, and then the set is as before.
    pub fn ensure_capacity(&mut self, n: usize) -> Result<(), OutOfMemory>
        requires within { n ≤ max_capacity }
        ensures room { MakesRoomFor (λ s. s.members) (λ s. s.capacity) n self.old self.new result }
    {
        self.bits.ensure_capacity(n)
    }

    /// The capacity: an `insert` of a key whose number is below it is never refused. The number of each key is below it.
    pub fn capacity(&self) -> usize
        ensures capacity { result ≡ self.now.capacity }
        ensures holds_all { AllBelow self.now.capacity self.now.members }
        ensures below_limit { AllBelow K.limit self.now.members }
        ensures numbers { (i : ℕ) → fin_set.contains self.now.members i ≡ true → i ≤ max_number }
    {
        self.bits.capacity()
    }

    /// The number of keys. It reads what a walk reads, and counts each word that has a key by one instruction.
    pub fn len(&self) -> usize
        ensures len { result ≡ fin_set.len self.now.members }
        ensures few { result ≤ max_capacity }
    {
        self.bits.len()
    }

    /// Whether there is no key.
    pub fn is_empty(&self) -> bool
        ensures empty { IsTrue result ↔ (self.now.members ≡ fin_set.empty) }
    {
        self.bits.is_empty()
    }

    /// Puts `k` in, and returns whether it is new. It is refused only if its number is at the capacity or above, and then the
    /// set is as before.
    pub fn insert(&mut self, k: K) -> Result<bool, OutOfMemory>
        ensures new { IfOk result (λ is_new.
            is_new ≡ not (fin_set.contains self.old.members (K.number k))) }
        ensures members { OnOk result
            (self.new.members ≡ fin_set.insert self.old.members (K.number k)) }
        ensures room { MayGrow (K.number k < self.old.capacity) (self.old.capacity ≤ K.number k)
            self.old self.new result }
    {
        let number = index_of(k);
        self.bits.insert(number)
    }

    /// Takes `k` out, and returns whether it was there. It takes a few steps, however far apart the keys are.
    pub fn remove(&mut self, k: K) -> bool
        ensures present { result ≡ fin_set.contains self.old.members (K.number k) }
        ensures members { self.new.members ≡ fin_set.remove self.old.members (K.number k) }
        ensures capacity_stays { self.new.capacity ≡ self.old.capacity }
        ensures below { IsTrue result → K.number k < self.old.capacity }
        ensures number { IsTrue result → K.number k ≤ max_number }
    {
        self.bits.remove(k.index())
    }

    /// Whether `k` is there.
    pub fn contains(&self, k: K) -> bool
        ensures member { result ≡ fin_set.contains self.now.members (K.number k) }
        ensures below { IsTrue result → K.number k < self.now.capacity }
        ensures number { IsTrue result → K.number k ≤ max_number }
    {
        self.bits.contains(k.index())
    }

    /// Takes the key with the greatest number out and returns it, or `None` if there is no key. It costs what `remove` does.
    pub fn pop(&mut self) -> Option<K>
        ensures none { IsNone result ↔ (self.old.members ≡ fin_set.empty) }
        ensures none_leaves { IfNone result (self.new ≡ self.old) }
        ensures member { IfSome result (λ k.
            fin_set.contains self.old.members (K.number k) ≡ true) }
        ensures greatest { IfSome result (λ k. (i : ℕ)
            → fin_set.contains self.old.members i ≡ true → i ≤ K.number k) }
        ensures members { IfSome result (λ k.
            self.new.members ≡ fin_set.remove self.old.members (K.number k)) }
        ensures capacity_stays { self.new.capacity ≡ self.old.capacity }
        ensures below { IfSome result (λ k. K.number k < self.old.capacity) }
        ensures number { IfSome result (λ k. K.number k ≤ max_number) }
    {
        let number = self.bits.pop()?;
        Some(K::new(number))
    }

    /// Takes every key out. The capacity stays. An empty set is left at once; else each word that has a key is written once.
    pub fn clear(&mut self)
        ensures members { self.new.members ≡ fin_set.empty }
        ensures capacity_stays { self.new.capacity ≡ self.old.capacity }
    {
        self.bits.clear();
    }

    /// The keys, each once, by ascending number. A walk reads each word that has a key once, and takes a few steps to the next.
    pub fn keys(&self) -> Keys<'_, K>
        ensures members { result ≡ rising self.now.members }
        ensures each { fin_set.from_list result ≡ self.now.members }
        ensures once { IsStrictlyIncreasing result }
        ensures few { length result ≤ max_capacity }
        ensures below { All (λ i. i < self.now.capacity) result }
        ensures numbers { All (λ i. i ≤ max_number) result }
    {
        Keys::new(self.bits.iter())
    }

    /// A copy with the same keys and the same capacity. It copies the words, and a refusal leaves nothing.
    pub fn try_clone(&self, alloc: Global) -> Result<EntitySet<K>, OutOfMemory>
        ensures same { IfOk result (λ copy. copy ≡ self.now) }
    {
        let bits = self.bits.try_clone(alloc)?;
        Ok(EntitySet {
            bits,
            keys: PhantomData,
        })
    }

    /// Puts the keys of `other` in, and returns whether one of them is new. It is refused only if the number of a key of `other`
    /// is at the capacity or above, and then the set is as before. It visits each word of `other` that has a key.
    pub fn union_with(&mut self, other: &EntitySet<K>) -> Result<bool, OutOfMemory>
        ensures members { OnOk result
            (self.new.members ≡ fin_set.union self.old.members other.now.members) }
        ensures added { IfOk result (λ added.
            IsTrue added ↔ HasMore self.old.members self.new.members) }
        ensures as_before { IfOk result (λ added.
            (added ≡ false) ↔ (self.new.members ≡ self.old.members)) }
        ensures room { MayGrow (AllBelow self.old.capacity other.now.members)
            (HasFrom self.old.capacity other.now.members) self.old self.new result }
    {
        self.bits.union_with(&other.bits)
    }

    /// Takes the keys out that `other` hasn't, and returns whether there was one. It visits each word here that has a key.
    pub fn intersect_with(&mut self, other: &EntitySet<K>) -> bool
        ensures members { self.new.members
            ≡ fin_set.intersection self.old.members other.now.members }
        ensures takes_out { TakesOut self.old self.new result }
    {
        self.bits.intersect_with(&other.bits)
    }

    /// Takes the keys out that `other` has, and returns whether there was one. It visits each word here that has a key.
    pub fn subtract(&mut self, other: &EntitySet<K>) -> bool
        ensures members { self.new.members ≡ fin_set.difference self.old.members other.now.members }
        ensures takes_out { TakesOut self.old self.new result }
    {
        self.bits.subtract(&other.bits)
    }

    /// Whether `other` has all keys. It visits each word here that has a key, up to that of the first key that `other` lacks.
    pub fn is_subset(&self, other: &EntitySet<K>) -> bool
        ensures { result ≡ fin_set.is_subset self.now.members other.now.members }
    {
        self.bits.is_subset(&other.bits)
    }

    /// Whether the two have no key in common. It visits each word here that has a key, up to that of the first key that both have.
    pub fn is_disjoint(&self, other: &EntitySet<K>) -> bool
        ensures { IsTrue result
            ↔ (fin_set.intersection self.now.members other.now.members ≡ fin_set.empty) }
    {
        self.bits.is_disjoint(&other.bits)
    }
}

// The number of a key, which is at most the greatest that a set can hold.
fn index_of<K: EntityRef>(k: K) -> usize
    ensures value { result ≡ K.number k }
    ensures below { result < K.limit }
    ensures at_most { result ≤ max_number }
{
    // For the proof: the number is below the limit, which is at most `MAX_CAPACITY`.
    let limit = K::limit();
    let number = k.index();
    prove!(number < limit);
    number
}

/// The keys, each once, by ascending number.
impl<'a, K: EntityRef> IntoIterator for &'a EntitySet<K> {
    type Item = K;

    type IntoIter = Keys<'a, K>;

    ghost into_iter_gives = { λ s it. it ≡ rising s.now.members };

    fn into_iter(self) -> Keys<'a, K> {
        self.keys()
    }
}
