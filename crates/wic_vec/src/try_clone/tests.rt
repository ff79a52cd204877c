ghost use Rattle.std.specs.Prelude.{⊤, ◌≡◌, IsOk, IfOk};

use super::*;
use crate::try_new;
use std::cell::Cell;
use std::test::Fail;

// What a bound tells its user: the content is the same, and numbers are never refused.
fn copy_of<T: TryClone>(alloc: Global, value: &T) -> Result<T, OutOfMemory>
    ensures same { IfOk result (T.same value.now) }
    ensures never_refused { T.never_refused value.now → IsOk result }
{
    value.try_clone(alloc)
}

fn copy_of_pair(alloc: Global, pair: &(u8, bool)) -> Result<(u8, bool), OutOfMemory>
    ensures same { IfOk result (λ copy. copy ≡ pair.now) }
    ensures never_refused { IsOk result }
{
    copy_of(alloc, pair)
}

#[test]
fn copies_are_the_same(rt: HostRuntime) -> Result<(), Fail> {
    let alloc = rt.alloc();
    assert_eq!(rt; copy_of(alloc, &Some((1u8, true)))?, Some((1, true)));
    assert_eq!(rt; copy_of(alloc, &None::<u8>)?, None);
    assert_eq!(rt; copy_of(alloc, &Ok::<u8, u32>(3))?, Ok(3));
    assert_eq!(rt; copy_of(alloc, &Err::<u8, u32>(5))?, Err(5));
    assert_eq!(rt; copy_of_pair(alloc, &(7, false))?, (7, false));
    let boxed = try_new::<Box<u32>>(alloc, 4)?;
    assert_eq!(rt; *copy_of(alloc, &boxed)?, 4);
    let seven = 7;
    let (a, b, c, d, e, f) = copy_of(alloc, &(1u16, 2u64, -3i8, 'x', &seven, (4usize,)))?;
    assert_eq!(rt; (a, b, c, d, *e, f.0), (1, 2, -3, 'x', 7, 4));
    Ok(())
}

#[test]
fn a_list_of_texts_has_an_equal_copy(rt: HostRuntime) -> Result<(), Fail> {
    let alloc = rt.alloc();
    let mut texts = TryVec::new(alloc);
    for text in ["a", "b"] {
        texts.push(TryString::try_from_str(alloc, text)?)?;
    }
    let copies = copy_of(alloc, &texts)?;
    assert!(rt; copies == texts);
    let text = format!(in alloc; "{copies:?}")?;
    assert_eq!(rt; text.as_str(), "[\"a\", \"b\"]");
    Ok(())
}

// A value that counts how often it was copied.
#[derive(Drop)]
struct Counted<'a> {
    copies: &'a Cell<u32>,
}

impl<'a> TryClone for Counted<'a> {
    ghost same = { λ _ _. ⊤ };

    fn try_clone(&self, _alloc: Global) -> Result<Self, OutOfMemory> {
        self.copies.set(self.copies.get().wrapping_add(1));
        Ok(Counted {
            copies: self.copies,
        })
    }
}

#[test]
fn each_part_is_copied_once(rt: HostRuntime) -> Result<(), Fail> {
    let alloc = rt.alloc();
    let cell = Cell::new(0);
    let one = || Counted { copies: &cell };
    copy_of(alloc, &Some(one()))?;
    assert_eq!(rt; cell.replace(0), 1, "an option");
    let _copy = copy_of(alloc, &Ok::<Counted<'_>, u8>(one()))?;
    assert_eq!(rt; cell.replace(0), 1, "an Ok");
    let _copy = copy_of(alloc, &Err::<u8, Counted<'_>>(one()))?;
    assert_eq!(rt; cell.replace(0), 1, "an Err");
    copy_of(alloc, &try_new::<Box<Counted<'_>>>(alloc, one())?)?;
    assert_eq!(rt; cell.replace(0), 1, "a box");
    copy_of(alloc, &(one(), one(), one(), one(), one(), one()))?;
    assert_eq!(rt; cell.replace(0), 6, "a tuple");
    let three = TryVec::from_elem(alloc, one(), 3)?;
    assert_eq!(rt; cell.replace(0), 2, "a vector of one value");
    copy_of(alloc, &three)?;
    assert_eq!(rt; cell.replace(0), 3, "a vector");
    Ok(())
}
