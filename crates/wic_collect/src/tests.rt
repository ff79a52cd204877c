use crate::callers::Refusal;
use crate::*;
use std::alloc::Global;
use std::cmp::Ordering;
use std::hash::{DefaultHasher, Hash, Hasher};
use std::test::Fail;
use wic_base::OutOfMemory;
use wic_vec::{TryClone, TryString, TryVec};

fn list(alloc: Global, numbers: &[u32]) -> Result<TryVec<u32>, OutOfMemory> {
    let mut v = TryVec::new(alloc);
    v.try_extend(numbers.iter().copied())?;
    Ok(v)
}

fn hash_of<T: Hash>(value: &T) -> u64 {
    let mut hasher = DefaultHasher::new();
    value.hash(&mut hasher);
    hasher.finish()
}

#[test]
fn vectors_and_texts_become_boxed(rt: HostRuntime) -> Result<(), Fail> {
    let alloc = rt.alloc();
    let mut one = TryVec::with_capacity(alloc, 2)?;
    one.push(1u32)?;
    let boxed = into_boxed_slice(one)?;
    assert_eq!(rt; boxed.as_slice(), [1].as_slice());
    assert_eq!(rt;
        boxed.try_clone(alloc)?.into_vec().as_slice(),
        [1].as_slice()
    );
    assert_eq!(rt;
        into_boxed_slice(TryVec::<u32>::with_capacity(alloc, 2)?)?.len(),
        0
    );
    let mut units = TryVec::new(alloc);
    units.push(())?;
    assert_eq!(rt; into_boxed_slice(units)?.len(), 1);
    let text = into_boxed_str(str_to_owned(alloc, "ab")?)?;
    assert_eq!(rt; text.as_str(), "ab");
    assert_eq!(rt; text.try_clone(alloc)?.into_string().as_str(), "ab");
    assert_eq!(rt;
        slice_to_owned(alloc, [1, 2].as_slice())?,
        list(alloc, &[1, 2])?
    );
    Ok(())
}

// Numbers, with room for more.
fn roomy(alloc: Global, numbers: &[u32]) -> Result<TryVec<u32>, OutOfMemory> {
    let mut v = TryVec::with_capacity(alloc, 100)?;
    v.extend_from_slice(numbers)?;
    Ok(v)
}

#[test]
fn the_block_of_a_boxed_slice_is_as_large_as_its_items(rt: HostRuntime) -> Result<(), Fail> {
    let alloc = rt.alloc();
    let numbers = [1, 2, 3];
    let mut builder = BoxedSliceBuilder::new(alloc, 3)?;
    for number in numbers {
        assert!(rt; builder.init_len() < builder.capacity());
        builder.push(number);
    }
    assert!(rt; builder.init_len() == builder.capacity());
    let boxed = into_boxed_slice(roomy(alloc, &numbers)?)?;
    let copy = boxed.try_clone(alloc)?;
    let collected: BoxedSlice<u32> = try_collect(alloc, numbers.into_iter())?;
    for slice in [boxed, copy, collected, builder.finish()] {
        assert_eq!(rt; slice.into_vec().into_vec().capacity(), 3);
    }
    let mut text = TryString::with_capacity(alloc, 100)?;
    text.push_str("abc")?;
    let boxed = into_boxed_str(text)?;
    for text in [boxed.try_clone(alloc)?, boxed] {
        assert_eq!(rt; text.into_string().into_string().capacity(), 3);
    }
    Ok(())
}

#[test]
fn a_thousand_small_extensions_take_few_allocations(rt: HostRuntime) -> Result<(), Fail> {
    let mut numbers = TryVec::new(rt.alloc());
    let mut growths = 0u32;
    for _ in 0..1000 {
        let before = numbers.capacity();
        numbers.try_extend(Some(7u32))?;
        if numbers.capacity() != before {
            growths = growths.saturating_add(1);
        }
    }
    assert!(rt; growths <= 12);
    Ok(())
}

#[test]
fn a_builder_is_filled_or_cut(rt: HostRuntime) -> Result<(), Fail> {
    let alloc = rt.alloc();
    let mut builder = BoxedSliceBuilder::new(alloc, 3)?;
    assert_eq!(rt; (builder.init_len(), builder.capacity()), (0, 3));
    builder.push(10u32);
    builder.push(20);
    assert_eq!(rt; (builder.init_len(), builder.capacity()), (2, 3));
    builder.shrink_to_fit()?;
    assert_eq!(rt; (builder.init_len(), builder.capacity()), (2, 2));
    assert_eq!(rt; builder.finish().as_slice(), [10, 20].as_slice());
    assert_eq!(rt; BoxedSliceBuilder::<u32>::new(alloc, 0)?.finish().len(), 0);
    Ok(())
}

#[test]
fn a_stated_length_reads_no_more_items(rt: HostRuntime) -> Result<(), Fail> {
    let alloc = rt.alloc();
    for (len, items, left) in [
        (3, Some([10, 20, 30].as_slice()), None),
        (4, None, None),
        (2, Some([10, 20].as_slice()), Some(30)),
        (0, Some([].as_slice()), Some(10)),
    ] {
        let mut numbers = [10u32, 20, 30].into_iter();
        let builder = BoxedSliceBuilder::new(alloc, len)?;
        let written = boxed_slice_write_iter(builder, &mut numbers);
        assert_eq!(rt;
            written.as_ref().ok().map(|s| s.as_slice()),
            items,
            "a length of {len}"
        );
        assert_eq!(rt; numbers.next(), left, "after a length of {len}");
    }
    Ok(())
}

#[test]
fn a_slice_of_a_stated_length_reads_no_more_items(rt: HostRuntime) -> Result<(), Fail> {
    let alloc = rt.alloc();
    for (len, items, left) in [
        (3, Some([1, 2, 3].as_slice()), None),
        (4, None, None),
        (2, Some([1, 2].as_slice()), Some(3)),
        (0, Some([].as_slice()), Some(1)),
    ] {
        let mut numbers = [1u32, 2, 3].into_iter();
        let made = new_boxed_slice_from_iter_with_len(alloc, len, &mut numbers);
        assert_eq!(rt;
            made.as_ref().ok().map(|s| s.as_slice()),
            items,
            "a length of {len}"
        );
        assert_eq!(rt; numbers.next(), left, "after a length of {len}");
    }
    Ok(())
}

#[test]
fn a_stated_length_is_that_of_the_slice(rt: HostRuntime) -> Result<(), Fail> {
    let alloc = rt.alloc();
    let numbers = [42, 36, 1337];
    let all = new_boxed_slice_from_iter_with_len(alloc, 3, numbers.into_iter());
    assert!(rt; all.is_ok_and(|s| s.as_slice() == [42, 36, 1337].as_slice()));
    let few = new_boxed_slice_from_iter_with_len(alloc, 4, numbers.into_iter());
    assert!(rt; matches!(few, Err(TooFewItemsOrOom::TooFewItems(_))));
    let units = new_boxed_slice_from_iter_with_len(alloc, 2, [(), ()].into_iter());
    assert!(rt; units.is_ok_and(|s| s.len() == 2));
    Ok(())
}

#[test]
fn items_that_are_not_taken_stay_in_the_iterator(rt: HostRuntime) -> Result<(), Fail> {
    let alloc = rt.alloc();
    let two = [1u32, 2].as_slice();
    let mut numbers = [1u32, 2, 3].into_iter();
    let vector: TryVec<u32> = try_collect(alloc, numbers.by_ref().take(2))?;
    assert_eq!(rt; (vector.as_slice(), numbers.next()), (two, Some(3)));
    let mut numbers = [1u32, 2, 3].into_iter();
    let boxed: BoxedSlice<u32> = try_collect(alloc, numbers.by_ref().take(2))?;
    assert_eq!(rt; (boxed.as_slice(), numbers.next()), (two, Some(3)));
    let mut numbers = [1u32, 2, 3].into_iter();
    let boxed = new_boxed_slice_from_iter(alloc, numbers.by_ref().take(2))?;
    assert_eq!(rt; (boxed.as_slice(), numbers.next()), (two, Some(3)));
    let mut numbers = [1u32, 2, 3].into_iter();
    let mut vector = TryVec::new(alloc);
    vector.try_extend(numbers.by_ref().take(2))?;
    assert_eq!(rt; (vector.as_slice(), numbers.next()), (two, Some(3)));
    Ok(())
}

#[test]
fn the_first_error_ends_the_reading(rt: HostRuntime) -> Result<(), Fail> {
    let alloc = rt.alloc();
    let mut items = [Ok(1u32), Err(2u32), Ok(3)].into_iter();
    let made = new_boxed_slice_from_fallible_iter(alloc, &mut items);
    assert!(rt; matches!(made, Err(BoxedSliceFromFallibleIterError::IterError(2))));
    assert_eq!(rt; items.next(), Some(Ok(3)));
    let last = [Ok(10u32), Ok(20), Err(30u32)].into_iter();
    let made = new_boxed_slice_from_fallible_iter(alloc, last);
    assert!(rt; matches!(made, Err(BoxedSliceFromFallibleIterError::IterError(30))));
    let made = new_boxed_slice_from_fallible_iter(
        alloc,
        [Ok::<u32, u32>(10), Ok(20), Ok(30)].into_iter(),
    );
    assert!(rt; made.is_ok_and(|s| s.as_slice() == [10, 20, 30].as_slice()));
    let none = new_boxed_slice_from_fallible_iter::<u32, u32, _>(alloc, None.into_iter());
    assert!(rt; none.is_ok_and(|s| s.len() == 0));
    Ok(())
}

#[test]
fn items_are_collected_in_order(rt: HostRuntime) -> Result<(), Fail> {
    let alloc = rt.alloc();
    let digits = [0, 1, 2, 3, 4, 5, 6, 7, 8, 9].as_slice();
    let vector: TryVec<i32> = try_collect(alloc, 0..10)?;
    assert_eq!(rt; vector.as_slice(), digits);
    let boxed: BoxedSlice<i32> = try_collect(alloc, 0..10)?;
    assert_eq!(rt; boxed.as_slice(), digits);
    assert_eq!(rt;
        new_boxed_slice_from_iter(alloc, [10, 20, 30].into_iter())?.as_slice(),
        [10, 20, 30].as_slice()
    );
    let none = new_boxed_slice_from_iter(alloc, (0..1000000).filter(|_| false))?;
    assert_eq!(rt; none.len(), 0);
    let mut numbers = list(alloc, &[1, 2, 3])?;
    numbers.try_extend(None)?;
    assert_eq!(rt; numbers.as_slice(), [1, 2, 3].as_slice());
    Ok(())
}

#[test]
fn results_are_collected_up_to_the_first_error(rt: HostRuntime) -> Result<(), Fail> {
    let alloc = rt.alloc();
    for (items, values) in [
        ([].as_slice(), Ok([].as_slice())),
        ([Ok(1), Ok(2)].as_slice(), Ok([1, 2].as_slice())),
        ([Ok(1), Err(7)].as_slice(), Err(Refusal::Number(7))),
        ([Err(7), Ok(1)].as_slice(), Err(Refusal::Number(7))),
    ] {
        let results = items
            .iter()
            .map(|item| item.map_err(|n| Refusal::Number(n)));
        let vector: Result<TryVec<i32>, Refusal> = try_collect(alloc, results);
        assert!(rt; vector.as_ref().map(|v| v.as_slice()) == values.as_ref().copied());
        let results = items
            .iter()
            .map(|item| item.map_err(|n| Refusal::Number(n)));
        let boxed: Result<BoxedSlice<i32>, Refusal> = try_collect(alloc, results);
        assert!(rt; boxed.as_ref().map(|s| s.as_slice()) == values.as_ref().copied());
    }
    Ok(())
}

#[test]
fn items_after_the_first_error_stay_in_the_iterator(rt: HostRuntime) -> Result<(), Fail> {
    let alloc = rt.alloc();
    let mut items = [Ok(1u32), Err(Refusal::Number(2)), Ok(3)].into_iter();
    let vector: Result<TryVec<u32>, Refusal> = try_collect(alloc, &mut items);
    assert!(rt; matches!(vector, Err(Refusal::Number(2))));
    assert_eq!(rt; items.next(), Some(Ok(3)));
    let mut items = [Ok(1u32), Err(Refusal::Number(2)), Ok(3)].into_iter();
    let boxed: Result<BoxedSlice<u32>, Refusal> = try_collect(alloc, &mut items);
    assert!(rt; matches!(boxed, Err(Refusal::Number(2))));
    assert_eq!(rt; items.next(), Some(Ok(3)));
    Ok(())
}

#[test]
fn errors_have_their_texts(rt: HostRuntime) -> Result<(), Fail> {
    let alloc = rt.alloc();
    let five = BoxedSliceFromFallibleIterError::IterError(OutOfMemory::new(5));
    let six = BoxedSliceFromFallibleIterError::<OutOfMemory>::from(OutOfMemory::new(6));
    let shown = format!(in alloc; "{five} / {six}")?;
    assert_eq!(rt;
        shown.as_str(),
        "The fallible iterator produced an error / Failed to allocate space for the boxed slice"
    );
    let shown = format!(in alloc; "{TooFewItems}")?;
    assert_eq!(rt;
        shown.as_str(),
        "iterator yielded too few items to fully initialize boxed slice"
    );
    assert_eq!(rt; five.flatten().requested_allocation_size(), 5);
    assert_eq!(rt; six.flatten().requested_allocation_size(), 6);
    let (few, oom) = (
        TooFewItemsOrOom::from(TooFewItems),
        TooFewItemsOrOom::from(OutOfMemory::new(7)),
    );
    let shown = format!(in alloc; "{few} / {oom}")?;
    assert_eq!(rt;
        shown.as_str(),
        "The iterator did not yield enough items to fill the boxed slice / Failed to allocate space for the boxed slice"
    );
    Ok(())
}

#[test]
fn a_closure_makes_a_full_list(rt: HostRuntime) -> Result<(), Fail> {
    let numbers = array_try_from_fn::<_, u8, 5, _>(|i| u8::try_from(i));
    assert!(rt; numbers.is_ok_and(|list| list.as_slice() == [0, 1, 2, 3, 4].as_slice()));
    let mut last = 0;
    let numbers = array_try_from_fn::<_, i8, 200, _>(|i| {
        last = i;
        i8::try_from(i)
    });
    assert!(rt; numbers.is_err());
    assert_eq!(rt; last, 128);
    let doubled = array_try_from_fn::<OutOfMemory, usize, 5, _>(|i| Ok(i.wrapping_mul(2)))?;
    assert_eq!(rt; doubled.as_slice(), [0, 2, 4, 6, 8].as_slice());
    let mut calls = 0u32;
    let refused = array_try_from_fn::<u32, usize, 3, _>(|i| {
        calls = calls.wrapping_add(1);
        if i == 0 { Ok(0) } else { Err(1) }
    });
    assert!(rt; matches!(refused, Err(1)));
    assert_eq!(rt; calls, 2);
    let alloc = rt.alloc();
    let texts = array_try_from_fn::<OutOfMemory, Option<TryString>, 2, _>(|i| {
        Ok(Some(str_to_owned(alloc, if i == 0 { "0" } else { "1" })?))
    })?;
    assert!(rt;
        texts.iter().zip(["0", "1"]).all(|(text, shown)| text
            .as_ref()
            .is_some_and(|s| s.as_str() == shown))
    );
    assert!(rt; array_try_from_fn::<u32, u8, 0, _>(|_| Err(1)).is_ok_and(|list| list.is_empty()));
    Ok(())
}

#[test]
fn cows_are_owned_when_written(rt: HostRuntime) -> Result<(), Fail> {
    let alloc = rt.alloc();
    let mut text = TryCowStr::Borrowed("hello");
    text.to_mut(alloc)?.push_str(", world!")?;
    assert!(rt; matches!(text, TryCowOf::Owned(_)));
    assert_eq!(rt; text.as_str(), "hello, world!");
    let five = 5u32;
    let mut number = TryCow::from(&five);
    *number.to_mut(alloc)? = 6;
    assert!(rt; matches!(number, TryCowOf::Owned(6)));
    assert_eq!(rt; five, 5);
    let mut eight = TryCowSlice::from([8u32].as_slice());
    eight.to_mut(alloc)?.push(9)?;
    assert!(rt; matches!(eight, TryCowOf::Owned(_)));
    assert_eq!(rt; eight.as_slice(), [8, 9].as_slice());
    assert_eq!(rt;
        TryCowSlice::Borrowed([42, 36].as_slice()).into_owned(alloc)?,
        list(alloc, &[42, 36])?
    );
    assert_eq!(rt; TryCowStr::Borrowed("b").into_owned(alloc)?.as_str(), "b");
    assert_eq!(rt; TryCow::Borrowed(&7u32).into_owned(alloc)?, 7);
    Ok(())
}

#[test]
fn copies_of_cows_keep_the_form(rt: HostRuntime) -> Result<(), Fail> {
    let alloc = rt.alloc();
    let (borrowed, owned) = (
        TryCowStr::Borrowed("a"),
        TryCowStr::Owned(str_to_owned(alloc, "a")?),
    );
    assert!(rt; matches!(borrowed.try_clone(alloc)?, TryCowOf::Borrowed("a")));
    assert!(rt; matches!(owned.try_clone(alloc)?, TryCowOf::Owned(_)));
    assert!(rt; owned.try_clone(alloc)? == borrowed && borrowed.cmp(&owned) == Ordering::Equal);
    assert_eq!(rt; hash_of(&borrowed), hash_of(&owned));
    let (borrowed, owned) = (TryCow::Borrowed(&1u32), TryCow::Owned(1));
    assert!(rt; matches!(borrowed.try_clone(alloc)?, TryCowOf::Borrowed(1)));
    assert!(rt; matches!(owned.try_clone(alloc)?, TryCowOf::Owned(1)));
    assert!(rt; owned == borrowed && hash_of(&borrowed) == hash_of(&owned));
    let (borrowed, owned) = (
        TryCowSlice::Borrowed([1u32, 2].as_slice()),
        TryCowSlice::Owned(list(alloc, &[1, 2])?),
    );
    assert!(rt; matches!(borrowed.try_clone(alloc)?, TryCowOf::Borrowed([1, 2])));
    assert!(rt; matches!(owned.try_clone(alloc)?, TryCowOf::Owned(_)));
    assert!(rt; owned.try_clone(alloc)? == borrowed && hash_of(&borrowed) == hash_of(&owned));
    Ok(())
}
