use super::*;
use crate::TryClone;
use crate::callers::{end_line, tell_count};
use std::cmp::Ordering;
use std::hash::{DefaultHasher, Hash, Hasher};
use std::test::Fail;

#[test]
fn texts_grow_by_characters_and_by_texts(rt: HostRuntime) -> Result<(), Fail> {
    let mut text = TryString::try_from_str(rt.alloc(), "hé")?;
    text.push('!')?;
    text.push_str("ok")?;
    assert_eq!(rt; text.as_str(), "hé!ok");
    assert_eq!(rt;
        text.as_str().as_bytes(),
        [0x68, 0xc3, 0xa9, 0x21, 0x6f, 0x6b].as_slice()
    );
    assert_eq!(rt; text.len(), 6);
    Ok(())
}

#[test]
fn texts_have_the_room_that_was_asked_for(rt: HostRuntime) -> Result<(), Fail> {
    let mut text = TryString::with_capacity(rt.alloc(), 8)?;
    assert!(rt; text.capacity() >= 8 && text.is_empty());
    text.reserve(20)?;
    assert!(rt; text.capacity() >= 20 && text.is_empty());
    let own = format!(in rt.alloc(); "own")?;
    assert_eq!(rt; TryString::from_string(own).as_str(), "own");
    Ok(())
}

// A call that makes a text longer by one letter, or makes room for one.
#[derive(Clone, Copy, Debug)]
enum Growth {
    Push,
    PushStr,
    Reserve,
    PushDecimal,
}

fn grow_by_one(text: &mut TryString, call: Growth) -> Result<(), OutOfMemory> {
    match call {
        Growth::Push => text.push('x'),
        Growth::PushStr => text.push_str("x"),
        Growth::Reserve => {
            text.reserve(1)?;
            text.push_str("x")
        }
        Growth::PushDecimal => text.push_decimal(7),
    }
}

// How often the capacity changes in a thousand such calls.
fn growths(alloc: Global, call: Growth) -> Result<u32, OutOfMemory> {
    let mut text = TryString::new(alloc);
    let mut changes = 0u32;
    for _ in 0..1000 {
        let before = text.capacity();
        grow_by_one(&mut text, call)?;
        if text.capacity() != before {
            changes = changes.saturating_add(1);
        }
    }
    Ok(changes)
}

#[test]
fn a_thousand_small_growths_of_a_text_take_few_allocations(rt: HostRuntime) -> Result<(), Fail> {
    for call in [
        Growth::Push,
        Growth::PushStr,
        Growth::Reserve,
        Growth::PushDecimal,
    ] {
        assert!(rt; growths(rt.alloc(), call)? <= 12, "{call:?}");
    }
    Ok(())
}

#[test]
fn the_block_of_a_text_is_as_large_as_was_asked_for(rt: HostRuntime) -> Result<(), Fail> {
    let alloc = rt.alloc();
    let mut text = TryString::with_capacity(alloc, 16)?;
    text.push_str("sixteen letters!")?;
    text.reserve_exact(1)?;
    assert_eq!(rt; text.capacity(), 17);
    assert_eq!(rt; text.try_clone(alloc)?.into_string().capacity(), 16);
    let kept = text.into_string();
    assert_eq!(rt; kept.capacity(), 17);
    let mut text = TryString::from_string(kept);
    assert_eq!(rt; text.capacity(), 17);
    text.shrink_to_fit()?;
    assert_eq!(rt; text.into_string().capacity(), 16);
    let text = TryString::try_from_str(alloc, "é!")?;
    assert_eq!(rt; text.into_string().capacity(), 3);
    Ok(())
}

#[test]
fn lines_of_numbers_are_pushed_whole(rt: HostRuntime) -> Result<(), Fail> {
    let mut text = end_line(format!(in rt.alloc(); "head")?)?;
    text.push_decimal_line(0)?;
    text.push_decimal_line(105)?;
    text.push_number("", u64::MAX)?;
    text.push_number("é é ", 42)?;
    tell_count(&mut text, 7)?;
    assert_eq!(rt;
        text.as_str(),
        "head\n0\n105\n18446744073709551615\né é 42\ncount 7\n"
    );
    Ok(())
}

#[test]
fn numbers_are_written_in_decimal(rt: HostRuntime) -> Result<(), Fail> {
    let mut text = TryString::new(rt.alloc());
    for number in [0, 7, 10, 99, 100, 4096, 12345, u64::MAX] {
        text.push_decimal(number)?;
        text.push(' ')?;
    }
    assert_eq!(rt;
        text.as_str(),
        "0 7 10 99 100 4096 12345 18446744073709551615 "
    );
    Ok(())
}

#[test]
fn room_of_a_text_is_made_and_given_back(rt: HostRuntime) -> Result<(), Fail> {
    let alloc = rt.alloc();
    let mut text = TryString::with_capacity(alloc, 8)?;
    text.reserve_exact(30)?;
    assert!(rt; text.capacity() >= 30 && text.is_empty());
    text.shrink_to_fit()?;
    assert!(rt; text.is_empty());
    assert_eq!(rt; text.try_clone(alloc)?.as_str(), "");
    text.push_str("hé")?;
    assert_eq!(rt; text.try_clone(alloc)?.into_string().as_str(), "hé");
    Ok(())
}

#[test]
fn texts_compare_hash_and_print_by_their_characters(rt: HostRuntime) -> Result<(), Fail> {
    let alloc = rt.alloc();
    let (long, short) = (
        TryString::try_from_str(alloc, "aaa")?,
        TryString::try_from_str(alloc, "b")?,
    );
    assert!(rt; long < short && long != short && short == short.try_clone(alloc)?);
    assert_eq!(rt; long.partial_cmp(&short), Some(Ordering::Less));
    let shown = format!(in alloc; "{short} {short:?} {short:>3}")?;
    assert_eq!(rt; shown.as_str(), "b \"b\"   b");
    let (mut left, mut right) = (DefaultHasher::new(), DefaultHasher::new());
    long.hash(&mut left);
    "aaa".hash(&mut right);
    assert_eq!(rt; left.finish(), right.finish());
    Ok(())
}
