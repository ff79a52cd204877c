ghost use Rattle.std.specs.Prelude.{Some};

use super::*;
use crate::callers::{launch, tells};
use crate::repr::Repr;
use std::alloc::Global;
use std::fmt;
use std::test::Fail;
use wic_base::OutOfMemory;
use wic_vec::TryString;

// A link with a number and a text.
#[derive(Clone, Copy)]
struct Said {
    number: u32,
    text: &'static str,
}

impl Kind for Said {
    ghost number = { λ said. said.number };

    ghost text = { λ said. said.text.now };

    fn number(&self) -> u32 {
        self.number
    }

    fn push_text(&self, out: &mut TryString) -> Result<(), OutOfMemory> {
        out.push_str(self.text)
    }
}

impl fmt::Display for Said {
    ghost output = { λ said. Some said.text.now };

    fn fmt<W: fmt::Write>(&self, f: &mut fmt::Formatter<W>) -> fmt::Result {
        f.write_str(self.text)
    }
}

fn link(number: u32, text: &'static str) -> Said {
    Said { number, text }
}

// The error with this root and these contexts, the newest last.
fn chain_of(alloc: Global, root: &'static str, contexts: &[&'static str]) -> Error<Said> {
    let mut error = Error::new(alloc, link(1, root));
    for context in contexts {
        error = error.context(alloc, link(2, context));
    }
    error
}

#[test]
fn an_error_has_three_texts(rt: HostRuntime) -> Result<(), Fail> {
    let alloc = rt.alloc();
    for (error, first, line, report) in [
        (Error::msg(alloc, link(1, "ouch")), "ouch", "ouch", "ouch"),
        (chain_of(alloc, "ouch", &[]), "ouch", "ouch", "ouch"),
        (
            chain_of(alloc, "root cause", &["failed to reticulate splines"]),
            "failed to reticulate splines",
            "failed to reticulate splines: root cause",
            "failed to reticulate splines\n\nCaused by:\n    root cause\n",
        ),
        (
            chain_of(alloc, "ouch", &["whoops", "uh oh"]),
            "uh oh",
            "uh oh: whoops: ouch",
            "uh oh\n\nCaused by:\n    0: whoops\n    1: ouch\n",
        ),
        (
            Error::from_oom(OutOfMemory::new(8192)).context(alloc, link(2, "whoops")),
            "out of memory (failed to allocate 8192 bytes)",
            "out of memory (failed to allocate 8192 bytes)",
            "out of memory (failed to allocate 8192 bytes)",
        ),
    ] {
        assert_eq!(rt; error.first_text(alloc)?.as_str(), first);
        assert_eq!(rt; error.line(alloc)?.as_str(), line);
        assert_eq!(rt; error.report(alloc)?.as_str(), report);
        let mut told = TryString::try_from_str(alloc, "refused: ")?;
        error.push_line(&mut told)?;
        assert_eq!(rt; told.as_str().strip_prefix("refused: "), Some(line));
    }
    Ok(())
}

#[test]
fn the_eleventh_cause_has_two_digits(rt: HostRuntime) -> Result<(), Fail> {
    let alloc = rt.alloc();
    let error = chain_of(alloc, "r", &["c"; 11]);
    let report = error.report(alloc)?;
    assert!(rt; report.as_str().starts_with("c\n\nCaused by:\n    0: c\n"));
    assert!(rt; report.as_str().ends_with("\n    9: c\n   10: r\n"));
    Ok(())
}

#[test]
fn links_are_found_by_their_number(rt: HostRuntime) -> Result<(), Fail> {
    let alloc = rt.alloc();
    let error = Error::new(alloc, link(1, "root cause")).context(
        alloc,
        link(1, "failed to recombobulate"),
    );
    assert!(rt; error.is(1) && !tells(&error, 9));
    let first = error.downcast_ref(1);
    assert!(rt; first.is_some_and(|link| link.text == "failed to recombobulate"));
    assert!(rt; error.downcast_ref(9).is_none());
    let Err(mut error) = error.downcast(9) else {
        return Err(Fail::new("no link has the number 9"));
    };
    assert_eq!(rt;
        error.line(alloc)?.as_str(),
        "failed to recombobulate: root cause"
    );
    if let Some(link) = error.downcast_mut(1) {
        link.text = "yikes";
    }
    assert_eq!(rt; error.line(alloc)?.as_str(), "yikes: root cause");
    let first = error.downcast(1).ok();
    assert!(rt; first.is_some_and(|link| link.text == "yikes"));
    Ok(())
}

#[test]
fn a_link_is_written_in_place(rt: HostRuntime) -> Result<(), Fail> {
    let alloc = rt.alloc();
    let mut error = Error::new(alloc, link(1, "whoops"));
    if let Some(link) = error.downcast_mut(1) {
        link.text = "yikes";
    }
    assert_eq!(rt; error.first_text(alloc)?.as_str(), "yikes");
    Ok(())
}

#[test]
fn items_print_themselves(rt: HostRuntime) -> Result<(), Fail> {
    let alloc = rt.alloc();
    let error = chain_of(alloc, "ouch", &["whoops"]);
    let oom: Error<Said> = Error::from_oom(OutOfMemory::new(5));
    let shown = format!(in alloc; "{} / {}", error.root_cause(), oom.root_cause())?;
    assert_eq!(rt;
        shown.as_str(),
        "ouch / out of memory (failed to allocate 5 bytes)"
    );
    Ok(())
}

#[test]
fn the_root_is_the_last_of_the_chain(rt: HostRuntime) -> Result<(), Fail> {
    let alloc = rt.alloc();
    let error = chain_of(alloc, "ouch", &["whoops", "uh oh"]);
    let mut text = TryString::new(alloc);
    for item in error.chain() {
        item.push_text(&mut text)?;
        text.push('.')?;
    }
    error.root_cause().push_text(&mut text)?;
    assert_eq!(rt; text.as_str(), "uh oh.whoops.ouch.ouch");
    let mut chain = error.chain();
    while chain.next().is_some() {}
    assert!(rt; chain.next().is_none());
    Ok(())
}

#[test]
fn what_has_no_value_gets_a_context(rt: HostRuntime) -> Result<(), Fail> {
    let alloc = rt.alloc();
    let (whoops, ouch) = (link(2, "whoops"), link(1, "ouch"));
    let none: Option<u8> = None;
    let refused: Result<u8, Said> = Err(ouch);
    let failed: Result<u8, Error<Said>> = Err(Error::new(alloc, ouch));
    for (answer, line) in [
        (none.context(alloc, ouch), "ouch"),
        (none.with_context(alloc, || ouch), "ouch"),
        (failed.context(alloc, whoops), "whoops: ouch"),
        (result_context(alloc, refused, whoops), "whoops: ouch"),
        (
            result_with_context(alloc, refused, || whoops),
            "whoops: ouch",
        ),
    ] {
        assert_eq!(rt; line_of(alloc, answer)?.as_str(), line);
    }
    Ok(())
}

#[test]
fn a_value_gets_no_context_and_no_call(rt: HostRuntime) -> Result<(), Fail> {
    let alloc = rt.alloc();
    let mut calls = 0u32;
    let three: Result<u8, Error<Said>> = Some(3).with_context(alloc, || {
        calls = calls.wrapping_add(1);
        link(2, "whoops")
    });
    assert!(rt; three.is_ok_and(|value| value == 3));
    let four: Result<u8, Error<Said>> = result_with_context(alloc, Ok(4), || {
        calls = calls.wrapping_add(1);
        link(2, "whoops")
    });
    assert!(rt; four.is_ok_and(|value| value == 4));
    assert_eq!(rt; calls, 0);
    let five: Result<u8, Error<Said>> = ok(5);
    assert!(rt; five.is_ok_and(|value| value == 5));
    Ok(())
}

// How many links fit without an allocation.
fn room(error: &Error<Said>) -> usize {
    match &error.repr {
        Repr::Oom(_) => 0,
        Repr::Links(links) => links.capacity(),
    }
}

#[test]
fn a_thousand_contexts_take_few_allocations(rt: HostRuntime) -> Result<(), Fail> {
    let alloc = rt.alloc();
    let mut error = Error::new(alloc, link(1, "ouch"));
    let mut growths = 0u32;
    for _ in 0..1000 {
        let before = room(&error);
        error = error.context(alloc, link(2, "whoops"));
        if room(&error) != before {
            growths = growths.saturating_add(1);
        }
    }
    assert!(rt; !error.is_oom() && growths <= 12);
    Ok(())
}

// The size of an item that is out of memory.
fn size_of_item(item: &ChainItem<'_, Said>) -> Option<usize> {
    match item {
        ChainItem::Oom(oom) => Some(oom.requested_allocation_size()),
        ChainItem::Link(_) => None,
    }
}

#[test]
fn out_of_memory_is_its_one_item(rt: HostRuntime) -> Result<(), Fail> {
    let error: Error<Said> = Error::from_oom(OutOfMemory::new(5));
    let mut chain = error.chain();
    let first = chain.next();
    assert_eq!(rt; first.as_ref().and_then(|item| size_of_item(item)), Some(5));
    assert!(rt; chain.next().is_none());
    assert_eq!(rt; size_of_item(&error.root_cause()), Some(5));
    let error = chain_of(rt.alloc(), "ouch", &["whoops"]);
    assert!(rt; matches!(error.root_cause(), ChainItem::Link(root) if root.number == 1));
    Ok(())
}

#[test]
fn out_of_memory_stays_the_same_error(rt: HostRuntime) -> Result<(), Fail> {
    let alloc = rt.alloc();
    let error: Error<Said> = Error::from(OutOfMemory::new(5));
    assert!(rt; error.is_oom() && !error.is(1));
    let mut called = 0;
    let failed: Result<u8, Error<Said>> = Err(error);
    let answer = failed.with_context(alloc, || {
        called += 1;
        link(2, "whoops")
    });
    assert_eq!(rt; called, 1);
    assert_eq!(rt;
        line_of(alloc, answer)?.as_str(),
        "out of memory (failed to allocate 5 bytes)"
    );
    Ok(())
}

#[test]
fn a_caller_tells_all_of_it(rt: HostRuntime) -> Result<(), Fail> {
    let alloc = rt.alloc();
    let answer = launch(alloc, &[3, 5], 5);
    assert!(rt; answer.is_ok_and(|place| place == 1));
    let answer = launch(alloc, &[3, 5], 7);
    assert_eq!(rt;
        line_of(alloc, answer)?.as_str(),
        "aborting launch: no device 7"
    );
    Ok(())
}

// The line of a result that is no value.
fn line_of<T: Drop, K: Kind + Drop>(
    alloc: Global,
    answer: Result<T, Error<K>>,
) -> Result<TryString, OutOfMemory> {
    match answer {
        Ok(_) => Ok(TryString::new(alloc)),
        Err(error) => error.line(alloc),
    }
}
