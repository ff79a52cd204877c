//! Generated scripts and their summaries.
use batch_core::{Batch, Command, End};
use batch_script::{Item, generate, parse, summary};
use std::alloc::Global;
use std::test::Fail;
use wic_vec::TryString;

#[test]
fn no_batches_leave_the_room_alone(rt: HostRuntime) -> Result<(), Fail> {
    let script = generate(rt.alloc(), 0, 0)?;
    assert_eq!(rt; script.items.len(), 1);
    assert!(rt; matches!(&script.items[0], Item::Reserve(4096)));
    Ok(())
}

#[test]
fn the_first_draws_of_seed_nought_remove_1800(rt: HostRuntime) -> Result<(), Fail> {
    let script = generate(rt.alloc(), 0, 1)?;
    assert_eq!(rt; script.items.len(), 2);
    match &script.items[1] {
        Item::Batch(Batch { commands, end: _ }) => {
            assert_eq!(rt; commands.len(), 8);
            assert_eq!(rt; commands[0], Command::Remove(1800));
        }
        _ => return Err(Fail::new("the second item is no batch")),
    }
    Ok(())
}

/// The summary of a script that is read.
fn summed_up(alloc: Global, input: &str) -> Result<TryString, Fail> {
    match parse(alloc, input.as_bytes()) {
        Ok(script) => Ok(summary(alloc, script)?),
        Err(_) => Err(Fail::new("no script")),
    }
}

#[test]
fn a_summary_counts_batches_and_what_is_held(rt: HostRuntime) -> Result<(), Fail> {
    for (input, text) in [
        (
            "",
            "committed 0\naborted 0\nrefused 0\nlist 0\nset 0\nlive 0\nnext 0\n",
        ),
        (
            "reserve 4294967295\nshow\nbegin\ncommit\nbegin\npush 1\nabort\n",
            "committed 1\naborted 1\nrefused 0\nlist 0\nset 0\nlive 0\nnext 0\n",
        ),
        (
            "begin\npush 1\npush 2\nalloc 5\nalloc 6\nalloc 7\nfree 1\ninsert 9\ninsert 9\ncommit\nbegin\npop\npop\npop\nabort\n",
            "committed 1\naborted 0\nrefused 1\nlist 2\nset 1\nlive 2\nnext 1\n",
        ),
    ] {
        let told = summed_up(rt.alloc(), input)?;
        assert_eq!(rt; told.as_str(), text, "at {input:?}");
    }
    Ok(())
}

#[test]
fn a_generated_run_is_told_alike_each_time(rt: HostRuntime) -> Result<(), Fail> {
    // The numbers are those of a plain model in another language; the first three add up to the batches.
    let text = "committed 714\naborted 236\nrefused 50\nlist 1133\nset 616\nlive 1041\nnext 1041\n";
    for _ in 0..2 {
        let told = summary(rt.alloc(), generate(rt.alloc(), 1, 1000)?)?;
        assert_eq!(rt; told.as_str(), text);
    }
    Ok(())
}
