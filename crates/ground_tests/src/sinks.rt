//! Sinks in memory.
use base_core::{MemSink, NumberList, Put, Sink, write_all};
use std::test::Fail;

#[test]
fn a_sink_fails_at_the_listed_calls_and_when_it_is_full(rt: HostRuntime) -> Result<(), Fail> {
    let mut fails = NumberList::new(rt.alloc());
    fails.push(2)?;
    let mut sink = MemSink::new(rt.alloc(), 5, fails)?;
    let puts = [
        (b"abc".as_slice(), Put::Took(3)),
        (b"x", Put::Failed),
        (b"defg", Put::Took(2)),
        (b"fg", Put::Failed),
    ];
    for (piece, answer) in puts {
        assert_eq!(rt; sink.put(piece), answer);
    }
    assert_eq!(rt; sink.written(), b"abcde".as_slice());
    assert_eq!(rt; sink.faults(), 2);
    Ok(())
}

#[test]
fn a_sink_that_takes_little_is_given_all(rt: HostRuntime) -> Result<(), Fail> {
    for most in [1, 2, 7] {
        let mut sink = MemSink::short(rt.alloc(), 100, most, NumberList::new(rt.alloc()))?;
        assert_eq!(rt; sink.put(b"abcdefghi"), Put::Took(most));
        assert!(rt; write_all(&mut sink, b"0123456789").is_ok());
        assert_eq!(rt; sink.written().len(), 10 + most);
    }
    Ok(())
}
