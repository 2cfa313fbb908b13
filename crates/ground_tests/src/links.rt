//! Links in memory.
use base_core::{Bytes, Item, ItemList, Link, ScriptLink, Taken};
use std::test::Fail;

#[test]
fn a_link_gives_its_items(rt: HostRuntime) -> Result<(), Fail> {
    let mut items = ItemList::new(rt.alloc());
    items.push(Item::Idle)?;
    items.push(Item::Piece(Bytes::copy(rt.alloc(), b"")?))?;
    items.push(Item::Piece(Bytes::copy(rt.alloc(), b"abcdef")?))?;
    items.push(Item::Idle)?;
    items.push(Item::Idle)?;
    items.push(Item::Fail)?;
    let mut link = ScriptLink::new(rt.alloc(), items, 7)?;
    let mut buf = [0u8; 4];
    let polls = [
        (false, Taken::Idle, b"\0\0\0\0"),
        (true, Taken::Got(4), b"abcd"),
        (false, Taken::Got(2), b"efcd"),
        (false, Taken::Idle, b"efcd"),
        (true, Taken::Failed, b"efcd"),
        (true, Taken::End, b"efcd"),
        (false, Taken::End, b"efcd"),
        (false, Taken::Failed, b"efcd"),
    ];
    for (wait, taken, bytes) in polls {
        assert_eq!(rt; link.poll(wait, &mut buf), taken);
        assert_eq!(rt; buf.as_slice(), bytes.as_slice());
    }
    assert_eq!(rt; link.faults(), 2);
    Ok(())
}
