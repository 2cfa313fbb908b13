//! Frames, however their bytes are cut.
use FrameFault::{BadHeader, NoLength, TooLong};
use base_core::NoMem;
use rpc_frames::{FrameFault, FrameStop, Frames, write_frame};
use std::alloc::Global;
use std::process::Abort;

// What was read: each body and a `|`, and the fault with the number of bytes fed when it came.
#[derive(Drop)]
struct Run {
    reader: Frames,
    bodies: Vec<u8>,
    fed: usize,
    fault: Option<(FrameFault, usize)>,
}

fn start(alloc: Global) -> Run {
    Run {
        reader: Frames::new(alloc),
        bodies: Vec::new(alloc),
        fed: 0,
        fault: None,
    }
}

fn read_one(run: &mut Run, alloc: Global) -> Result<bool, NoMem> {
    match run.reader.next(alloc) {
        Ok(Some(body)) => {
            run.bodies.extend_from_slice(body.as_slice())?;
            run.bodies.push(b'|')?;
            Ok(true)
        }
        Ok(None) => Ok(false),
        Err(FrameStop::NoMem) => Err(NoMem),
        Err(FrameStop::Fault(fault)) => {
            if run.fault.is_none() {
                run.fault = Some((fault, run.fed));
            }
            Ok(false)
        }
    }
}

fn push(run: &mut Run, alloc: Global, piece: &[u8]) -> Result<(), NoMem> {
    run.reader.feed(piece)?;
    run.fed = run.fed.saturating_add(piece.len());
    for _ in 0..9u8 {
        if !read_one(run, alloc)? {
            return Ok(());
        }
    }
    Ok(())
}

fn by_bytes(alloc: Global, bytes: &[u8]) -> Result<Run, NoMem> {
    let mut run = start(alloc);
    for piece in bytes.chunks(1) {
        push(&mut run, alloc, piece)?;
    }
    Ok(run)
}

fn cut_at(alloc: Global, bytes: &[u8], at: usize) -> Result<Run, NoMem> {
    let mut run = start(alloc);
    let (front, back) = bytes.split_at(at.min(bytes.len()));
    push(&mut run, alloc, front)?;
    push(&mut run, alloc, back)?;
    Ok(run)
}

// A header part of this many bytes, cut short of its empty line where that is so wanted.
fn header_part(alloc: Global, length: &str, size: usize) -> Result<Vec<u8>, NoMem> {
    let mut part = Vec::new(alloc);
    part.extend_from_slice(length.as_bytes())?;
    part.extend_from_slice(b"X: ")?;
    for _ in part.len().saturating_add(4)..size {
        part.push(b'a')?;
    }
    part.extend_from_slice(b"\r\n\r\n")?;
    Ok(part)
}

// At most so many cuts, the last ones.
fn check<R: Abort + AllocGlobal>(
    rt: &R,
    bytes: &[u8],
    bodies: &str,
    fault: Option<(FrameFault, usize)>,
    cuts: usize,
) -> Result<(), NoMem> {
    let run = by_bytes(rt.alloc(), bytes)?;
    let text = bytes.escape_ascii().to_string(rt.alloc())?;
    assert!(rt;
        run.bodies.as_slice() == bodies.as_bytes(),
        "bodies of {text}"
    );
    assert!(rt; run.fault == fault, "fault of {text}");
    for at in bytes.len().saturating_sub(cuts)..bytes.len() {
        let run = cut_at(rt.alloc(), bytes, at)?;
        assert!(rt;
            run.bodies.as_slice() == bodies.as_bytes(),
            "bodies of {text} cut at {at}"
        );
        assert!(rt;
            run.fault.map(|f| f.0) == fault.map(|f| f.0),
            "fault of {text} cut at {at}"
        );
    }
    Ok(())
}

fn check_long<R: Abort + AllocGlobal>(rt: &R) -> Result<(), NoMem> {
    let length = "Content-Length: 2\r\n";
    let mut most = header_part(rt.alloc(), length, 4096)?;
    most.extend_from_slice(b"{}")?;
    check(rt, most.as_slice(), "{}|", None, 24)?;
    let over = header_part(rt.alloc(), length, 4097)?;
    check(
        rt,
        over.as_slice(),
        "",
        Some((FrameFault::BadHeader, 4096)),
        24,
    )?;
    // Without a length, the last byte of a part of 4096 bytes shows that.
    let bare = header_part(rt.alloc(), "", 4096)?;
    check(
        rt,
        bare.as_slice(),
        "",
        Some((FrameFault::NoLength, 4096)),
        24,
    )?;
    let open = &most.as_slice()[..most.len().min(4094)];
    check(rt, open, "", None, 24)?;
    // A line that ends at the 4096th byte leaves no room for the empty line.
    let ended = header_part(rt.alloc(), length, 4098)?;
    check(
        rt,
        ended.as_slice(),
        "",
        Some((FrameFault::BadHeader, 4096)),
        24,
    )
}

/// Bytes, the bodies that are read of them, and the fault with the place of the byte that shows it.
type Row = (&'static str, &'static str, Option<(FrameFault, usize)>);

const ROWS: [Row; 36] = [
    ("", "", None),
    ("Content-Length: 0\r\n\r\n", "|", None),
    ("Content-Length: 2\r\n\r\n{}", "{}|", None),
    ("Content-Length: 2\r\n\r\n{", "", None),
    (
        "Content-Length: 2\r\n\r\n{}Content-Length: 3\r\n\r\nabc",
        "{}|abc|",
        None,
    ),
    (
        "Content-Length: 2\r\n\r\n\r\nContent-Length: 1\r\n\r\n\n",
        "\r\n|\n|",
        None,
    ),
    ("cONTENT-lENGTH: 1\r\n\r\nx", "x|", None),
    (
        "Content-Type: x\r\nContent-Length: 1\r\nX:\r\n\r\nx",
        "x|",
        None,
    ),
    (
        "Content-Length : 1\r\nContent-Length:1\r\n\r\nx",
        "x|",
        None,
    ),
    ("Content-Length:  7  \r\n\r\nseven!!", "seven!!|", None),
    (
        "Content-Length: 0000000000000000000000000000001\r\n\r\nx",
        "x|",
        None,
    ),
    ("Content-Length: 4194304\r\n\r\nx", "", None),
    ("X: a:b:c\r\nContent-Length: 1\r\n\r\nx", "x|", None),
    ("Content-Length: x", "", None),
    ("Content-Length: 1\r", "", None),
    ("Content-Type: x\r\n\r\n", "", Some((NoLength, 19))),
    ("\r\n", "", Some((NoLength, 2))),
    ("Content-Length: 1\r\n\r\nx\r\n", "x|", Some((NoLength, 24))),
    ("Content-Length: 2\n\n", "", Some((BadHeader, 18))),
    ("\nContent-Length: 2\r\n\r\n", "", Some((BadHeader, 1))),
    ("Content-Length: 2\r\r\n", "", Some((BadHeader, 19))),
    ("X: a\rb\r\n", "", Some((BadHeader, 6))),
    ("\rX", "", Some((BadHeader, 2))),
    (
        "Content-Length: 2\r\ncontent-length: 2\r\n\r\n",
        "",
        Some((BadHeader, 38)),
    ),
    (
        "Content-Length: 2\r\ncontent-length: 4194305\r\n\r\n",
        "",
        Some((BadHeader, 44)),
    ),
    ("Content-Length: x\r\n", "", Some((BadHeader, 19))),
    ("Content-Length:\r\n", "", Some((BadHeader, 17))),
    ("Content-Length:   \r\n", "", Some((BadHeader, 20))),
    ("Content-Length: -1\r\n", "", Some((BadHeader, 20))),
    ("Content-Length: +1\r\n", "", Some((BadHeader, 20))),
    ("Content-Length: 1 2\r\n", "", Some((BadHeader, 21))),
    ("Content-Length:\t1\r\n", "", Some((BadHeader, 19))),
    (": 1\r\n", "", Some((BadHeader, 5))),
    ("no colon\r\n", "", Some((BadHeader, 10))),
    ("Content-Length: 4194305\r\n", "", Some((TooLong, 25))),
    (
        "Content-Length: 123456789012345678901234567890\r\n\r\n",
        "",
        Some((TooLong, 48)),
    ),
];

#[test]
fn frames_are_read_however_they_are_cut(rt: HostRuntime) -> Result<(), NoMem> {
    for (bytes, bodies, fault) in &ROWS {
        check(&rt, bytes.as_bytes(), *bodies, *fault, bytes.len())?;
    }
    let frame = write_frame(rt.alloc(), b"{\"id\":1}")?;
    assert!(rt; frame.as_slice() == b"Content-Length: 8\r\n\r\n{\"id\":1}".as_slice());
    check(&rt, frame.as_slice(), "{\"id\":1}|", None, 64)?;
    check_long(&rt)
}
