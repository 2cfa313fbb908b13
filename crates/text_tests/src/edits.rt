//! Edits by positions: the text after them with the first byte at which it may differ, or the refusal.

use base_core::{Change, ChangeList, NoMem, Position, Range, Text};
use std::alloc::Global;
use std::test::Fail;
use utf16_doc::{Doc, DocStop, Encoding};

/// Line and character of a range's start and of its end.
type Span = (u32, u32, u32, u32);

fn list(alloc: Global, rows: &[(Option<Span>, &str)]) -> Result<ChangeList, NoMem> {
    let mut changes = ChangeList::new(alloc);
    for (span, text) in rows {
        let range = match *span {
            None => None,
            Some((line, character, to_line, to_character)) => Some(Range {
                from_pos: Position { line, character },
                to_pos: Position {
                    line: to_line,
                    character: to_character,
                },
            }),
        };
        let text = Text::copy(alloc, text)?;
        changes.push(Change { range, text })?;
    }
    Ok(changes)
}

const WIDE: &str = "(* 𝒙 *) Axiom A : Prop.";

#[test]
fn edits_give_the_text_and_its_first_change(rt: HostRuntime) -> Result<(), Fail> {
    let rows: [(
        Encoding,
        &str,
        &[(Option<Span>, &str)],
        Result<u32, DocStop>,
        &str,
    ); 20] = [
        (Encoding::Utf16, WIDE, &[], Ok(26), WIDE),
        (
            Encoding::Utf16,
            WIDE,
            &[(Some((0, 15, 0, 16)), "B")],
            Ok(17),
            "(* 𝒙 *) Axiom B : Prop.",
        ),
        (
            Encoding::Utf8,
            WIDE,
            &[(Some((0, 17, 0, 18)), "B")],
            Ok(17),
            "(* 𝒙 *) Axiom B : Prop.",
        ),
        (
            Encoding::Utf16,
            WIDE,
            &[(Some((0, 4, 0, 5)), "x")],
            Ok(3),
            "(* x *) Axiom A : Prop.",
        ),
        (
            Encoding::Utf16,
            WIDE,
            &[(Some((0, 3, 0, 4)), "x")],
            Ok(3),
            "(* x𝒙 *) Axiom A : Prop.",
        ),
        (
            Encoding::Utf8,
            WIDE,
            &[(Some((0, 5, 0, 7)), "x")],
            Ok(3),
            "(* x *) Axiom A : Prop.",
        ),
        (
            Encoding::Utf8,
            WIDE,
            &[(Some((0, 3, 0, 6)), "x")],
            Ok(3),
            "(* x𝒙 *) Axiom A : Prop.",
        ),
        (
            Encoding::Utf16,
            "a\nb",
            &[(Some((2, 0, 9, 9)), "c")],
            Ok(3),
            "a\nbc",
        ),
        (
            Encoding::Utf16,
            "a\r\nb",
            &[(Some((0, 7, 1, 0)), "")],
            Ok(1),
            "ab",
        ),
        (
            Encoding::Utf16,
            "a\r\nb",
            &[(Some((0, 7, 0, 9)), "c")],
            Ok(1),
            "ac\r\nb",
        ),
        (
            Encoding::Utf16,
            "a\rb\nc",
            &[(Some((1, 0, 2, 0)), "d")],
            Ok(2),
            "a\rdc",
        ),
        (
            Encoding::Utf16,
            "",
            &[(Some((0, 0, 0, 0)), "a")],
            Ok(0),
            "a",
        ),
        (Encoding::Utf16, "ab", &[(None, "cd")], Ok(0), "cd"),
        (
            Encoding::Utf16,
            "abc",
            &[(Some((0, 2, 0, 3)), "d"), (Some((0, 1, 0, 1)), "e")],
            Ok(1),
            "aebd",
        ),
        (
            Encoding::Utf16,
            "abc",
            &[(Some((0, 1, 0, 2)), "\n"), (Some((1, 1, 1, 1)), "d")],
            Ok(1),
            "a\ncd",
        ),
        (
            Encoding::Utf16,
            "abc",
            &[
                (Some((0, 2, 0, 3)), "d"),
                (None, "xyz"),
                (Some((0, 1, 0, 2)), "w"),
            ],
            Ok(0),
            "xwz",
        ),
        (
            Encoding::Utf16,
            "abc",
            &[(Some((0, 2, 0, 1)), "d")],
            Err(DocStop::RangeReversed),
            "abc",
        ),
        (
            Encoding::Utf16,
            "abc",
            &[(Some((0, 3, 0, 3)), "de"), (Some((0, 5, 0, 4)), "")],
            Err(DocStop::RangeReversed),
            "abc",
        ),
        (
            Encoding::Utf16,
            "abc",
            &[(Some((0, 5, 0, 4)), "d")],
            Ok(3),
            "abcd",
        ),
        (
            Encoding::Utf16,
            WIDE,
            &[(Some((0, 4, 0, 3)), "")],
            Ok(3),
            WIDE,
        ),
    ];
    for (encoding, text, changes, wanted, left) in rows {
        let mut doc = Doc::new(rt.alloc(), text, encoding)?;
        let changes = list(rt.alloc(), changes)?;
        let found = doc.apply(rt.alloc(), &changes);
        assert_eq!(rt; found, wanted);
        assert_eq!(rt; doc.text(), left);
    }
    Ok(())
}

/// The limit is 256 times so many bytes.
const PIECE: usize = 4096;

fn long_text(alloc: Global) -> Result<String, NoMem> {
    let mut piece = String::new(alloc);
    for _turn in 0..PIECE {
        piece.push('a')?;
    }
    let mut text = String::new(alloc);
    for _turn in 0..256 {
        text.push_str(piece.as_str())?;
    }
    Ok(text)
}

#[test]
fn a_text_that_would_be_too_long_refuses_all_changes(rt: HostRuntime) -> Result<(), Fail> {
    let long = long_text(rt.alloc())?;
    let mut doc = Doc::new(rt.alloc(), long.as_str(), Encoding::Utf16)?;
    let rows: [(&[(Option<Span>, &str)], Result<u32, DocStop>); 4] = [
        (&[(Some((0, 7, 0, 7)), "b")], Err(DocStop::TooLong)),
        (
            &[(Some((0, 7, 0, 7)), "b"), (Some((0, 0, 0, 9)), "")],
            Err(DocStop::TooLong),
        ),
        (
            &[(Some((0, 5, 0, 6)), "b"), (Some((0, 9, 0, 9)), "c")],
            Err(DocStop::TooLong),
        ),
        (
            &[(Some((0, 5, 0, 6)), ""), (Some((0, 9, 0, 9)), "c")],
            Ok(5),
        ),
    ];
    for (changes, wanted) in rows {
        let changes = list(rt.alloc(), changes)?;
        let found = doc.apply(rt.alloc(), &changes);
        assert_eq!(rt; found, wanted);
        assert_eq!(rt; doc.text().len(), long.len());
        assert_eq!(rt; doc.text() == long.as_str(), wanted.is_err());
    }
    Ok(())
}

#[test]
fn offsets_are_found_by_units(rt: HostRuntime) -> Result<(), Fail> {
    let rows = [
        (Encoding::Utf16, 0, 0, 0),
        (Encoding::Utf16, 0, 1, 1),
        (Encoding::Utf16, 0, 2, 1),
        (Encoding::Utf16, 0, 3, 5),
        (Encoding::Utf16, 0, 4, 7),
        (Encoding::Utf16, 0, 9, 7),
        (Encoding::Utf16, 1, 0, 9),
        (Encoding::Utf16, 1, 9, 10),
        (Encoding::Utf16, 2, 0, 11),
        (Encoding::Utf16, 9, 0, 12),
        (Encoding::Utf8, 0, 2, 1),
        (Encoding::Utf8, 0, 4, 1),
        (Encoding::Utf8, 0, 5, 5),
        (Encoding::Utf8, 0, 6, 5),
        (Encoding::Utf8, 0, 7, 7),
        (Encoding::Utf8, 0, 9, 7),
        (Encoding::Utf8, 1, 1, 10),
    ];
    for (encoding, line, character, wanted) in rows {
        let doc = Doc::new(rt.alloc(), "a𝒙é\r\nb\rc", encoding)?;
        let position = Position { line, character };
        assert_eq!(rt; doc.offset_of(position), wanted, "at {line}:{character}");
    }
    Ok(())
}
