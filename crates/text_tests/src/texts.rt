//! Positions of offsets, and the sentences of a text.

use base_core::{Kind, Position};
use sentence_split::split;
use std::test::Fail;
use utf16_doc::{Doc, Encoding};

#[test]
fn positions_count_lines_and_units(rt: HostRuntime) -> Result<(), Fail> {
    let text = "a𝒙é\r\nb\rc\nd\n\n";
    let doc = Doc::new(rt.alloc(), text, Encoding::Utf16)?;
    let rows = [
        (0, 0, 0),
        (1, 0, 1),
        (5, 0, 3),
        (7, 0, 4),
        (8, 0, 5),
        (9, 1, 0),
        (10, 1, 1),
        (11, 2, 0),
        (13, 3, 0),
        (14, 3, 1),
        (15, 4, 0),
        (16, 5, 0),
    ];
    assert_eq!(rt; doc.text().len(), 16);
    for (offset, line, character) in rows {
        if offset <= 16 {
            assert_eq!(rt;
                doc.position_of(offset),
                Position { line, character },
                "at {offset}"
            );
        }
    }
    Ok(())
}

#[test]
fn sentences_are_the_shortest_stretches(rt: HostRuntime) -> Result<(), Fail> {
    let rows: [(&str, &[(u32, u32, Kind)]); 12] = [
        ("", &[]),
        (" \t\r\n (* a (* b *) *) ", &[]),
        ("(* \"*)\" *) Axiom A : Prop.", &[(11, 26, Kind::Plain)]),
        ("Axiom A : Prop.Axiom B : Prop.", &[(0, 30, Kind::Plain)]),
        (
            "\"a. \"\"b. \" c. d",
            &[(0, 13, Kind::Plain), (14, 15, Kind::Unfinished)],
        ),
        ("A. (* \"", &[(0, 2, Kind::Plain), (3, 7, Kind::Unfinished)]),
        ("--- x.", &[(0, 3, Kind::Bullet), (4, 6, Kind::Plain)]),
        (
            "+-{ }x (* . *) y.",
            &[
                (0, 1, Kind::Bullet),
                (1, 2, Kind::Bullet),
                (2, 3, Kind::BraceOpen),
                (4, 5, Kind::BraceClose),
                (5, 17, Kind::Plain),
            ],
        ),
        ("x (* (* *) . y. ", &[(0, 16, Kind::Unfinished)]),
        ("(*)*) x.", &[(6, 8, Kind::Plain)]),
        ("x *) y. .", &[(0, 7, Kind::Plain), (8, 9, Kind::Plain)]),
        ("é\u{a0}.\t", &[(0, 5, Kind::Plain)]),
    ];
    for (text, spans) in rows {
        let found = split(rt.alloc(), text)?;
        assert_eq!(rt; found.as_slice().len(), spans.len(), "at {text:?}");
        for (span, (from, to, kind)) in found.as_slice().iter().zip(spans) {
            assert_eq!(rt; span.from, *from, "at {text:?}");
            assert_eq!(rt; span.to, *to, "at {text:?}");
            assert_eq!(rt; span.kind, *kind, "at {text:?}");
        }
    }
    Ok(())
}
