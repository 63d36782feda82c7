//! Texts, and the values or refusals that they are.

use super::*;
use ValueKind::{Extra, Lex, Missing, Syntax, WrongCount};
use ratio::Ratio;
use std::test::Fail;

const TEXT: &[u8] =
    b"data 1\ncoefficient 0 3 # of degree 1\n1\n-2/3\n.5\n\ncoefficient 2 0\ncoefficient 7 1\n7\n";

#[test]
fn reads_blocks(rt: HostRuntime) -> Result<(), Fail> {
    let values = read_data(rt.alloc(), TEXT)?;
    assert_eq!(rt;
        values.of(0).ok_or("a block")?,
        [
            Ratio::one(),
            Ratio::new(-2, 3).ok_or("fits")?,
            Ratio::new(1, 2).ok_or("fits")?
        ]
        .as_slice()
    );
    assert_eq!(rt; values.of(2).ok_or("a block")?.len(), 0);
    assert_eq!(rt;
        values.of(7).ok_or("a block")?,
        [Ratio::new(7, 1).ok_or("fits")?].as_slice()
    );
    assert!(rt; values.of(1).is_none() && values.of(8).is_none());
    Ok(())
}

#[test]
fn takes_these_texts(rt: HostRuntime) {
    let texts: [&[u8]; 6] = [
        b"data 1",
        b"# values\r\n\n data\t1 \r\n",
        b"data 1\ncoefficient 0 0",
        b"data 1\ncoefficient 4294967295 01\n1e2",
        b"data 1\ncoefficient 0 1\n0\ncoefficient 1 1\n0\n\n# \xff",
        b"data 1\ncoefficient 3 2\n\n1\n\n2",
    ];
    for text in &texts {
        assert!(rt; read_data(rt.alloc(), text).is_ok(), "{text:?}");
    }
}

#[test]
fn names_the_first_bad_line(rt: HostRuntime) {
    let texts: [(&[u8], ValueKind, u32); 22] = [
        (b"", Syntax, 0),
        (b"\n# nothing\n", Syntax, 2),
        (b"data 01", Syntax, 1),
        (b"data 2\n", Syntax, 1),
        (b"data 1 1\n", Syntax, 1),
        (b"Data 1\n", Syntax, 1),
        (b"coefficient 0 0\n", Syntax, 1),
        (b"data 1\ndata 1\n", Syntax, 2),
        (b"data 1\n1\n", Syntax, 2),
        (b"data 1\ncoefficient 0\n", Syntax, 2),
        (b"data 1\ncoefficient 0 1 2\n", Syntax, 2),
        (b"data 1\ncoefficient -1 0\n", Syntax, 2),
        (b"data 1\ncoefficient 4294967296 0\n", Syntax, 2),
        (b"data 1\ncoefficient 0 4294967295\n1\n\n", Syntax, 4),
        (b"data 1\ncoefficient 0 1\n1 2\n", Syntax, 3),
        (b"data 1\ncoefficient 0 1\n1/0\n", Syntax, 3),
        (b"data 1\ncoefficient 0 1\ncoefficient 1 0\n", Syntax, 3),
        (b"data 1\ncoefficient 0 1\n1\n2\n", Syntax, 4),
        (b"data 1\ncoefficient 1 0\n\ncoefficient 1 0\n", Syntax, 4),
        (b"data 1\ncoefficient 2 0\ncoefficient 1 0\n", Syntax, 3),
        (b"data 1\ncoefficient 0 1\nx\x01\n", Lex, 3),
        (b"data 1\r", Lex, 1),
    ];
    for (text, kind, line) in &texts {
        let refusal = read_data(rt.alloc(), text).err();
        assert_eq!(rt;
            refusal.map(|r| (r.kind, r.line)),
            Some((*kind, *line)),
            "{text:?}"
        );
    }
}

fn need(number: u32, count: u32) -> Need {
    Need { number, count }
}

#[test]
fn names_the_first_refusal(rt: HostRuntime) -> Result<(), Fail> {
    let values = read_data(rt.alloc(), TEXT)?;
    let cases: [(u32, [Need; 2], Option<(ValueKind, u32)>); 7] = [
        (8, [need(0, 3), need(7, 1)], None),
        (8, [need(2, 0), need(7, 1)], None),
        (7, [need(0, 3), need(1, 1)], Some((Extra, 8))),
        (2, [need(0, 3), need(1, 1)], Some((Extra, 7))),
        (8, [need(0, 3), need(1, 0)], Some((Missing, 0))),
        (8, [need(0, 4), need(1, 1)], Some((WrongCount, 2))),
        (8, [need(0, 3), need(7, 0)], Some((WrongCount, 8))),
    ];
    for (known, needs, refusal) in &cases {
        let found = values.check(*known, needs).err();
        assert_eq!(rt;
            found.map(|r| (r.kind, r.line)),
            *refusal,
            "{known} {needs:?}"
        );
    }
    Ok(())
}
