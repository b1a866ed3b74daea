//! Header lines, tokens and quoted texts of small files.

use scan::{Scan, Token};
use std::test::Fail;

/// CR LF, blanks and a tab before a header line and after its name, a tab between tokens, a `$` in
/// mid-line, an empty line, and no LF at the end.
const MIXED: &[u8] = b"x\r\n \t$Nodes \r\n1\t0 $a\n\n2";

/// The tokens after the header line of `MIXED`.
const TOKENS: [Token; 4] = [
    Token {
        start: 14,
        end: 15,
        line: 3,
    },
    Token {
        start: 16,
        end: 17,
        line: 3,
    },
    Token {
        start: 18,
        end: 20,
        line: 3,
    },
    Token {
        start: 22,
        end: 23,
        line: 5,
    },
];

#[test]
fn finds_header_lines_and_tokens(rt: HostRuntime) {
    let mut scan = Scan::new(MIXED);
    assert_eq!(rt;
        scan.token(),
        Some(Token {
            start: 0,
            end: 1,
            line: 1
        })
    );
    assert_eq!(rt; scan.token(), None);
    assert_eq!(rt; scan.line(), 2, "it stands at the header line");
    assert_eq!(rt;
        scan.header(),
        Some(Token {
            start: 6,
            end: 11,
            line: 2
        })
    );
    assert_eq!(rt; scan.line(), 3, "it stands after the header line");
    for token in &TOKENS {
        assert_eq!(rt; scan.token(), Some(*token));
    }
    assert_eq!(rt; scan.token(), None);
    assert_eq!(rt; scan.header(), None);
    assert_eq!(rt; scan.line(), 5);
}

#[test]
fn a_last_line_with_lf_ends_on_the_next(rt: HostRuntime) {
    let mut scan = Scan::new(b"a\n");
    assert_eq!(rt; scan.header(), None);
    assert_eq!(rt; scan.line(), 2);
}

#[test]
fn gives_the_text_of_a_token(rt: HostRuntime) -> Result<(), Fail> {
    let mut scan = Scan::new(b" $ Nodes\t\n7");
    let name = scan.header().ok_or("no header line")?;
    assert_eq!(rt; scan.text(&name), b" Nodes".as_slice());
    Ok(())
}

/// Files, and the quoted text that is found from their beginning, or the line that was looked at.
const QUOTED: [(&[u8], Result<Token, u32>); 9] = [
    (
        b" \"a b\"\t\r\n",
        Ok(Token {
            start: 2,
            end: 5,
            line: 1,
        }),
    ),
    (
        b"\r\n\n \"next\"",
        Ok(Token {
            start: 5,
            end: 9,
            line: 3,
        }),
    ),
    (
        b"\"in \"side\" it\"",
        Ok(Token {
            start: 1,
            end: 13,
            line: 1,
        }),
    ),
    (
        b"\"\"",
        Ok(Token {
            start: 1,
            end: 1,
            line: 1,
        }),
    ),
    (b"\"", Err(1)),
    (b"\"a\" x\n\"b\"", Err(1)),
    (b"\nx \"a\"", Err(2)),
    (b"\n$End", Err(2)),
    (b"\n\n", Err(3)),
];

#[test]
fn finds_quoted_texts(rt: HostRuntime) {
    for (bytes, answer) in &QUOTED {
        assert_eq!(rt; bytes.len() < 100, true);
        assert_eq!(rt; Scan::new(bytes).quoted(), *answer);
    }
}

#[test]
fn goes_on_after_a_quoted_text(rt: HostRuntime) {
    let mut scan = Scan::new(b"2 7\n \"name\" \n3");
    assert_eq!(rt;
        scan.token(),
        Some(Token {
            start: 0,
            end: 1,
            line: 1
        })
    );
    assert_eq!(rt; scan.quoted(), Err(1), "it is left where it was");
    assert_eq!(rt;
        scan.token(),
        Some(Token {
            start: 2,
            end: 3,
            line: 1
        })
    );
    assert_eq!(rt;
        scan.quoted(),
        Ok(Token {
            start: 6,
            end: 10,
            line: 2
        })
    );
    assert_eq!(rt; scan.line(), 2, "it stands at the end of that line");
    assert_eq!(rt;
        scan.token(),
        Some(Token {
            start: 13,
            end: 14,
            line: 3
        })
    );
}
