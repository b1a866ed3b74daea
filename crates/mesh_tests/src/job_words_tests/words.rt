use input_defs::Kind;
use job_words::{Request, Source, read_words};
use std::alloc::Global;
use std::test::Fail;

/// The words that blanks part in a text.
fn words_of(alloc: Global, text: &str) -> Result<Vec<String>, Fail> {
    let mut words = Vec::new(alloc);
    for word in text.split(' ') {
        words.push(String::from_str(alloc, word)?)?;
    }
    Ok(words)
}

#[test]
fn accepted(rt: HostRuntime) -> Result<(), Fail> {
    let file = Source::File("T1");
    let made = Source::Made(Kind::Hex, 62);
    for (text, plan, source, summary) in [
        ("T1", None, file, false),
        ("--plan p T1", Some("p"), file, false),
        ("T1 --plan=p", Some("p"), file, false),
        ("--plan=a=b --summary T1", Some("a=b"), file, true),
        ("--make hex:62", None, made, false),
        ("--summary --make=hex:62 --plan p", Some("p"), made, true),
    ] {
        let words = words_of(rt.alloc(), text)?;
        let want = Request {
            plan,
            source,
            summary,
        };
        assert_eq!(rt; read_words(rt.alloc(), &words)?, Some(want), "{text:?}");
    }
    Ok(())
}

#[test]
fn generated(rt: HostRuntime) -> Result<(), Fail> {
    for (text, kind, n) in [
        ("--make tri:353", Kind::Tri, 353),
        ("--make=quad:500", Kind::Quad, 500),
        ("--make tet:34", Kind::Tet, 34),
        ("--make=hex:1", Kind::Hex, 1),
    ] {
        let words = words_of(rt.alloc(), text)?;
        let found = read_words(rt.alloc(), &words)?.map(|asked| asked.source);
        assert_eq!(rt; found, Some(Source::Made(kind, n)), "{text:?}");
    }
    Ok(())
}

#[test]
fn refused(rt: HostRuntime) -> Result<(), Fail> {
    assert_eq!(rt; read_words(rt.alloc(), &[])?, None);
    for text in [
        "",
        "-",
        "--",
        "-- T1",
        "T1 --",
        "T1 T2",
        "-h",
        "--help",
        "--version",
        "--plan",
        "--plan p",
        "T1 --plan",
        "--plan= T1",
        "--plan  T1",
        "--plan -p T1",
        "--plan --summary T1",
        "--plan p --plan q T1",
        "--plan=p --plan=p T1",
        "--summary",
        "--summary --summary T1",
        "--summary=1 T1",
        "--pla p T1",
        "--planp T1",
        "--make",
        "--make tri:1 T1",
        "T1 --make=tri:1",
        "--make tri:1 --make tri:1",
        "--make tri:01",
        "--make tri:0",
        "--make tri:",
        "--make tri",
        "--make :1",
        "--make tri:354",
        "--make quad:501",
        "--make tet:35",
        "--make hex:63",
        "--make hex:4294967297",
        "--make hex:1:1",
        "--make hex:+1",
        "--make Hex:1",
        "--make --summary",
    ] {
        let words = words_of(rt.alloc(), text)?;
        assert_eq!(rt; read_words(rt.alloc(), &words)?, None, "{text:?}");
    }
    Ok(())
}
