use super::*;
use ssi_base::Place;
use ssi_lexer::{BAD_CHARACTER, BAD_NUMBER, LONG_NAME, LexFault, Tokens};
use std::alloc::Global;
use std::process::Abort;
use std::test::Fail;

const FILES: [&str; 7] = ["PTS", "SIG", "TCS", "RTE", "SUB", "FLG", "TFM"];

fn read(rt: &impl Abort, alloc: Global, text: &str) -> Result<IdentityTree, ReadFault> {
    let bytes = text.as_bytes();
    assert!(rt; bytes.len() <= 1000);
    read_identities(alloc, &mut Tokens::new(bytes, 0))
}

fn is_syntax(rt: &impl Abort, alloc: Global, text: &str, want: Place) -> bool {
    matches!(read(rt, alloc, text), Err(ReadFault::Syntax(place)) if place == want)
}

fn is_lexical(rt: &impl Abort, alloc: Global, text: &str, code: u8, place: Place) -> bool {
    let want = LexFault { code, place };
    matches!(read(rt, alloc, text), Err(ReadFault::Lex(fault)) if fault == want)
}

/// The seven files with this entry in its file, in one line.
fn with_entry(alloc: Global, file: usize, entry: &str) -> Result<String, Fail> {
    let mut text = String::new(alloc);
    for (index, name) in FILES.iter().enumerate() {
        for piece in [
            "file ",
            name,
            " ",
            if index == file { entry } else { "" },
            " ",
        ] {
            text.push_str(piece)?;
        }
    }
    Ok(text)
}

fn put(shown: &mut String, text: &str, spot: Spot, mark: &str) -> Result<(), Fail> {
    let start = spot.start as usize;
    let end = start + spot.len as usize;
    for letter in text.as_bytes().get(start..end).unwrap_or(b"?") {
        shown.push(char::from(*letter))?;
    }
    shown.push_str(mark)?;
    Ok(())
}

fn put_all(shown: &mut String, text: &str, spots: &[Spot], mark: &str) -> Result<(), Fail> {
    for spot in spots {
        put(shown, text, *spot, mark)?;
    }
    Ok(())
}

fn put_pairs(shown: &mut String, text: &str, pairs: &[(Spot, Spot)]) -> Result<(), Fail> {
    for (name, other) in pairs {
        put(shown, text, *name, "=")?;
        put(shown, text, *other, ",")?;
    }
    shown.push_str(";")?;
    Ok(())
}

/// The entries in the order of the files, as `P1:T1,T2,;`, `S1;`, `R1:S1:U1,;`, `U1:T1:P1=cr,;` and
/// `0:points:P1=3,;`.
fn show(alloc: Global, text: &str, tree: &IdentityTree) -> Result<String, Fail> {
    let mut shown = String::new(alloc);
    for entry in tree.points.as_slice() {
        put(&mut shown, text, entry.name, ":")?;
        put_all(&mut shown, text, entry.tracks.as_slice(), ",")?;
        shown.push_str(";")?;
    }
    put_all(&mut shown, text, tree.signals.as_slice(), ";")?;
    put_all(&mut shown, text, tree.tracks.as_slice(), ";")?;
    for entry in tree.routes.as_slice() {
        put(&mut shown, text, entry.name, ":")?;
        put(&mut shown, text, entry.signal, ":")?;
        put_all(&mut shown, text, entry.subs.as_slice(), ",")?;
        shown.push_str(";")?;
    }
    for entry in tree.subs.as_slice() {
        put(&mut shown, text, entry.name, ":")?;
        put(&mut shown, text, entry.track, ":")?;
        put_pairs(&mut shown, text, entry.lies.as_slice())?;
    }
    put_all(&mut shown, text, tree.flags.as_slice(), ";")?;
    for entry in tree.modules.as_slice() {
        put(&mut shown, text, entry.address, ":")?;
        put(&mut shown, text, entry.kind, ":")?;
        put_pairs(&mut shown, text, entry.pins.as_slice())?;
    }
    Ok(shown)
}

#[test]
fn each_entry_is_read(rt: HostRuntime) -> Result<(), Fail> {
    let alloc = rt.alloc();
    let rows = [
        (0, "", ""),
        (0, "P1 over T1.", "P1:T1,;"),
        (0, "P1 over T1, T2. PB-2 over T3.", "P1:T1,T2,;PB-2:T3,;"),
        (1, "S1. S2 / a comment\n.", "S1;S2;"),
        (2, "TAB.T1.", "TAB;T1;"),
        (3, "R1 from S1 by U1.", "R1:S1:U1,;"),
        (
            3,
            "R1 from S1 by U1, U2. R2 from S2 by U3.",
            "R1:S1:U1,U2,;R2:S2:U3,;",
        ),
        (4, "U1 on T1. U2 on T2.", "U1:T1:;U2:T2:;"),
        (4, "U1 on T1 with P1 cn.", "U1:T1:P1=cn,;"),
        (
            4,
            "U1 on T1 with P1 cr, P2 cn. U2 on T1.",
            "U1:T1:P1=cr,P2=cn,;U2:T1:;",
        ),
        (5, "L1. L2.", "L1;L2;"),
        (
            6,
            "0 points. 1 signal. 2 track.",
            "0:points:;1:signal:;2:track:;",
        ),
        (6, "0 points P1 at 0, P2 at 3.", "0:points:P1=0,P2=3,;"),
        (
            6,
            "255 signal S1 at 1. 7 track T1 at 2, T2 at 4.",
            "255:signal:S1=1,;7:track:T1=2,T2=4,;",
        ),
    ];
    for (file, entry, want) in rows {
        let text = with_entry(alloc, file, entry)?;
        let tree = read(&rt, alloc, text.as_str())?;
        assert_eq!(rt; show(alloc, text.as_str(), &tree)?.as_str(), want);
    }
    one_identity_tree();
    Ok(())
}

#[test]
fn each_header_is_needed(rt: HostRuntime) {
    let alloc = rt.alloc();
    let six = "file PTS file SIG file TCS file RTE file SUB file FLG";
    assert!(rt;
        is_syntax(
            &rt,
            alloc,
            six,
            Place {
                line: 1,
                column: 54
            }
        )
    );
    for (text, column) in [
        ("", 1),
        ("file", 5),
        ("file PTS", 9),
        ("PTS file SIG", 1),
        ("files PTS", 1),
        ("FILE PTS", 1),
        ("file pts", 6),
        ("file PT", 6),
        ("file 7", 6),
        ("file SIG file PTS", 6),
        ("file PTS SIG", 10),
        ("file PTS file TCS", 15),
    ] {
        let place = Place { line: 1, column };
        assert!(rt; is_syntax(&rt, alloc, text, place), "{text}");
    }
}

#[test]
fn names_have_sixteen_characters_at_most(rt: HostRuntime) -> Result<(), Fail> {
    let alloc = rt.alloc();
    let text = with_entry(alloc, 1, "SIGNAL-789012345.")?;
    let tree = read(&rt, alloc, text.as_str())?;
    assert_eq!(rt;
        show(alloc, text.as_str(), &tree)?.as_str(),
        "SIGNAL-789012345;"
    );
    let text = with_entry(alloc, 1, "SIGNAL-7890123456.")?;
    let place = Place {
        line: 1,
        column: 20,
    };
    assert!(rt; is_lexical(&rt, alloc, text.as_str(), LONG_NAME, place));
    Ok(())
}

#[test]
fn spots_of_entries_tell_where_they_stand(rt: HostRuntime) -> Result<(), Fail> {
    let alloc = rt.alloc();
    let text = with_entry(alloc, 4, "U1 on T1 with\nP-1 cr.")?;
    let tree = read(&rt, alloc, text.as_str())?;
    let place = Place { line: 2, column: 1 };
    let name = Spot {
        start: 63,
        len: 3,
        token: 14,
        place,
    };
    let place = Place { line: 2, column: 5 };
    let word = Spot {
        start: 67,
        len: 2,
        token: 15,
        place,
    };
    let want = [(name, word)];
    for entry in tree.subs.as_slice() {
        assert!(rt; entry.lies.as_slice() == want.as_slice());
    }
    assert_eq!(rt; tree.subs.len(), 1);
    Ok(())
}

#[test]
fn file_or_the_end_follows(rt: HostRuntime) -> Result<(), Fail> {
    let alloc = rt.alloc();
    let mut text = with_entry(alloc, 6, "7 track.")?;
    let end = text.as_str().trim_end().len();
    let place = Place { line: 2, column: 1 };
    text.push_str("\n")?;
    for after in ["", "file", "file file", "file7", "file #", "file-"] {
        let mut whole = text.clone()?;
        whole.push_str(after)?;
        let bytes = whole.as_str().as_bytes();
        assert!(rt; bytes.len() <= 1000);
        let mut tokens = Tokens::new(bytes, 0);
        assert!(rt; read_identities(alloc, &mut tokens).is_ok(), "{after}");
        assert_eq!(rt; tokens.position(), end, "{after}");
    }
    for after in ["files", "FILE", "FLG", "S1 .", ".", "("] {
        let mut whole = text.clone()?;
        whole.push_str(after)?;
        assert!(rt; is_syntax(&rt, alloc, whole.as_str(), place), "{after}");
    }
    for (after, code) in [
        ("#", BAD_CHARACTER),
        ("ABCDEFGHIJKLMNOPQ", LONG_NAME),
        ("00", BAD_NUMBER),
    ] {
        let mut whole = text.clone()?;
        whole.push_str(after)?;
        assert!(rt;
            is_lexical(&rt, alloc, whole.as_str(), code, place),
            "{after}"
        );
    }
    Ok(())
}
