use super::*;
use ssi_lexer::Tokens;
use ssi_terms::ReadFault;
use std::alloc::Global;
use std::process::Abort;
use std::test::Fail;

/// Texts of one line, each with how many entries are read and the byte past them, or with the fault and its column.
const ROWS: [(&str, &str); 15] = [
    ("file IPT", "0 to 8"),
    (
        "file IPT 1 if 0 h then P1 dn else P1 xdn end . 63 L1 s .",
        "2 to 56",
    ),
    (
        "file IPT 1 if 0 h then P1 dn else P1 xdn end . 63 L1 s . file RUN",
        "2 to 56",
    ),
    ("file OPT", "S1 at 6"),
    ("IPT", "S1 at 1"),
    ("file IPT 1 .", "S1 at 12"),
    ("file IPT 1 2 L1 s .", "S1 at 12"),
    ("file IPT T1 o .", "S1 at 10"),
    ("file IPT 1 L1 s , .", "S1 at 19"),
    ("file IPT 1 0 h .", "S1 at 12"),
    ("file IPT 1 L1 s", "S1 at 16"),
    ("file IPT 1 L1 s . 2", "S1 at 20"),
    ("file IPT 1 L1 s . 01", "L3 at 19"),
    ("file IPT 1 if (((((((((", "S2 at 23"),
    (
        "file IPT 1 if 0 h then if 0 h then if 0 h then if 0 h then if 0 h then if 0 h then if 0 h then if 0 h then if",
        "S2 at 108",
    ),
];

fn answer(alloc: Global, text: &str) -> Result<String, Fail> {
    if text.len() > 200 {
        return Ok(String::new(alloc));
    }
    let mut tokens = Tokens::new(text.as_bytes(), 0);
    let read = read_file(alloc, &mut tokens);
    let position = tokens.position();
    let answer = match read {
        Ok(tree) => format!(in alloc; "{} to {position}", tree.entries.len())?,
        Err(ReadFault::Lex(fault)) => format!(in alloc;
            "L{} at {}",
            fault.code, fault.place.column
        )?,
        Err(ReadFault::Syntax(place)) => format!(in alloc; "S1 at {}", place.column)?,
        Err(ReadFault::TooDeep(place)) => format!(in alloc; "S2 at {}", place.column)?,
        Err(ReadFault::Memory) => format!(in alloc; "no memory")?,
    };
    Ok(answer)
}

#[test]
fn files_are_read_and_faults_told_at_their_places(rt: HostRuntime) -> Result<(), Fail> {
    let alloc = rt.alloc();
    for (text, want) in ROWS {
        let told = answer(alloc, text)?;
        assert_eq!(rt; told.as_str(), want, "{text}");
    }
    Ok(())
}

#[test]
fn an_input_has_its_address_and_its_body(rt: HostRuntime) -> Result<(), Fail> {
    let mut tokens = Tokens::new(b"file IPT 63 T1 o , L2 xs .", 0);
    let tree = read_file(rt.alloc(), &mut tokens)?;
    for (address, body) in tree.entries.as_slice() {
        assert_eq!(rt; (address.start, address.len, address.token), (9, 2, 2));
        assert_eq!(rt; body.parts.len(), 2);
    }
    Ok(())
}
