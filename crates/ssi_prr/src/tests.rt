use super::*;
use ssi_lexer::Tokens;
use ssi_terms::ReadFault;
use std::alloc::Global;
use std::process::Abort;
use std::test::Fail;

/// Texts of one line, each with how many entries are read and the byte past them, or with the fault and its column.
const ROWS: [(&str, &str); 13] = [
    ("file PRR", "0 to 8"),
    ("file PRR Q1 L1 s . Q2 if L1 s then L2 s end .", "2 to 45"),
    (
        "file PRR Q1 L1 s . Q2 if L1 s then L2 s end . file PFM",
        "2 to 45",
    ),
    ("file PFM", "S1 at 6"),
    ("PRR", "S1 at 1"),
    ("file PRR Q1 .", "S1 at 13"),
    ("file PRR R1 L1 s .", "S1 at 10"),
    ("file PRR Q1 L1 s , .", "S1 at 20"),
    ("file PRR Q1 L1 s", "S1 at 17"),
    ("file PRR Q1 L1 s . Q2", "S1 at 22"),
    ("file PRR Q1 L1 s . #", "L1 at 20"),
    ("file PRR Q1 if (((((((((", "S2 at 24"),
    ("file PRR Q1 if L1 s then if (", "S1 at 30"),
];

fn answer(alloc: Global, text: &str) -> Result<String, Fail> {
    if text.len() > 100 {
        return Ok(String::new(alloc));
    }
    let mut tokens = Tokens::new(text.as_bytes(), 0);
    let read = read_file(alloc, &mut tokens);
    let position = tokens.position();
    let answer = match read {
        Ok(tree) => format!(in alloc; "{} to {position}", tree.entries.len())?,
        Err(ReadFault::Lex(fault)) => format!(in alloc;
            "L{} at {}",
            fault.code, fault.place.column
        )?,
        Err(ReadFault::Syntax(place)) => format!(in alloc; "S1 at {}", place.column)?,
        Err(ReadFault::TooDeep(place)) => format!(in alloc; "S2 at {}", place.column)?,
        Err(ReadFault::Memory) => format!(in alloc; "no memory")?,
    };
    Ok(answer)
}

#[test]
fn files_are_read_and_faults_told_at_their_places(rt: HostRuntime) -> Result<(), Fail> {
    let alloc = rt.alloc();
    for (text, want) in ROWS {
        let told = answer(alloc, text)?;
        assert_eq!(rt; told.as_str(), want, "{text}");
    }
    Ok(())
}

#[test]
fn a_request_has_its_name_and_its_body(rt: HostRuntime) -> Result<(), Fail> {
    let mut tokens = Tokens::new(b"file PRR Q1 L1 s , L2 xs .", 0);
    let tree = read_file(rt.alloc(), &mut tokens)?;
    for (name, body) in tree.entries.as_slice() {
        assert_eq!(rt; (name.start, name.len, name.token), (9, 2, 2));
        assert_eq!(rt; body.parts.len(), 2);
    }
    Ok(())
}
