use super::*;
use ssi_lexer::Tokens;
use ssi_terms::ReadFault;
use std::alloc::Global;
use std::process::Abort;
use std::test::Fail;

/// Texts of one line, each with how many entries are read and the byte past them, or with the fault and its column.
const ROWS: [(&str, &str); 12] = [
    ("file PFM", "0 to 8"),
    (
        "file PFM P1 cn if T1 c . P1 cr if T1 c , ( U1 f or U2 f ) .",
        "2 to 59",
    ),
    (
        "file PFM P1 cn if T1 c . P1 cr if T1 c , ( U1 f or U2 f ) . file FOP",
        "2 to 59",
    ),
    ("file FOP", "S1 at 6"),
    ("file PFM P1 c if T1 c .", "S1 at 13"),
    ("file PFM P1 cnf if T1 c .", "S1 at 13"),
    ("file PFM P1 cn T1 c .", "S1 at 16"),
    ("file PFM S1 cn if T1 c .", "S1 at 10"),
    ("file PFM P1 cn if .", "S1 at 19"),
    ("file PFM P1 cn if T1 c", "S1 at 23"),
    ("file PFM P1 cn if T1 c . 00", "L3 at 26"),
    ("file PFM P1 cn if (((((((((", "S2 at 27"),
];

fn answer(alloc: Global, text: &str) -> Result<String, Fail> {
    if text.len() > 100 {
        return Ok(String::new(alloc));
    }
    let mut tokens = Tokens::new(text.as_bytes(), 0);
    let read = read_file(alloc, &mut tokens);
    let position = tokens.position();
    let answer = match read {
        Ok(tree) => format!(in alloc; "{} to {position}", tree.entries.len())?,
        Err(ReadFault::Lex(fault)) => format!(in alloc;
            "L{} at {}",
            fault.code, fault.place.column
        )?,
        Err(ReadFault::Syntax(place)) => format!(in alloc; "S1 at {}", place.column)?,
        Err(ReadFault::TooDeep(place)) => format!(in alloc; "S2 at {}", place.column)?,
        Err(ReadFault::Memory) => format!(in alloc; "no memory")?,
    };
    Ok(answer)
}

#[test]
fn files_are_read_and_faults_told_at_their_places(rt: HostRuntime) -> Result<(), Fail> {
    let alloc = rt.alloc();
    for (text, want) in ROWS {
        let told = answer(alloc, text)?;
        assert_eq!(rt; told.as_str(), want, "{text}");
    }
    Ok(())
}

#[test]
fn a_rule_has_its_points_its_lie_and_its_condition(rt: HostRuntime) -> Result<(), Fail> {
    let mut tokens = Tokens::new(b"file PFM P1 cr if T1 c , U1 f .", 0);
    let tree = read_file(rt.alloc(), &mut tokens)?;
    for (name, lie, cond) in tree.entries.as_slice() {
        assert_eq!(rt; (name.start, name.len, name.token), (9, 2, 2));
        assert_eq!(rt; (lie.start, lie.len, lie.token), (12, 2, 3));
        assert_eq!(rt; cond.items.len(), 2);
    }
    Ok(())
}
