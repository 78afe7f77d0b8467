use super::*;
use ssi_lexer::Tokens;
use ssi_terms::ReadFault;
use std::alloc::Global;
use std::process::Abort;
use std::test::Fail;

/// Texts of one line, each with how many entries are read and the byte past them, or with the fault and its column.
const ROWS: [(&str, &str); 12] = [
    ("file FOP", "0 to 8"),
    (
        "file FOP L1 s if L1 xs . U1 f , R1 xs if ( T1 c or T2 c ) .",
        "2 to 59",
    ),
    (
        "file FOP L1 s if L1 xs . U1 f , R1 xs if ( T1 c or T2 c ) . file OPT",
        "2 to 59",
    ),
    ("file OPT", "S1 at 6"),
    ("file FOP if L1 s .", "S1 at 10"),
    ("file FOP L1 if L1 s .", "S1 at 13"),
    ("file FOP L1 s , if L1 s .", "S1 at 17"),
    ("file FOP L1 s L1 s .", "S1 at 15"),
    ("file FOP L1 s .", "S1 at 15"),
    ("file FOP L1 s if L1 s", "S1 at 22"),
    ("file FOP L1 s if L1 s . ABCDEFGHIJKLMNOPQ", "L2 at 25"),
    ("file FOP L1 s if (((((((((", "S2 at 26"),
];

fn answer(alloc: Global, text: &str) -> Result<String, Fail> {
    if text.len() > 100 {
        return Ok(String::new(alloc));
    }
    let mut tokens = Tokens::new(text.as_bytes(), 0);
    let read = read_file(alloc, &mut tokens);
    let position = tokens.position();
    let answer = match read {
        Ok(tree) => format!(in alloc; "{} to {position}", tree.entries.len())?,
        Err(ReadFault::Lex(fault)) => format!(in alloc;
            "L{} at {}",
            fault.code, fault.place.column
        )?,
        Err(ReadFault::Syntax(place)) => format!(in alloc; "S1 at {}", place.column)?,
        Err(ReadFault::TooDeep(place)) => format!(in alloc; "S2 at {}", place.column)?,
        Err(ReadFault::Memory) => format!(in alloc; "no memory")?,
    };
    Ok(answer)
}

#[test]
fn files_are_read_and_faults_told_at_their_places(rt: HostRuntime) -> Result<(), Fail> {
    let alloc = rt.alloc();
    for (text, want) in ROWS {
        let told = answer(alloc, text)?;
        assert_eq!(rt; told.as_str(), want, "{text}");
    }
    Ok(())
}

#[test]
fn a_statement_has_its_commands_and_its_condition(rt: HostRuntime) -> Result<(), Fail> {
    let mut tokens = Tokens::new(b"file FOP L1 s , U1 f , L2 xs if T1 c , T2 c .", 0);
    let tree = read_file(rt.alloc(), &mut tokens)?;
    for entry in tree.entries.as_slice() {
        let mut starts = Vec::new(rt.alloc());
        for command in entry.commands.as_slice() {
            starts.push(command.name.start)?;
        }
        assert_eq!(rt; starts.as_slice(), [9, 16, 23].as_slice());
        assert_eq!(rt; entry.guard.items.len(), 2);
    }
    Ok(())
}
