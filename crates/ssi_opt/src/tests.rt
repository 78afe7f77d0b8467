use super::*;
use ssi_lexer::Tokens;
use ssi_terms::ReadFault;
use std::alloc::Global;
use std::process::Abort;
use std::test::Fail;

/// Texts of one line, each with how many entries are read and the byte past them, or with the fault and its column.
const ROWS: [(&str, &str); 17] = [
    ("file OPT", "0 to 8"),
    (
        "file OPT 1 bit 0 if P1 cn bit 1 if P1 cr . 2 bit 7 if R1 s , ( U1 l or T2 c ) .",
        "2 to 79",
    ),
    (
        "file OPT 1 bit 0 if P1 cn bit 1 if P1 cr . 2 bit 7 if R1 s , ( U1 l or T2 c ) . file IPT",
        "2 to 79",
    ),
    ("file IPT", "S1 at 6"),
    ("file OPT 1 .", "S1 at 12"),
    ("file OPT bit 0 if P1 cn .", "S1 at 10"),
    ("file OPT P1 bit 0 if P1 cn .", "S1 at 10"),
    ("file OPT 1 bit if P1 cn .", "S1 at 16"),
    ("file OPT 1 bit 0 P1 cn .", "S1 at 18"),
    ("file OPT 1 bit 0 if .", "S1 at 21"),
    ("file OPT 1 bit 0 if P1 cn , bit 1 if P1 cr .", "S1 at 29"),
    ("file OPT 1 bit 0 if P1 cn 1 if P1 cr .", "S1 at 27"),
    ("file OPT 1 bit 0 if P1 cn bit .", "S1 at 31"),
    ("file OPT 1 bit 0 if P1 cn", "S1 at 26"),
    ("file OPT 1 bit 0 if P1 cn file IPT", "S1 at 27"),
    ("file OPT 1 bit 0 if P1 cn . 00", "L3 at 29"),
    ("file OPT 1 bit 0 if (((((((((", "S2 at 29"),
];

fn answer(alloc: Global, text: &str) -> Result<String, Fail> {
    if text.len() > 100 {
        return Ok(String::new(alloc));
    }
    let mut tokens = Tokens::new(text.as_bytes(), 0);
    let read = read_file(alloc, &mut tokens);
    let position = tokens.position();
    let answer = match read {
        Ok(tree) => format!(in alloc; "{} to {position}", tree.entries.len())?,
        Err(ReadFault::Lex(fault)) => format!(in alloc;
            "L{} at {}",
            fault.code, fault.place.column
        )?,
        Err(ReadFault::Syntax(place)) => format!(in alloc; "S1 at {}", place.column)?,
        Err(ReadFault::TooDeep(place)) => format!(in alloc; "S2 at {}", place.column)?,
        Err(ReadFault::Memory) => format!(in alloc; "no memory")?,
    };
    Ok(answer)
}

#[test]
fn files_are_read_and_faults_told_at_their_places(rt: HostRuntime) -> Result<(), Fail> {
    let alloc = rt.alloc();
    for (text, want) in ROWS {
        let told = answer(alloc, text)?;
        assert_eq!(rt; told.as_str(), want, "{text}");
    }
    Ok(())
}

#[test]
fn an_output_has_its_address_and_its_bits(rt: HostRuntime) -> Result<(), Fail> {
    let mut tokens = Tokens::new(b"file OPT 63 bit 0 if T1 c , U1 f bit 7 if T2 c .", 0);
    let tree = read_file(rt.alloc(), &mut tokens)?;
    for entry in tree.entries.as_slice() {
        assert_eq!(rt; (entry.address.start, entry.address.token), (9, 2));
        let mut told = Vec::new(rt.alloc());
        for (bit, cond) in entry.bits.as_slice() {
            told.push((bit.start, bit.token, cond.items.len()))?;
        }
        assert_eq!(rt; told.as_slice(), [(16, 4, 2), (37, 12, 1)].as_slice());
    }
    Ok(())
}
