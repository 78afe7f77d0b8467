use super::*;
use ssi_identities::DataSet;
use ssi_lexer::Tokens;
use std::alloc::Global;
use std::process::Abort;
use std::test::Fail;

/// Files without a fault, in their order.
const SOUND: [(&str, &str); 12] = [
    ("PTS", "P1 over T1 ."),
    ("SIG", "S1 . S2 ."),
    ("TCS", "T1 ."),
    ("RTE", "R1 from S1 by U1 ."),
    ("SUB", "U1 on T1 with P1 cr ."),
    ("FLG", "L1 ."),
    (
        "TFM",
        "1 points P1 at 0 . 2 signal S1 at 0, S2 at 1 . 3 track T1 at 0 .",
    ),
    ("PRR", "Q1 L1 s ."),
    ("PFM", ""),
    ("FOP", ""),
    ("OPT", ""),
    ("IPT", ""),
];

/// The files behind TFM, with no entries.
const BEHIND_TFM: &str = "file PRR\nfile PFM\nfile FOP\nfile OPT\nfile IPT\n";

const PTS: usize = 0;

const SIG: usize = 1;

const TCS: usize = 2;

const RTE: usize = 3;

const SUB: usize = 4;

const FLG: usize = 5;

const TFM: usize = 6;

const PRR: usize = 7;

const FOP: usize = 9;

/// The entries of a file, where these files have other entries than the sound ones.
fn entries_of<'a>(others: &[(usize, &'a str)], file: usize, sound: &'a str) -> &'a str {
    for (other, entries) in others {
        if *other == file {
            return *entries;
        }
    }
    sound
}

/// The sound files, of which some have other entries. The entries of each stand on one line: those of PTS on
/// line 2, and so on up to those of IPT on line 24.
fn with_others(alloc: Global, others: &[(usize, &str)]) -> Result<String, Fail> {
    let mut text = String::new(alloc);
    for (file, (name, sound)) in SOUND.iter().enumerate() {
        text.push_str("file ")?;
        text.push_str(name)?;
        text.push_str("\n")?;
        text.push_str(entries_of(others, file, sound))?;
        text.push_str("\n")?;
    }
    Ok(text)
}

/// The sound files, of which one has other entries.
fn with_entries(alloc: Global, file: usize, entries: &str) -> Result<String, Fail> {
    with_others(alloc, &[(file, entries)])
}

/// What is answered to a text that is spelled well.
pub fn answer_to(
    rt: &impl Abort,
    alloc: Global,
    text: &[u8],
) -> Result<Result<DataSet, ResolveFault>, Fail> {
    assert!(rt; text.len() <= 2_097_152);
    let mut tokens = Tokens::new(text, 0);
    let tree = read_source(alloc, &mut tokens)?;
    Ok(resolve(alloc, text, &tree))
}

/// The faults of a text.
fn faults_in(rt: &impl Abort, alloc: Global, text: &[u8]) -> Result<Vec<Fault>, Fail> {
    match answer_to(rt, alloc, text)? {
        Ok(_) => Ok(Vec::new(alloc)),
        Err(ResolveFault::Faults(list)) => Ok(list.items),
        Err(ResolveFault::Memory) => Err("no memory")?,
    }
}

/// The faults, each as its place, its code and its characters.
fn show_faults(alloc: Global, text: &[u8], faults: &[Fault]) -> Result<String, Fail> {
    let mut shown = String::new(alloc);
    for fault in faults {
        let place = fault.spot.place;
        let start = fault.spot.start as usize;
        let end = start.saturating_add(usize::from(fault.spot.len));
        if !shown.is_empty() {
            shown.push_str(", ")?;
        }
        let code = fault.code;
        shown.push_str(format!(in alloc; "{}:{} N{code} ", place.line, place.column)?.as_str())?;
        for letter in text.get(start..end).unwrap_or(b"?") {
            shown.push(char::from(*letter))?;
        }
    }
    Ok(shown)
}

fn check_faults(rt: &impl Abort, alloc: Global, text: &str, want: &str) -> Result<(), Fail> {
    let faults = faults_in(rt, alloc, text.as_bytes())?;
    let shown = show_faults(alloc, text.as_bytes(), faults.as_slice())?;
    assert_eq!(rt; shown.as_str(), want, "in {text}");
    Ok(())
}

/// The same for a text whose files go up to TFM.
fn check_identities(rt: &impl Abort, alloc: Global, text: &str, want: &str) -> Result<(), Fail> {
    let whole = format!(in alloc; "{text}{BEHIND_TFM}")?;
    check_faults(rt, alloc, whole.as_str(), want)
}

fn check_rows(rt: &impl Abort, alloc: Global, rows: &[(usize, &str, &str)]) -> Result<(), Fail> {
    for (file, entries, want) in rows {
        let text = with_entries(alloc, *file, entries)?;
        check_faults(rt, alloc, text.as_str(), want)?;
    }
    Ok(())
}

/// The first cell of a line of a table, and what stands behind it.
fn first_cell(line: &str) -> (&str, &str) {
    let (cell, behind) = line.split_once('|').unwrap_or((line, ""));
    (cell.trim(), behind.trim())
}

/// The place of a file.
fn file_of(name: &str) -> Result<usize, Fail> {
    match SOUND.iter().position(|(file, _)| *file == name) {
        Some(place) => Ok(place),
        None => Err("no such file")?,
    }
}

/// Checks the lines of a table, each a file with other entries than the sound ones and the faults that
/// these have.
fn check_table(rt: &impl Abort, alloc: Global, table: &str) -> Result<(), Fail> {
    for line in table.lines() {
        let (file, row) = first_cell(line);
        let (entries, want) = first_cell(row);
        let text = with_entries(alloc, file_of(file)?, entries)?;
        check_faults(rt, alloc, text.as_str(), want)?;
    }
    Ok(())
}

/// Checks the lines of a table, each two files with other entries than the sound ones and the faults that
/// these have.
fn check_pairs(rt: &impl Abort, alloc: Global, table: &str) -> Result<(), Fail> {
    for line in table.lines() {
        let (file, row) = first_cell(line);
        let (entries, row) = first_cell(row);
        let (other, row) = first_cell(row);
        let (others, want) = first_cell(row);
        let text = with_others(
            alloc,
            &[(file_of(file)?, entries), (file_of(other)?, others)],
        )?;
        check_faults(rt, alloc, text.as_str(), want)?;
    }
    Ok(())
}

/// Names that are declared. Each line has a file, its entries, and their faults.
const DECLARED_NAMES: &str = "\
PTS | P1 over T1 . |
PTS | P1 over T1 . P1 over T1 . | 2:14 N2 P1
PTS | P1 over T1 . P2 over T1 . | 2:14 N8 P2
PTS | P1 over T1 . P2 over T1 . P2 over T1 . | 2:14 N8 P2, 2:27 N2 P2
SIG | S1 . S2 . S1 . | 4:11 N2 S1
SIG | S1 . S2 . S3 . | 4:11 N8 S3
SIG | S1 . S2 . S3 . S3 . | 4:11 N8 S3, 4:16 N2 S3
TCS | T1 . T1 . | 6:6 N2 T1
TCS | T1 . T2 . | 6:6 N8 T2
TCS | T1 . T2 . T2 . | 6:6 N8 T2, 6:11 N2 T2
RTE | R1 from S1 by U1 . R1 from S2 by U1 . | 8:20 N2 R1
SUB | U1 on T1 with P1 cr . U1 on T1 . | 10:23 N2 U1
FLG | L1 . L1 . | 12:6 N2 L1
FLG | L2 . L1 . L2 . L2 . | 12:11 N2 L2, 12:16 N2 L2
TFM | 1 points P1 at 0 . 2 signal S1 at 0, S2 at 1 . | 6:1 N8 T1
";

#[test]
fn faults_of_declared_names(rt: HostRuntime) -> Result<(), Fail> {
    check_table(&rt, rt.alloc(), DECLARED_NAMES)
}

/// Names that entries refer to. Each line has a file, its entries, and their faults.
const USED_NAMES: &str = "\
PTS | P1 over T2 . | 2:9 N1 T2
PTS | P1 over T1, T1, T1, T1 . |
PTS | P1 over T1, T1, T1, T1, T1 . | 2:25 N11 T1
PTS | P1 over T1, T1, T1, T1, T2 . | 2:25 N1 T2
RTE | R1 from S3 by U1 . | 8:9 N1 S3
RTE | R1 from S1 by U2 . | 8:15 N1 U2
RTE | R1 from S1 by U1, U1 . |
SUB | U1 on T2 . | 10:7 N1 T2
SUB | U1 on T1 with P2 cr . | 10:15 N1 P2
SUB | U1 on T1 with P1 cr, P1 cn . | 10:22 N12 P1
SUB | U1 on T1 with P2 cr, P2 cn . | 10:15 N1 P2, 10:22 N1 P2
SUB | U1 on T1 with P1 cr . U2 on T1 with P1 cn . |
";

#[test]
fn faults_of_names_that_are_used(rt: HostRuntime) -> Result<(), Fail> {
    check_table(&rt, rt.alloc(), USED_NAMES)
}

/// Addresses, names and pins of modules. Each line has a file, its entries, and their faults.
const MODULES: &str = "\
TFM | 63 points P1 at 1 . 2 signal S1 at 6, S2 at 7 . 3 track T1 at 7 . |
TFM | 0 points P1 at 0 . 2 signal S1 at 0, S2 at 1 . 3 track T1 at 0 . | 14:1 N7 0
TFM | 1 points P1 at 0 . 2 signal S1 at 0, S2 at 1 . 64 track T1 at 0 . | 14:48 N7 64
TFM | 257 points P1 at 0 . 2 signal S1 at 0, S2 at 1 . 3 track T1 at 0 . | 14:1 N7 257
TFM | 2 points P1 at 0 . 2 signal S1 at 0, S2 at 1 . 2 track T1 at 0 . | 14:20 N2 2, 14:48 N2 2
TFM | 1 points P1 at 0 . 64 signal S1 at 0, S2 at 1 . 64 track T1 at 0 . | 14:20 N7 64, 14:49 N7 64
TFM | 1 points P1 at 0 . 2 signal S1 at 0, S2 at 1, S3 at 2 . 3 track T1 at 0 . | 14:47 N1 S3
TFM | 1 points P1 at 0 . 2 signal S1 at 0, S2 at 1, S3 at 2, S3 at 3 . 3 track T1 at 0 . | 14:47 N1 S3, 14:56 N1 S3
TFM | 1 points P1 at 0 . 2 signal S1 at 0, S2 at 1, S1 at 2 . 3 track T1 at 0 . | 14:47 N9 S1
TFM | 1 points P1 at 0 . 2 signal S1 at 0, S2 at 1 . 3 track T1 at 0 . 4 signal S1 at 0 . | 14:75 N9 S1
TFM | 1 points P1 at 2 . 2 signal S1 at 0, S2 at 1 . 3 track T1 at 0 . | 14:16 N7 2
TFM | 1 points P1 at 0 . 2 signal S1 at 8, S2 at 1 . 3 track T1 at 0 . | 14:35 N7 8
TFM | 1 points P1 at 0 . 2 signal S1 at 1, S2 at 1 . 3 track T1 at 0 . | 14:44 N7 1
TFM | 1 points P1 at 0 . 2 signal S1 at 8, S2 at 8 . 3 track T1 at 256 . | 14:35 N7 8, 14:44 N7 8, 14:62 N7 256
";

#[test]
fn faults_of_modules(rt: HostRuntime) -> Result<(), Fail> {
    let two_points =
        "file PTS\nP1 over T1 . P2 over T1 .\nfile SIG\nfile TCS\nT1 .\nfile RTE\nfile SUB\nfile FLG\n\
        file TFM\n1 points P1 at 0, P2 at 0 .\n2 track T1 at 7 .\n";
    check_identities(&rt, rt.alloc(), two_points, "10:25 N7 0")?;
    check_table(&rt, rt.alloc(), MODULES)
}

/// Names of requests, and names in their bodies. An undeclared name is judged before its word, and a word by
/// the kind that the name's letter tells. Each line has a file, its entries, and their faults.
const REQUESTS: &str = "\
PRR | Q1 L1 s . Q2 L1 xs . |
PRR | Q1 L1 s . Q1 L1 s . | 16:11 N6 Q1
PRR | Q2 L1 s . Q1 L1 s . Q2 L2 s . | 16:21 N6 Q2, 16:24 N1 L2
PRR | Q1 L2 s . | 16:4 N1 L2
PRR | Q1 if L2 s then L3 s else L4 s end, L5 s . | 16:7 N1 L2, 16:17 N1 L3, 16:27 N1 L4, 16:37 N1 L5
PRR | Q1 L2 cn . | 16:4 N1 L2, 16:7 N3 cn
PRR | Q1 L2 s, P2 cr, R2 s, U2 l . | 16:4 N1 L2, 16:10 N1 P2, 16:17 N1 R2, 16:23 N1 U2
PRR | Q1 if S9 lp, T9 o then L1 s end . | 16:7 N1 S9, 16:14 N1 T9
";

#[test]
fn faults_of_requests(rt: HostRuntime) -> Result<(), Fail> {
    check_table(&rt, rt.alloc(), REQUESTS)
}

/// Words of tests and of commands. Each line has a file, its entries, and their faults.
const WORDS: &str = "\
PRR | Q1 P1 cr, P1 cn, R1 s, R1 xs, R1 xa, R1 a, U1 l, U1 f, L1 s, L1 xs . |
PRR | Q1 if P1 cr, P1 cn, P1 dn, P1 xdn, P1 dr, P1 xdr, S1 lp, S1 xlp, T1 o, T1 c, R1 s, R1 xs, R1 xa, R1 a, U1 l, U1 f, L1 s, L1 xs then L1 s end . |
PRR | Q1 L1 cn . | 16:7 N3 cn
PRR | Q1 P1 h, P1 cnf, P1 crf . | 16:7 N3 h, 16:13 N3 cnf, 16:21 N3 crf
PRR | Q1 if L1 cn then L1 s end . | 16:10 N3 cn
PRR | Q1 if L1 cnf, P1 h then L1 s end . | 16:10 N3 cnf, 16:18 N3 h
PRR | Q1 T1 o, S1 lp, P1 dn, P1 xdr . | 16:7 N4 o, 16:13 N4 lp, 16:20 N4 dn, 16:27 N4 xdr
PRR | Q1 T2 o, T2 l . | 16:4 N1 T2, 16:7 N4 o, 16:10 N1 T2, 16:13 N3 l
PRR | Q1 if 0 h, (9 l or L1 s) then L1 s end . | 16:7 N4 0, 16:13 N4 9
PRR | Q1 if P2 cnf, L1 crf then L1 s end . | 16:7 N1 P2, 16:18 N3 crf
";

#[test]
fn faults_of_words(rt: HostRuntime) -> Result<(), Fail> {
    check_table(&rt, rt.alloc(), WORDS)
}

/// When points are free to move. Each line has a file, its entries, and their faults.
const MOVES: &str = "\
PFM | P1 cn if T1 c . P1 cr if L1 s, (U1 f or R1 a) . |
PFM | P2 cn if T1 c . | 18:1 N1 P2
PFM | P1 cn if T1 c . P1 cn if T1 c . | 18:17 N6 P1
PFM | P1 cn if T1 c . P1 cr if T1 c . P1 cn if T1 c . P1 cr if T1 c . | 18:33 N6 P1, 18:49 N6 P1
PFM | P2 cn if T1 c . P2 cn if T1 c . | 18:1 N1 P2, 18:17 N1 P2
PFM | P1 cn if T2 c . P1 cn if L1 cn . | 18:10 N1 T2, 18:17 N6 P1, 18:29 N3 cn
PFM | P1 cn if P1 cnf, P1 crf . | 18:13 N10 cnf, 18:21 N10 crf
PFM | P1 cn if P2 cnf, L1 crf, P1 h . | 18:10 N1 P2, 18:13 N10 cnf, 18:21 N3 crf, 18:29 N3 h
PFM | P1 cn if 0 h, (T1 c or 8 l) . | 18:10 N4 0, 18:24 N4 8
";

#[test]
fn faults_of_moves(rt: HostRuntime) -> Result<(), Fail> {
    check_table(&rt, rt.alloc(), MOVES)
}

/// Statements. Each line has a file, its entries, and their faults.
const STATEMENTS: &str = "\
FOP | P1 cr, P1 cn, R1 s, R1 xs, R1 xa, R1 a, U1 l, U1 f, L1 s, L1 xs if T1 c, P1 dn, S1 lp . |
FOP | L1 s if L1 s . L1 s if L1 s . |
FOP | L2 s if L1 s . | 20:1 N1 L2
FOP | L1 s, L2 s, U2 f if L3 s . | 20:7 N1 L2, 20:13 N1 U2, 20:21 N1 L3
FOP | L1 cn, P1 cnf, T1 h if L1 cn . | 20:4 N3 cn, 20:11 N3 cnf, 20:19 N3 h, 20:27 N3 cn
FOP | T1 o, S1 lp, P1 dn, P1 xdr if L1 s . | 20:4 N4 o, 20:10 N4 lp, 20:17 N4 dn, 20:24 N4 xdr
FOP | T2 o, T2 l if L1 s . | 20:1 N1 T2, 20:4 N4 o, 20:7 N1 T2, 20:10 N3 l
FOP | L1 s if 0 h, (9 l or L1 s) . | 20:9 N4 0, 20:15 N4 9
";

#[test]
fn faults_of_statements(rt: HostRuntime) -> Result<(), Fail> {
    check_table(&rt, rt.alloc(), STATEMENTS)
}

/// What goes out to modules. Each line has a file, its entries, and their faults.
const OUTPUTS: &str = "\
OPT | 1 bit 0 if P1 cn bit 7 if P1 cr . 2 bit 0 if R1 s, (U1 l or L1 s) . |
OPT | 4 bit 0 if T1 c . | 22:1 N1 4
OPT | 257 bit 0 if T1 c . | 22:1 N1 257
OPT | 1 bit 0 if T1 c . 1 bit 1 if T1 c . | 22:19 N6 1
OPT | 4 bit 0 if T1 c . 4 bit 1 if T1 c . | 22:1 N1 4, 22:19 N1 4
OPT | 1 bit 8 if T1 c . | 22:7 N7 8
OPT | 1 bit 0 if T1 c bit 0 if T1 c . | 22:21 N7 0
OPT | 1 bit 8 if T1 c bit 8 if T1 c bit 256 if T1 c . | 22:7 N7 8, 22:21 N7 8, 22:35 N7 256
OPT | 1 bit 0 if T2 c, L1 cn, 0 h . | 22:12 N1 T2, 22:21 N3 cn, 22:25 N4 0
";

#[test]
fn faults_of_outputs(rt: HostRuntime) -> Result<(), Fail> {
    check_table(&rt, rt.alloc(), OUTPUTS)
}

/// What comes in from modules. Each line has a file, its entries, and their faults.
const INPUTS: &str = "\
IPT | 1 if 0 h then P1 dn else P1 xdn end, if 7 l then P1 dr else P1 xdr end . 2 S1 lp, S2 xlp . 3 T1 c, T1 o, L1 s, L1 xs . |
IPT | 4 L1 s . | 24:1 N1 4
IPT | 257 L1 s . | 24:1 N1 257
IPT | 1 L1 s . 1 L1 xs . | 24:10 N6 1
IPT | 4 L1 s . 4 L1 s . | 24:1 N1 4, 24:10 N1 4
IPT | 1 if T2 c, L1 cn then L2 s else T2 o end . | 24:6 N1 T2, 24:15 N3 cn, 24:23 N1 L2, 24:33 N1 T2
IPT | 1 L1 o, P1 cnf, T1 h . | 24:6 N3 o, 24:12 N3 cnf, 24:20 N3 h
IPT | 1 P1 cr, P1 cn, R1 s, R1 xa, U1 l, U1 f . | 24:6 N4 cr, 24:13 N4 cn, 24:20 N4 s, 24:26 N4 xa, 24:33 N4 l, 24:39 N4 f
IPT | 1 P2 cr, P2 l . | 24:3 N1 P2, 24:6 N4 cr, 24:10 N1 P2, 24:13 N3 l
IPT | 1 if 8 h then L1 s end . | 24:6 N7 8
IPT | 1 if 256 h, (0 h or 9 l) then L1 s end . | 24:6 N7 256, 24:21 N7 9
";

#[test]
fn faults_of_inputs(rt: HostRuntime) -> Result<(), Fail> {
    check_table(&rt, rt.alloc(), INPUTS)
}

/// What one file says and another asks for: when points are free to go to a lie, and which addresses have a
/// module. Each line has two files with their entries, and the faults.
const TWO_FILES: &str = "\
PFM | | PRR | Q1 if P1 cnf, P1 crf then L1 s end . | 16:10 N5 cnf, 16:18 N5 crf
PFM | P1 cn if T1 c . | PRR | Q1 if P1 cnf, P1 crf then L1 s end . | 16:18 N5 crf
PFM | P1 cr if T1 c . | PRR | Q1 if P1 cnf, P1 crf then L1 s end . | 16:10 N5 cnf
PFM | P1 cn if T1 c . P1 cr if T1 c . | PRR | Q1 if P1 cnf, P1 crf then L1 s end . |
PFM | P1 cn if T1 c . P1 cn if T1 c . | PRR | Q1 if P1 cnf, P1 crf then L1 s end . | 16:18 N5 crf, 18:17 N6 P1
PFM | P2 cn if T1 c . | PRR | Q1 if P2 cnf, P1 cnf then L1 s end . | 16:7 N1 P2, 16:18 N5 cnf, 18:1 N1 P2
PFM | P1 cn if T1 c . | PRR | Q1 P1 cnf . | 16:7 N3 cnf
PFM | P1 cn if T1 c . | FOP | L1 s if P1 cnf, P1 crf . | 20:20 N5 crf
PFM | P1 cr if T1 c . | OPT | 1 bit 0 if P1 cnf, P1 crf . | 22:15 N5 cnf
PFM | P1 cn if T1 c . | IPT | 1 if P1 cnf, P1 crf then L1 s end . | 24:17 N5 crf
OPT | 1 bit 0 if T1 c . | IPT | 1 L1 s . |
TFM | 64 points P1 at 0 . 2 signal S1 at 0, S2 at 1 . 3 track T1 at 0 . | OPT | 64 bit 0 if T1 c . 1 bit 0 if T1 c . | 14:1 N7 64, 22:20 N1 1
TFM | 64 points P1 at 0 . 2 signal S1 at 0, S2 at 1 . 3 track T1 at 0 . | IPT | 64 L1 s . 1 L1 s . | 14:1 N7 64, 24:11 N1 1
";

#[test]
fn faults_between_two_files(rt: HostRuntime) -> Result<(), Fail> {
    check_pairs(&rt, rt.alloc(), TWO_FILES)
}

#[test]
fn statements_up_to_their_limit(rt: HostRuntime) -> Result<(), Fail> {
    let alloc = rt.alloc();
    let mut statements = String::new(alloc);
    for _ in 0..4096 {
        statements.push_str("L1 s if L1 s . ")?;
    }
    check_rows(&rt, alloc, &[(FOP, statements.as_str(), "")])?;
    // Each of them takes 15 columns.
    statements.push_str("L1 s, L1 xs if L1 s . L2 s if L1 s . L1 s if L2 s .")?;
    let want = "20:61441 N11 L1, 20:61463 N1 L2, 20:61478 N11 L1, 20:61486 N1 L2";
    check_rows(&rt, alloc, &[(FOP, statements.as_str(), want)])
}

#[test]
fn faults_of_rules_follow_those_of_identities(rt: HostRuntime) -> Result<(), Fail> {
    let text = "file PTS\nfile SIG\nfile TCS\nfile RTE\nfile SUB\nfile FLG\nL1 . L1 .\n\
        file TFM\n0 track .\nfile PRR\nQ1 L2 s . Q1 L1 o .\nfile PFM\nP1 cn if 1 h .\n\
        file FOP\nL1 c if L3 s .\nfile OPT\n1 bit 9 if L1 f .\nfile IPT\n0 if 8 h then L1 l end .\n";
    let want = "7:6 N2 L1, 9:1 N7 0, 11:4 N1 L2, 11:11 N6 Q1, 11:17 N3 o, 13:1 N1 P1, 13:10 N4 1, \
        15:4 N3 c, 15:9 N1 L3, 17:1 N1 1, 17:7 N7 9, 17:15 N3 f, 19:6 N7 8, 19:18 N3 l";
    check_faults(&rt, rt.alloc(), text, want)
}

#[test]
fn a_request_past_the_limit_that_is_declared_twice(rt: HostRuntime) -> Result<(), Fail> {
    let alloc = rt.alloc();
    let mut entries = String::new(alloc);
    entries.push_str("Q1 L1 s .")?;
    put_names(alloc, &mut entries, 0..1024, " Q", " L1 s .")?;
    entries.push_str(" Q1 L1 s .")?;
    let text = with_entries(alloc, PRR, entries.as_str())?;
    // Each entry takes 13 columns, and the first takes 9.
    check_faults(
        &rt,
        alloc,
        text.as_str(),
        "16:13310 N11 Q1023, 16:13323 N6 Q1",
    )
}

#[test]
fn every_name_fault_is_listed(rt: HostRuntime) -> Result<(), Fail> {
    let text = "file PTS\nP1 over T1 .\nfile SIG\nS1 .\nfile TCS\nT1 .\nfile RTE\nfile SUB\n\
        U1 on T2 with P1 cr, P1 cn .\nfile FLG\nfile TFM\n1 points P1 at 0 .\n64 track T1 at 8 .\n";
    let want = "4:1 N8 S1, 9:7 N1 T2, 9:22 N12 P1, 13:1 N7 64, 13:16 N7 8";
    check_identities(&rt, rt.alloc(), text, want)
}

/// Adds names of four digits, each with what stands before and behind it.
fn put_names(
    alloc: Global,
    text: &mut String,
    names: std::ops::Range<u32>,
    before: &str,
    behind: &str,
) -> Result<(), Fail> {
    for n in names {
        text.push_str(format!(in alloc; "{before}{n:04}{behind}")?.as_str())?;
    }
    Ok(())
}

/// How many faults have the code.
fn count_of(faults: &[Fault], code: u8) -> usize {
    faults.iter().filter(|fault| fault.code == code).count()
}

/// The sound entries of a file with so many more, of names that nothing else has.
fn with_more(
    alloc: Global,
    file: usize,
    more: u32,
    letter: &str,
    behind: &str,
) -> Result<String, Fail> {
    let mut entries = String::new(alloc);
    for (place, (_name, sound)) in SOUND.iter().enumerate() {
        if place == file {
            entries.push_str(sound)?;
        }
    }
    put_names(alloc, &mut entries, 0..more, letter, behind)?;
    with_entries(alloc, file, entries.as_str())
}

#[test]
fn entries_up_to_their_limit(rt: HostRuntime) -> Result<(), Fail> {
    let alloc = rt.alloc();
    // The file, its letter, what stands behind a name, how many more entries there may be, and whether
    // they are to be wired.
    let rows = [
        (PTS, " P", " over T1 .", 125, true),
        (SIG, " S", " .", 502, true),
        (TCS, " T", " .", 503, true),
        (RTE, " R", " from S1 by U1 .", 511, false),
        (SUB, " U", " on T1 .", 1023, false),
        (FLG, " L", " .", 511, false),
        (PRR, " Q", " L1 s .", 1023, false),
    ];
    for (file, letter, behind, more, is_wired) in rows {
        let unwired = if is_wired { more as usize } else { 0 };
        let text = with_more(alloc, file, more, letter, behind)?;
        let faults = faults_in(&rt, alloc, text.as_str().as_bytes())?;
        assert_eq!(rt; count_of(faults.as_slice(), 8), unwired, "in {file}");
        assert_eq!(rt; faults.len(), unwired, "in {file}");
        let text = with_more(alloc, file, more + 1, letter, behind)?;
        let faults = faults_in(&rt, alloc, text.as_str().as_bytes())?;
        assert_eq!(rt;
            count_of(faults.as_slice(), 8),
            unwired,
            "past the limit in {file}"
        );
        assert_eq!(rt;
            count_of(faults.as_slice(), 11),
            1,
            "past the limit in {file}"
        );
        assert_eq!(rt; faults.len(), unwired + 1, "past the limit in {file}");
    }
    Ok(())
}

#[test]
fn a_name_past_the_limit_that_is_declared_twice(rt: HostRuntime) -> Result<(), Fail> {
    let alloc = rt.alloc();
    let mut entries = String::new(alloc);
    entries.push_str("L1 .")?;
    put_names(alloc, &mut entries, 0..512, " L", " .")?;
    entries.push_str(" L1 . L0000 . L9999 .")?;
    let text = with_entries(alloc, FLG, entries.as_str())?;
    // Each entry takes 8 columns, and the first takes 4.
    let want = "12:4094 N11 L0511, 12:4102 N2 L1, 12:4107 N2 L0000, 12:4115 N11 L9999";
    check_faults(&rt, alloc, text.as_str(), want)
}

#[test]
fn names_in_an_entry_up_to_their_limit(rt: HostRuntime) -> Result<(), Fail> {
    let alloc = rt.alloc();
    let mut route = String::new(alloc);
    route.push_str("R1 from S1 by U1")?;
    for _ in 1..32 {
        route.push_str(", U1")?;
    }
    let most = format!(in alloc; "{route} .")?;
    check_rows(&rt, alloc, &[(RTE, most.as_str(), "")])?;
    // The thirty-third name stands 32 times 4 columns behind the first.
    let past = format!(in alloc; "{route}, U1 .")?;
    check_rows(&rt, alloc, &[(RTE, past.as_str(), "8:143 N11 U1")])?;
    let unknown = format!(in alloc; "{route}, U2 .")?;
    check_rows(&rt, alloc, &[(RTE, unknown.as_str(), "8:143 N1 U2")])?;
    let points = |subs: &str, want: &str| -> Result<(), Fail> {
        let text = format!(in alloc;
            "file PTS\nP1 over T1 . P2 over T1 . P3 over T1 . P4 over T1 . P5 over T1 .\nP6 over T1 . P7 over T1 . \
            P8 over T1 . P9 over T1 .\nfile SIG\nfile TCS\nT1 .\nfile RTE\nfile SUB\n{subs}\nfile FLG\nfile TFM\n\
            1 points P1 at 0, P2 at 1 . 2 points P3 at 0, P4 at 1 . 3 points P5 at 0, P6 at 1 .\n\
            4 points P7 at 0, P8 at 1 . 5 points P9 at 0 . 6 track T1 at 0 .\n"
        )?;
        check_identities(&rt, alloc, text.as_str(), want)
    };
    let most = "U1 on T1 with P1 cr, P2 cr, P3 cr, P4 cr, P5 cr, P6 cr, P7 cr, P8 cr";
    points(format!(in alloc; "{most} .")?.as_str(), "")?;
    points(
        format!(in alloc; "{most}, P9 cr .")?.as_str(),
        "9:71 N11 P9",
    )?;
    points(
        format!(in alloc; "{most}, P1 cr .")?.as_str(),
        "9:71 N12 P1",
    )?;
    points(format!(in alloc; "{most}, P0 cr .")?.as_str(), "9:71 N1 P0")
}

#[test]
fn a_track_past_all_numbers_is_declared(rt: HostRuntime) -> Result<(), Fail> {
    let alloc = rt.alloc();
    let mut text = String::new(alloc);
    text.push_str("file PTS\nP1 over T69999, T70000 .\nfile SIG\nfile TCS\n")?;
    put_names(alloc, &mut text, 0..10_000, "T0", " .\n")?;
    for tens in ["T1", "T2", "T3", "T4", "T5", "T6"] {
        put_names(alloc, &mut text, 0..10_000, tens, " .\n")?;
    }
    text.push_str("file RTE\nfile SUB\nfile FLG\nfile TFM\n1 points P1 at 0 .\n")?;
    text.push_str(BEHIND_TFM)?;
    let faults = faults_in(&rt, alloc, text.as_str().as_bytes())?;
    assert_eq!(rt; count_of(faults.as_slice(), 1), 1);
    assert_eq!(rt; count_of(faults.as_slice(), 8), 504);
    assert_eq!(rt; count_of(faults.as_slice(), 11), 69_496);
    assert_eq!(rt; faults.len(), 70_001);
    let first = show_faults(alloc, text.as_str().as_bytes(), &faults.as_slice()[..1])?;
    assert_eq!(rt; first.as_str(), "2:17 N1 T70000");
    Ok(())
}

#[test]
fn names_are_found_in_a_set(rt: HostRuntime) -> Result<(), Fail> {
    let alloc = rt.alloc();
    let mut names = NameSet::new(alloc);
    assert!(rt; !names.add(alloc, b"T2")?);
    assert!(rt; !names.add(alloc, b"T1")?);
    assert!(rt; names.add(alloc, b"T2")?);
    assert_eq!(rt; names.len(), 2);
    assert_eq!(rt; names.find(b"T1"), Some(1));
    assert_eq!(rt; names.find(b"T"), None);
    assert!(rt; names.contains(b"T2") && !names.contains(b"T3"));
    Ok(())
}
