use super::*;
use ssi_base::Place;
use ssi_lexer::Tokens;
use std::alloc::Global;
use std::process::Abort;
use std::test::Fail;

/// A name of each kind that an item and a command may have.
const NAMES: [&str; 6] = ["P1", "S1", "T1", "R1", "U1", "L1"];

/// The words that an item and a command may have.
const WORDS: [&str; 19] = [
    "cn", "cr", "cnf", "crf", "dn", "dr", "xdn", "xdr", "lp", "xlp", "c", "o", "s", "xs", "xa",
    "a", "l", "f", "h",
];

/// Tokens that are neither such a name nor such a word.
const OTHERS: [&str; 20] = [
    "Q1", "L", "A1", "if", "then", "else", "end", "file", "or", "and", "not", "over", "points",
    "sx", "hh", "7", ",", ".", "(", ")",
];

/// What begins no token, with the code of its fault.
const LEXICAL: [(&str, &str); 3] = [("#", "L1"), ("ABCDEFGHIJKLMNOPQ", "L2"), ("00", "L3")];

/// A reader of a part of the text.
#[derive(Clone, Copy)]
enum Reader {
    Condition,
    Body,
    Command,
}

/// What a reader answers to a text: the tree with its names, words and numbers, or the fault, and the byte past
/// the last token taken.
#[derive(Drop)]
struct Shown<'a> {
    text: &'a str,
    answer: String,
    spots: Vec<Spot>,
    position: usize,
}

/// A name, word or number, and the mark behind it.
fn show_spot(shown: &mut Shown<'_>, spot: Spot, mark: &str) -> Result<(), Fail> {
    let start = spot.start as usize;
    let end = start + spot.len as usize;
    for letter in shown.text.as_bytes().get(start..end).unwrap_or(b"?") {
        shown.answer.push(char::from(*letter))?;
    }
    shown.answer.push_str(mark)?;
    shown.spots.push(spot)?;
    Ok(())
}

/// A test as `L1=s;`, a bit as `0=h;`, a group as `(L1=s;)(L2=s;);`.
#[cycle(show_condition)]
fn show_item(shown: &mut Shown<'_>, item: &ItemTree) -> Result<(), Fail> {
    match item {
        ItemTree::Test { name, word } => {
            show_spot(shown, *name, "=")?;
            show_spot(shown, *word, ";")
        }
        ItemTree::Bit { number, word } => {
            show_spot(shown, *number, "=")?;
            show_spot(shown, *word, ";")
        }
        ItemTree::Any(alternatives) => {
            for alternative in alternatives.as_slice() {
                shown.answer.push_str("(")?;
                show_condition(shown, alternative)?;
                shown.answer.push_str(")")?;
            }
            shown.answer.push_str(";")?;
            Ok(())
        }
    }
}

#[cycle(show_condition)]
fn show_condition(shown: &mut Shown<'_>, tree: &CondTree) -> Result<(), Fail> {
    for item in tree.items.as_slice() {
        show_item(shown, item)?;
    }
    Ok(())
}

/// A command as `L1:=s;`.
fn show_command(shown: &mut Shown<'_>, tree: &CommandTree) -> Result<(), Fail> {
    show_spot(shown, tree.name, ":=")?;
    show_spot(shown, tree.word, ";")
}

/// A choice as `[L1=s;?L2:=s;]` or `[L1=s;?L2:=s;|L2:=xs;]`.
#[cycle(show_body)]
fn show_part(shown: &mut Shown<'_>, part: &PartTree) -> Result<(), Fail> {
    match part {
        PartTree::Do(command) => show_command(shown, command),
        PartTree::If {
            guard,
            then_body,
            else_body,
        } => {
            shown.answer.push_str("[")?;
            show_condition(shown, guard)?;
            shown.answer.push_str("?")?;
            show_body(shown, then_body)?;
            if let Some(body) = else_body {
                shown.answer.push_str("|")?;
                show_body(shown, body)?;
            }
            shown.answer.push_str("]")?;
            Ok(())
        }
    }
}

#[cycle(show_body)]
fn show_body(shown: &mut Shown<'_>, tree: &BodyTree) -> Result<(), Fail> {
    for part in tree.parts.as_slice() {
        show_part(shown, part)?;
    }
    Ok(())
}

/// A fault as its place and its code.
fn show_fault(alloc: Global, fault: ReadFault) -> Result<String, Fail> {
    let (place, kind, code) = match fault {
        ReadFault::Lex(fault) => (fault.place, 'L', fault.code),
        ReadFault::Syntax(place) => (place, 'S', 1),
        ReadFault::TooDeep(place) => (place, 'S', 2),
        ReadFault::Memory => (Place { line: 0, column: 0 }, 'M', 0),
    };
    Ok(format!(in alloc; "{}:{} {kind}{code}", place.line, place.column)?)
}

/// What the reader answers to the text, its tree or its fault.
fn read<'a>(
    rt: &impl Abort,
    alloc: Global,
    reader: Reader,
    text: &'a str,
) -> Result<Shown<'a>, Fail> {
    let bytes = text.as_bytes();
    assert!(rt; bytes.len() <= 10_000);
    let mut tokens = Tokens::new(bytes, 0);
    let mut shown = Shown {
        text,
        answer: String::new(alloc),
        spots: Vec::new(alloc),
        position: 0,
    };
    match reader {
        Reader::Condition => match read_cond(alloc, &mut tokens) {
            Ok(tree) => show_condition(&mut shown, &tree)?,
            Err(fault) => shown.answer = show_fault(alloc, fault)?,
        },
        Reader::Body => match read_body(alloc, &mut tokens) {
            Ok(tree) => show_body(&mut shown, &tree)?,
            Err(fault) => shown.answer = show_fault(alloc, fault)?,
        },
        Reader::Command => match read_command(&mut tokens) {
            Ok(tree) => show_command(&mut shown, &tree)?,
            Err(fault) => shown.answer = show_fault(alloc, fault)?,
        },
    }
    shown.position = tokens.position();
    Ok(shown)
}

/// The reader answers this to the text.
fn check(
    rt: &impl Abort,
    alloc: Global,
    reader: Reader,
    text: &str,
    want: &str,
) -> Result<(), Fail> {
    let shown = read(rt, alloc, reader, text)?;
    assert_eq!(rt; shown.answer.as_str(), want, "{text}");
    Ok(())
}

#[test]
fn conditions_are_read(rt: HostRuntime) -> Result<(), Fail> {
    let alloc = rt.alloc();
    for (text, want) in [
        ("L1 s", "L1=s;"),
        ("L1s", "L1=s;"),
        ("0 h", "0=h;"),
        ("7l", "7=l;"),
        ("1234567 h", "1234567=h;"),
        ("L1 h, L1 l, 0 h", "L1=h;L1=l;0=h;"),
        ("P1 cnf, LAMP-2\nxs / two\n", "P1=cnf;LAMP-2=xs;"),
        ("(L1 s or L2 s)", "(L1=s;)(L2=s;);"),
        (
            "(L1 s or T1 c or 0 l or P1 cn)",
            "(L1=s;)(T1=c;)(0=l;)(P1=cn;);",
        ),
        (
            "U1 f, (L1 s, L2 s or L3 s, 0 h), R1 a",
            "U1=f;(L1=s;L2=s;)(L3=s;0=h;);R1=a;",
        ),
        ("((L1 s or L2 s) or L3 s)", "((L1=s;)(L2=s;);)(L3=s;);"),
        (
            "(L1 s or (L2 s or L3 s), L4 s or (L5 s or (L6 s or L7 s)))",
            "(L1=s;)((L2=s;)(L3=s;);L4=s;)((L5=s;)((L6=s;)(L7=s;);););",
        ),
        (
            "(L1 s or L2 s), (L3 s or L4 s)",
            "(L1=s;)(L2=s;);(L3=s;)(L4=s;);",
        ),
    ] {
        check(&rt, alloc, Reader::Condition, text, want)?;
    }
    one_cond_tree();
    Ok(())
}

#[test]
fn commands_and_bodies_are_read(rt: HostRuntime) -> Result<(), Fail> {
    let alloc = rt.alloc();
    for (text, want) in [
        ("L1 s", "L1:=s;"),
        ("P1 cn, LAMP-2 xs / two\n, R1 h", "P1:=cn;LAMP-2:=xs;R1:=h;"),
        ("if L1 s then L2 s end", "[L1=s;?L2:=s;]"),
        (
            "if 0 h, T1 c then T1 c, T2 o else T1 o end",
            "[0=h;T1=c;?T1:=c;T2:=o;|T1:=o;]",
        ),
        (
            "L3 s, if P1 cnf then R1 a end, L6 s, if L1 s then L1 xs else L1 s end",
            "L3:=s;[P1=cnf;?R1:=a;]L6:=s;[L1=s;?L1:=xs;|L1:=s;]",
        ),
        (
            "if (L1 s or L2 s), L3 s then L4 s end",
            "[(L1=s;)(L2=s;);L3=s;?L4:=s;]",
        ),
        // An `else` belongs to the inner choice, until that has its own or its `end`.
        (
            "if L1 s then if L2 s then L3 s else L4 s end end",
            "[L1=s;?[L2=s;?L3:=s;|L4:=s;]]",
        ),
        (
            "if L1 s then if L2 s then L3 s end else L4 s end",
            "[L1=s;?[L2=s;?L3:=s;]|L4:=s;]",
        ),
        (
            "if L1 s then if L2 s then L3 s else L4 s end else L5 s end",
            "[L1=s;?[L2=s;?L3:=s;|L4:=s;]|L5:=s;]",
        ),
        (
            "if L1 s then L2 s else if L3 s then L4 s else L5 s end end",
            "[L1=s;?L2:=s;|[L3=s;?L4:=s;|L5:=s;]]",
        ),
        (
            "if L1 s then L2 s, if L3 s then if L4 s then L5 s end end, L6 s end, L7 s",
            "[L1=s;?L2:=s;[L3=s;?[L4=s;?L5:=s;]]L6:=s;]L7:=s;",
        ),
    ] {
        check(&rt, alloc, Reader::Body, text, want)?;
    }
    check(&rt, alloc, Reader::Command, "P1 cn", "P1:=cn;")?;
    one_body_tree();
    Ok(())
}

#[test]
fn each_name_goes_with_each_word(rt: HostRuntime) -> Result<(), Fail> {
    let alloc = rt.alloc();
    for name in NAMES {
        for word in WORDS {
            let text = format!(in alloc; "if {name} {word} then {name} {word} end")?;
            let want = format!(in alloc; "[{name}={word};?{name}:={word};]")?;
            check(&rt, alloc, Reader::Body, text.as_str(), want.as_str())?;
        }
    }
    Ok(())
}

#[test]
fn spots_tell_where_they_stand(rt: HostRuntime) -> Result<(), Fail> {
    let alloc = rt.alloc();
    let text = "if (12 h / bit\n or T-1 o) then\n\n\tP1 cnf else L1 s end";
    let shown = read(&rt, alloc, Reader::Body, text)?;
    let want = [
        (4, 2, 2, 1, 5),
        (7, 1, 3, 1, 8),
        (19, 3, 5, 2, 5),
        (23, 1, 6, 2, 9),
        (33, 2, 9, 4, 2),
        (36, 3, 10, 4, 5),
        (45, 2, 12, 4, 14),
        (48, 1, 13, 4, 17),
    ];
    assert_eq!(rt; shown.spots.len(), want.len());
    for (spot, (start, len, token, line, column)) in shown.spots.iter().zip(want) {
        let place = Place { line, column };
        assert!(rt;
            *spot
                == Spot {
                    start,
                    len,
                    token,
                    place
                }
        );
    }
    Ok(())
}

#[test]
fn the_first_fault_is_told_at_its_place(rt: HostRuntime) -> Result<(), Fail> {
    let alloc = rt.alloc();
    for (text, want) in [
        ("", "1:1 S1"),
        ("L1", "1:3 S1"),
        ("L1 q", "1:4 S1"),
        ("Q1 s", "1:1 S1"),
        ("0 s", "1:3 S1"),
        ("L1 s,", "1:6 S1"),
        ("(L1 s)", "1:6 S1"),
        ("(L1 s or L2 s", "1:14 S1"),
        // Of a lexical and a syntax fault the first.
        ("L1 #", "1:4 L1"),
        ("L1 . #", "1:4 S1"),
        ("L1 ABCDEFGHIJKLMNOPQ .", "1:4 L2"),
        ("00 h", "1:1 L3"),
    ] {
        check(&rt, alloc, Reader::Condition, text, want)?;
    }
    for (text, want) in [
        ("if L1 s L2 s end", "1:9 S1"),
        ("if L1 s then end", "1:14 S1"),
        ("if L1 s then L2 s else end", "1:24 S1"),
        ("if L1 s then L2 s", "1:18 S1"),
        ("if L1 s then # end", "1:14 L1"),
    ] {
        check(&rt, alloc, Reader::Body, text, want)?;
    }
    check(&rt, alloc, Reader::Command, "R1", "1:3 S1")
}

/// The reader takes `L1 s` alone where this follows, or tells this fault of it.
fn check_before(
    rt: &impl Abort,
    alloc: Global,
    reader: Reader,
    after: &str,
    fault: Option<&str>,
) -> Result<(), Fail> {
    let text = format!(in alloc; "L1 s {after}")?;
    let shown = read(rt, alloc, reader, text.as_str())?;
    match fault {
        Some(want) => assert_eq!(rt; shown.answer.as_str(), want, "{text}"),
        None => {
            assert_eq!(rt; shown.spots.len(), 2, "{text}");
            assert_eq!(rt; shown.position, 4, "{text}");
        }
    }
    Ok(())
}

#[test]
fn a_condition_and_a_body_end_before_any_token_but_a_comma(rt: HostRuntime) -> Result<(), Fail> {
    let alloc = rt.alloc();
    for reader in [Reader::Condition, Reader::Body, Reader::Command] {
        let is_list = !matches!(reader, Reader::Command);
        for after in NAMES.iter().chain(WORDS.iter()).chain(OTHERS.iter()) {
            let goes_on = is_list && *after == ",";
            let fault = if goes_on { Some("1:7 S1") } else { None };
            check_before(&rt, alloc, reader, after, fault)?;
        }
        for (after, code) in LEXICAL {
            let want = format!(in alloc; "1:6 {code}")?;
            let fault = if is_list { Some(want.as_str()) } else { None };
            check_before(&rt, alloc, reader, after, fault)?;
        }
    }
    Ok(())
}

/// So many levels of this in one another.
fn nested(
    alloc: Global,
    levels: usize,
    open: &str,
    inside: &str,
    close: &str,
) -> Result<String, Fail> {
    let mut text = String::new(alloc);
    for _level in 0..levels {
        text.push_str(open)?;
    }
    text.push_str(inside)?;
    for _level in 0..levels {
        text.push_str(close)?;
    }
    Ok(text)
}

/// The reader answers this to the text, and the same twice to two of them in a list.
fn check_listed(
    rt: &impl Abort,
    alloc: Global,
    reader: Reader,
    text: &str,
    want: &str,
) -> Result<(), Fail> {
    check(rt, alloc, reader, text, want)?;
    let listed = format!(in alloc; "{text}, {text}")?;
    let want = format!(in alloc; "{want}{want}")?;
    check(rt, alloc, reader, listed.as_str(), want.as_str())
}

/// Groups that lie eight deep in one another, and their tree.
fn eight_groups(alloc: Global) -> Result<(String, String), Fail> {
    let text = nested(alloc, 8, "(", "L1 s", " or L2 s)")?;
    let tree = nested(alloc, 8, "(", "L1=s;", ")(L2=s;);")?;
    Ok((text, tree))
}

#[test]
fn groups_lie_eight_deep_in_one_another(rt: HostRuntime) -> Result<(), Fail> {
    let alloc = rt.alloc();
    let (text, tree) = eight_groups(alloc)?;
    check_listed(&rt, alloc, Reader::Condition, text.as_str(), tree.as_str())?;
    let text = nested(alloc, 8, "(L1 s or ", "L2 s", ")")?;
    let tree = nested(alloc, 8, "(L1=s;)(", "L2=s;", ");")?;
    check_listed(&rt, alloc, Reader::Condition, text.as_str(), tree.as_str())
}

/// Choices lie eight deep in one another with this guard, in either branch.
fn check_choices(rt: &impl Abort, alloc: Global, guard: &str, tree: &str) -> Result<(), Fail> {
    for (branch, branch_tree) in [("", ""), ("L2 s, ", "L2:=s;"), ("L2 s else ", "L2:=s;|")] {
        let open = format!(in alloc; "if {guard} then {branch}")?;
        let text = nested(alloc, 8, open.as_str(), "L3 s", " end")?;
        let open = format!(in alloc; "[{tree}?{branch_tree}")?;
        let want = nested(alloc, 8, open.as_str(), "L3:=s;", "]")?;
        check_listed(rt, alloc, Reader::Body, text.as_str(), want.as_str())?;
    }
    Ok(())
}

#[test]
fn choices_lie_eight_deep_whatever_their_guards_have(rt: HostRuntime) -> Result<(), Fail> {
    let alloc = rt.alloc();
    let (groups, tree) = eight_groups(alloc)?;
    check_choices(&rt, alloc, "L1 s", "L1=s;")?;
    check_choices(&rt, alloc, groups.as_str(), tree.as_str())
}

/// What comes first, so many levels of what opens one, what comes then, and the fault of it all.
type Levels = (
    &'static str,
    usize,
    &'static str,
    &'static str,
    &'static str,
);

const GROUPS: [Levels; 13] = [
    ("", 9, "(", "L1 s or L2 s)", "1:9 S2"),
    ("", 9, "L1 s, (", "", "1:63 S2"),
    ("", 9, "(L1 s or ", "", "1:73 S2"),
    ("", 8, "(", "L1 s or (", "1:17 S2"),
    ("(L1 s or L2 s), ", 9, "(", "", "1:25 S2"),
    // Behind a fault of another sort no level is told, and before one the level is.
    (". ", 9, "(", "", "1:1 S1"),
    ("(L1 s . ", 9, "(", "", "1:7 S1"),
    ("# ", 9, "(", "", "1:1 L1"),
    ("", 9, "(", ".", "1:9 S2"),
    ("", 9, "(", "#", "1:9 S2"),
    // The same within eight levels.
    ("", 8, "(", "", "1:9 S1"),
    ("", 8, "(", ".", "1:9 S1"),
    ("", 8, "(", "#", "1:9 L1"),
];

const CHOICES: [Levels; 13] = [
    ("", 9, "if L1 s then ", "L1 s", "1:105 S2"),
    ("", 9, "if L1 s then L1 s, ", "", "1:153 S2"),
    ("", 9, "if L1 s then L1 s else ", "", "1:185 S2"),
    ("", 8, "if L1 s then ", "L1 s, if", "1:111 S2"),
    ("if ", 9, "(", "", "1:12 S2"),
    ("if L1 s then L1 s else if ", 9, "(", "", "1:35 S2"),
    ("if L1 then ", 9, "if L1 s then ", "", "1:7 S1"),
    ("if # then ", 9, "if L1 s then ", "", "1:4 L1"),
    ("", 9, "if L1 s then ", ".", "1:105 S2"),
    ("", 9, "if L1 s then ", "#", "1:105 S2"),
    ("", 8, "if L1 s then ", "", "1:105 S1"),
    ("", 8, "if L1 s then ", ".", "1:105 S1"),
    ("", 8, "if L1 s then ", "#", "1:105 L1"),
];

#[test]
fn the_opening_of_a_ninth_level_is_told(rt: HostRuntime) -> Result<(), Fail> {
    let alloc = rt.alloc();
    for (reader, rows) in [(Reader::Condition, &GROUPS), (Reader::Body, &CHOICES)] {
        for (before, levels, open, behind, want) in rows {
            let opened = nested(alloc, *levels, open, behind, "")?;
            let text = format!(in alloc; "{before}{opened}")?;
            check(&rt, alloc, reader, text.as_str(), want)?;
        }
    }
    Ok(())
}
