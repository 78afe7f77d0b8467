use super::*;
use ssi_base::Place;
use std::process::Abort;

/// A token that is expected: its kind, its characters, its start, its line and its column.
type Row<'a> = (TokenKind, &'a [u8], u32, u32, u32);

fn finished(line: u32, column: u32) -> TextEnd {
    TextEnd::Finished(Place { line, column })
}

fn faulty(code: u8, line: u32, column: u32) -> TextEnd {
    let place = Place { line, column };
    TextEnd::Faulty(LexFault { code, place })
}

/// What a reader answers before and after its next step.
#[derive(Clone, Copy)]
struct Step<'a> {
    first: Option<Token>,
    characters: &'a [u8],
    end: Option<TextEnd>,
    answer: Result<Option<Token>, LexFault>,
    position: usize,
}

fn check_step(rt: &impl Abort, tokens: &mut Tokens, want: Step) {
    assert_eq!(rt; tokens.first_text(), want.characters);
    assert_eq!(rt; (tokens.first(), tokens.end()), (want.first, want.end));
    let answers = (tokens.peek(), tokens.next(), tokens.position());
    assert_eq!(rt; answers, (want.answer, want.answer, want.position));
}

fn token_step<'a>(number: u32, row: Row<'a>) -> Step<'a> {
    let (kind, characters, start, line, column) = row;
    let len = u32::try_from(characters.len()).unwrap_or(u32::MAX);
    let place = Place { line, column };
    let token = Token {
        kind,
        start,
        len,
        number,
        place,
    };
    Step {
        first: Some(token),
        characters,
        end: None,
        answer: Ok(Some(token)),
        position: start as usize + len as usize,
    }
}

fn end_step(end: TextEnd, position: usize) -> Step<'static> {
    Step {
        first: None,
        characters: &[],
        end: Some(end),
        answer: match end {
            TextEnd::Finished(_) => Ok(None),
            TextEnd::Faulty(fault) => Err(fault),
        },
        position,
    }
}

/// Takes all tokens of a text from a byte on, and asks twice more.
fn check(rt: &impl Abort, text: &[u8], start: usize, rows: &[Row], end: TextEnd) {
    assert!(rt; start <= text.len() && text.len() <= 100);
    let mut tokens = Tokens::new(text, start);
    assert_eq!(rt; (tokens.position(), tokens.text()), (start, text));
    let mut number = 0;
    for row in rows {
        check_step(rt, &mut tokens, token_step(number, *row));
        number = number.saturating_add(1);
    }
    let position = tokens.position();
    check_step(rt, &mut tokens, end_step(end, position));
    tokens.skip();
    check_step(rt, &mut tokens, end_step(end, position));
}

fn comma(start: u32, line: u32, column: u32) -> [Row<'static>; 1] {
    [(TokenKind::Comma, b",", start, line, column)]
}

#[test]
fn separators_and_comments_stand_between_tokens(rt: HostRuntime) {
    check(&rt, b"", 0, &[], finished(1, 1));
    check(&rt, b" \t\r\n\n,", 0, &comma(5, 3, 1), finished(3, 2));
    check(&rt, b"\r,", 0, &comma(1, 1, 2), finished(1, 3));
    check(
        &rt,
        b"/ a, COMMENT 00 #\n,",
        0,
        &comma(18, 2, 1),
        finished(2, 2),
    );
    check(&rt, b"/\xff\x80/\r\n,", 0, &comma(6, 2, 1), finished(2, 2));
    check(&rt, b",/to the end", 0, &comma(0, 1, 1), finished(1, 13));
    check(&rt, b"//\n/\n\t,\n", 0, &comma(6, 3, 2), finished(4, 1));
}

#[test]
fn tokens_are_the_longest_of_their_kind(rt: HostRuntime) {
    let names: [Row; 4] = [
        (TokenKind::Name, b"L1", 0, 1, 1),
        (TokenKind::Word, b"s", 2, 1, 3),
        (TokenKind::Name, b"ABCDEFGHIJ-12345", 5, 2, 1),
        (TokenKind::Name, b"R-", 22, 2, 18),
    ];
    check(
        &rt,
        b"L1s\r\nABCDEFGHIJ-12345 R-",
        0,
        &names,
        finished(2, 20),
    );
    let marks: [Row; 6] = [
        (TokenKind::Open, b"(", 0, 1, 1),
        (TokenKind::Word, b"cn", 1, 1, 2),
        (TokenKind::Comma, b",", 3, 1, 4),
        (TokenKind::Word, b"azaz", 4, 1, 5),
        (TokenKind::Close, b")", 8, 1, 9),
        (TokenKind::Dot, b".", 9, 1, 10),
    ];
    check(&rt, b"(cn,azaz).", 0, &marks, finished(1, 11));
    let numbers: [Row; 5] = [
        (TokenKind::Number, b"0", 0, 1, 1),
        (TokenKind::Number, b"1234567", 2, 1, 3),
        (TokenKind::Number, b"90", 10, 1, 11),
        (TokenKind::Word, b"h", 12, 1, 13),
        (TokenKind::Name, b"Z9", 13, 1, 14),
    ];
    check(&rt, b"0 1234567 90hZ9", 0, &numbers, finished(1, 16));
}

#[test]
fn a_fault_ends_the_tokens_and_comes_again(rt: HostRuntime) {
    check(&rt, b"#", 0, &[], faulty(1, 1, 1));
    check(&rt, b",\n \x80,", 0, &comma(0, 1, 1), faulty(1, 2, 2));
    check(&rt, b",-A", 0, &comma(0, 1, 1), faulty(1, 1, 2));
    check(&rt, b"ABCDEFGHIJKLMNOPQ", 0, &[], faulty(2, 1, 1));
    check(
        &rt,
        b",ABCDEFGHIJ-123456 #",
        0,
        &comma(0, 1, 1),
        faulty(2, 1, 2),
    );
    check(&rt, b"00", 0, &[], faulty(3, 1, 1));
    check(&rt, b"\n07,", 0, &[], faulty(3, 2, 1));
    check(&rt, b", 12345678,", 0, &comma(0, 1, 1), faulty(3, 1, 3));
}

#[test]
fn places_count_from_the_start(rt: HostRuntime) {
    let rows: [Row; 3] = [
        (TokenKind::Word, b"file", 3, 1, 1),
        (TokenKind::Name, b"RUN", 8, 1, 6),
        (TokenKind::Dot, b".", 12, 2, 1),
    ];
    check(&rt, b"A.\nfile RUN\n.", 3, &rows, finished(2, 2));
    check(&rt, b"A.\nfile", 7, &[], finished(1, 1));
    one_cutting();
    tokens_stand();
}

#[test]
fn tokens_are_taken_as_wanted(rt: HostRuntime) {
    let text = b"file PTS P1 over T1 , 1234567.";
    let rows = [
        (Wanted::Word(b"file"), true),
        (Wanted::Word(b"fil"), false),
        (Wanted::Name(b"PTS"), true),
        (Wanted::Name(b"P1"), true),
        (Wanted::Word(b"with"), false),
        (Wanted::Word(b"over"), true),
        (Wanted::Identity(b"PU"), false),
        (Wanted::Identity(b"ST"), true),
        (Wanted::Kind(TokenKind::Dot), false),
        (Wanted::Kind(TokenKind::Comma), true),
        (Wanted::Kind(TokenKind::Number), true),
        (Wanted::Kind(TokenKind::Dot), true),
        (Wanted::Kind(TokenKind::Dot), false),
    ];
    let mut seen = Tokens::new(text, 0);
    let mut eaten = Tokens::new(text, 0);
    let mut taken = Tokens::new(text, 0);
    for (wanted, expected) in rows {
        let first = taken.first();
        assert_eq!(rt; seen.sees(wanted), expected, "{wanted:?}");
        assert_eq!(rt; eaten.eat(wanted), expected, "{wanted:?}");
        let answer = taken.take(wanted);
        if expected {
            seen.skip();
            assert_eq!(rt; answer.ok(), first, "{wanted:?}");
        } else {
            assert_eq!(rt; answer, Err(Stop::Syntax), "{wanted:?}");
        }
        assert_eq!(rt; eaten.position(), taken.position(), "{wanted:?}");
        assert_eq!(rt; seen.position(), taken.position(), "{wanted:?}");
    }
    assert_eq!(rt; taken.position(), text.len());
}

#[test]
fn an_identity_has_two_characters(rt: HostRuntime) {
    assert!(rt; !Tokens::new(b"P", 0).sees(Wanted::Identity(b"P")));
    assert!(rt; Tokens::new(b"P-", 0).sees(Wanted::Identity(b"P")));
    assert!(rt; !Tokens::new(b"TP", 0).sees(Wanted::Identity(b"P")));
}

#[test]
fn numbers_are_valued(rt: HostRuntime) {
    let rows: [(&[u8], Option<u32>); 6] = [
        (b"0", Some(0)),
        (b"63.", Some(63)),
        (b"9999999", Some(9_999_999)),
        (b"10000000", None),
        (b"T1", None),
        (b"", None),
    ];
    for (text, expected) in rows {
        assert!(rt; text.len() <= 100);
        assert_eq!(rt; Tokens::new(text, 0).first_number(), expected);
    }
}

#[test]
fn each_place_is_told(rt: HostRuntime) {
    let mut tokens = Tokens::new(b"A1\n . #", 0);
    assert_eq!(rt; tokens.place(), Ok(Place { line: 1, column: 1 }));
    tokens.skip();
    assert_eq!(rt; tokens.place(), Ok(Place { line: 2, column: 2 }));
    tokens.skip();
    let place = Place { line: 2, column: 4 };
    assert_eq!(rt;
        tokens.place(),
        Err(LexFault {
            code: BAD_CHARACTER,
            place
        })
    );
    let tokens = Tokens::new(b" /x\n ", 0);
    assert_eq!(rt; tokens.place(), Ok(Place { line: 2, column: 2 }));
}
