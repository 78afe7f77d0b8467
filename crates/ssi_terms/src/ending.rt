//! What comes after a part of the text.

ghost use Rattle.std.specs.Prelude.{◌≡◌, codes, if◌then◌else◌};
ghost use Rattle.ssi_lexer.specs.TokenTests.{comma, sees, word};
ghost use Rattle.ssi_terms.specs.Ending.{ended, fault_before, front_ended as front_ended_of, if_ended, level_before};
ghost use Rattle.ssi_terms.specs.Tests.{ends_list};

use crate::read_fault::ReadFault;
use ssi_lexer::{Stop, TextEnd, TokenKind, Tokens, Wanted};

/// The fault before which the tokens stand.
fn fault(tokens: &Tokens<'_>) -> ReadFault
    ensures { result ≡ fault_before tokens.now.left tokens.now.end }
{
    match tokens.place() {
        Ok(place) => ReadFault::Syntax(place),
        Err(fault) => ReadFault::Lex(fault),
    }
}

/// The level too deep that the next token opens.
fn too_deep(tokens: &Tokens<'_>) -> ReadFault
    ensures { result ≡ level_before tokens.now.left tokens.now.end }
{
    match tokens.place() {
        Ok(place) => ReadFault::TooDeep(place),
        Err(fault) => ReadFault::Lex(fault),
    }
}

/// What was read, where `file` or the end of the text comes next.
fn if_file_ends<T: Drop>(tokens: &Tokens<'_>, found: T) -> Result<T, ReadFault>
    ensures { result ≡ if_ended (word (codes "file")) found tokens.now.left tokens.now.end }
{
    let at_end = matches!(tokens.end(), Some(TextEnd::Finished(_)));
    if at_end || tokens.sees(Wanted::Word(b"file")) {
        Ok(found)
    } else {
        Err(fault(tokens))
    }
}

/// What was read, where no `,` comes next, nor a lexical fault.
fn if_list_ends<T: Drop>(tokens: &Tokens<'_>, found: T) -> Result<T, ReadFault>
    ensures { result ≡ if_ended ends_list found tokens.now.left tokens.now.end }
{
    let faulty = matches!(tokens.end(), Some(TextEnd::Faulty(_)));
    if faulty || tokens.sees(Wanted::Kind(TokenKind::Comma)) {
        Err(fault(tokens))
    } else {
        Ok(found)
    }
}

/// How many parts a list gets room for once its first is read: two where a `,` comes next, and one otherwise.
pub fn room_for(tokens: &Tokens<'_>) -> usize
    ensures { result ≡ (if sees comma tokens.now.left then 2 else 1) }
{
    if tokens.sees(Wanted::Kind(TokenKind::Comma)) {
        2
    } else {
        1
    }
}

/// The answer of a reader of files: `file` or the end of the text must follow what it read. For readers of the
/// layers above; by `told` the answer meets the clauses of a public reader.
pub fn file_ended<T: Drop>(tokens: &Tokens<'_>, read: Result<T, Stop>) -> Result<T, ReadFault>
    ensures { result ≡ ended (word (codes "file")) read tokens.now.left tokens.now.end }
{
    match read {
        Ok(found) => if_file_ends(tokens, found),
        Err(Stop::Syntax) => Err(fault(tokens)),
        Err(Stop::TooDeep) => Err(too_deep(tokens)),
        Err(Stop::Memory) => Err(ReadFault::Memory),
    }
}

/// The answer of a reader of a part that never wants memory, nor stops at a level, whatever follows it.
pub fn front_ended<T: Drop>(tokens: &Tokens<'_>, read: Result<T, Stop>) -> Result<T, ReadFault>
    ensures { result ≡ front_ended_of read tokens.now.left tokens.now.end }
{
    match read {
        Ok(found) => Ok(found),
        Err(_) => Err(fault(tokens)),
    }
}

/// The answer of a reader of a condition or a body: what follows it is anything but `,`, or the end of the text.
pub fn list_ended<T: Drop>(tokens: &Tokens<'_>, read: Result<T, Stop>) -> Result<T, ReadFault>
    ensures { result ≡ ended ends_list read tokens.now.left tokens.now.end }
{
    match read {
        Ok(found) => if_list_ends(tokens, found),
        Err(Stop::Syntax) => Err(fault(tokens)),
        Err(Stop::TooDeep) => Err(too_deep(tokens)),
        Err(Stop::Memory) => Err(ReadFault::Memory),
    }
}
