//! The words of the command line, as the system gives them.

ghost use Rattle.std.specs.Prelude.{◌≤◌, All, IfOk, string_len, vec_len};

use ssi_base::OutOfMemory;
use std::alloc::Global;
use std::env::FillError;
use std::rt::Env;

/// How many words the longest shape has: `run --last n`.
const MOST_WORDS: usize = 3;

/// How many bytes the longest word of any shape has: `compile`.
const LONGEST_WORD: usize = 7;

/// Why there is no word at a place of the command line.
#[derive(Clone, Copy)]
enum NoWord {
    /// The command line has ended.
    End,
    /// The word is longer than any word of a shape, or isn't UTF-8.
    Strange,
    /// No memory was left for it.
    Memory,
}

/// The words after the program's name, or no words where these can't have a shape: where they are
/// more than any shape has, or one of them is longer than any word of a shape or isn't UTF-8.
///
/// The name isn't asked for, and no word is read past the longest that may have a shape.
pub fn command_words<R: Env>(rt: &R, alloc: Global) -> Result<Vec<String>, OutOfMemory>
    ensures few { IfOk result (λ words. vec_len words ≤ 3) }
    ensures short { IfOk result (λ words. All (λ word. string_len word ≤ 7) words.items) }
{
    let mut words = Vec::new(alloc);
    for place in 1..MOST_WORDS + 2 {
        match word_at(rt, alloc, place) {
            Ok(word) if words.len() < MOST_WORDS => words.push(word)?,
            Ok(_) | Err(NoWord::Strange) => break,
            Err(NoWord::End) => return Ok(words),
            Err(NoWord::Memory) => return Err(OutOfMemory),
        }
    }
    Ok(Vec::new(alloc))
}

/// The word at a place, of which the first, 0, is that of the program's name.
fn word_at<R: Env>(rt: &R, alloc: Global, place: usize) -> Result<String, NoWord>
    ensures short { IfOk result (λ word. string_len word ≤ 7) }
{
    let mut buffer = [0; LONGEST_WORD];
    let length = match rt.arg(place, &mut buffer) {
        Ok(length) => length,
        Err(FillError::TooLong) => return Err(NoWord::Strange),
        Err(FillError::NotPresent) => return Err(NoWord::End),
    };
    let Ok(text) = str::from_utf8(&buffer[..length]) else {
        return Err(NoWord::Strange);
    };
    match String::from_str(alloc, text) {
        Ok(word) => Ok(word),
        Err(_) => Err(NoWord::Memory),
    }
}
