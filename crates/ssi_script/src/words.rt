//! The tokens of which a step is made.

ghost use Rattle.std.specs.Prelude.{◌≡◌, ◌≤◌, IfOk};
ghost use Rattle.ssi_lexer.specs.Parsers.{at_first, tok, valued};
ghost use Rattle.ssi_lexer.specs.Readings.{GoesOn};
ghost use Rattle.ssi_lexer.specs.TokenTests.{test_of};
ghost use Rattle.ssi_script.specs.StepReading.{ReadsStep, byte, event_word_at, module_word_at, number_told};

use crate::step::{EventWord, ModuleWord};
use ssi_lexer::{Token, Tokens, Wanted};

/// The tokens spell nothing of what is read. The reader stands before the first that shows it.
#[derive(Clone, Copy, Debug, PartialEq, Eq)]
pub struct Misspelled;

/// A number with its token.
#[derive(Clone, Copy, Debug, PartialEq, Eq)]
pub struct Number {
    /// The number.
    pub value: u32,
    /// Its token.
    pub token: Token,
}

/// What happens at the trackside, by the word that comes next.
pub fn first_event_word(tokens: &Tokens<'_>) -> Option<EventWord>
    ensures { result ≡ at_first event_word_at tokens.now.left }
{
    if tokens.sees(Wanted::Word(b"occupy")) {
        Some(EventWord::Occupy)
    } else if tokens.sees(Wanted::Word(b"clear")) {
        Some(EventWord::Clear)
    } else if tokens.sees(Wanted::Word(b"fail")) {
        Some(EventWord::Fail)
    } else if tokens.sees(Wanted::Word(b"mend")) {
        Some(EventWord::Mend)
    } else if tokens.sees(Wanted::Word(b"jam")) {
        Some(EventWord::Jam)
    } else if tokens.sees(Wanted::Word(b"unjam")) {
        Some(EventWord::Unjam)
    } else {
        None
    }
}

/// What becomes of a module, by the word that comes next.
pub fn first_module_word(tokens: &Tokens<'_>) -> Option<ModuleWord>
    ensures { result ≡ at_first module_word_at tokens.now.left }
{
    if tokens.sees(Wanted::Word(b"dead")) {
        Some(ModuleWord::Dead)
    } else if tokens.sees(Wanted::Word(b"live")) {
        Some(ModuleWord::Live)
    } else if tokens.sees(Wanted::Word(b"lose")) {
        Some(ModuleWord::Lose)
    } else if tokens.sees(Wanted::Word(b"drop")) {
        Some(ModuleWord::Drop)
    } else {
        None
    }
}

/// Takes such a token, which must come next.
pub fn take_token(tokens: &mut Tokens<'_>, wanted: Wanted<'_>) -> Result<Token, Misspelled>
    ensures reads { ReadsStep (tok (test_of wanted.entry) tokens.old.left) result tokens.new.left }
    ensures goes_on { GoesOn tokens.old tokens.new }
{
    match tokens.take(wanted) {
        Ok(token) => Ok(token),
        Err(_) => Err(Misspelled),
    }
}

/// Takes the word of an event, which must come next.
#[tactic(auto, unfolding(ssi_lexer::specs::Parsers::valued))]
pub fn take_event_word(tokens: &mut Tokens<'_>) -> Result<EventWord, Misspelled>
    ensures reads { ReadsStep (valued event_word_at tokens.old.left) result tokens.new.left }
    ensures goes_on { GoesOn tokens.old tokens.new }
{
    match first_event_word(tokens) {
        Some(word) => {
            tokens.skip();
            Ok(word)
        }
        None => Err(Misspelled),
    }
}

/// Takes the word of a step that tells an address, which must come next.
#[tactic(auto, unfolding(ssi_lexer::specs::Parsers::valued))]
pub fn take_module_word(tokens: &mut Tokens<'_>) -> Result<ModuleWord, Misspelled>
    ensures reads { ReadsStep (valued module_word_at tokens.old.left) result tokens.new.left }
    ensures goes_on { GoesOn tokens.old tokens.new }
{
    match first_module_word(tokens) {
        Some(word) => {
            tokens.skip();
            Ok(word)
        }
        None => Err(Misspelled),
    }
}

/// The number that comes next with its token, if it is one of these.
fn first_number(tokens: &Tokens<'_>, least: u32, most: u32) -> Option<Number>
    ensures { result ≡ at_first (number_told least most) tokens.now.left }
{
    let value = tokens.first_number()?;
    let token = tokens.first()?;
    if least <= value && value <= most {
        Some(Number { value, token })
    } else {
        None
    }
}

/// Takes a number that is one of these, which must come next.
#[tactic(auto, unfolding(ssi_lexer::specs::Parsers::valued))]
pub fn take_number(tokens: &mut Tokens<'_>, least: u32, most: u32) -> Result<Number, Misspelled>
    ensures reads { ReadsStep (valued (number_told least most) tokens.old.left) result tokens.new.left }
    ensures within { IfOk result (λ number. (least ≤ number.value) × (number.value ≤ most)) }
    ensures goes_on { GoesOn tokens.old tokens.new }
{
    match first_number(tokens, least, most) {
        Some(number) => {
            tokens.skip();
            Ok(number)
        }
        None => Err(Misspelled),
    }
}

/// Takes a number that fits in a byte, which must come next.
#[tactic(auto, unfolding(crate::specs::StepReading::byte))]
pub fn take_byte(tokens: &mut Tokens<'_>) -> Result<u8, Misspelled>
    ensures reads { ReadsStep (byte tokens.old.left) result tokens.new.left }
    ensures goes_on { GoesOn tokens.old tokens.new }
{
    let number = take_number(tokens, 0, 255)?;
    Ok(number.value as u8)
}
