//! Reads `file RUN` and the steps behind it.

ghost use Rattle.ssi_lexer.specs.Readings.{GoesOn};
ghost use Rattle.ssi_script.specs.StepReading as spec;
ghost use Rattle.ssi_script.specs.StepReading.{ReadsStep};

use crate::step::StepTree;
use crate::words::{
    Misspelled, first_module_word, take_byte, take_event_word, take_module_word, take_number,
    take_token,
};
use ssi_lexer::{TokenKind, Tokens, Wanted};

/// The largest number that a token can be.
const LARGEST: u32 = 9_999_999;

/// Reads a put. There is panel 0 alone.
#[tactic(auto, unfolding(crate::specs::StepReading::put))]
fn put(tokens: &mut Tokens<'_>) -> Result<StepTree, Misspelled>
    ensures reads { ReadsStep (spec.put tokens.old.left) result tokens.new.left }
    ensures goes_on { GoesOn tokens.old tokens.new }
{
    take_token(tokens, Wanted::Word(b"panel"))?;
    take_number(tokens, 0, 0)?;
    let request = take_token(tokens, Wanted::Kind(TokenKind::Name))?;
    take_token(tokens, Wanted::Kind(TokenKind::Dot))?;
    Ok(StepTree::Panel { panel: 0, request })
}

/// Reads a count of minor cycles.
#[tactic(auto, unfolding(crate::specs::StepReading::some_cycles))]
fn some_cycles(tokens: &mut Tokens<'_>) -> Result<StepTree, Misspelled>
    ensures reads { ReadsStep (spec.some_cycles tokens.old.left) result tokens.new.left }
    ensures goes_on { GoesOn tokens.old tokens.new }
{
    take_token(tokens, Wanted::Word(b"cycle"))?;
    let count = take_number(tokens, 1, LARGEST)?;
    take_token(tokens, Wanted::Kind(TokenKind::Dot))?;
    Ok(StepTree::Cycle {
        count: count.value,
        token: count.token,
    })
}

/// Reads what happens to an identity.
#[tactic(auto, unfolding(crate::specs::StepReading::an_event))]
fn an_event(tokens: &mut Tokens<'_>) -> Result<StepTree, Misspelled>
    ensures reads { ReadsStep (spec.an_event tokens.old.left) result tokens.new.left }
    ensures goes_on { GoesOn tokens.old tokens.new }
{
    let word = take_event_word(tokens)?;
    let name = take_token(tokens, Wanted::Kind(TokenKind::Name))?;
    take_token(tokens, Wanted::Kind(TokenKind::Dot))?;
    Ok(StepTree::Happen { word, name })
}

/// Reads what becomes of a module.
#[tactic(auto, unfolding(crate::specs::StepReading::at_a_module))]
fn at_a_module(tokens: &mut Tokens<'_>) -> Result<StepTree, Misspelled>
    ensures reads { ReadsStep (spec.at_a_module tokens.old.left) result tokens.new.left }
    ensures goes_on { GoesOn tokens.old tokens.new }
{
    let word = take_module_word(tokens)?;
    let address = take_number(tokens, 0, LARGEST)?;
    take_token(tokens, Wanted::Kind(TokenKind::Dot))?;
    Ok(StepTree::Module {
        word,
        address: address.value,
        token: address.token,
    })
}

/// Reads four bytes.
#[tactic(auto, unfolding(crate::specs::StepReading::four_bytes))]
fn four_bytes(tokens: &mut Tokens<'_>) -> Result<[u8; 4], Misspelled>
    ensures reads { ReadsStep (spec.four_bytes tokens.old.left) result tokens.new.left }
    ensures goes_on { GoesOn tokens.old tokens.new }
{
    let first = take_byte(tokens)?;
    let second = take_byte(tokens)?;
    let third = take_byte(tokens)?;
    let fourth = take_byte(tokens)?;
    Ok([first, second, third, fourth])
}

/// Reads the bytes that arrive in place of a report.
#[tactic(auto, unfolding(crate::specs::StepReading::raw))]
fn raw(tokens: &mut Tokens<'_>) -> Result<StepTree, Misspelled>
    ensures reads { ReadsStep (spec.raw tokens.old.left) result tokens.new.left }
    ensures goes_on { GoesOn tokens.old tokens.new }
{
    take_token(tokens, Wanted::Word(b"raw"))?;
    let address = take_number(tokens, 0, LARGEST)?;
    let bytes = four_bytes(tokens)?;
    take_token(tokens, Wanted::Kind(TokenKind::Dot))?;
    Ok(StepTree::Raw {
        address: address.value,
        token: address.token,
        bytes,
    })
}

/// Reads a step.
#[tactic(auto, unfolding(crate::specs::StepReading::a_step, ssi_lexer::specs::Parsers::either))]
pub fn a_step(tokens: &mut Tokens<'_>) -> Result<StepTree, Misspelled>
    ensures reads { ReadsStep (spec.a_step tokens.old.left) result tokens.new.left }
    ensures goes_on { GoesOn tokens.old tokens.new }
{
    if tokens.sees(Wanted::Word(b"panel")) {
        put(tokens)
    } else if tokens.sees(Wanted::Word(b"cycle")) {
        some_cycles(tokens)
    } else if tokens.sees(Wanted::Word(b"raw")) {
        raw(tokens)
    } else if first_module_word(tokens).is_some() {
        at_a_module(tokens)
    } else {
        an_event(tokens)
    }
}

/// Takes `file RUN`.
#[tactic(auto, unfolding(crate::specs::StepReading::header))]
pub fn header(tokens: &mut Tokens<'_>) -> Result<(), Misspelled>
    ensures reads { ReadsStep (spec.header tokens.old.left) result tokens.new.left }
    ensures goes_on { GoesOn tokens.old tokens.new }
{
    take_token(tokens, Wanted::Word(b"file"))?;
    take_token(tokens, Wanted::Name(b"RUN"))?;
    Ok(())
}
