//! What a step means in a layout.

ghost use Rattle.std.specs.Prelude.{◌≡◌, ◌<◌, ◌≤◌, ◌∷◌, [], length, take, Ok, Err};
ghost use Rattle.std.specs.Str.{bytes_eq};
ghost use Rattle.ssi_identities.specs.declared.fact.Kind.{Kind as Kinds};
ghost use Rattle.ssi_identities.specs.DataSets.{ModulePlan, names_in, module_with};
ghost use Rattle.ssi_identities.specs.IdentityNames.{letter_of};
ghost use Rattle.ssi_identities.specs.NameLists.{names_of};
ghost use Rattle.ssi_identities.specs.Wells.{IsWell, wired_kind as kind_wired};
ghost use Rattle.ssi_lexer.specs.declared.token.Token.{Token as NameToken};
ghost use Rattle.ssi_lexer.specs.Lexemes.{characters_at};
ghost use Rattle.ssi_script.specs.Meanings as spec;
ghost use Rattle.ssi_script.specs.Meanings.{most_cycles, with_found};
ghost use Rattle.ssi_script.specs.declared.step.ScriptStep.TheVariants.{Raw};

use crate::step::{
    EventWord, ModuleWord, ScriptFault, ScriptStep, StepTree, TOO_MANY_CYCLES, UNKNOWN, WRONG_KIND,
};
use ssi_identities::{Kind, Names};
use ssi_image::Image;
use ssi_lexer::Token;
use ssi_trackside::Event;
use ssi_trackside::kinds::{POINTS, SIGNAL, TRACK};

/// How many minor cycles a script makes at most.
pub const MOST_CYCLES: u32 = 1_000_000;

/// The characters of a token.
fn characters(text: &[u8], token: Token) -> &[u8]
    ensures { result.now ≡ characters_at text.now token.start token.len }
{
    let start = (token.start as usize).min(text.len());
    let rest = &text[start..];
    let len = (token.len as usize).min(rest.len());
    &rest[..len]
}

/// A fault of a token.
fn fault_of(code: u8, token: Token) -> ScriptFault
    ensures { result ≡ spec.fault_of code token }
{
    ScriptFault {
        code,
        token_start: token.start,
        token_len: token.len,
        place: token.place,
    }
}

/// The letter with which the names of a kind begin.
fn letter(kind: Kind) -> u8
    ensures { result ∷ [] ≡ letter_of kind }
{
    match kind {
        Kind::Points => b'P',
        Kind::Signal => b'S',
        Kind::Track => b'T',
        Kind::Route => b'R',
        Kind::Subroute => b'U',
        Kind::Flag => b'L',
        Kind::Request => b'Q',
    }
}

/// Whether a name begins with the letter of a kind.
fn has_letter(kind: Kind, name: &[u8]) -> bool
    ensures { result ≡ bytes_eq (take 1 name.now) (letter_of kind) }
{
    match name {
        [first, ..] => *first == letter(kind),
        [] => false,
    }
}

/// The number of the identity of a kind that a token names.
fn identity_named(
    text: &[u8],
    names: &Names,
    image: &Image,
    kind: Kind,
    token: Token,
) -> Result<u16, ScriptFault>
    requires names { (kind : Kinds) → names_of names.now kind ≡ names_in image.now kind }
    ensures { result ≡ spec.identity_named image.now text.now kind token }
{
    let name = characters(text, token);
    if !has_letter(kind, name) {
        return Err(fault_of(WRONG_KIND, token));
    }
    match names.find(kind, name) {
        Some(identity) => Ok(identity),
        None => Err(fault_of(UNKNOWN, token)),
    }
}

/// The number of the module with an address; none where no module has it.
fn module_at(image: &Image, address: u32) -> Option<u8>
    requires well { IsWell image.now }
    ensures { result ≡ module_with image.now address }
{
    if address < 64 {
        image.module_at(address as u8)
    } else {
        None
    }
}

/// What a word does to a module with this address and kind.
fn module_step(word: ModuleWord, address: u8, kind: u8) -> ScriptStep
    ensures { (row : ModulePlan) → address ≡ row.address → kind ≡ row.kind → result ≡ spec.module_step word row }
{
    match word {
        ModuleWord::Dead => ScriptStep::Happen {
            address,
            kind,
            event: Event::Dead,
        },
        ModuleWord::Live => ScriptStep::Happen {
            address,
            kind,
            event: Event::Live,
        },
        ModuleWord::Lose => ScriptStep::Lose { address },
        ModuleWord::Drop => ScriptStep::Drop { address },
    }
}

/// What a word does to the module with an address, which a token tells.
fn at_module(
    image: &Image,
    word: ModuleWord,
    address: u32,
    token: Token,
) -> Result<ScriptStep, ScriptFault>
    requires well { IsWell image.now }
    ensures { result ≡ with_found (spec.module_step word) (spec.module_told image.now address token) }
{
    match module_at(image, address) {
        Some(module) => Ok(module_step(word, image.address(module), image.kind(module))),
        None => Err(fault_of(UNKNOWN, token)),
    }
}

/// The bytes that arrive in place of the next report of the module with an address, which a token tells.
fn raw_at(
    image: &Image,
    address: u32,
    token: Token,
    bytes: [u8; 4],
) -> Result<ScriptStep, ScriptFault>
    requires well { IsWell image.now }
    ensures { result ≡ with_found (λ row. Raw row.address bytes) (spec.module_told image.now address token) }
{
    match module_at(image, address) {
        Some(module) => Ok(ScriptStep::Raw {
            address: image.address(module),
            bytes,
        }),
        None => Err(fault_of(UNKNOWN, token)),
    }
}

/// The kind of the modules at which such an event happens.
fn module_kind_of(word: EventWord) -> u8
    ensures { result ≡ spec.module_kind_of word }
{
    match word {
        EventWord::Occupy | EventWord::Clear => TRACK,
        EventWord::Fail | EventWord::Mend => SIGNAL,
        EventWord::Jam | EventWord::Unjam => POINTS,
    }
}

/// The kind of identity to which such an event happens.
fn wired_kind(word: EventWord) -> Kind
    ensures { result ≡ kind_wired (spec.module_kind_of word) }
{
    match word {
        EventWord::Occupy | EventWord::Clear => Kind::Track,
        EventWord::Fail | EventWord::Mend => Kind::Signal,
        EventWord::Jam | EventWord::Unjam => Kind::Points,
    }
}

/// The event, at a pin.
fn event_at(word: EventWord, pin: u8) -> Event
    ensures { result ≡ spec.event_at word pin }
{
    match word {
        EventWord::Occupy => Event::Occupy(pin),
        EventWord::Clear => Event::Clear(pin),
        EventWord::Fail => Event::Fail(pin),
        EventWord::Mend => Event::Mend(pin),
        EventWord::Jam => Event::Jam(pin),
        EventWord::Unjam => Event::Unjam(pin),
    }
}

/// What happens to an identity, by its number, at the pin that it is wired to.
fn event_step(image: &Image, word: EventWord, identity: u16) -> ScriptStep
    requires well { IsWell image.now }
    requires within { identity < length (names_in image.now (kind_wired (spec.module_kind_of word))) }
    ensures { (token : NameToken) → spec.event_step image.now word token (Ok identity) ≡ Ok result }
{
    let (module, pin) = image.wired(wired_kind(word), identity);
    ScriptStep::Happen {
        address: image.address(module),
        kind: module_kind_of(word),
        event: event_at(word, pin),
    }
}

/// What a step means in a layout, behind steps that made so many minor cycles; or its fault.
pub fn step_of(
    text: &[u8],
    names: &Names,
    image: &Image,
    made: u32,
    tree: StepTree,
) -> Result<ScriptStep, ScriptFault>
    requires names { (kind : Kinds) → names_of names.now kind ≡ names_in image.now kind }
    requires well { IsWell image.now }
    requires within { made ≤ most_cycles }
    ensures { result ≡ spec.step_of image.now text.now made tree }
{
    match tree {
        StepTree::Panel { panel, request } => {
            let request = identity_named(text, names, image, Kind::Request, request)?;
            Ok(ScriptStep::Panel { panel, request })
        }
        StepTree::Cycle { count, token } => {
            if count > MOST_CYCLES - made {
                return Err(fault_of(TOO_MANY_CYCLES, token));
            }
            Ok(ScriptStep::Cycle { count })
        }
        StepTree::Happen { word, name } => {
            let identity = identity_named(text, names, image, wired_kind(word), name)?;
            Ok(event_step(image, word, identity))
        }
        StepTree::Module {
            word,
            address,
            token,
        } => at_module(image, word, address, token),
        StepTree::Raw {
            address,
            token,
            bytes,
        } => raw_at(image, address, token, bytes),
    }
}

/// How many minor cycles a step makes.
pub fn cycles_of(step: ScriptStep) -> u32
    ensures { result ≡ spec.cycles_of step }
{
    match step {
        ScriptStep::Cycle { count } => count,
        _ => 0,
    }
}
