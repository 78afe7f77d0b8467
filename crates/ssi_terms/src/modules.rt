//! Reads entries of TFM.

ghost use Rattle.std.specs.Prelude.{◌≡◌, ◌<◌, [], ◌∷◌, length};
ghost use Rattle.ssi_lexer.specs.Parsers.{Reads, ReadsAll, separated as separated_of};
ghost use Rattle.ssi_lexer.specs.Readings.{GoesOn};
ghost use Rattle.ssi_lexer.specs.TokenTests.{identity as identity_test};
ghost use Rattle.ssi_terms.specs.ReadIdentities as spec;

use crate::identity_tree::ModuleEntry;
use crate::spots::{dot, identity, number, token, word};
use crate::tree::Spot;
use ssi_lexer::{Entry, Part, Stop, TokenKind, Tokens, Wanted, separated};
use std::alloc::Global;
use std::marker::Model;

/// The name of an identity of the kind that this letter tells, `at` and its pin.
#[derive(Clone, Copy)]
pub struct Pin {
    pub letter: u8,
}

impl Part for Pin {
    type Tree = (Spot, Spot);

    ghost use Rattle.ssi_terms.specs.Identities.{SpellsPin};
    ghost use Rattle.ssi_terms.specs.ReadIdentities.{pin};
    ghost use Rattle.ssi_terms.specs.IdentityRules.{good_pin};

    ghost language = { λ part. SpellsPin (identity_test (part.letter ∷ [])) };

    ghost parser = { λ part. pin (identity_test (part.letter ∷ [])) };

    ghost good = { λ part. good_pin part.letter };

    #[tactic(auto, unfolding(crate::specs::ReadIdentities::pin))]
    fn read(&self, _alloc: Global, tokens: &mut Tokens<'_>) -> Result<(Spot, Spot), Stop> {
        let name = identity(tokens, &[self.letter])?;
        token(tokens, Wanted::Word(b"at"))?;
        let pin = number(tokens)?;
        Ok((name, pin))
    }
}

/// Reads what a module is wired to, if a name of its kind comes.
#[tactic(auto, unfolding(crate::specs::ReadIdentities::perhaps, ssi_lexer::specs::Parsers::maybe))]
fn pins(alloc: Global, tokens: &mut Tokens<'_>, letter: u8) -> Result<Vec<(Spot, Spot)>, Stop>
    ensures reads { ReadsAll (spec.perhaps (identity_test (letter ∷ [])) (separated_of (spec.pin (identity_test (letter ∷ [])))) tokens.old.left) result tokens.new.left }
    ensures goes_on { GoesOn tokens.old tokens.new }
{
    if !tokens.sees(Wanted::Identity(&[letter])) {
        return Ok(Vec::new(alloc));
    }
    separated(&Pin { letter }, alloc, tokens)
}

/// What stands behind a module's address.
#[derive(Drop)]
pub struct Wiring {
    /// The word for the module's kind.
    pub kind: Spot,
    /// The names of what it is wired to, each with its pin.
    pub pins: Vec<(Spot, Spot)>,
}

impl Model for Wiring {
    ghost use Rattle.ssi_terms.specs.Trees.{WiringText};

    ghost Value = { WiringText };

    ghost view = { λ wiring. record { kind = wiring.kind; pins = wiring.pins.items } };
}

/// Reads this kind, what the module is wired to, and `.`.
#[tactic(auto, unfolding(crate::specs::ReadIdentities::wired))]
fn wired(alloc: Global, tokens: &mut Tokens<'_>, kind: &[u8], letter: u8) -> Result<Wiring, Stop>
    requires { length kind.now < 256 }
    ensures reads { Reads (spec.wired kind.now (identity_test (letter ∷ [])) tokens.old.left) result tokens.new.left }
    ensures goes_on { GoesOn tokens.old tokens.new }
{
    let kind = word(tokens, kind)?;
    let pins = pins(alloc, tokens, letter)?;
    dot(tokens)?;
    Ok(Wiring { kind, pins })
}

/// Reads one of the three kinds and what stands behind it.
#[tactic(auto, unfolding(crate::specs::ReadIdentities::wiring, ssi_lexer::specs::Parsers::either))]
fn any_wiring(alloc: Global, tokens: &mut Tokens<'_>) -> Result<Wiring, Stop>
    ensures reads { Reads (spec.wiring tokens.old.left) result tokens.new.left }
    ensures goes_on { GoesOn tokens.old tokens.new }
{
    if tokens.sees(Wanted::Word(b"points")) {
        wired(alloc, tokens, b"points", b'P')
    } else if tokens.sees(Wanted::Word(b"signal")) {
        wired(alloc, tokens, b"signal", b'S')
    } else {
        wired(alloc, tokens, b"track", b'T')
    }
}

/// An entry of TFM.
pub struct Module;

impl Part for Module {
    type Tree = ModuleEntry;

    ghost use Rattle.ssi_terms.specs.Identities.{SpellsModule};
    ghost use Rattle.ssi_terms.specs.ReadIdentities.{module_entry};
    ghost use Rattle.ssi_terms.specs.IdentityRules.{good_module};

    ghost language = { λ _. SpellsModule };

    ghost parser = { λ _. module_entry };

    ghost good = { λ _. good_module };

    #[tactic(auto, unfolding(crate::specs::ReadIdentities::module_entry))]
    fn read(&self, alloc: Global, tokens: &mut Tokens<'_>) -> Result<ModuleEntry, Stop> {
        let address = number(tokens)?;
        let Wiring { kind, pins } = any_wiring(alloc, tokens)?;
        Ok(ModuleEntry {
            address,
            kind,
            pins,
        })
    }
}

impl Entry for Module {
    ghost use Rattle.ssi_terms.specs.Tests.{any_number};
    ghost use Rattle.ssi_terms.specs.IdentityRules.{module_starts};

    ghost opens = { λ _. any_number };

    ghost starts = { λ _. module_starts };

    fn begins(&self, tokens: &Tokens<'_>) -> bool {
        tokens.sees(Wanted::Kind(TokenKind::Number))
    }
}
