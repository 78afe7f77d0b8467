//! Reads entries of PTS, RTE and SUB.

ghost use Rattle.std.specs.Prelude.{◌≡◌, codes};
ghost use Rattle.ssi_lexer.specs.Parsers.{ReadsAll};
ghost use Rattle.ssi_lexer.specs.Readings.{GoesOn};
ghost use Rattle.ssi_lexer.specs.TokenTests.{word};
ghost use Rattle.ssi_terms.specs.ReadIdentities as spec;

use crate::identity_tree::{PointsEntry, RouteEntry, SubEntry};
use crate::names::Named;
use crate::spots::{dot, identity, one_of_words, token};
use crate::tree::Spot;
use ssi_lexer::{Entry, Part, Stop, Tokens, Wanted, separated};
use std::alloc::Global;

/// An entry of PTS.
pub struct Points;

impl Part for Points {
    type Tree = PointsEntry;

    ghost use Rattle.ssi_terms.specs.Identities.{SpellsPoints};
    ghost use Rattle.ssi_terms.specs.ReadIdentities.{points_entry};
    ghost use Rattle.ssi_terms.specs.IdentityRules.{good_points};

    ghost language = { λ _. SpellsPoints };

    ghost parser = { λ _. points_entry };

    ghost good = { λ _. good_points };

    #[tactic(auto, unfolding(crate::specs::ReadIdentities::points_entry))]
    fn read(&self, alloc: Global, tokens: &mut Tokens<'_>) -> Result<PointsEntry, Stop> {
        let name = identity(tokens, b"P")?;
        token(tokens, Wanted::Word(b"over"))?;
        let tracks = separated(&Named { letter: b'T' }, alloc, tokens)?;
        dot(tokens)?;
        Ok(PointsEntry { name, tracks })
    }
}

impl Entry for Points {
    ghost use Rattle.ssi_terms.specs.Tests.{points};
    ghost use Rattle.ssi_terms.specs.IdentityRules.{points_start};

    ghost opens = { λ _. points };

    ghost starts = { λ _. points_start };

    fn begins(&self, tokens: &Tokens<'_>) -> bool {
        tokens.sees(Wanted::Identity(b"P"))
    }
}

/// An entry of RTE.
pub struct Route;

impl Part for Route {
    type Tree = RouteEntry;

    ghost use Rattle.ssi_terms.specs.Identities.{SpellsRoute};
    ghost use Rattle.ssi_terms.specs.ReadIdentities.{route_entry};
    ghost use Rattle.ssi_terms.specs.IdentityRules.{good_route};

    ghost language = { λ _. SpellsRoute };

    ghost parser = { λ _. route_entry };

    ghost good = { λ _. good_route };

    #[tactic(auto, unfolding(crate::specs::ReadIdentities::route_entry))]
    fn read(&self, alloc: Global, tokens: &mut Tokens<'_>) -> Result<RouteEntry, Stop> {
        let name = identity(tokens, b"R")?;
        token(tokens, Wanted::Word(b"from"))?;
        let signal = identity(tokens, b"S")?;
        token(tokens, Wanted::Word(b"by"))?;
        let subs = separated(&Named { letter: b'U' }, alloc, tokens)?;
        dot(tokens)?;
        Ok(RouteEntry { name, signal, subs })
    }
}

impl Entry for Route {
    ghost use Rattle.ssi_terms.specs.Tests.{route};
    ghost use Rattle.ssi_terms.specs.IdentityRules.{route_starts};

    ghost opens = { λ _. route };

    ghost starts = { λ _. route_starts };

    fn begins(&self, tokens: &Tokens<'_>) -> bool {
        tokens.sees(Wanted::Identity(b"R"))
    }
}

/// How points have to lie: their name and `cn` or `cr`.
pub struct Lie;

impl Part for Lie {
    type Tree = (Spot, Spot);

    ghost use Rattle.ssi_terms.specs.Identities.{SpellsLie};
    ghost use Rattle.ssi_terms.specs.ReadIdentities.{lie};
    ghost use Rattle.ssi_terms.specs.IdentityRules.{good_lie};

    ghost language = { λ _. SpellsLie };

    ghost parser = { λ _. lie };

    ghost good = { λ _. good_lie };

    #[tactic(auto, unfolding(crate::specs::ReadIdentities::lie))]
    fn read(&self, _alloc: Global, tokens: &mut Tokens<'_>) -> Result<(Spot, Spot), Stop> {
        let name = identity(tokens, b"P")?;
        let word = one_of_words(tokens, b"cn", b"cr")?;
        Ok((name, word))
    }
}

/// Reads `with` and the lies behind it.
#[tactic(auto, unfolding(crate::specs::ReadIdentities::lies))]
fn lies(alloc: Global, tokens: &mut Tokens<'_>) -> Result<Vec<(Spot, Spot)>, Stop>
    ensures reads { ReadsAll (spec.lies tokens.old.left) result tokens.new.left }
    ensures goes_on { GoesOn tokens.old tokens.new }
{
    token(tokens, Wanted::Word(b"with"))?;
    separated(&Lie, alloc, tokens)
}

/// Reads `with` and the lies behind it, if it comes.
#[tactic(auto, unfolding(crate::specs::ReadIdentities::perhaps, ssi_lexer::specs::Parsers::maybe))]
fn maybe_lies(alloc: Global, tokens: &mut Tokens<'_>) -> Result<Vec<(Spot, Spot)>, Stop>
    ensures reads { ReadsAll (spec.perhaps (word (codes "with")) spec.lies tokens.old.left) result tokens.new.left }
    ensures goes_on { GoesOn tokens.old tokens.new }
{
    if !tokens.sees(Wanted::Word(b"with")) {
        return Ok(Vec::new(alloc));
    }
    lies(alloc, tokens)
}

/// An entry of SUB.
pub struct Subroute;

impl Part for Subroute {
    type Tree = SubEntry;

    ghost use Rattle.ssi_terms.specs.Identities.{SpellsSub};
    ghost use Rattle.ssi_terms.specs.ReadIdentities.{sub_entry};
    ghost use Rattle.ssi_terms.specs.IdentityRules.{good_sub};

    ghost language = { λ _. SpellsSub };

    ghost parser = { λ _. sub_entry };

    ghost good = { λ _. good_sub };

    #[tactic(auto, unfolding(crate::specs::ReadIdentities::sub_entry))]
    fn read(&self, alloc: Global, tokens: &mut Tokens<'_>) -> Result<SubEntry, Stop> {
        let name = identity(tokens, b"U")?;
        token(tokens, Wanted::Word(b"on"))?;
        let track = identity(tokens, b"T")?;
        let lies = maybe_lies(alloc, tokens)?;
        dot(tokens)?;
        Ok(SubEntry { name, track, lies })
    }
}

impl Entry for Subroute {
    ghost use Rattle.ssi_terms.specs.Tests.{subroute};
    ghost use Rattle.ssi_terms.specs.IdentityRules.{sub_starts};

    ghost opens = { λ _. subroute };

    ghost starts = { λ _. sub_starts };

    fn begins(&self, tokens: &Tokens<'_>) -> bool {
        tokens.sees(Wanted::Identity(b"U"))
    }
}
