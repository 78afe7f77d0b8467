//! Names of identities, alone and as entries.

ghost use Rattle.ssi_lexer.specs.TokenTests.{identity as identity_test};

use crate::spots::{dot, identity};
use crate::tree::Spot;
use ssi_lexer::{Entry, Part, Stop, Tokens, Wanted};
use std::alloc::Global;

/// The name of an identity of the kind that this letter tells.
#[derive(Clone, Copy)]
pub struct Named {
    pub letter: u8,
}

impl Part for Named {
    type Tree = Spot;

    ghost use Rattle.std.specs.Prelude.{[], ◌∷◌};
    ghost use Rattle.ssi_terms.specs.Identities.{SpotOf};
    ghost use Rattle.ssi_terms.specs.Read.{spot};
    ghost use Rattle.ssi_terms.specs.IdentityRules.{good_named};

    ghost language = { λ part. SpotOf (identity_test (part.letter ∷ [])) };

    ghost parser = { λ part. spot (identity_test (part.letter ∷ [])) };

    ghost good = { λ part. good_named part.letter };

    fn read(&self, _alloc: Global, tokens: &mut Tokens<'_>) -> Result<Spot, Stop> {
        identity(tokens, &[self.letter])
    }
}

/// An entry that is a name and `.`, as in SIG, TCS and FLG.
#[derive(Clone, Copy)]
pub struct NameEntry {
    pub letter: u8,
}

impl Part for NameEntry {
    type Tree = Spot;

    ghost use Rattle.std.specs.Prelude.{[], ◌∷◌};
    ghost use Rattle.ssi_terms.specs.Identities.{SpellsName};
    ghost use Rattle.ssi_terms.specs.Read.{name_entry};
    ghost use Rattle.ssi_terms.specs.IdentityRules.{good_name_entry};

    ghost language = { λ part. SpellsName (identity_test (part.letter ∷ [])) };

    ghost parser = { λ part. name_entry (identity_test (part.letter ∷ [])) };

    ghost good = { λ part. good_name_entry part.letter };

    #[tactic(auto, unfolding(crate::specs::Read::name_entry))]
    fn read(&self, _alloc: Global, tokens: &mut Tokens<'_>) -> Result<Spot, Stop> {
        let name = identity(tokens, &[self.letter])?;
        dot(tokens)?;
        Ok(name)
    }
}

impl Entry for NameEntry {
    ghost use Rattle.std.specs.Prelude.{[], ◌∷◌};
    ghost use Rattle.ssi_terms.specs.IdentityRules.{name_starts};

    ghost opens = { λ entry. identity_test (entry.letter ∷ []) };

    ghost starts = { λ entry. name_starts (identity_test (entry.letter ∷ [])) };

    fn begins(&self, tokens: &Tokens<'_>) -> bool {
        tokens.sees(Wanted::Identity(&[self.letter]))
    }
}
