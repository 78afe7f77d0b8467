//! Reads the files of identities.

ghost use Rattle.std.specs.Prelude.{◌≢◌};
ghost use Rattle.ssi_base.specs.declared.place.Place.{Place as Where};
ghost use Rattle.ssi_lexer.specs.Parsers.{Reads};
ghost use Rattle.ssi_lexer.specs.Readings.{GoesOn};
ghost use Rattle.ssi_lexer.specs.Spelling.{HasOneFinding, HasOneValue};
ghost use Rattle.ssi_terms.specs.Identities.{SpellsIdentities};
ghost use Rattle.ssi_terms.specs.ReadIdentities as spec;
ghost use Rattle.ssi_terms.specs.Readers.{FindsFlat, IsTold, Tells};
ghost use Rattle.ssi_terms.specs.Tests.{ends_file};
ghost use Rattle.ssi_terms.specs.Trees.{IdentityText};

use crate::ending::file_ended;
use crate::files::file;
use crate::identity_entries::{Points, Route, Subroute};
use crate::identity_tree::IdentityTree;
use crate::modules::Module;
use crate::names::NameEntry;
use crate::read_fault::ReadFault;
use ssi_lexer::{Stop, Tokens};
use std::alloc::Global;

/// Reads the files PTS, SIG, TCS, RTE, SUB, FLG and TFM, whatever follows. For readers of the layers above;
/// by `good_identities` it reads `SpellsIdentities`.
#[tactic(auto, unfolding(crate::specs::ReadIdentities::identities))]
pub fn identity_files(alloc: Global, tokens: &mut Tokens<'_>) -> Result<IdentityTree, Stop>
    ensures reads { Reads (spec.identities tokens.old.left) result tokens.new.left }
    ensures goes_on { GoesOn tokens.old tokens.new }
{
    let points = file(alloc, tokens, b"PTS", &Points)?;
    let signals = file(alloc, tokens, b"SIG", &NameEntry { letter: b'S' })?;
    let tracks = file(alloc, tokens, b"TCS", &NameEntry { letter: b'T' })?;
    let routes = file(alloc, tokens, b"RTE", &Route)?;
    let subs = file(alloc, tokens, b"SUB", &Subroute)?;
    let flags = file(alloc, tokens, b"FLG", &NameEntry { letter: b'L' })?;
    let modules = file(alloc, tokens, b"TFM", &Module)?;
    Ok(IdentityTree {
        points,
        signals,
        tracks,
        routes,
        subs,
        flags,
        modules,
    })
}

/// Reads the files PTS, SIG, TCS, RTE, SUB, FLG and TFM, up to the next `file` or the end of the text.
///
/// Of a lexical and a syntax fault the one that stands first is answered, and the tokens stand before it. Where memory
/// runs out they stand where they stood, or further on.
pub fn read_identities(alloc: Global, tokens: &mut Tokens<'_>) -> Result<IdentityTree, ReadFault>
    // The tree and exactly its tokens, with `file` or the end of the text behind it, or the first fault.
    ensures read { Tells IdentityText (FindsFlat IdentityText SpellsIdentities ends_file) tokens.old tokens.new result }

    // These files have no levels.
    ensures never_deep { (place : Where) → result ≢ Err (ReadFault.TooDeep place) }
{
    let read = identity_files(alloc, tokens);
    file_ended(tokens, read)
}

/// What tokens and their end have in them is settled: one tree is taken, or one fault stands there.
pub fn one_identity_tree()
    // Tokens that spell two trees of these files spell one.
    ensures tree { HasOneValue IdentityText SpellsIdentities }

    // Exactly one thing is there: a tree, a syntax fault, or a text that stops inside.
    ensures finding { HasOneFinding IdentityText (FindsFlat IdentityText SpellsIdentities ends_file) }

    // It is what `read_identities` tells, unless memory runs out: so files that are there are read.
    ensures told { IsTold IdentityText (FindsFlat IdentityText SpellsIdentities ends_file) }
{}
