//! Reads the header of a file, and files.

ghost use Rattle.std.specs.Prelude.{◌≡◌};
ghost use Rattle.ssi_lexer.specs.Parsers.{Reads, ReadsAll};
ghost use Rattle.ssi_lexer.specs.Readings.{GoesOn};
ghost use Rattle.ssi_terms.specs.Read as spec;
ghost use Rattle.ssi_terms.specs.ReadIdentities.{file as file_of};

use crate::spots::token;
use ssi_lexer::{Entry, Stop, Tokens, Wanted, entries};
use std::alloc::Global;

/// Reads a header: `file` and this name.
#[tactic(auto, unfolding(crate::specs::Read::header))]
fn header(tokens: &mut Tokens<'_>, file: &[u8]) -> Result<(), Stop>
    ensures reads { Reads (spec.header file.now tokens.old.left) result tokens.new.left }
    ensures goes_on { GoesOn tokens.old tokens.new }
{
    token(tokens, Wanted::Word(b"file"))?;
    token(tokens, Wanted::Name(file))?;
    Ok(())
}

/// Reads a file: its header and its entries. For readers of the layers above; by `good_file` it reads
/// `SpellsFile`.
#[tactic(auto, unfolding(crate::specs::ReadIdentities::file))]
pub fn file<E: Entry>(
    alloc: Global,
    tokens: &mut Tokens<'_>,
    name: &[u8],
    entry: &E,
) -> Result<Vec<E::Tree>, Stop>
    ensures reads { ReadsAll (file_of name.now (E.opens entry.now) (E.Part.parser entry.now) tokens.old.left) result tokens.new.left }
    ensures goes_on { GoesOn tokens.old tokens.new }
{
    header(tokens, name)?;
    entries(entry, alloc, tokens)
}
