//! Reads PRR.

ghost use Rattle.ssi_lexer.specs.Parsers.{Reads};
ghost use Rattle.ssi_lexer.specs.Readings.{GoesOn};
ghost use Rattle.ssi_lexer.specs.Spelling.{AtAnyDepth, HasOneFinding, HasOneValue};
ghost use Rattle.ssi_prr.specs.Requests.{RequestsText, SpellsRequests};
ghost use Rattle.ssi_prr.specs.ReadRequests as spec;
ghost use Rattle.ssi_terms.specs.Grammar.{deepest};
ghost use Rattle.ssi_terms.specs.Readers.{FindsWithin, IsTold, Tells};
ghost use Rattle.ssi_terms.specs.Tests.{ends_file};

use ssi_lexer::{Entry, Part, Stop, Tokens, Wanted};
use ssi_terms::{BodyTree, ReadFault, Spot, body, dot, file, file_ended, identity};
use std::alloc::Global;
use std::marker::Model;

/// PRR.
#[derive(Drop)]
pub struct FileTree {
    /// Each request's name with its body, in written order.
    pub entries: Vec<(Spot, BodyTree)>,
}

impl Model for FileTree {
    ghost use Rattle.std.specs.Coded.{codes};
    ghost use Rattle.ssi_prr.specs.Requests.{RequestsText};
    ghost use Rattle.ssi_terms.specs.contracts.tree.ItemTree as item_tree;
    ghost use Rattle.ssi_terms.specs.contracts.tree.PartTree as part_tree;

    ghost Value = { RequestsText };

    ghost coded = { Prim.hlevel (codes, item_tree.the_row.coded, part_tree.the_row.coded) };

    ghost view = { λ tree. tree.entries.items };
}

/// An entry: a request's name, its body and `.`.
pub struct RequestEntry;

impl Part for RequestEntry {
    type Tree = (Spot, BodyTree);

    ghost use Rattle.ssi_prr.specs.Requests.{SpellsRequest};
    ghost use Rattle.ssi_prr.specs.ReadRequests.{request_entry};
    ghost use Rattle.ssi_prr.specs.RequestRules.{good_request};
    ghost use Rattle.ssi_terms.specs.Grammar.{deepest};

    ghost language = { λ _. SpellsRequest deepest };

    ghost parser = { λ _. request_entry deepest };

    ghost good = { λ _. good_request deepest };

    #[tactic(auto, unfolding(crate::specs::ReadRequests::request_entry))]
    fn read(&self, alloc: Global, tokens: &mut Tokens<'_>) -> Result<(Spot, BodyTree), Stop> {
        let name = identity(tokens, b"Q")?;
        let body = body(alloc, tokens)?;
        dot(tokens)?;
        Ok((name, body))
    }
}

impl Entry for RequestEntry {
    ghost use Rattle.ssi_terms.specs.Grammar.{deepest};
    ghost use Rattle.ssi_terms.specs.Tests.{request};
    ghost use Rattle.ssi_prr.specs.RequestRules.{request_starts};

    ghost opens = { λ _. request };

    ghost starts = { λ _. request_starts deepest };

    fn begins(&self, tokens: &Tokens<'_>) -> bool {
        tokens.sees(Wanted::Identity(b"Q"))
    }
}

/// Reads PRR, whatever follows. For readers of the layers above; by `files` it reads `SpellsRequests`.
#[tactic(auto, unfolding(crate::specs::ReadRequests::requests))]
pub fn requests(alloc: Global, tokens: &mut Tokens<'_>) -> Result<FileTree, Stop>
    ensures reads { Reads (spec.requests deepest tokens.old.left) result tokens.new.left }
    ensures goes_on { GoesOn tokens.old tokens.new }
{
    let entries = file(alloc, tokens, b"PRR", &RequestEntry)?;
    Ok(FileTree { entries })
}

/// Reads PRR, up to the next `file` or the end of the text.
///
/// Of a lexical fault, a syntax fault and a level too deep the one that stands first is answered, and the tokens stand
/// before it. Where memory runs out they stand where they stood, or further on.
pub fn read_file(alloc: Global, tokens: &mut Tokens<'_>) -> Result<FileTree, ReadFault>
    // The tree and exactly its tokens, within the depths and with `file` or the end of the text behind it, or the first fault.
    ensures { Tells RequestsText (FindsWithin RequestsText SpellsRequests ends_file) tokens.old tokens.new result }
{
    let read = requests(alloc, tokens);
    file_ended(tokens, read)
}

/// What tokens and their end have in them is settled: one file is taken, or one fault stands there.
pub fn one_file_tree()
    // Tokens that spell two files spell one, depths left aside.
    ensures tree { HasOneValue RequestsText (AtAnyDepth RequestsText SpellsRequests) }

    // Exactly one thing is there: a file, a syntax fault, a level too deep, or a text that stops inside.
    ensures finding { HasOneFinding RequestsText (FindsWithin RequestsText SpellsRequests ends_file) }

    // It is what `read_file` tells, unless memory runs out: so a file that is there is read.
    ensures told { IsTold RequestsText (FindsWithin RequestsText SpellsRequests ends_file) }
{}
