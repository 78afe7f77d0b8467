//! The whole source: the files of identities, the requests, and the files behind them.

ghost use Rattle.ssi_lexer.specs.Parsers.{Reads};
ghost use Rattle.ssi_lexer.specs.Readings.{GoesOn};
ghost use Rattle.ssi_lexer.specs.Spelling.{AtAnyDepth, HasOneFinding, HasOneValue};
ghost use Rattle.ssi_names.specs.ReadSource as spec;
ghost use Rattle.ssi_names.specs.SourceTexts.{SourceText};
ghost use Rattle.ssi_names.specs.Sources.{SpellsSource};
ghost use Rattle.ssi_terms.specs.Grammar.{deepest};
ghost use Rattle.ssi_terms.specs.Readers.{FindsWithin, IsTold, Tells};
ghost use Rattle.ssi_terms.specs.Tests.{ends_file};

use ssi_fop::statements;
use ssi_ipt::inputs;
use ssi_lexer::{Stop, Tokens};
use ssi_opt::outputs;
use ssi_pfm::rules;
use ssi_prr::requests;
use ssi_terms::{IdentityTree, ReadFault, file_ended, identity_files};
use std::alloc::Global;
use std::marker::Model;

/// The whole source.
#[derive(Drop)]
pub struct SourceTree {
    /// The files PTS to TFM.
    pub identities: IdentityTree,
    /// PRR: each request with its body.
    pub requests: ssi_prr::FileTree,
    /// PFM: when points are free to move.
    pub free: ssi_pfm::FileTree,
    /// FOP: commands, and the condition under which they act.
    pub statements: ssi_fop::FileTree,
    /// OPT: what goes out to modules.
    pub outputs: ssi_opt::FileTree,
    /// IPT: what comes in from modules.
    pub inputs: ssi_ipt::FileTree,
}

impl Model for SourceTree {
    ghost use Rattle.std.specs.Coded.{codes};
    ghost use Rattle.ssi_names.specs.SourceTexts.{SourceText};
    ghost use Rattle.ssi_terms.specs.contracts.tree.ItemTree as item_tree;
    ghost use Rattle.ssi_terms.specs.contracts.tree.PartTree as part_tree;

    ghost Value = { SourceText };

    ghost coded = { Prim.hlevel (codes, item_tree.the_row.coded, part_tree.the_row.coded) };

    ghost view = { λ tree. record {
      identities = tree.identities;
      requests = tree.requests;
      free = tree.free;
      statements = tree.statements;
      outputs = tree.outputs;
      inputs = tree.inputs;
    } };
}

/// The files, whatever follows.
#[tactic(auto, unfolding(crate::specs::ReadSource::source))]
fn source_files(alloc: Global, tokens: &mut Tokens<'_>) -> Result<SourceTree, Stop>
    ensures reads { Reads (spec.source deepest tokens.old.left) result tokens.new.left }
    ensures goes_on { GoesOn tokens.old tokens.new }
{
    let identities = identity_files(alloc, tokens)?;
    let requests = requests(alloc, tokens)?;
    let free = rules(alloc, tokens)?;
    let statements = statements(alloc, tokens)?;
    let outputs = outputs(alloc, tokens)?;
    let inputs = inputs(alloc, tokens)?;
    Ok(SourceTree {
        identities,
        requests,
        free,
        statements,
        outputs,
        inputs,
    })
}

/// Reads the twelve files of a source, up to the next `file` or the end of the text.
///
/// Of a lexical fault, a syntax fault and a level too deep the one that stands first is answered, and the tokens stand
/// before it. Where memory runs out they stand where they stood, or further on.
pub fn read_source(alloc: Global, tokens: &mut Tokens<'_>) -> Result<SourceTree, ReadFault>
    // The tree and exactly its tokens, within the depths and with `file` or the end of the text behind it, or the first fault.
    ensures { Tells SourceText (FindsWithin SourceText SpellsSource ends_file) tokens.old tokens.new result }
{
    let read = source_files(alloc, tokens);
    file_ended(tokens, read)
}

/// What tokens and their end have in them is settled: one source is taken, or one fault stands there.
pub fn one_source_tree()
    // Tokens that spell two sources spell one, depths left aside.
    ensures tree { HasOneValue SourceText (AtAnyDepth SourceText SpellsSource) }

    // Exactly one thing is there: a source, a syntax fault, a level too deep, or a text that stops inside.
    ensures finding { HasOneFinding SourceText (FindsWithin SourceText SpellsSource ends_file) }

    // It is what `read_source` tells, unless memory runs out: so a source that is there is read.
    ensures told { IsTold SourceText (FindsWithin SourceText SpellsSource ends_file) }
{}
