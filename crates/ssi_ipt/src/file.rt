//! Reads IPT.

ghost use Rattle.ssi_lexer.specs.Parsers.{Reads};
ghost use Rattle.ssi_lexer.specs.Readings.{GoesOn};
ghost use Rattle.ssi_lexer.specs.Spelling.{AtAnyDepth, HasOneFinding, HasOneValue};
ghost use Rattle.ssi_ipt.specs.Inputs.{InputsText, SpellsInputs};
ghost use Rattle.ssi_ipt.specs.ReadInputs as spec;
ghost use Rattle.ssi_terms.specs.Grammar.{deepest};
ghost use Rattle.ssi_terms.specs.Readers.{FindsWithin, IsTold, Tells};
ghost use Rattle.ssi_terms.specs.Tests.{ends_file};

use ssi_lexer::{Entry, Part, Stop, TokenKind, Tokens, Wanted};
use ssi_terms::{BodyTree, ReadFault, Spot, body, dot, file, file_ended, number};
use std::alloc::Global;
use std::marker::Model;

/// IPT.
#[derive(Drop)]
pub struct FileTree {
    /// Each address with its body, in written order.
    pub entries: Vec<(Spot, BodyTree)>,
}

impl Model for FileTree {
    ghost use Rattle.std.specs.Coded.{codes};
    ghost use Rattle.ssi_ipt.specs.Inputs.{InputsText};
    ghost use Rattle.ssi_terms.specs.contracts.tree.ItemTree as item_tree;
    ghost use Rattle.ssi_terms.specs.contracts.tree.PartTree as part_tree;

    ghost Value = { InputsText };

    ghost coded = { Prim.hlevel (codes, item_tree.the_row.coded, part_tree.the_row.coded) };

    ghost view = { λ tree. tree.entries.items };
}

/// An entry: an address, its body and `.`.
pub struct InputEntry;

impl Part for InputEntry {
    type Tree = (Spot, BodyTree);

    ghost use Rattle.ssi_ipt.specs.Inputs.{SpellsInput};
    ghost use Rattle.ssi_ipt.specs.ReadInputs.{input_entry};
    ghost use Rattle.ssi_ipt.specs.InputRules.{good_input};
    ghost use Rattle.ssi_terms.specs.Grammar.{deepest};

    ghost language = { λ _. SpellsInput deepest };

    ghost parser = { λ _. input_entry deepest };

    ghost good = { λ _. good_input deepest };

    #[tactic(auto, unfolding(crate::specs::ReadInputs::input_entry))]
    fn read(&self, alloc: Global, tokens: &mut Tokens<'_>) -> Result<(Spot, BodyTree), Stop> {
        let address = number(tokens)?;
        let body = body(alloc, tokens)?;
        dot(tokens)?;
        Ok((address, body))
    }
}

impl Entry for InputEntry {
    ghost use Rattle.ssi_terms.specs.Grammar.{deepest};
    ghost use Rattle.ssi_terms.specs.Tests.{any_number};
    ghost use Rattle.ssi_ipt.specs.InputRules.{input_starts};

    ghost opens = { λ _. any_number };

    ghost starts = { λ _. input_starts deepest };

    fn begins(&self, tokens: &Tokens<'_>) -> bool {
        tokens.sees(Wanted::Kind(TokenKind::Number))
    }
}

/// Reads IPT, whatever follows. For readers of the layers above; by `files` it reads `SpellsInputs`.
#[tactic(auto, unfolding(crate::specs::ReadInputs::inputs))]
pub fn inputs(alloc: Global, tokens: &mut Tokens<'_>) -> Result<FileTree, Stop>
    ensures reads { Reads (spec.inputs deepest tokens.old.left) result tokens.new.left }
    ensures goes_on { GoesOn tokens.old tokens.new }
{
    let entries = file(alloc, tokens, b"IPT", &InputEntry)?;
    Ok(FileTree { entries })
}

/// Reads IPT, up to the next `file` or the end of the text.
///
/// Of a lexical fault, a syntax fault and a level too deep the one that stands first is answered, and the tokens stand
/// before it. Where memory runs out they stand where they stood, or further on.
pub fn read_file(alloc: Global, tokens: &mut Tokens<'_>) -> Result<FileTree, ReadFault>
    // The tree and exactly its tokens, within the depths and with `file` or the end of the text behind it, or the first fault.
    ensures { Tells InputsText (FindsWithin InputsText SpellsInputs ends_file) tokens.old tokens.new result }
{
    let read = inputs(alloc, tokens);
    file_ended(tokens, read)
}

/// What tokens and their end have in them is settled: one file is taken, or one fault stands there.
pub fn one_file_tree()
    // Tokens that spell two files spell one, depths left aside.
    ensures tree { HasOneValue InputsText (AtAnyDepth InputsText SpellsInputs) }

    // Exactly one thing is there: a file, a syntax fault, a level too deep, or a text that stops inside.
    ensures finding { HasOneFinding InputsText (FindsWithin InputsText SpellsInputs ends_file) }

    // It is what `read_file` tells, unless memory runs out: so a file that is there is read.
    ensures told { IsTold InputsText (FindsWithin InputsText SpellsInputs ends_file) }
{}
