//! Reads OPT.

ghost use Rattle.ssi_lexer.specs.Parsers.{Reads, ReadsAll, separated_by};
ghost use Rattle.ssi_lexer.specs.Readings.{GoesOn};
ghost use Rattle.ssi_lexer.specs.Spelling.{AtAnyDepth, HasOneFinding, HasOneValue};
ghost use Rattle.ssi_opt.specs.Outputs.{OutputsText, SpellsOutputs};
ghost use Rattle.ssi_opt.specs.OutputRules.{is_bit};
ghost use Rattle.ssi_opt.specs.ReadOutputs as spec;
ghost use Rattle.ssi_terms.specs.Grammar.{deepest};
ghost use Rattle.ssi_terms.specs.Readers.{FindsWithin, IsTold, Tells};
ghost use Rattle.ssi_terms.specs.Tests.{ends_file};

use ssi_lexer::{Entry, Part, Stop, TokenKind, Tokens, Wanted};
use ssi_terms::{CondTree, ReadFault, Spot, cond, dot, file, file_ended, number, token};
use std::alloc::Global;
use std::marker::Model;

/// An entry of OPT: what is sent to a module.
#[derive(Drop)]
pub struct OutputEntry {
    /// The module's address.
    pub address: Spot,
    /// Each bit's number with the condition under which it is 1, in written order.
    pub bits: Vec<(Spot, CondTree)>,
}

impl Model for OutputEntry {
    ghost use Rattle.std.specs.Coded.{codes};
    ghost use Rattle.ssi_opt.specs.Outputs.{OutputText};
    ghost use Rattle.ssi_terms.specs.contracts.tree.ItemTree as item_tree;

    ghost Value = { OutputText };

    ghost coded = { Prim.hlevel (codes, item_tree.the_row.coded) };

    ghost view = { λ entry. record { address = entry.address; bits = entry.bits.items } };
}

/// OPT.
#[derive(Drop)]
pub struct FileTree {
    /// The modules with what is sent to them, in written order.
    pub entries: Vec<OutputEntry>,
}

impl Model for FileTree {
    ghost use Rattle.std.specs.Coded.{codes};
    ghost use Rattle.ssi_opt.specs.Outputs.{OutputsText};
    ghost use Rattle.ssi_terms.specs.contracts.tree.ItemTree as item_tree;

    ghost Value = { OutputsText };

    ghost coded = { Prim.hlevel (codes, item_tree.the_row.coded) };

    ghost view = { λ tree. tree.entries.items };
}

/// Reads a bit: its number, `if` and a condition.
#[tactic(auto, unfolding(crate::specs::ReadOutputs::output_bit))]
fn bit(alloc: Global, tokens: &mut Tokens<'_>) -> Result<(Spot, CondTree), Stop>
    ensures reads { Reads (spec.output_bit deepest tokens.old.left) result tokens.new.left }
    ensures goes_on { GoesOn tokens.old tokens.new }
{
    let number = number(tokens)?;
    token(tokens, Wanted::Word(b"if"))?;
    let cond = cond(alloc, tokens)?;
    Ok((number, cond))
}

/// Reads one bit or more, with `bit` between.
fn bits(alloc: Global, tokens: &mut Tokens<'_>) -> Result<Vec<(Spot, CondTree)>, Stop>
    ensures reads { ReadsAll (separated_by is_bit (spec.output_bit deepest) tokens.old.left) result tokens.new.left }
    ensures goes_on { GoesOn tokens.old tokens.new }
{
    let mut all = Vec::new(alloc);
    all.push(bit(alloc, tokens)?)?;
    'bits: while tokens.eat(Wanted::Word(b"bit")) {
        all.push(bit(alloc, tokens)?)?;
    }
    all.shrink_to_fit();
    Ok(all)
}

/// An entry: an address, `bit` before each bit and `.`.
pub struct Output;

impl Part for Output {
    type Tree = OutputEntry;

    ghost use Rattle.ssi_opt.specs.Outputs.{SpellsOutput};
    ghost use Rattle.ssi_opt.specs.ReadOutputs.{output_entry};
    ghost use Rattle.ssi_opt.specs.OutputRules.{good_output};
    ghost use Rattle.ssi_terms.specs.Grammar.{deepest};

    ghost language = { λ _. SpellsOutput deepest };

    ghost parser = { λ _. output_entry deepest };

    ghost good = { λ _. good_output deepest };

    #[tactic(auto, unfolding(crate::specs::ReadOutputs::output_entry))]
    fn read(&self, alloc: Global, tokens: &mut Tokens<'_>) -> Result<OutputEntry, Stop> {
        let address = number(tokens)?;
        token(tokens, Wanted::Word(b"bit"))?;
        let bits = bits(alloc, tokens)?;
        dot(tokens)?;
        Ok(OutputEntry { address, bits })
    }
}

impl Entry for Output {
    ghost use Rattle.ssi_terms.specs.Grammar.{deepest};
    ghost use Rattle.ssi_terms.specs.Tests.{any_number};
    ghost use Rattle.ssi_opt.specs.OutputRules.{output_starts};

    ghost opens = { λ _. any_number };

    ghost starts = { λ _. output_starts deepest };

    fn begins(&self, tokens: &Tokens<'_>) -> bool {
        tokens.sees(Wanted::Kind(TokenKind::Number))
    }
}

/// Reads OPT, whatever follows. For readers of the layers above; by `files` it reads `SpellsOutputs`.
#[tactic(auto, unfolding(crate::specs::ReadOutputs::outputs))]
pub fn outputs(alloc: Global, tokens: &mut Tokens<'_>) -> Result<FileTree, Stop>
    ensures reads { Reads (spec.outputs deepest tokens.old.left) result tokens.new.left }
    ensures goes_on { GoesOn tokens.old tokens.new }
{
    let entries = file(alloc, tokens, b"OPT", &Output)?;
    Ok(FileTree { entries })
}

/// Reads OPT, up to the next `file` or the end of the text.
///
/// Of a lexical fault, a syntax fault and a level too deep the one that stands first is answered, and the tokens stand
/// before it. Where memory runs out they stand where they stood, or further on.
pub fn read_file(alloc: Global, tokens: &mut Tokens<'_>) -> Result<FileTree, ReadFault>
    // The tree and exactly its tokens, within the depths and with `file` or the end of the text behind it, or the first fault.
    ensures { Tells OutputsText (FindsWithin OutputsText SpellsOutputs ends_file) tokens.old tokens.new result }
{
    let read = outputs(alloc, tokens);
    file_ended(tokens, read)
}

/// What tokens and their end have in them is settled: one file is taken, or one fault stands there.
pub fn one_file_tree()
    // Tokens that spell two files spell one, depths left aside.
    ensures tree { HasOneValue OutputsText (AtAnyDepth OutputsText SpellsOutputs) }

    // Exactly one thing is there: a file, a syntax fault, a level too deep, or a text that stops inside.
    ensures finding { HasOneFinding OutputsText (FindsWithin OutputsText SpellsOutputs ends_file) }

    // It is what `read_file` tells, unless memory runs out: so a file that is there is read.
    ensures told { IsTold OutputsText (FindsWithin OutputsText SpellsOutputs ends_file) }
{}
