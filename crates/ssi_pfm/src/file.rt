//! Reads PFM.

ghost use Rattle.ssi_lexer.specs.Parsers.{Reads};
ghost use Rattle.ssi_lexer.specs.Readings.{GoesOn};
ghost use Rattle.ssi_lexer.specs.Spelling.{AtAnyDepth, HasOneFinding, HasOneValue};
ghost use Rattle.ssi_pfm.specs.Rules.{RulesText, SpellsRules};
ghost use Rattle.ssi_pfm.specs.ReadRules as spec;
ghost use Rattle.ssi_terms.specs.Grammar.{deepest};
ghost use Rattle.ssi_terms.specs.Readers.{FindsWithin, IsTold, Tells};
ghost use Rattle.ssi_terms.specs.Tests.{ends_file};

use ssi_lexer::{Entry, Part, Stop, Tokens, Wanted};
use ssi_terms::{
    CondTree, ReadFault, Spot, cond, dot, file, file_ended, identity, one_of_words, token,
};
use std::alloc::Global;
use std::marker::Model;

/// PFM.
#[derive(Drop)]
pub struct FileTree {
    /// Each points' name with the word for a lie and the condition under which they are free to move to it, in written
    /// order.
    pub entries: Vec<(Spot, Spot, CondTree)>,
}

impl Model for FileTree {
    ghost use Rattle.std.specs.Coded.{codes};
    ghost use Rattle.ssi_pfm.specs.Rules.{RulesText};
    ghost use Rattle.ssi_terms.specs.contracts.tree.ItemTree as item_tree;

    ghost Value = { RulesText };

    ghost coded = { Prim.hlevel (codes, item_tree.the_row.coded) };

    ghost view = { λ tree. tree.entries.items };
}

/// An entry: a points' name, `cn` or `cr`, `if`, a condition and `.`.
pub struct RuleEntry;

impl Part for RuleEntry {
    type Tree = (Spot, Spot, CondTree);

    ghost use Rattle.ssi_pfm.specs.Rules.{SpellsRule};
    ghost use Rattle.ssi_pfm.specs.ReadRules.{rule_entry};
    ghost use Rattle.ssi_pfm.specs.RuleLaws.{good_rule};
    ghost use Rattle.ssi_terms.specs.Grammar.{deepest};

    ghost language = { λ _. SpellsRule deepest };

    ghost parser = { λ _. rule_entry deepest };

    ghost good = { λ _. good_rule deepest };

    #[tactic(auto, unfolding(crate::specs::ReadRules::rule_entry))]
    fn read(&self, alloc: Global, tokens: &mut Tokens<'_>) -> Result<(Spot, Spot, CondTree), Stop> {
        let name = identity(tokens, b"P")?;
        let lie = one_of_words(tokens, b"cn", b"cr")?;
        token(tokens, Wanted::Word(b"if"))?;
        let cond = cond(alloc, tokens)?;
        dot(tokens)?;
        Ok((name, lie, cond))
    }
}

impl Entry for RuleEntry {
    ghost use Rattle.ssi_terms.specs.Grammar.{deepest};
    ghost use Rattle.ssi_terms.specs.Tests.{points};
    ghost use Rattle.ssi_pfm.specs.RuleLaws.{rule_starts};

    ghost opens = { λ _. points };

    ghost starts = { λ _. rule_starts deepest };

    fn begins(&self, tokens: &Tokens<'_>) -> bool {
        tokens.sees(Wanted::Identity(b"P"))
    }
}

/// Reads PFM, whatever follows. For readers of the layers above; by `files` it reads `SpellsRules`.
#[tactic(auto, unfolding(crate::specs::ReadRules::rules))]
pub fn rules(alloc: Global, tokens: &mut Tokens<'_>) -> Result<FileTree, Stop>
    ensures reads { Reads (spec.rules deepest tokens.old.left) result tokens.new.left }
    ensures goes_on { GoesOn tokens.old tokens.new }
{
    let entries = file(alloc, tokens, b"PFM", &RuleEntry)?;
    Ok(FileTree { entries })
}

/// Reads PFM, up to the next `file` or the end of the text.
///
/// Of a lexical fault, a syntax fault and a level too deep the one that stands first is answered, and the tokens stand
/// before it. Where memory runs out they stand where they stood, or further on.
pub fn read_file(alloc: Global, tokens: &mut Tokens<'_>) -> Result<FileTree, ReadFault>
    // The tree and exactly its tokens, within the depths and with `file` or the end of the text behind it, or the first fault.
    ensures { Tells RulesText (FindsWithin RulesText SpellsRules ends_file) tokens.old tokens.new result }
{
    let read = rules(alloc, tokens);
    file_ended(tokens, read)
}

/// What tokens and their end have in them is settled: one file is taken, or one fault stands there.
pub fn one_file_tree()
    // Tokens that spell two files spell one, depths left aside.
    ensures tree { HasOneValue RulesText (AtAnyDepth RulesText SpellsRules) }

    // Exactly one thing is there: a file, a syntax fault, a level too deep, or a text that stops inside.
    ensures finding { HasOneFinding RulesText (FindsWithin RulesText SpellsRules ends_file) }

    // It is what `read_file` tells, unless memory runs out: so a file that is there is read.
    ensures told { IsTold RulesText (FindsWithin RulesText SpellsRules ends_file) }
{}
