//! Reads FOP.

ghost use Rattle.ssi_lexer.specs.Parsers.{Reads};
ghost use Rattle.ssi_lexer.specs.Readings.{GoesOn};
ghost use Rattle.ssi_lexer.specs.Spelling.{AtAnyDepth, HasOneFinding, HasOneValue};
ghost use Rattle.ssi_fop.specs.Statements.{StatementsText, SpellsStatements};
ghost use Rattle.ssi_fop.specs.ReadStatements as spec;
ghost use Rattle.ssi_terms.specs.Grammar.{deepest};
ghost use Rattle.ssi_terms.specs.Readers.{FindsWithin, IsTold, Tells};
ghost use Rattle.ssi_terms.specs.Tests.{ends_file};

use ssi_lexer::{Entry, Part, Stop, Tokens, Wanted, separated};
use ssi_terms::{Command, CommandTree, CondTree, ReadFault, cond, dot, file, file_ended, token};
use std::alloc::Global;
use std::marker::Model;

/// An entry of FOP: commands, and the condition under which they act.
#[derive(Drop)]
pub struct StatementEntry {
    /// The commands, in written order.
    pub commands: Vec<CommandTree>,
    /// When they act.
    pub guard: CondTree,
}

impl Model for StatementEntry {
    ghost use Rattle.std.specs.Coded.{codes};
    ghost use Rattle.ssi_fop.specs.Statements.{StatementText};
    ghost use Rattle.ssi_terms.specs.contracts.tree.ItemTree as item_tree;

    ghost Value = { StatementText };

    ghost coded = { Prim.hlevel (codes, item_tree.the_row.coded) };

    ghost view = { λ entry. record { commands = entry.commands.items; guard = entry.guard } };
}

/// FOP.
#[derive(Drop)]
pub struct FileTree {
    /// The statements, in written order.
    pub entries: Vec<StatementEntry>,
}

impl Model for FileTree {
    ghost use Rattle.std.specs.Coded.{codes};
    ghost use Rattle.ssi_fop.specs.Statements.{StatementsText};
    ghost use Rattle.ssi_terms.specs.contracts.tree.ItemTree as item_tree;

    ghost Value = { StatementsText };

    ghost coded = { Prim.hlevel (codes, item_tree.the_row.coded) };

    ghost view = { λ tree. tree.entries.items };
}

/// An entry: commands with `,` between, `if`, a condition and `.`.
pub struct Statement;

impl Part for Statement {
    type Tree = StatementEntry;

    ghost use Rattle.ssi_fop.specs.Statements.{SpellsStatement};
    ghost use Rattle.ssi_fop.specs.ReadStatements.{statement_entry};
    ghost use Rattle.ssi_fop.specs.StatementRules.{good_statement};
    ghost use Rattle.ssi_terms.specs.Grammar.{deepest};

    ghost language = { λ _. SpellsStatement deepest };

    ghost parser = { λ _. statement_entry deepest };

    ghost good = { λ _. good_statement deepest };

    #[tactic(auto, unfolding(crate::specs::ReadStatements::statement_entry))]
    fn read(&self, alloc: Global, tokens: &mut Tokens<'_>) -> Result<StatementEntry, Stop> {
        let commands = separated(&Command, alloc, tokens)?;
        token(tokens, Wanted::Word(b"if"))?;
        let guard = cond(alloc, tokens)?;
        dot(tokens)?;
        Ok(StatementEntry { commands, guard })
    }
}

impl Entry for Statement {
    ghost use Rattle.ssi_terms.specs.Grammar.{deepest};
    ghost use Rattle.ssi_terms.specs.Tests.{any_identity};
    ghost use Rattle.ssi_fop.specs.StatementRules.{statement_starts};

    ghost opens = { λ _. any_identity };

    ghost starts = { λ _. statement_starts deepest };

    fn begins(&self, tokens: &Tokens<'_>) -> bool {
        tokens.sees(Wanted::Identity(b"PSTRUL"))
    }
}

/// Reads FOP, whatever follows. For readers of the layers above; by `files` it reads `SpellsStatements`.
#[tactic(auto, unfolding(crate::specs::ReadStatements::statements))]
pub fn statements(alloc: Global, tokens: &mut Tokens<'_>) -> Result<FileTree, Stop>
    ensures reads { Reads (spec.statements deepest tokens.old.left) result tokens.new.left }
    ensures goes_on { GoesOn tokens.old tokens.new }
{
    let entries = file(alloc, tokens, b"FOP", &Statement)?;
    Ok(FileTree { entries })
}

/// Reads FOP, up to the next `file` or the end of the text.
///
/// Of a lexical fault, a syntax fault and a level too deep the one that stands first is answered, and the tokens stand
/// before it. Where memory runs out they stand where they stood, or further on.
pub fn read_file(alloc: Global, tokens: &mut Tokens<'_>) -> Result<FileTree, ReadFault>
    // The tree and exactly its tokens, within the depths and with `file` or the end of the text behind it, or the first fault.
    ensures { Tells StatementsText (FindsWithin StatementsText SpellsStatements ends_file) tokens.old tokens.new result }
{
    let read = statements(alloc, tokens);
    file_ended(tokens, read)
}

/// What tokens and their end have in them is settled: one file is taken, or one fault stands there.
pub fn one_file_tree()
    // Tokens that spell two files spell one, depths left aside.
    ensures tree { HasOneValue StatementsText (AtAnyDepth StatementsText SpellsStatements) }

    // Exactly one thing is there: a file, a syntax fault, a level too deep, or a text that stops inside.
    ensures finding { HasOneFinding StatementsText (FindsWithin StatementsText SpellsStatements ends_file) }

    // It is what `read_file` tells, unless memory runs out: so a file that is there is read.
    ensures told { IsTold StatementsText (FindsWithin StatementsText SpellsStatements ends_file) }
{}
