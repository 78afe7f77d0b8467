//! Reads commands and bodies.

ghost use Rattle.std.specs.Prelude.{◌≡◌, ◌≢◌, List, IfErr};
ghost use Rattle.ssi_lexer.specs.Lexemes.{Lexeme};
ghost use Rattle.ssi_lexer.specs.Parsers.{Reads};
ghost use Rattle.ssi_lexer.specs.Readings.{GoesOn};
ghost use Rattle.ssi_lexer.specs.Spelling.{AtAnyDepth, HasOneFinding, HasOneValue, TakesFront};
ghost use Rattle.ssi_terms.specs.declared.tree.BodyTree.{BodyTree as Tree};
ghost use Rattle.ssi_terms.specs.declared.tree.CommandTree.{CommandTree as CommandOf};
ghost use Rattle.ssi_terms.specs.Grammar.{deepest, SpellsBody, SpellsCommand};
ghost use Rattle.ssi_terms.specs.Read as spec;
ghost use Rattle.ssi_terms.specs.Readers.{FindsFront, FindsWithin, IsTold, Tells};
ghost use Rattle.ssi_terms.specs.Tests.{ends_list};

use crate::conditions::{MOST_GROUPS, cond_within};
use crate::ending::{front_ended, list_ended, room_for};
use crate::read_fault::ReadFault;
use crate::spots::{any_identity, rule_word, token};
use crate::tree::{BodyTree, CommandTree, PartTree};
use sqlite_items::Items;
use ssi_lexer::{Part, Stop, TokenKind, Tokens, Wanted};
use std::alloc::Global;

/// How many levels of choices a body has at most.
pub const MOST_CHOICES: u8 = 8;

/// A command, as it stands in lists.
pub struct Command;

impl Part for Command {
    type Tree = CommandTree;

    ghost use Rattle.ssi_terms.specs.Read.{command as command_of};
    ghost use Rattle.ssi_terms.specs.CommandRules.{good_command};

    ghost language = { λ _. SpellsCommand };

    ghost parser = { λ _. command_of };

    ghost good = { λ _. good_command };

    fn read(&self, _alloc: Global, tokens: &mut Tokens<'_>) -> Result<CommandTree, Stop> {
        one_command(tokens)
    }
}

/// Reads a command: a name of any kind but a request's, and the word for its new state.
#[tactic(auto, unfolding(crate::specs::Read::command))]
fn one_command(tokens: &mut Tokens<'_>) -> Result<CommandTree, Stop>
    ensures reads { Reads (spec.command tokens.old.left) result tokens.new.left }
    ensures stops { IfErr result (λ stop. stop ≡ Stop.Syntax) }
    ensures goes_on { GoesOn tokens.old tokens.new }
{
    let name = any_identity(tokens)?;
    let word = rule_word(tokens)?;
    Ok(CommandTree { name, word })
}

/// Reads a part of a body, where so many levels of groups and choices may be opened.
#[cycle(body)]
#[tactic(auto, unfolding(crate::specs::Read::part_by, ssi_lexer::specs::Parsers::either))]
fn part(alloc: Global, tokens: &mut Tokens<'_>, groups: u8, choices: u8) -> Result<PartTree, Stop>
    ensures reads { Reads (spec.part_by (spec.choice groups choices) tokens.old.left) result tokens.new.left }
    ensures goes_on { GoesOn tokens.old tokens.new }
{
    if tokens.sees(Wanted::Word(b"if")) {
        choice(alloc, tokens, groups, choices)
    } else {
        Ok(PartTree::Do(one_command(tokens)?))
    }
}

/// Reads a choice, where so many levels of groups and choices may be opened.
#[cycle(body)]
fn choice(alloc: Global, tokens: &mut Tokens<'_>, groups: u8, choices: u8) -> Result<PartTree, Stop>
    ensures reads { Reads (spec.choice groups choices tokens.old.left) result tokens.new.left }
    ensures goes_on { GoesOn tokens.old tokens.new }
{
    if choices == 0 {
        return Err(Stop::TooDeep);
    }
    opened_choice(alloc, tokens, groups, choices - 1)
}

/// Reads a choice, inside which so many levels of groups and choices may be opened.
#[cycle(body)]
#[tactic(auto, unfolding(crate::specs::Read::choice_by))]
fn opened_choice(
    alloc: Global,
    tokens: &mut Tokens<'_>,
    groups: u8,
    choices: u8,
) -> Result<PartTree, Stop>
    ensures reads { Reads (spec.choice_by (spec.cond groups) (spec.body groups choices) tokens.old.left) result tokens.new.left }
    ensures goes_on { GoesOn tokens.old tokens.new }
{
    token(tokens, Wanted::Word(b"if"))?;
    let guard = cond_within(alloc, tokens, groups)?;
    token(tokens, Wanted::Word(b"then"))?;
    let then_body = body_within(alloc, tokens, groups, choices)?;
    let else_body = maybe_otherwise(alloc, tokens, groups, choices)?;
    token(tokens, Wanted::Word(b"end"))?;
    Ok(PartTree::If {
        guard,
        then_body,
        else_body,
    })
}

/// Reads `else` and the body behind it, if it comes.
#[cycle(body)]
#[tactic(auto, unfolding(crate::specs::Read::maybe_otherwise_by, ssi_lexer::specs::Parsers::maybe))]
fn maybe_otherwise(
    alloc: Global,
    tokens: &mut Tokens<'_>,
    groups: u8,
    choices: u8,
) -> Result<Option<BodyTree>, Stop>
    ensures reads { Reads (spec.maybe_otherwise_by (spec.body groups choices) tokens.old.left) result tokens.new.left }
    ensures goes_on { GoesOn tokens.old tokens.new }
{
    if !tokens.sees(Wanted::Word(b"else")) {
        return Ok(None);
    }
    Ok(Some(otherwise(alloc, tokens, groups, choices)?))
}

/// Reads `else` and the body behind it.
#[cycle(body)]
#[tactic(auto, unfolding(crate::specs::Read::otherwise_by))]
fn otherwise(
    alloc: Global,
    tokens: &mut Tokens<'_>,
    groups: u8,
    choices: u8,
) -> Result<BodyTree, Stop>
    ensures reads { Reads (spec.otherwise_by (spec.body groups choices) tokens.old.left) result tokens.new.left }
    ensures goes_on { GoesOn tokens.old tokens.new }
{
    token(tokens, Wanted::Word(b"else"))?;
    body_within(alloc, tokens, groups, choices)
}

/// Reads a body, where so many levels of groups and choices may be opened.
#[cycle(body)]
#[tactic(auto, unfolding(crate::specs::Read::body, crate::specs::Read::body_by))]
fn body_within(
    alloc: Global,
    tokens: &mut Tokens<'_>,
    groups: u8,
    choices: u8,
) -> Result<BodyTree, Stop>
    ensures reads { Reads (spec.body groups choices tokens.old.left) result tokens.new.left }
    ensures goes_on { GoesOn tokens.old tokens.new }
{
    let first = part(alloc, tokens, groups, choices)?;
    let mut parts = Vec::with_capacity(alloc, room_for(tokens))?;
    parts.push(first)?;
    'parts: while tokens.eat(Wanted::Kind(TokenKind::Comma)) {
        parts.push(part(alloc, tokens, groups, choices)?)?;
    }
    parts.shrink_to_fit();
    Ok(BodyTree {
        parts: Items::from_vec(parts),
    })
}

/// Reads a body, whatever follows. For readers of the layers above; by `bodies` it reads `SpellsBody`.
pub fn body(alloc: Global, tokens: &mut Tokens<'_>) -> Result<BodyTree, Stop>
    ensures reads { Reads (spec.body deepest deepest tokens.old.left) result tokens.new.left }
    ensures goes_on { GoesOn tokens.old tokens.new }
{
    body_within(alloc, tokens, MOST_GROUPS, MOST_CHOICES)
}

/// Reads a command, whatever follows. Memory is never wanted, and no level is too deep.
///
/// Of a lexical and a syntax fault the one that stands first is answered, and the tokens stand before it.
pub fn read_command(tokens: &mut Tokens<'_>) -> Result<CommandTree, ReadFault>
    // The tree and exactly its tokens, or the first fault.
    ensures read { Tells CommandOf (FindsFront CommandOf SpellsCommand) tokens.old tokens.new result }

    // A command that is there is read.
    ensures only { (tree : CommandOf) (rest : List Lexeme) → TakesFront CommandOf SpellsCommand tokens.old.left tree rest
        → (result ≡ Ok tree) × (tokens.new.left ≡ rest) }
    ensures never_memory { result ≢ Err ReadFault.Memory }
{
    let read = one_command(tokens);
    front_ended(tokens, read)
}

/// Reads a body. What follows it is anything but `,`, or the end of the text.
///
/// Of a lexical fault, a syntax fault and a level too deep the one that stands first is answered, and the tokens stand
/// before it. Where memory runs out they stand where they stood, or further on.
pub fn read_body(alloc: Global, tokens: &mut Tokens<'_>) -> Result<BodyTree, ReadFault>
    // The tree and exactly its tokens, with eight levels of choices at most and of groups in each guard, and no `,`
    // behind it, or the first fault.
    ensures { Tells Tree (FindsWithin Tree SpellsBody ends_list) tokens.old tokens.new result }
{
    let read = body(alloc, tokens);
    list_ended(tokens, read)
}

/// What tokens and their end have in them is settled: one body is taken, or one fault stands there.
pub fn one_body_tree()
    // Tokens that spell two bodies spell one, depths left aside.
    ensures tree { HasOneValue Tree (AtAnyDepth Tree SpellsBody) }

    // Exactly one thing is there: a body, a syntax fault, a level too deep, or a text that stops inside.
    ensures finding { HasOneFinding Tree (FindsWithin Tree SpellsBody ends_list) }

    // It is what `read_body` tells, unless memory runs out: so a body that is there is read.
    ensures told { IsTold Tree (FindsWithin Tree SpellsBody ends_list) }

    // Tokens that spell two commands spell one.
    ensures command { HasOneValue CommandOf SpellsCommand }
{}
