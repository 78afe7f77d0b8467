//! Reads conditions.

ghost use Rattle.std.specs.Prelude.{codes};
ghost use Rattle.ssi_lexer.specs.Parsers.{Reads, several_by};
ghost use Rattle.ssi_lexer.specs.Readings.{GoesOn};
ghost use Rattle.ssi_lexer.specs.TokenTests.{word};
ghost use Rattle.ssi_lexer.specs.Spelling.{AtAnyDepth, HasOneFinding, HasOneValue};
ghost use Rattle.ssi_terms.specs.declared.tree.CondTree.{CondTree as Tree};
ghost use Rattle.ssi_terms.specs.Grammar.{deepest, SpellsCond};
ghost use Rattle.ssi_terms.specs.Read as spec;
ghost use Rattle.ssi_terms.specs.Readers.{FindsWithin, IsTold, Tells};
ghost use Rattle.ssi_terms.specs.Tests.{ends_list};

use crate::ending::{list_ended, room_for};
use crate::read_fault::ReadFault;
use crate::spots::{any_identity, number, one_of_words, rule_word, token};
use crate::tree::{CondTree, ItemTree};
use sqlite_items::Items;
use ssi_lexer::{Stop, TokenKind, Tokens, Wanted};
use std::alloc::Global;

/// How many levels of groups a condition has at most.
pub const MOST_GROUPS: u8 = 8;

/// Reads a test: a name of any kind but a request's, and the word that is to hold of it.
#[tactic(auto, unfolding(crate::specs::Read::test))]
fn test(tokens: &mut Tokens<'_>) -> Result<ItemTree, Stop>
    ensures reads { Reads (spec.test tokens.old.left) result tokens.new.left }
    ensures goes_on { GoesOn tokens.old tokens.new }
{
    let name = any_identity(tokens)?;
    let word = rule_word(tokens)?;
    Ok(ItemTree::Test { name, word })
}

/// Reads a bit of a report, and whether it is to be high or low.
#[tactic(auto, unfolding(crate::specs::Read::bit))]
fn bit(tokens: &mut Tokens<'_>) -> Result<ItemTree, Stop>
    ensures reads { Reads (spec.bit tokens.old.left) result tokens.new.left }
    ensures goes_on { GoesOn tokens.old tokens.new }
{
    let number = number(tokens)?;
    let word = one_of_words(tokens, b"h", b"l")?;
    Ok(ItemTree::Bit { number, word })
}

/// Reads an item, where so many levels of groups may be opened.
#[cycle(cond)]
#[tactic(auto, unfolding(crate::specs::Read::item_by, ssi_lexer::specs::Parsers::either))]
fn item(alloc: Global, tokens: &mut Tokens<'_>, groups: u8) -> Result<ItemTree, Stop>
    ensures reads { Reads (spec.item_by (spec.group groups) tokens.old.left) result tokens.new.left }
    ensures goes_on { GoesOn tokens.old tokens.new }
{
    if tokens.sees(Wanted::Kind(TokenKind::Open)) {
        Ok(ItemTree::Any(group(alloc, tokens, groups)?))
    } else if tokens.sees(Wanted::Kind(TokenKind::Number)) {
        bit(tokens)
    } else {
        test(tokens)
    }
}

/// Reads a group, where so many levels of groups may be opened.
#[cycle(cond)]
fn group(alloc: Global, tokens: &mut Tokens<'_>, groups: u8) -> Result<Items<CondTree>, Stop>
    ensures reads { Reads (spec.group groups tokens.old.left) result tokens.new.left }
    ensures goes_on { GoesOn tokens.old tokens.new }
{
    if groups == 0 {
        return Err(Stop::TooDeep);
    }
    opened_group(alloc, tokens, groups - 1)
}

/// Reads a group, inside which so many levels of groups may be opened.
#[cycle(cond)]
#[tactic(auto, unfolding(crate::specs::Read::group_by))]
fn opened_group(alloc: Global, tokens: &mut Tokens<'_>, groups: u8) -> Result<Items<CondTree>, Stop>
    ensures reads { Reads (spec.group_by (spec.cond groups) tokens.old.left) result tokens.new.left }
    ensures goes_on { GoesOn tokens.old tokens.new }
{
    token(tokens, Wanted::Kind(TokenKind::Open))?;
    let alternatives = alternatives(alloc, tokens, groups)?;
    token(tokens, Wanted::Kind(TokenKind::Close))?;
    Ok(alternatives)
}

/// Reads alternatives, two at least, with `or` between.
#[cycle(cond)]
fn alternatives(alloc: Global, tokens: &mut Tokens<'_>, groups: u8) -> Result<Items<CondTree>, Stop>
    ensures reads { Reads (several_by (word (codes "or")) (spec.cond groups) tokens.old.left) result tokens.new.left }
    ensures goes_on { GoesOn tokens.old tokens.new }
{
    let mut all = Vec::new(alloc);
    all.push(cond_within(alloc, tokens, groups)?)?;
    token(tokens, Wanted::Word(b"or"))?;
    all.push(cond_within(alloc, tokens, groups)?)?;
    'alternatives: while tokens.eat(Wanted::Word(b"or")) {
        all.push(cond_within(alloc, tokens, groups)?)?;
    }
    all.shrink_to_fit();
    Ok(Items::from_vec(all))
}

/// Reads a condition, where so many levels of groups may be opened.
#[cycle(cond)]
#[tactic(auto, unfolding(crate::specs::Read::cond, crate::specs::Read::cond_by))]
pub fn cond_within(alloc: Global, tokens: &mut Tokens<'_>, groups: u8) -> Result<CondTree, Stop>
    ensures reads { Reads (spec.cond groups tokens.old.left) result tokens.new.left }
    ensures goes_on { GoesOn tokens.old tokens.new }
{
    let first = item(alloc, tokens, groups)?;
    let mut items = Vec::with_capacity(alloc, room_for(tokens))?;
    items.push(first)?;
    'items: while tokens.eat(Wanted::Kind(TokenKind::Comma)) {
        items.push(item(alloc, tokens, groups)?)?;
    }
    items.shrink_to_fit();
    Ok(CondTree {
        items: Items::from_vec(items),
    })
}

/// Reads a condition, whatever follows. For readers of the layers above; by `conditions` it reads `SpellsCond`.
pub fn cond(alloc: Global, tokens: &mut Tokens<'_>) -> Result<CondTree, Stop>
    ensures reads { Reads (spec.cond deepest tokens.old.left) result tokens.new.left }
    ensures goes_on { GoesOn tokens.old tokens.new }
{
    cond_within(alloc, tokens, MOST_GROUPS)
}

/// Reads a condition. What follows it is anything but `,`, or the end of the text.
///
/// Of a lexical fault, a syntax fault and a level too deep the one that stands first is answered, and the tokens stand
/// before it. Where memory runs out they stand where they stood, or further on.
pub fn read_cond(alloc: Global, tokens: &mut Tokens<'_>) -> Result<CondTree, ReadFault>
    // The tree and exactly its tokens, with eight levels of groups at most and no `,` behind it, or the first fault.
    ensures { Tells Tree (FindsWithin Tree SpellsCond ends_list) tokens.old tokens.new result }
{
    let read = cond(alloc, tokens);
    list_ended(tokens, read)
}

/// What tokens and their end have in them is settled: one condition is taken, or one fault stands there.
pub fn one_cond_tree()
    // Tokens that spell two conditions spell one, depths left aside.
    ensures tree { HasOneValue Tree (AtAnyDepth Tree SpellsCond) }

    // Exactly one thing is there: a condition, a syntax fault, a level too deep, or a text that stops inside.
    ensures finding { HasOneFinding Tree (FindsWithin Tree SpellsCond ends_list) }

    // It is what `read_cond` tells, unless memory runs out: so a condition that is there is read.
    ensures told { IsTold Tree (FindsWithin Tree SpellsCond ends_list) }
{}
