//! Kinds by letters, facts by words, and kinds of modules by words.

ghost use Rattle.std.specs.Prelude.{◌≡◌, IfSome};
ghost use Rattle.ssi_identities.specs.declared.fact.Kind.TheVariants.{Points};
ghost use Rattle.ssi_identities.specs.Facts.{identity_of};
ghost use Rattle.ssi_identities.specs.Allowed.{is_decided as is_decided_fact, is_reported as is_reported_fact};
ghost use Rattle.ssi_names.specs.Words as spec;

use crate::rule_file::RuleFile;
use ssi_identities::{FactKind, Kind};

/// The kind of identity that a name is of, by its first letter.
pub fn kind_by_name(name: &[u8]) -> Kind
    ensures { result ≡ spec.kind_of name.now }
{
    match name {
        [b'P', _, ..] => Kind::Points,
        [b'S', _, ..] => Kind::Signal,
        [b'T', _, ..] => Kind::Track,
        [b'R', _, ..] => Kind::Route,
        [b'U', _, ..] => Kind::Subroute,
        [b'L', _, ..] => Kind::Flag,
        _ => Kind::Request,
    }
}

/// The first of these facts that a word says, and whether it says that the fact is true.
fn said(word: &[u8], facts: &[FactKind]) -> Option<(FactKind, bool)>
    ensures { result ≡ spec.said_by facts.now word.now }
{
    for fact in facts {
        if word == fact.word(true) {
            return Some((*fact, true));
        }
        if word == fact.word(false) {
            return Some((*fact, false));
        }
    }
    None
}

/// The fact of an identity of the kind that a word says, and whether it says that the fact is true.
pub fn fact_by_word(kind: Kind, word: &[u8]) -> Option<(FactKind, bool)>
    ensures said { result ≡ spec.fact_of_word kind word.now }
    ensures own { IfSome result (λ said. identity_of said.0 ≡ kind) }
{
    match kind {
        Kind::Points => said(
            word,
            &[
                FactKind::Reverse,
                FactKind::DetectedNormal,
                FactKind::DetectedReverse,
            ],
        ),
        Kind::Signal => said(word, &[FactKind::Lamp]),
        Kind::Track => said(word, &[FactKind::Occupied]),
        Kind::Route => said(word, &[FactKind::RouteSet, FactKind::RouteBarred]),
        Kind::Subroute => said(word, &[FactKind::Locked]),
        Kind::Flag => said(word, &[FactKind::FlagSet]),
        Kind::Request => None,
    }
}

/// The lie that a word asks for which asks whether points are controlled to it or free to go to it.
pub fn lie_by_word(kind: Kind, word: &[u8]) -> Option<bool>
    ensures { result ≡ spec.lie_of_word kind word.now }
{
    match kind {
        Kind::Points => lie_of_points(word),
        _ => None,
    }
}

fn lie_of_points(word: &[u8]) -> Option<bool>
    ensures { result ≡ spec.lie_of_word Points word.now }
{
    if word == b"cnf".as_slice() {
        Some(false)
    } else if word == b"crf".as_slice() {
        Some(true)
    } else {
        None
    }
}

/// Whether the entries of a file may command what a word says.
pub fn may_command(file: RuleFile, said: Option<(FactKind, bool)>) -> bool
    ensures { result ≡ spec.may_command file said }
{
    match said {
        Some((fact, _)) => match file {
            RuleFile::Requests | RuleFile::Statements => is_decided(fact),
            RuleFile::Moves | RuleFile::Outputs => false,
            RuleFile::Inputs => is_reported(fact),
        },
        None => false,
    }
}

/// Whether a file says when points are free to move.
pub fn is_of_moves(file: RuleFile) -> bool
    ensures { result ≡ spec.is_of_moves file }
{
    matches!(file, RuleFile::Moves)
}

/// Whether a file takes in reports.
pub fn is_of_inputs(file: RuleFile) -> bool
    ensures { result ≡ spec.is_of_inputs file }
{
    matches!(file, RuleFile::Inputs)
}

/// Whether it is a fact that the interlocking decides.
fn is_decided(fact: FactKind) -> bool
    ensures { result ≡ is_decided_fact fact }
{
    matches!(
        fact,
        FactKind::Reverse
            | FactKind::RouteSet
            | FactKind::RouteBarred
            | FactKind::Locked
            | FactKind::FlagSet
    )
}

/// Whether it is a fact that is reported from the lineside, or a flag.
fn is_reported(fact: FactKind) -> bool
    ensures { result ≡ is_reported_fact fact }
{
    matches!(
        fact,
        FactKind::DetectedNormal
            | FactKind::DetectedReverse
            | FactKind::Lamp
            | FactKind::Occupied
            | FactKind::FlagSet
    )
}

/// The number of a module's kind, by its word: 0 of points, 1 of signals, 2 of tracks.
pub fn module_kind(word: &[u8]) -> u8
    ensures { result ≡ spec.module_kind_of word.now }
{
    if word == b"points".as_slice() {
        0
    } else if word == b"signal".as_slice() {
        1
    } else {
        2
    }
}
