//! Whether a body is well: what it names, how deep its choices lie, and how long its code is.

ghost use Rattle.std.specs.Prelude.{◌≡◌, ◌↔◌, IfSome, IsTrue, nat_le, length};
ghost use Rattle.std.specs.List.{list_all};
ghost use Rattle.std.specs.Option.{option_map};
ghost use Rattle.ssi_identities.specs.Allowed.{IsWellBody, body_depth, body_of_commands, else_levels, else_within, is_body_within, is_decided, is_part_within, is_reported, part_depth};
ghost use Rattle.ssi_identities.specs.Codes.{code_of_body, code_of_part, else_code};
ghost use Rattle.ssi_identities.specs.Deciding.{body_scope_of, capped};

use crate::fact::{FactKind, fact_count, fact_of};
use crate::limits::MOST_LEVELS;
use crate::place::{BodyPlace, CondPlace};
use crate::rule::{Body, BodyItem, Cmd, Cond};
use crate::well_conditions::{CODE_LIMIT, cond_size, is_cond_shallow, is_cond_within};

/// Whether a body is well where it stands.
pub fn is_well_body(place: &BodyPlace, body: &Body) -> bool
    ensures { IsTrue result ↔ IsWellBody (body_scope_of place.now) body.now }
{
    is_body_shallow(body, MOST_LEVELS)
        && is_body_within(place, body)
        && body_size(body) < CODE_LIMIT
}

/// Whether there is no body, or one that is well where it stands.
pub fn is_well_body_where_given(place: &BodyPlace, body: &Option<Body>) -> bool
    ensures { IsTrue result ↔ IfSome body.now (IsWellBody (body_scope_of place.now)) }
{
    match body {
        Some(body) => is_well_body(place, body),
        None => true,
    }
}

/// Whether commands are well, as a body, where they stand.
pub fn are_well_commands(place: &BodyPlace, commands: &[Cmd]) -> bool
    ensures { IsTrue result ↔ IsWellBody (body_scope_of place.now) (body_of_commands commands.now) }
{
    let size = (commands.len() as u64).saturating_mul(3);
    if size == 0 || size >= CODE_LIMIT {
        return false;
    }
    may_command_all(place, commands)
}

fn may_command_all(place: &BodyPlace, commands: &[Cmd]) -> bool
    ensures { result ≡ list_all (λ command. (body_scope_of place.now).may_command command.fact) commands.now }
{
    commands
        .iter()
        .all(|command| may_command(place, command.fact))
}

fn is_decided(kind: FactKind) -> bool
    ensures { result ≡ is_decided kind }
{
    match kind {
        FactKind::Reverse
        | FactKind::RouteSet
        | FactKind::RouteBarred
        | FactKind::Locked
        | FactKind::FlagSet => true,
        _ => false,
    }
}

fn is_reported(kind: FactKind) -> bool
    ensures { result ≡ is_reported kind }
{
    match kind {
        FactKind::DetectedNormal
        | FactKind::DetectedReverse
        | FactKind::Lamp
        | FactKind::Occupied
        | FactKind::FlagSet => true,
        _ => false,
    }
}

/// Whether there is a fact with this number, and it may be commanded.
fn may_command(place: &BodyPlace, fact: u16) -> bool
    ensures { result ≡ (body_scope_of place.now).may_command fact }
{
    if fact >= fact_count(&place.counts) {
        return false;
    }
    let (kind, _) = fact_of(&place.counts, fact);
    if place.is_input {
        is_reported(kind)
    } else {
        is_decided(kind)
    }
}

/// Whether a body names only what its place allows, and no list in it is too short.
#[cycle(within)]
fn is_body_within(place: &BodyPlace, body: &Body) -> bool
    ensures { result ≡ is_body_within (body_scope_of place.now) body.now }
{
    for item in body.items.as_slice() {
        if !is_part_within(place, item) {
            return false;
        }
    }
    !body.items.is_empty()
}

#[cycle(within)]
fn is_part_within(place: &BodyPlace, item: &BodyItem) -> bool
    ensures { result ≡ is_part_within (body_scope_of place.now) item.now }
{
    match item {
        BodyItem::Do(command) => may_command(place, command.fact),
        BodyItem::If {
            guard,
            then_body,
            else_body,
        } => {
            is_cond_shallow(guard, MOST_LEVELS)
                && is_cond_within(&place.guards, guard)
                && is_body_within(place, then_body)
                && is_else_within(place, else_body)
        }
    }
}

#[cycle(within)]
fn is_else_within(place: &BodyPlace, other: &Option<Body>) -> bool
    ensures { result ≡ else_within (option_map (is_body_within (body_scope_of place.now)) other.now) }
{
    match other {
        Some(body) => is_body_within(place, body),
        None => true,
    }
}

/// Whether so many choices at most lie in one another in a body.
#[cycle(levels)]
fn is_body_shallow(body: &Body, levels: u8) -> bool
    ensures { result ≡ nat_le (body_depth body.now) levels }
{
    for item in body.items.as_slice() {
        if !is_part_shallow(item, levels) {
            return false;
        }
    }
    true
}

#[cycle(levels)]
fn is_part_shallow(item: &BodyItem, levels: u8) -> bool
    ensures { result ≡ nat_le (part_depth item.now) levels }
{
    match item {
        BodyItem::Do(_) => true,
        BodyItem::If {
            then_body,
            else_body,
            ..
        } => {
            levels > 0
                && is_body_shallow(then_body, levels - 1)
                && is_else_shallow(else_body, levels - 1)
        }
    }
}

#[cycle(levels)]
fn is_else_shallow(other: &Option<Body>, levels: u8) -> bool
    ensures { result ≡ nat_le (else_levels (option_map body_depth other.now)) levels }
{
    match other {
        Some(body) => is_body_shallow(body, levels),
        None => true,
    }
}

/// How many bytes the code of a body has; the largest number where they are more.
#[cycle(size)]
fn body_size(body: &Body) -> u64
    ensures { result ≡ capped (length (code_of_body body.now)) }
{
    let mut size = 0_u64;
    for item in body.items.as_slice() {
        size = size.saturating_add(part_size(item));
    }
    size
}

#[cycle(size)]
fn part_size(item: &BodyItem) -> u64
    ensures { result ≡ capped (length (code_of_part item.now)) }
{
    match item {
        BodyItem::Do(_) => 3,
        BodyItem::If {
            guard,
            then_body,
            else_body,
        } => 13_u64
            .saturating_add(cond_size(guard))
            .saturating_add(body_size(then_body))
            .saturating_add(else_size(else_body)),
    }
}

#[cycle(size)]
fn else_size(other: &Option<Body>) -> u64
    ensures { result ≡ capped (length (else_code (option_map code_of_body other.now))) }
{
    match other {
        Some(body) => body_size(body).saturating_add(4),
        None => 0,
    }
}
