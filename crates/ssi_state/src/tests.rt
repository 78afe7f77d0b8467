ghost use Rattle.std.specs.Prelude.{◌≤◌};

use super::*;
use ssi_identities::Counts;
use std::alloc::Global;
use std::process::Abort;
use std::test::Fail;

/// Four flags before and after, a fact to look from on, and the next change from there.
type Row = ([bool; 4], [bool; 4], u16, Option<(u16, bool)>);

const CHANGES: [Row; 11] = [
    (
        [false, true, false, true],
        [false, true, false, true],
        0,
        None,
    ),
    (
        [false, false, false, false],
        [true, false, false, false],
        0,
        Some((0, true)),
    ),
    (
        [false, false, false, false],
        [true, false, false, false],
        1,
        None,
    ),
    (
        [false, true, true, false],
        [false, false, true, true],
        0,
        Some((1, false)),
    ),
    (
        [false, true, true, false],
        [false, false, true, true],
        1,
        Some((1, false)),
    ),
    (
        [false, true, true, false],
        [false, false, true, true],
        2,
        Some((3, true)),
    ),
    (
        [false, true, true, false],
        [false, false, true, true],
        3,
        Some((3, true)),
    ),
    (
        [false, true, true, false],
        [false, false, true, true],
        4,
        None,
    ),
    (
        [true, true, true, true],
        [true, true, true, false],
        0,
        Some((3, false)),
    ),
    (
        [true, true, true, true],
        [false, false, false, false],
        2,
        Some((2, false)),
    ),
    (
        [true, true, true, true],
        [false, false, false, false],
        65535,
        None,
    ),
];

/// How many flags the longer states have: blocks of 64, blocks of 8 behind them, and a rest that fills neither.
const LONG_FLAGS: u16 = 150;

/// The flags that changed, a fact to look from on, and the next that changed from there.
type LongRow = (&'static [u16], u16, Option<u16>);

const LONG_CHANGES: [LongRow; 22] = [
    (&[], 0, None),
    (&[], 37, None),
    (&[], 150, None),
    (&[0], 0, Some(0)),
    (&[0], 1, None),
    (&[7], 0, Some(7)),
    (&[8], 0, Some(8)),
    (&[63], 0, Some(63)),
    (&[63], 64, None),
    (&[64], 0, Some(64)),
    (&[127], 0, Some(127)),
    (&[128], 0, Some(128)),
    (&[135], 0, Some(135)),
    (&[143], 0, Some(143)),
    (&[144], 0, Some(144)),
    (&[149], 0, Some(149)),
    (&[149], 149, Some(149)),
    (&[20, 100], 21, Some(100)),
    (&[84, 85], 21, Some(84)),
    (&[84, 85], 85, Some(85)),
    (&[28, 92], 29, Some(92)),
    (&[0, 63, 149], 64, Some(149)),
];

/// A start of so many flags.
fn start_of_flags(alloc: Global, flags: u16) -> Result<State, Fail>
    requires { flags ≤ 512 }
{
    let counts = Counts {
        points: 0,
        signals: 0,
        tracks: 0,
        routes: 0,
        subs: 0,
        flags,
        requests: 0,
    };
    Ok(State::start(alloc, &counts)?)
}

/// The state with these values of four flags.
fn flags(alloc: Global, values: [bool; 4]) -> Result<State, Fail> {
    let mut state = start_of_flags(alloc, 4)?;
    let mut fact = 0;
    for value in values {
        if fact < state.len() {
            state.set(fact, value);
            fact += 1;
        }
    }
    Ok(state)
}

/// The start of the longer state, with these flags changed.
fn changed_flags(alloc: Global, changed: &[u16]) -> Result<State, Fail> {
    let mut state = start_of_flags(alloc, LONG_FLAGS)?;
    for fact in changed {
        if *fact < state.len() {
            state.set(*fact, true);
        }
    }
    Ok(state)
}

#[test]
fn the_next_change_is_the_first_from_there_on(rt: HostRuntime) -> Result<(), Fail> {
    let alloc = rt.alloc();
    for (before, after, from, want) in CHANGES {
        let old = flags(alloc, before)?;
        let new = flags(alloc, after)?;
        assert_eq!(rt; new.len(), old.len());
        let told = new.next_change(&old, from);
        assert_eq!(rt; told, want, "{before:?} {after:?} {from}");
    }
    Ok(())
}

#[test]
fn the_next_change_is_found_behind_blocks(rt: HostRuntime) -> Result<(), Fail> {
    let old = start_of_flags(rt.alloc(), LONG_FLAGS)?;
    for (changed, from, want) in LONG_CHANGES {
        let new = changed_flags(rt.alloc(), changed)?;
        assert_eq!(rt; new.len(), old.len());
        let told = new.next_change(&old, from);
        let change = want.map(|fact| (fact, true));
        assert_eq!(rt; told, change, "{changed:?} {from}");
    }
    Ok(())
}

#[test]
fn a_start_is_read_and_copied(rt: HostRuntime) -> Result<(), Fail> {
    let counts = Counts {
        points: 1,
        signals: 1,
        tracks: 2,
        routes: 1,
        subs: 1,
        flags: 1,
        requests: 3,
    };
    let start = State::start(rt.alloc(), &counts)?;
    let mut state = State::start(rt.alloc(), &counts)?;
    let mut told = Vec::new(rt.alloc());
    for fact in 0..start.len() {
        told.push(start.get(fact))?;
        if fact < state.len() {
            state.set(fact, false);
        }
    }
    let want = [
        false, false, false, false, true, true, false, false, false, false,
    ];
    assert_eq!(rt; told.as_slice(), want.as_slice());
    assert_eq!(rt; state.len(), start.len());
    assert_eq!(rt; state.next_change(&start, 0), Some((4, false)));
    state.copy_from(&start);
    assert_eq!(rt; state.next_change(&start, 0), None);
    Ok(())
}
