ghost use Rattle.std.specs.Prelude.{◌≡◌, IfOk};
ghost use Rattle.ssi_identities.specs.States.{fact_total_of};
ghost use Rattle.ssi_eval.specs.HandMade.{IsHandMade};

use crate::condition::{Turn, walk};
use crate::frame::{Frame, Stack};
use ssi_identities::Counts;
use ssi_state::State;
use std::alloc::Global;
use std::test::Fail;

/// The state with these values of four flags.
fn flags(alloc: Global, values: [bool; 4]) -> Result<State, Fail>
    ensures { IfOk result (λ state. fact_total_of state ≡ 4) }
{
    let counts = Counts {
        points: 0,
        signals: 0,
        tracks: 0,
        routes: 0,
        subs: 0,
        flags: 4,
        requests: 0,
    };
    let mut state = State::start(alloc, &counts)?;
    let [first, second, third, fourth] = values;
    state.set(0, first);
    state.set(1, second);
    state.set(2, third);
    state.set(3, fourth);
    Ok(state)
}

/// The value of a condition of four flags and a report, by its code.
fn value(code: &[u8], state: &State, report: u8) -> bool
    requires facts { fact_total_of state.now ≡ 4 }
    requires code { IsHandMade code.now }
{
    let mut stack = Stack::new();
    match walk(&mut stack, 0, Frame::of(code), true, state, report) {
        Turn::Value(value) => value,
        Turn::Asks { .. } => unreachable!(),
    }
}

/// `L1 s, L4 xs`
const BOTH: &[u8] = b"\x11\0\0\x10\0\x03";

#[test]
fn both_tests_hold(rt: HostRuntime) -> Result<(), Fail> {
    let alloc = rt.alloc();
    for (values, want) in [
        ([true, true, true, false], true),
        ([true, false, false, true], false),
        ([false, true, true, false], false),
        ([false, false, false, true], false),
    ] {
        let state = flags(alloc, values)?;
        assert_eq!(rt; value(BOTH, &state, 0), want, "{values:?}");
    }
    Ok(())
}

/// `(1 h or L2 s or (L1 xs, L3 s)), 7 l`
const ONE_OF_THREE: &[u8] =
    b"\x16\0\0\0\x17\0\0\0\x02\x13\x01\0\0\0\x03\x11\0\x01\0\0\0\x06\x10\0\0\x11\0\x02\x12\x07";

#[test]
fn one_alternative_holds(rt: HostRuntime) -> Result<(), Fail> {
    let alloc = rt.alloc();
    for (values, report, want) in [
        ([true, false, false, false], 0b0000_0010, true),
        ([true, false, false, false], 0b0111_1101, false),
        ([true, true, false, false], 0b0000_0000, true),
        ([false, false, true, false], 0b0000_0000, true),
        ([true, false, true, false], 0b0000_0000, false),
        ([false, true, true, true], 0b1000_0010, false),
    ] {
        let state = flags(alloc, values)?;
        let holds = value(ONE_OF_THREE, &state, report);
        assert_eq!(rt; holds, want, "{values:?} {report}");
    }
    Ok(())
}

/// Eight times `(.. or L4 s), L2 s`, one in another, and `L1 s` in the innermost.
const EIGHT_DEEP: &[u8] = b"\
    \x16\0\0\0\x93\0\0\0\x88\
    \x16\0\0\0\x80\0\0\0\x75\
    \x16\0\0\0\x6D\0\0\0\x62\
    \x16\0\0\0\x5A\0\0\0\x4F\
    \x16\0\0\0\x47\0\0\0\x3C\
    \x16\0\0\0\x34\0\0\0\x29\
    \x16\0\0\0\x21\0\0\0\x16\
    \x16\0\0\0\x0E\0\0\0\x03\
    \x11\0\0\
    \0\0\0\x03\x11\0\x03\x11\0\x01\
    \0\0\0\x03\x11\0\x03\x11\0\x01\
    \0\0\0\x03\x11\0\x03\x11\0\x01\
    \0\0\0\x03\x11\0\x03\x11\0\x01\
    \0\0\0\x03\x11\0\x03\x11\0\x01\
    \0\0\0\x03\x11\0\x03\x11\0\x01\
    \0\0\0\x03\x11\0\x03\x11\0\x01\
    \0\0\0\x03\x11\0\x03\x11\0\x01";

#[test]
fn eight_groups_lie_in_one_another(rt: HostRuntime) -> Result<(), Fail> {
    let alloc = rt.alloc();
    for (values, want) in [
        ([true, true, false, false], true),
        ([false, true, true, true], true),
        ([true, false, true, true], false),
        ([false, true, true, false], false),
    ] {
        let state = flags(alloc, values)?;
        assert_eq!(rt; value(EIGHT_DEEP, &state, 0), want, "{values:?}");
    }
    Ok(())
}
