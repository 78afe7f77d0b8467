//! The levels of a condition or a body that are being read.

ghost use Rattle.std.specs.Prelude.{◌≡◌, ◌<◌, [], ◌∷◌, ◌++◌};
ghost use Rattle.arrayvec.specs.ArrayVec.{array_vec_len};

use arrayvec::ArrayVec;

/// A level that is being read: what is left of a list of items, and, in a group, the alternatives after
/// it.
#[derive(Clone, Copy, Debug)]
pub struct Frame<'a> {
    /// The code of the items that are left.
    pub items: &'a [u8],
    /// The code of the alternatives that come after them.
    pub others: &'a [u8],
}

impl<'a> Default for Frame<'a> {
    fn default() -> Frame<'a> {
        Frame {
            items: &[],
            others: &[],
        }
    }
}

impl<'a> Frame<'a> {
    /// The level of these items, with no alternatives.
    pub fn of(items: &'a [u8]) -> Frame<'a>
        ensures items { result.items.now ≡ items.now }
        ensures others { result.others.now ≡ [] }
    {
        Frame { items, others: &[] }
    }
}

/// The room that the evaluator needs while it reads: the levels round the one that is being read, the
/// outermost first. It is empty between calls, so one serves any number of them.
pub type Stack<'a> = ArrayVec<Frame<'a>, 32>;

/// Sets a level aside, while one within it is read. A body, a guard in it and the condition of points that
/// the guard asks about set aside eight levels each at most; with the one of each that is being read these
/// are 27.
pub fn set_aside<'a>(stack: &mut Stack<'a>, level: Frame<'a>)
    requires { array_vec_len stack.old < 24 }
    ensures { stack.new.items ≡ stack.old.items ++ level.entry ∷ [] }
{
    stack.push(level);
}
