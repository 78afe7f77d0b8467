//! Conditions and bodies over the numbers of facts.

use sqlite_items::Items;

/// An item of a condition.
#[cycle(cond)]
#[derive(Drop)]
pub enum CondItem {
    /// A fact has the wanted value.
    Lit {
        /// The fact's number, below the count of facts.
        fact: u16,
        /// Whether the fact is to be true.
        wanted: bool,
    },
    /// A bit of the report at hand has the wanted value. Only the input of a module has such items.
    Bit {
        /// The bit's number, 0 to 7, 0 being the lowest.
        bit: u8,
        /// Whether the bit is to be 1.
        wanted: bool,
    },
    /// Points are controlled to a lie or free to move to it. The conditions of points have no such items.
    Free {
        /// The points' number.
        points: u16,
        /// Whether the lie is reverse.
        reverse: bool,
    },
    /// A group: one of the alternatives holds.
    Any(Items<Cond>),
}

/// A condition: all of its items hold.
#[cycle(cond)]
#[derive(Drop)]
pub struct Cond {
    /// In written order.
    pub items: Items<CondItem>,
}

/// A command: it gives a fact its value.
#[derive(Clone, Copy, Debug, PartialEq, Eq)]
pub struct Cmd {
    /// The fact's number.
    pub fact: u16,
    /// What the fact becomes.
    pub value: bool,
}

/// An item of a body.
#[cycle(body)]
#[derive(Drop)]
pub enum BodyItem {
    /// A command.
    Do(Cmd),
    /// A choice: the guard is valued once, before its branch.
    If {
        /// What decides.
        guard: Cond,
        /// What acts where the guard holds.
        then_body: Body,
        /// What acts where it doesn't; nothing where there is none.
        else_body: Option<Body>,
    },
}

/// A body: its items act one after another, each seeing what those before it did.
#[cycle(body)]
#[derive(Drop)]
pub struct Body {
    /// In written order.
    pub items: Items<BodyItem>,
}
