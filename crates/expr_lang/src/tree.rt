//! Expressions as trees.

ghost use Rattle.std.specs.Prelude.{◌≡◌, ◌<◌, length, slice_get, Some};
ghost use Rattle.expr_lang.specs.Branches.{shape_in, branch_shape, AreSound, IsEarlier};

use dh_base::plain::Rate;
use dh_base::uid::Uid;

/// Where an expression stands, which decides on its items and calls.
#[derive(Clone, Copy)]
pub enum Place {
    /// In an indicator, a validation rule or a predictor: over aggregate data.
    Aggregate,
    /// In a program indicator: over one event.
    Program,
}

/// What a value is.
#[derive(Clone, Copy)]
pub enum Sort {
    Number,
    Truth,
    Day,
}

/// A named value.
#[derive(Clone, Copy, PartialEq, Eq)]
pub enum Item {
    /// `#{element}`, `#{element.combo}` or `#{element.combo.attribute}`
    Element {
        element: Uid,
        combo: Option<Uid>,
        attribute: Option<Uid>,
    },
    /// `C{constant}`
    Constant(Uid),
    /// `OUG{group}`, the number of units in a group
    Group(Uid),
    /// `[days]`
    Days,
    /// `R{set.REPORTING_RATE}` and the other rates
    Rate {
        set: Uid,
        rate: Rate,
    },
    /// `#{stage.element}`
    StageElement {
        stage: Uid,
        element: Uid,
    },
    /// `A{attribute}`
    Attribute(Uid),
    /// `V{event_date}`
    EventDate,
    /// `V{enrollment_date}`
    EnrollmentDate,
    /// `V{event_count}`, a whole expression alone
    EventCount,
    /// `V{enrollment_count}`, a whole expression alone
    EnrollmentCount,
    /// `V{tei_count}`, a whole expression alone
    EntityCount,
}

/// An operand.
#[derive(Clone, Copy)]
pub enum Leaf {
    /// A number of millionths.
    Number(u64),
    /// An item that is a number.
    Item(Item),
    /// An item that is a day.
    Day(Item),
}

/// What is done to one value, or to the list of a call's arguments.
#[derive(Clone, Copy)]
pub enum Unary {
    /// `-x`
    Negate,
    /// `!x`
    Not,
    /// `x^n`, n at most 64
    Power(u8),
    /// `isNull(item)`
    IsNull,
    /// `isNotNull(item)`
    IsNotNull,
    /// `firstNonNull(x, ..)` of the list below
    FirstNonNull,
    /// `greatest(x, ..)` of the list below
    Greatest,
    /// `least(x, ..)` of the list below
    Least,
    /// `d2:hasValue(item)`
    HasValue,
    /// `d2:zing(x)`
    Zing,
    /// `d2:oizp(x)`
    Oizp,
}

/// What is done to two values.
#[derive(Clone, Copy)]
pub enum Binary {
    Or,
    And,
    Equal,
    NotEqual,
    Less,
    AtMost,
    Greater,
    AtLeast,
    Add,
    Subtract,
    Multiply,
    Divide,
    Remainder,
    /// `d2:daysBetween(x, y)`
    DaysBetween,
    /// One more argument after a list of them, in `firstNonNull`, `greatest` and `least`.
    Comma,
}

/// A node of an expression. Its operands are earlier nodes of the list in which it stands.
#[derive(Clone, Copy)]
pub enum Branch {
    /// A number of millionths.
    Number(u64),
    /// An item that is a number, by its place in the list of items.
    Item(usize),
    /// An item that is a day, by its place in the list of items.
    Day(usize),
    Unary(Unary, usize),
    Binary(Binary, usize, usize),
    /// `if(condition, then, else)`
    If(usize, usize, usize),
}

/// The node at a place.
pub fn branch_at(items: &[Item], branches: &[Branch], n: usize) -> Branch
    requires within { n < length branches.now }
    requires sound { AreSound (length items.now) branches.now }
    ensures shape { shape_in items.now branches.now n ≡ branch_shape items.now (shape_in items.now branches.now) result }
    ensures earlier { IsEarlier (length items.now) n result }
{
    branches[n]
}
