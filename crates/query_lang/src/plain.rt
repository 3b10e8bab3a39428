//! A query as plain data: what is asked, over which periods and units.
use dh_base::codes::Refusal;
use dh_base::items::Items;
use dh_base::plain::Rate;
use dh_periods::Period;

/// What kind of item a `dx` item is.
#[derive(Clone, Copy)]
pub enum DxKind {
    /// A data element, or an operand of one.
    Element,
    Indicator,
    ProgramIndicator,
    /// A reporting rate of a data set.
    Rate(Rate),
}

/// One item of the dimension `dx`.
#[derive(Drop)]
pub struct Dx {
    pub kind: DxKind,
    /// The object's number among those of its kind.
    pub number: u32,
    /// The option combination of an operand, by number.
    pub part: Option<u32>,
    /// The item as it was written, decoded.
    pub text: Items<u8>,
}

/// The periods or the units of a query.
#[derive(Drop)]
pub struct Axis<T> {
    /// Each once, in the order asked.
    pub items: Items<T>,
    /// Whether they are taken together: a filter has no column.
    pub filter: bool,
}

/// A query that may be answered.
pub struct Query {
    pub dx: Items<Dx>,
    pub periods: Axis<Period>,
    /// Organisation units by number.
    pub units: Axis<u32>,
    /// Whether the answer tells names and dimensions.
    pub meta: bool,
}

// By hand, so that it is proved here alone and not in each crate above.
impl Drop for Query {
    fn drop(self) {
        let Query {
            dx: _,
            periods: _,
            units: _,
            meta: _,
        } = self;
    }
}

/// Why a query isn't answered.
#[derive(Drop)]
pub enum QueryFault {
    /// Refused by a rule of the query text.
    Refused(Refusal),
    /// Memory ran out.
    Memory,
}
