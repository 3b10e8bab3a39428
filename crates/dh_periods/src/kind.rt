//! The types of periods.
ghost use Rattle.std.specs.Prelude.{◌≡◌, ◌≢◌, IfSome, IfNone, find, bytes_eq};
ghost use Rattle.dh_periods.specs.declared.kind.PeriodType.{PeriodType};
ghost use Rattle.dh_periods.specs.declared.kind.Shape.TheVariants.{Months};
ghost use Rattle.dh_periods.specs.Types.{shape_of, type_name, type_named, IsShape};

/// The types of periods, in the order in which periods of the same days are sorted.
#[derive(Clone, Copy, PartialEq, Eq, PartialOrd, Ord, Hash)]
pub enum PeriodType {
    Daily,
    Weekly,
    Monthly,
    BiMonthly,
    Quarterly,
    SixMonthly,
    SixMonthlyApril,
    Yearly,
    FinancialApril,
    FinancialJuly,
    FinancialOct,
}

/// All types, in their order.
const ALL_TYPES: [PeriodType; 11] = [
    PeriodType::Daily,
    PeriodType::Weekly,
    PeriodType::Monthly,
    PeriodType::BiMonthly,
    PeriodType::Quarterly,
    PeriodType::SixMonthly,
    PeriodType::SixMonthlyApril,
    PeriodType::Yearly,
    PeriodType::FinancialApril,
    PeriodType::FinancialJuly,
    PeriodType::FinancialOct,
];

/// The first of the types that has the name.
fn first_named(types: &[PeriodType], name: &[u8]) -> Option<PeriodType>
    ensures { result ≡ find (λ kind. bytes_eq (type_name kind) name.now) types.now }
{
    for kind in types {
        if kind.name() == name {
            return Some(*kind);
        }
    }
    None
}

#[tactic(auto, unfolding(crate::specs::Types::type_named))]
fn type_named(name: &[u8]) -> Option<PeriodType>
    ensures { result ≡ type_named name.now }
{
    first_named(&ALL_TYPES, name)
}

impl PeriodType {
    /// The type of that name, such as `Monthly`, or `None` where no type has it.
    pub fn parse(name: &[u8]) -> Option<PeriodType>
        ensures value { result ≡ type_named name.now }
        ensures found { IfSome result (λ kind. type_name kind ≡ name.now) }
        ensures none { IfNone result ((kind : PeriodType) → type_name kind ≢ name.now) }
    {
        type_named(name)
    }

    /// The name of the type, such as `Monthly`.
    pub fn name(self) -> &'static [u8]
        ensures { result.now ≡ type_name self }
    {
        match self {
            PeriodType::Daily => b"Daily",
            PeriodType::Weekly => b"Weekly",
            PeriodType::Monthly => b"Monthly",
            PeriodType::BiMonthly => b"BiMonthly",
            PeriodType::Quarterly => b"Quarterly",
            PeriodType::SixMonthly => b"SixMonthly",
            PeriodType::SixMonthlyApril => b"SixMonthlyApril",
            PeriodType::Yearly => b"Yearly",
            PeriodType::FinancialApril => b"FinancialApril",
            PeriodType::FinancialJuly => b"FinancialJuly",
            PeriodType::FinancialOct => b"FinancialOct",
        }
    }
}

/// How the periods of a type lie in a year.
#[derive(Clone, Copy)]
pub(crate) enum Shape {
    /// Each day is one.
    Day,
    /// Each week of ISO 8601 is one.
    Week,
    /// So many months are one, and the year's first begins `opening` months after January.
    Months { count: u8, opening: u8 },
}

fn months(count: u8, opening: u8) -> Shape
    ensures { result ≡ Months count opening }
{
    Shape::Months { count, opening }
}

/// How the periods of that type lie in a year.
pub(crate) fn shape_of(kind: PeriodType) -> Shape
    ensures value { result ≡ shape_of kind }
    ensures bounds { IsShape result }
{
    match kind {
        PeriodType::Daily => Shape::Day,
        PeriodType::Weekly => Shape::Week,
        PeriodType::Monthly => months(1, 0),
        PeriodType::BiMonthly => months(2, 0),
        PeriodType::Quarterly => months(3, 0),
        PeriodType::SixMonthly => months(6, 0),
        PeriodType::SixMonthlyApril => months(6, 3),
        PeriodType::Yearly => months(12, 0),
        PeriodType::FinancialApril => months(12, 3),
        PeriodType::FinancialJuly => months(12, 6),
        PeriodType::FinancialOct => months(12, 9),
    }
}
