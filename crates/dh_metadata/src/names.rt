//! The names of values in a metadata file.

ghost use Rattle.std.specs.Prelude.{◌≡◌, map};
ghost use Rattle.dh_metadata.specs.Names.{value_type_named, operator_named, program_type_named, analytics_type_named, aggregation_named, strategy_named, named};

use dh_base::plain::{AggType, Strategy};

/// A value type of data elements and attributes.
#[derive(Clone, Copy, PartialEq, Eq)]
pub enum ValueType {
    /// `NUMBER`
    Number,
    /// `INTEGER`
    Integer,
    /// `INTEGER_POSITIVE`
    IntegerPositive,
    /// `INTEGER_NEGATIVE`
    IntegerNegative,
    /// `INTEGER_ZERO_OR_POSITIVE`
    IntegerZeroOrPositive,
    /// `PERCENTAGE`
    Percentage,
    /// `UNIT_INTERVAL`
    UnitInterval,
    /// `BOOLEAN`
    Boolean,
    /// `TRUE_ONLY`
    TrueOnly,
    /// `DATE`
    Date,
    /// `TEXT`
    Text,
}

/// How the sides of a validation rule have to compare.
#[derive(Clone, Copy)]
pub enum Operator {
    /// `equal_to`
    EqualTo,
    /// `not_equal_to`
    NotEqualTo,
    /// `greater_than`
    GreaterThan,
    /// `greater_than_or_equal_to`
    GreaterThanOrEqualTo,
    /// `less_than`
    LessThan,
    /// `less_than_or_equal_to`
    LessThanOrEqualTo,
    /// `compulsory_pair`
    CompulsoryPair,
    /// `exclusive_pair`
    ExclusivePair,
}

/// Whether the events of a program hang on enrollments.
#[derive(Clone, Copy)]
pub enum ProgramType {
    /// `WITH_REGISTRATION`
    WithRegistration,
    /// `WITHOUT_REGISTRATION`
    WithoutRegistration,
}

/// What a program indicator runs over.
#[derive(Clone, Copy)]
pub enum AnalyticsType {
    /// `EVENT`
    Event,
    /// `ENROLLMENT`
    Enrollment,
}

// What stands beside a name in a table, or `None` where the name isn't there.
fn named<T: Copy>(table: &[(&[u8], T)], name: &[u8]) -> Option<T>
    ensures { result ≡ named (map (λ entry. (entry.0.now, entry.1)) table.now) name.now }
{
    for entry in table {
        if entry.0 == name {
            return Some(entry.1);
        }
    }
    None
}

const VALUE_TYPES: [(&[u8], ValueType); 11] = [
    (b"NUMBER", ValueType::Number),
    (b"INTEGER", ValueType::Integer),
    (b"INTEGER_POSITIVE", ValueType::IntegerPositive),
    (b"INTEGER_NEGATIVE", ValueType::IntegerNegative),
    (
        b"INTEGER_ZERO_OR_POSITIVE",
        ValueType::IntegerZeroOrPositive,
    ),
    (b"PERCENTAGE", ValueType::Percentage),
    (b"UNIT_INTERVAL", ValueType::UnitInterval),
    (b"BOOLEAN", ValueType::Boolean),
    (b"TRUE_ONLY", ValueType::TrueOnly),
    (b"DATE", ValueType::Date),
    (b"TEXT", ValueType::Text),
];

/// The value type of that name, or `None` where no one has it.
#[tactic(auto, unfolding(crate::specs::Names::value_type_named))]
pub fn value_type_named(name: &[u8]) -> Option<ValueType>
    ensures { result ≡ value_type_named name.now }
{
    named(&VALUE_TYPES, name)
}

const OPERATORS: [(&[u8], Operator); 8] = [
    (b"equal_to", Operator::EqualTo),
    (b"not_equal_to", Operator::NotEqualTo),
    (b"greater_than", Operator::GreaterThan),
    (b"greater_than_or_equal_to", Operator::GreaterThanOrEqualTo),
    (b"less_than", Operator::LessThan),
    (b"less_than_or_equal_to", Operator::LessThanOrEqualTo),
    (b"compulsory_pair", Operator::CompulsoryPair),
    (b"exclusive_pair", Operator::ExclusivePair),
];

/// The operator of that name, or `None` where no one has it.
#[tactic(auto, unfolding(crate::specs::Names::operator_named))]
pub fn operator_named(name: &[u8]) -> Option<Operator>
    ensures { result ≡ operator_named name.now }
{
    named(&OPERATORS, name)
}

const PROGRAM_TYPES: [(&[u8], ProgramType); 2] = [
    (b"WITH_REGISTRATION", ProgramType::WithRegistration),
    (b"WITHOUT_REGISTRATION", ProgramType::WithoutRegistration),
];

/// The program type of that name, or `None` where no one has it.
#[tactic(auto, unfolding(crate::specs::Names::program_type_named))]
pub fn program_type_named(name: &[u8]) -> Option<ProgramType>
    ensures { result ≡ program_type_named name.now }
{
    named(&PROGRAM_TYPES, name)
}

const ANALYTICS_TYPES: [(&[u8], AnalyticsType); 2] = [
    (b"EVENT", AnalyticsType::Event),
    (b"ENROLLMENT", AnalyticsType::Enrollment),
];

/// The analytics type of that name, or `None` where no one has it.
#[tactic(auto, unfolding(crate::specs::Names::analytics_type_named))]
pub fn analytics_type_named(name: &[u8]) -> Option<AnalyticsType>
    ensures { result ≡ analytics_type_named name.now }
{
    named(&ANALYTICS_TYPES, name)
}

const AGGREGATIONS: [(&[u8], AggType); 11] = [
    (b"SUM", AggType::Sum),
    (b"AVERAGE", AggType::Average),
    (b"AVERAGE_SUM_ORG_UNIT", AggType::AverageSumOrgUnit),
    (b"LAST", AggType::Last),
    (b"FIRST", AggType::First),
    (b"LAST_AVERAGE_ORG_UNIT", AggType::LastAverageOrgUnit),
    (b"FIRST_AVERAGE_ORG_UNIT", AggType::FirstAverageOrgUnit),
    (b"COUNT", AggType::Count),
    (b"MIN", AggType::Min),
    (b"MAX", AggType::Max),
    (b"NONE", AggType::None),
];

/// The aggregation type of that name, or `None` where no one has it.
#[tactic(auto, unfolding(crate::specs::Names::aggregation_named))]
pub fn aggregation_named(name: &[u8]) -> Option<AggType>
    ensures { result ≡ aggregation_named name.now }
{
    named(&AGGREGATIONS, name)
}

const STRATEGIES: [(&[u8], Strategy); 3] = [
    (b"SKIP_IF_ANY_VALUE_MISSING", Strategy::SkipIfAny),
    (b"SKIP_IF_ALL_VALUES_MISSING", Strategy::SkipIfAll),
    (b"NEVER_SKIP", Strategy::Never),
];

/// The missing-value strategy of that name, or `None` where no one has it.
#[tactic(auto, unfolding(crate::specs::Names::strategy_named))]
pub fn strategy_named(name: &[u8]) -> Option<Strategy>
    ensures { result ≡ strategy_named name.now }
{
    named(&STRATEGIES, name)
}
