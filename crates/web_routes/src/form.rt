//! The forms of parameters.
ghost use Rattle.std.specs.Prelude.{◌≡◌, ◌<◌, ◌≤◌, ◌^◌, true, false, codes, find, length, map};
ghost use Rattle.std.specs.Char.{is_ascii_digit};
ghost use Rattle.std.specs.List.{list_all};
ghost use Rattle.std.specs.Option.{option_copied};
ghost use Rattle.std.specs.Str.Parse.{digits_value};
ghost use Rattle.dh_base.specs.Memory.{Answers};
ghost use Rattle.dh_metadata.specs.Names.{named};
ghost use Rattle.web_routes.specs.Given.{cause_of};
ghost use Rattle.web_routes.specs.Parameters.{value_of, parameter, strategies, is_number, asked_of, kind_of, is_bad_scheme, params_of, bundle_params_of};

use crate::fault::{RouteFault, refused};
use crate::pairs::value_of;
use crate::path::all_digits;
use dh_base::codes::Code;
use dh_base::items::Items;
use dh_base::plain::CutKind;
use dh_changes::outcome::ImportStrategy;
use import_forms::bundle::BundleParams;
use import_forms::set::SetParams;
use std::alloc::Global;

/// A parameter by the table of its texts, or what stands for an absent one. F21 with its name where the table hasn't its text.
fn choice_in<A: Copy>(
    alloc: Global,
    pairs: &[(Items<u8>, Items<u8>)],
    name: &[u8],
    choices: &[(&[u8], A)],
    default: A,
) -> Result<A, RouteFault>
    ensures { Answers cause_of (parameter name.now (named (map (λ choice. (choice.0.now, choice.1)) choices.now)) default
        (value_of name.now pairs.now)) result }
{
    let Some(text) = value_of(pairs, name) else {
        return Ok(default);
    };
    for choice in choices {
        if choice.0 == text {
            return Ok(choice.1);
        }
    }
    Err(refused(alloc, Code::F21, name))
}

const TRUTHS: [(&[u8], bool); 2] = [(b"true", true), (b"false", false)];

const KINDS: [(&[u8], CutKind); 2] = [(b"true", CutKind::Latest), (b"false", CutKind::Full)];

const STRATEGIES: [(&[u8], ImportStrategy); 8] = [
    (b"CREATE", ImportStrategy::Create),
    (b"NEW", ImportStrategy::Create),
    (b"UPDATE", ImportStrategy::Update),
    (b"UPDATES", ImportStrategy::Update),
    (b"CREATE_AND_UPDATE", ImportStrategy::CreateAndUpdate),
    (b"NEW_AND_UPDATES", ImportStrategy::CreateAndUpdate),
    (b"DELETE", ImportStrategy::Delete),
    (b"DELETES", ImportStrategy::Delete),
];

const ATOMICITIES: [(&[u8], bool); 2] = [(b"ALL", true), (b"OBJECT", false)];

/// Whether the text is a decimal of 1 to 18 digits.
#[tactic(auto, unfolding(crate::specs::Parameters::is_number))]
fn is_number(text: &[u8]) -> bool
    ensures value { result ≡ is_number text.now }
    ensures digits { result ≡ true → list_all is_ascii_digit text.now ≡ true }
    ensures short { result ≡ true → length text.now ≤ 18 }
{
    0 < text.len() && (text.len() <= 18 && all_digits(text))
}

fn digits_value(text: &[u8]) -> u64
    requires digits { list_all is_ascii_digit text.now ≡ true }
    requires short { length text.now ≤ 18 }
    ensures value { result ≡ digits_value 10 text.now }
    ensures bound { result < 10 ^ length text.now }
{
    let mut value = 0;
    for byte in text {
        value = value * 10 + u64::from(*byte - b'0');
    }
    value
}

/// The change that the tables have to have taken in, from the field `X-Min-Change`. F21 where it is no decimal of 1 to
/// 18 digits.
#[tactic(auto, unfolding(crate::specs::Parameters::asked_of, crate::specs::Parameters::number_of))]
pub fn asked_of(alloc: Global, field: &Option<Items<u8>>) -> Result<u64, RouteFault>
    ensures { Answers cause_of (asked_of field.now) result }
{
    let Some(text) = field else {
        return Ok(0);
    };
    if is_number(text.as_slice()) {
        Ok(digits_value(text.as_slice()))
    } else {
        Err(refused(alloc, Code::F21, b"X-Min-Change"))
    }
}

/// What an update rebuilds: the latest part alone where `latest` is `true`, else all. F21 where it is neither `true` nor
/// `false`.
pub fn kind_of(alloc: Global, pairs: &[(Items<u8>, Items<u8>)]) -> Result<CutKind, RouteFault>
    ensures { Answers cause_of (kind_of pairs.now) result }
{
    choice_in(alloc, pairs, b"latest", &KINDS, CutKind::Full)
}

/// What an import may do with records that are there, or aren't.
fn strategy_in(
    alloc: Global,
    pairs: &[(Items<u8>, Items<u8>)],
) -> Result<ImportStrategy, RouteFault>
    ensures { Answers cause_of (parameter (codes "importStrategy") (named strategies) ImportStrategy.CreateAndUpdate
        (value_of (codes "importStrategy") pairs.now)) result }
{
    choice_in(
        alloc,
        pairs,
        b"importStrategy",
        &STRATEGIES,
        ImportStrategy::CreateAndUpdate,
    )
}

#[tactic(auto, unfolding(crate::specs::Parameters::is_bad_scheme, crate::specs::Parameters::is_scheme))]
fn is_bad_scheme(pairs: &[(Items<u8>, Items<u8>)], name: &[u8]) -> bool
    ensures { result ≡ is_bad_scheme pairs.now name.now }
{
    match value_of(pairs, name) {
        Some(text) => text != b"UID".as_slice() && text != b"uid".as_slice(),
        None => false,
    }
}

const SCHEME_NAMES: [&[u8]; 4] = [
    b"idScheme",
    b"dataElementIdScheme",
    b"orgUnitIdScheme",
    b"categoryOptionComboIdScheme",
];

/// The first of the parameters of these names that names objects otherwise than by their identifiers.
fn bad_scheme(names: &[&'static [u8]], pairs: &[(Items<u8>, Items<u8>)]) -> Option<&'static [u8]>
    ensures { option_copied result ≡ find (is_bad_scheme pairs.now) (map (λ name. name.now) names.now) }
{
    for name in names {
        if is_bad_scheme(pairs, name) {
            return Some(name);
        }
    }
    None
}

/// How a set of values is to be imported. F21 with the name of the first parameter that isn't of its form.
#[tactic(auto, unfolding(crate::specs::Parameters::params_of, crate::specs::Parameters::bad_scheme))]
pub fn params_of(alloc: Global, pairs: &[(Items<u8>, Items<u8>)]) -> Result<SetParams, RouteFault>
    ensures { Answers cause_of (params_of pairs.now) result }
{
    let strategy = strategy_in(alloc, pairs)?;
    let dry = choice_in(alloc, pairs, b"dryRun", &TRUTHS, false)?;
    match bad_scheme(&SCHEME_NAMES, pairs) {
        Some(name) => Err(refused(alloc, Code::F21, name)),
        None => Ok(SetParams { strategy, dry }),
    }
}

/// How a tracker bundle is to be imported. F21 with the name of the first parameter that isn't of its form.
#[tactic(auto, unfolding(crate::specs::Parameters::bundle_params_of))]
pub fn bundle_params_of(
    alloc: Global,
    pairs: &[(Items<u8>, Items<u8>)],
) -> Result<BundleParams, RouteFault>
    ensures { Answers cause_of (bundle_params_of pairs.now) result }
{
    let strategy = strategy_in(alloc, pairs)?;
    let atomic = choice_in(alloc, pairs, b"atomicMode", &ATOMICITIES, true)?;
    Ok(BundleParams { strategy, atomic })
}
