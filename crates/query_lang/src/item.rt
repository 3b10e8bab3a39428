//! The items of dimensions.
ghost use Rattle.std.specs.Prelude.{◌≡◌, ◌≤◌, ◌^◌, ◌<◌, ℕ, List, length, map};
ghost use Rattle.query_lang.specs.Items.{beside, part_form, pair_form, dx_form, level_number, named_unit, unit_form};
ghost use Rattle.dh_periods.specs.Texts.{number_of_one, number_of_two};

use dh_base::items::Items;
use dh_base::plain::Rate;
use dh_base::uid::Uid;

/// What an item of the dimension `dx` names.
#[derive(Clone, Copy)]
pub enum DxForm {
    /// A data element, an indicator or a program indicator.
    Object(Uid),
    /// A data element and a category option combination.
    Operand(Uid, Uid),
    /// A data set and one of its figures.
    Rate(Uid, Rate),
}

/// An item of the dimension `dx`.
#[derive(Drop)]
pub struct DxItem {
    pub form: DxForm,
    /// The item as it was written, decoded.
    pub text: Items<u8>,
}

/// What an item of the dimension `ou` names.
#[derive(Clone, Copy)]
pub enum UnitForm {
    /// An organisation unit.
    Unit(Uid),
    /// The view units of the user.
    User,
    /// Their children.
    Children,
    /// The children of these.
    Grandchildren,
    /// The units at a level of the tree.
    Level(u8),
    /// The units of a group.
    Group(Uid),
}

/// An item of the dimension `ou`.
#[derive(Drop)]
pub struct UnitItem {
    pub form: UnitForm,
    /// The item as it was written, decoded.
    pub text: Items<u8>,
}

const RATES: [(&[u8], Rate); 5] = [
    (b"EXPECTED_REPORTS", Rate::Expected),
    (b"ACTUAL_REPORTS", Rate::Actual),
    (b"ACTUAL_REPORTS_ON_TIME", Rate::OnTime),
    (b"REPORTING_RATE", Rate::Reported),
    (b"REPORTING_RATE_ON_TIME", Rate::ReportedOnTime),
];

const USER_UNITS: [(&[u8], UnitForm); 3] = [
    (b"USER_ORGUNIT", UnitForm::User),
    (b"USER_ORGUNIT_CHILDREN", UnitForm::Children),
    (b"USER_ORGUNIT_GRANDCHILDREN", UnitForm::Grandchildren),
];

/// What stands beside a name in a table.
fn beside<T: Copy>(table: &[(&[u8], T)], name: &[u8]) -> Option<T>
    ensures { result ≡ beside (map (λ entry. (entry.0.now, entry.1)) table.now) name.now }
{
    for entry in table {
        if name == entry.0 {
            return Some(entry.1);
        }
    }
    None
}

#[tactic(auto, unfolding(crate::specs::Items::rate_named))]
fn part_form(id: Uid, rest: &[u8]) -> Option<DxForm>
    ensures { result ≡ part_form id rest.now }
{
    match beside(&RATES, rest) {
        Some(rate) => Some(DxForm::Rate(id, rate)),
        None => {
            let combo = Uid::parse(rest)?;
            Some(DxForm::Operand(id, combo))
        }
    }
}

#[tactic(auto, unfolding(crate::specs::Items::pair_form))]
fn pair_form(text: &[u8]) -> Option<DxForm>
    ensures { result ≡ pair_form text.now }
{
    if text.len() > 11 && text[11] == b'.' {
        let id = Uid::parse(&text[..11])?;
        return part_form(id, &text[12..]);
    }
    None
}

/// What an item of the dimension `dx` names, `None` where it has no form of such an item.
#[tactic(auto, unfolding(crate::specs::Items::dx_form))]
pub fn dx_form(text: &[u8]) -> Option<DxForm>
    ensures { result ≡ dx_form text.now }
{
    match Uid::parse(text) {
        Some(id) => Some(DxForm::Object(id)),
        None => pair_form(text),
    }
}

fn number_of_one(byte: u8) -> Option<u8>
    ensures { result ≡ number_of_one byte }
{
    if byte.is_ascii_digit() {
        Some(byte - b'0')
    } else {
        None
    }
}

fn number_of_two(tens: u8, ones: u8) -> Option<u8>
    ensures { result ≡ number_of_two tens ones }
{
    if tens.is_ascii_digit() && ones.is_ascii_digit() {
        Some(10 * (tens - b'0') + (ones - b'0'))
    } else {
        None
    }
}

fn level_number(digits: &[u8]) -> Option<u8>
    ensures { result ≡ level_number digits.now }
{
    if digits.len() == 1 {
        return number_of_one(digits[0]);
    }
    if digits.len() == 2 {
        return number_of_two(digits[0], digits[1]);
    }
    None
}

#[tactic(auto, unfolding(crate::specs::Items::named_unit, crate::specs::Items::group_or_unit))]
fn named_unit(text: &[u8]) -> Option<UnitForm>
    ensures { result ≡ named_unit text.now }
{
    if let Some(level) = text.strip_prefix(b"LEVEL-".as_slice()) {
        return Some(UnitForm::Level(level_number(level)?));
    }
    match text.strip_prefix(b"OU_GROUP-".as_slice()) {
        Some(group) => Some(UnitForm::Group(Uid::parse(group)?)),
        None => Some(UnitForm::Unit(Uid::parse(text)?)),
    }
}

/// What an item of the dimension `ou` names, `None` where it has no form of such an item.
#[tactic(auto, unfolding(crate::specs::Items::unit_form))]
pub fn unit_form(text: &[u8]) -> Option<UnitForm>
    ensures { result ≡ unit_form text.now }
{
    match beside(&USER_UNITS, text) {
        Some(form) => Some(form),
        None => named_unit(text),
    }
}
