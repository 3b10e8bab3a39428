//! The metadata that samples are of, as a metadata file.
ghost use Rattle.std.specs.Prelude.{◌≡◌, ◌++◌, IfOk, OnOk};
ghost use Rattle.offline_replies.specs.File as spec;

use crate::samples::ids::{COUNTRY, push_district, push_facility};
use dh_base::memory::Memory;
use std::alloc::Global;

#[tactic(auto, unfolding(crate::specs::File::elements))]
fn push_elements(text: &mut Vec<u8>) -> Result<(), Memory>
    ensures { OnOk result (text.new.items ≡ text.old.items ++ spec.elements) }
{
    text.extend_from_slice(
        b"{\"dataElements\":[{\"aggregationType\":\"SUM\",\"id\":\"GenElement1\",\"valueType\":\"NUMBER\"}],",
    )?;
    Ok(())
}

#[tactic(auto, unfolding(crate::specs::File::before_assigned))]
fn push_before_assigned(text: &mut Vec<u8>) -> Result<(), Memory>
    ensures { OnOk result (text.new.items ≡ text.old.items ++ spec.before_assigned) }
{
    text.extend_from_slice(
        b"\"dataSets\":[{\"dataSetElements\":[{\"dataElement\":{\"id\":\"GenElement1\"}}],\"id\":\"GenDataSet1\",\"organisationUnits\":[",
    )?;
    Ok(())
}

#[tactic(auto, unfolding(crate::specs::File::before_units))]
fn push_before_units(text: &mut Vec<u8>) -> Result<(), Memory>
    ensures { OnOk result (text.new.items ≡ text.old.items ++ spec.before_units) }
{
    text.extend_from_slice(
        b"],\"periodType\":\"Monthly\"}],\"organisationUnits\":[{\"id\":\"GenCountry1\"}",
    )?;
    Ok(())
}

#[tactic(auto, unfolding(crate::specs::File::users))]
fn push_users(text: &mut Vec<u8>) -> Result<(), Memory>
    ensures { OnOk result (text.new.items ≡ text.old.items ++ spec.users) }
{
    text.extend_from_slice(
        b"],\"userRoles\":[{\"authorities\":[\"ALL\"],\"id\":\"GenRole0001\"}],",
    )?;
    text.extend_from_slice(
        b"\"users\":[{\"id\":\"GenUser0001\",\"organisationUnits\":[{\"id\":\"GenCountry1\"}],\"userRoles\":[{\"id\":\"GenRole0001\"}]}]}",
    )?;
    Ok(())
}

// A comma before all but the first.
fn push_comma(text: &mut Vec<u8>, n: u32) -> Result<(), Memory>
    ensures { OnOk result (text.new.items ≡ text.old.items ++ spec.comma n) }
{
    if n == 0 {
        return Ok(());
    }
    text.push(b',')?;
    Ok(())
}

#[tactic(auto, unfolding(crate::specs::File::assigned))]
fn push_assigned(text: &mut Vec<u8>, n: u32) -> Result<(), Memory>
    ensures { OnOk result (text.new.items ≡ text.old.items ++ spec.assigned n) }
{
    push_comma(text, n)?;
    text.extend_from_slice(b"{\"id\":\"")?;
    push_facility(text, n)?;
    text.extend_from_slice(b"\"}")?;
    Ok(())
}

#[tactic(auto, unfolding(crate::specs::File::unit_below, crate::specs::File::district, crate::specs::Ids::country_id))]
fn push_district_unit(text: &mut Vec<u8>, n: u32) -> Result<(), Memory>
    ensures { OnOk result (text.new.items ≡ text.old.items ++ spec.district n) }
{
    text.extend_from_slice(b",{\"id\":\"")?;
    push_district(text, n)?;
    text.extend_from_slice(b"\",\"parent\":{\"id\":\"")?;
    text.extend_from_slice(COUNTRY)?;
    text.extend_from_slice(b"\"}}")?;
    Ok(())
}

#[tactic(auto, unfolding(crate::specs::File::unit_below, crate::specs::File::facility))]
fn push_facility_unit(text: &mut Vec<u8>, n: u32) -> Result<(), Memory>
    ensures { OnOk result (text.new.items ≡ text.old.items ++ spec.facility n) }
{
    text.extend_from_slice(b",{\"id\":\"")?;
    push_facility(text, n)?;
    text.extend_from_slice(b"\",\"parent\":{\"id\":\"")?;
    push_district(text, n / 10)?;
    text.extend_from_slice(b"\"}}")?;
    Ok(())
}

fn push_each_assigned(text: &mut Vec<u8>) -> Result<(), Memory>
    ensures { OnOk result (text.new.items ≡ text.old.items ++ spec.each_below spec.assigned 100) }
{
    for n in 0..100 {
        push_assigned(text, n)?;
    }
    Ok(())
}

fn push_districts(text: &mut Vec<u8>) -> Result<(), Memory>
    ensures { OnOk result (text.new.items ≡ text.old.items ++ spec.each_below spec.district 10) }
{
    for n in 0..10 {
        push_district_unit(text, n)?;
    }
    Ok(())
}

fn push_facilities(text: &mut Vec<u8>) -> Result<(), Memory>
    ensures { OnOk result (text.new.items ≡ text.old.items ++ spec.each_below spec.facility 100) }
{
    for n in 0..100 {
        push_facility_unit(text, n)?;
    }
    Ok(())
}

#[tactic(auto, unfolding(crate::specs::File::data_sets))]
fn push_data_sets(text: &mut Vec<u8>) -> Result<(), Memory>
    ensures { OnOk result (text.new.items ≡ text.old.items ++ spec.data_sets) }
{
    push_before_assigned(text)?;
    push_each_assigned(text)
}

#[tactic(auto, unfolding(crate::specs::File::units))]
fn push_units(text: &mut Vec<u8>) -> Result<(), Memory>
    ensures { OnOk result (text.new.items ≡ text.old.items ++ spec.units) }
{
    push_before_units(text)?;
    push_districts(text)?;
    push_facilities(text)
}

/// The bytes of the metadata file.
#[tactic(auto, unfolding(crate::specs::File::sample_file))]
pub fn sample_file(alloc: Global) -> Result<Vec<u8>, Memory>
    ensures { IfOk result (λ text. text.items ≡ spec.sample_file) }
{
    let mut text = Vec::new(alloc);
    push_elements(&mut text)?;
    push_data_sets(&mut text)?;
    push_units(&mut text)?;
    push_users(&mut text)?;
    Ok(text)
}
