//! The objects that samples are of.
ghost use Rattle.std.specs.Prelude.{◌≡◌, ◌++◌, OnOk};
ghost use Rattle.offline_replies.specs.Ids as spec;

use dh_base::memory::Memory;

/// The identifier of the one country.
pub const COUNTRY: &[u8; 11] = b"GenCountry1";

/// The identifier of the one data element.
pub const ELEMENT: &[u8; 11] = b"GenElement1";

/// The identifier of the one user.
pub const USER: &[u8; 11] = b"GenUser0001";

// The last digit of a number.
fn digit(n: u32) -> u8
    ensures { result ≡ spec.digit n }
{
    b'0' + (n % 10) as u8
}

#[tactic(auto, unfolding(crate::specs::Ids::district_id))]
pub(crate) fn push_district(text: &mut Vec<u8>, n: u32) -> Result<(), Memory>
    ensures { OnOk result (text.new.items ≡ text.old.items ++ spec.district_id n) }
{
    text.extend_from_slice(b"GenDistri")?;
    text.extend_from_slice(&[digit(n / 10), digit(n)])?;
    Ok(())
}

#[tactic(auto, unfolding(crate::specs::Ids::facility_id))]
pub(crate) fn push_facility(text: &mut Vec<u8>, n: u32) -> Result<(), Memory>
    ensures { OnOk result (text.new.items ≡ text.old.items ++ spec.facility_id n) }
{
    text.extend_from_slice(b"GenFacil")?;
    text.extend_from_slice(&[digit(n / 100), digit(n / 10), digit(n)])?;
    Ok(())
}
