//! The heads of the columns, as they are written.

ghost use Rattle.std.specs.Prelude.{◌≡◌, ◌++◌, OnOk};
ghost use Rattle.query_answer.specs.Written.{text_unless, opening_text, heads_text};

use dh_base::memory::Memory;

const DATA: &[u8] =
    br#"{"column":"Data","hidden":false,"meta":true,"name":"dx","type":"java.lang.String","valueType":"TEXT"}"#;

const PERIOD: &[u8] =
    br#",{"column":"Period","hidden":false,"meta":true,"name":"pe","type":"java.lang.String","valueType":"TEXT"}"#;

const UNIT: &[u8] =
    br#",{"column":"Organisation unit","hidden":false,"meta":true,"name":"ou","type":"java.lang.String","valueType":"TEXT"}"#;

const VALUE: &[u8] =
    br#",{"column":"Value","hidden":false,"meta":false,"name":"value","type":"java.lang.Double","valueType":"NUMBER"}"#;

/// What the body begins with: how many heads there are, and the bracket before them.
#[tactic(auto, unfolding(json::specs::Print::escape_byte))]
fn opening(periods: bool, units: bool) -> &'static [u8]
    ensures { result.now ≡ opening_text periods units }
{
    match (periods, units) {
        (true, true) => br#"{"headerWidth":2,"headers":["#,
        (false, false) => br#"{"headerWidth":4,"headers":["#,
        _ => br#"{"headerWidth":3,"headers":["#,
    }
}

/// A filter has no column.
fn unless(filter: bool, head: &[u8]) -> &[u8]
    ensures { result.now ≡ text_unless filter head.now }
{
    if filter { b"" } else { head }
}

/// The beginning of the body with the heads, where periods and units may be filters.
pub fn push_heads(text: &mut Vec<u8>, periods: bool, units: bool) -> Result<(), Memory>
    ensures { OnOk result (text.new.items ≡ text.old.items ++ heads_text periods units) }
{
    text.extend_from_slice(opening(periods, units))?;
    text.extend_from_slice(DATA)?;
    text.extend_from_slice(unless(periods, PERIOD))?;
    text.extend_from_slice(unless(units, UNIT))?;
    text.extend_from_slice(VALUE)?;
    text.push(b']')?;
    Ok(())
}
