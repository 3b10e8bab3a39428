//! The phrase of a status.
ghost use Rattle.std.specs.Prelude.{◌≡◌};
ghost use Rattle.http.specs.StatusCode.{IsStatusCode};
ghost use Rattle.request_session.specs.Bodies.{phrase_of};

use http::StatusCode;

/// The phrase that stands after a status.
#[tactic(auto, unfolding(crate::specs::Bodies::phrase_of))]
pub(crate) fn phrase(status: u16) -> &'static str
    requires { IsStatusCode status }
    ensures { result.now ≡ phrase_of status }
{
    match StatusCode::from_u16(status) {
        Ok(code) => code.canonical_reason().unwrap_or(""),
        Err(_) => "",
    }
}
