//! Bodies that are the same in every reply. They take no memory.
ghost use Rattle.std.specs.Prelude.{◌≡◌};
ghost use Rattle.request_session.specs.Bodies.{memory_text, plain_text};

/// The body of a reply for a lack of memory, with the status 507.
#[tactic(auto, using(crate::proofs::BodyLemmas::memory_bytes))]
pub fn memory_body() -> &'static [u8]
    ensures { result.now ≡ memory_text }
{
    br#"{"errorCode":"M","httpStatus":"Insufficient Storage","httpStatusCode":507,"message":"Memory","status":"ERROR"}"#
}

/// The body of a reply that accepts and says nothing more, as for approvals.
#[tactic(auto, using(crate::proofs::BodyLemmas::plain_bytes))]
pub fn plain_body() -> &'static [u8]
    ensures { result.now ≡ plain_text }
{
    br#"{"httpStatus":"OK","httpStatusCode":200,"status":"OK"}"#
}
