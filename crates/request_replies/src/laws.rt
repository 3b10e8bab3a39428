//! What follows from the definition of replies alone.
ghost use Rattle.std.specs.Prelude.{ℕ, ℤ, Bool, List, Option};
ghost use Rattle.http_wire.specs.declared.request.Request.{Request};
ghost use Rattle.engine.specs.Seen.{Seen};
ghost use Rattle.request_replies.specs.Steps.{ReplyAt, Keeps};

/// What holds after every reply.
pub fn replies_keep()
    ensures { (old new : Seen) → (moment : ℤ) → (request : Request) → (keep : Bool) → (made : Option (List ℕ)) → ReplyAt old moment request keep made new
        → Keeps old made new }
{}
