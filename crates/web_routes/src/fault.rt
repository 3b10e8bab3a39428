//! Why a request isn't a call.
ghost use Rattle.std.specs.Prelude.{◌≡◌, Some};
ghost use Rattle.web_routes.specs.declared.fault.RouteFault.TheVariants.{Memory as OutOfMemory};
ghost use Rattle.query_lang.specs.Given.{refusal};
ghost use Rattle.query_lang.specs.Given.{or_refuse};
ghost use Rattle.web_routes.specs.Given.{cause_of};
ghost use Rattle.web_routes.specs.Told.{of_body, of_query};
ghost use Rattle.dh_base.specs.Memory.{Answers, IsFirst};

use dh_base::codes::{Code, Refusal};
use dh_base::items::Items;
use dh_base::memory::Memory;
use dh_changes::outcome::BodyFault;
use query_lang::QueryFault;
use std::alloc::Global;

/// Why a request isn't a call.
#[derive(Drop)]
pub enum RouteFault {
    /// Refused by a rule of routes, parameters, bodies or queries.
    Refused(Refusal),
    /// Memory ran out.
    Memory,
}

impl From<Memory> for RouteFault {
    ghost from_gives = { λ _ fault. fault ≡ OutOfMemory };

    fn from(_error: Memory) -> RouteFault {
        RouteFault::Memory
    }
}

impl From<BodyFault> for RouteFault {
    ghost from_gives = { λ fault made. made ≡ of_body fault };

    fn from(fault: BodyFault) -> RouteFault {
        match fault {
            BodyFault::Bad { path } => RouteFault::Refused(Refusal {
                code: Code::F20,
                detail: path,
            }),
            BodyFault::Memory => RouteFault::Memory,
        }
    }
}

impl From<QueryFault> for RouteFault {
    ghost from_gives = { λ fault made. made ≡ of_query fault };

    fn from(fault: QueryFault) -> RouteFault {
        match fault {
            QueryFault::Refused(refusal) => RouteFault::Refused(refusal),
            QueryFault::Memory => RouteFault::Memory,
        }
    }
}

/// The refusal with that code and detail.
pub fn refused(alloc: Global, code: Code, detail: &[u8]) -> RouteFault
    ensures { IsFirst (Some (refusal code detail.now)) (cause_of result) }
{
    match Vec::from_slice(alloc, detail) {
        Ok(detail) => RouteFault::Refused(Refusal {
            code,
            detail: Items::from(detail),
        }),
        Err(_) => RouteFault::Memory,
    }
}

/// What was found, or the refusal with that code and detail.
pub(crate) fn found<A>(
    alloc: Global,
    code: Code,
    detail: &[u8],
    found: Option<A>,
) -> Result<A, RouteFault>
    ensures { Answers cause_of (or_refuse code detail.now found) result }
{
    match found {
        Some(value) => Ok(value),
        None => Err(refused(alloc, code, detail)),
    }
}
