//! What is planned for a request: it is refused, answered at once, or handed to the database.
ghost use Rattle.std.specs.Prelude.{IfOk};
ghost use Rattle.dkv_heads.specs.Requests.{Received};
ghost use Rattle.dkv_http.specs.Conns.{IsRequest};
ghost use Rattle.dkv_route.specs.Access.{access};
ghost use Rattle.dkv_route.specs.Plans.{IsPlan, IsPlanned, IsWithin};

use crate::access::{Cause, early_cause};
use crate::bodies::{Unplanned, planned_by};
use crate::kinds::Plan;
use crate::refusals::refusal;
use crate::targets::path_of;
use dkv_base::NoMemory;
use dkv_http::Request;
use dkv_token::Site;
use std::alloc::Global;

fn planned(alloc: Global, request: &Request, site: &Site, at: u64) -> Result<Plan, Unplanned>
    ensures planned { (q : Received) → IsRequest q request.now
        → IsPlanned site.now q.close at (access site.now q at) result }
    ensures unlimited { IfOk result IsWithin }
{
    let Some(path) = path_of(request.target.as_slice()) else {
        return Err(Unplanned::Refused(Cause::NotFound));
    };
    if let Some(cause) = early_cause(request, site, at, path) {
        return Err(Unplanned::Refused(cause));
    }
    planned_by(
        alloc,
        site,
        at,
        path,
        request.body.as_slice(),
        request.close,
    )
}

/// What is to be done for a request to a site at a moment, in milliseconds since 1970. A request that is refused gets the whole
/// response to the first cause that applies: the target, the method, the token, the database's id, the version, and then
/// what its body says. Takes memory for what the plan holds.
pub fn plan(alloc: Global, request: &Request, site: &Site, at: u64) -> Result<Plan, NoMemory>
    ensures plan { IfOk result (λ planned.
        (q : Received) → IsRequest q request.now → IsPlan site.now q at planned) }
    ensures unlimited { IfOk result IsWithin }
{
    match planned(alloc, request, site, at) {
        Ok(plan) => Ok(plan),
        Err(Unplanned::Refused(cause)) => {
            let method = request.method.as_slice();
            Ok(Plan::Reply(refusal(alloc, method, request.close, cause)?))
        }
        Err(Unplanned::NoMemory) => Err(NoMemory),
    }
}
