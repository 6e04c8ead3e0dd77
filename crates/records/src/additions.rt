ghost use Rattle.std.specs.Prelude.{◌≡◌};
ghost use Rattle.records.specs.Additions.{claim_of, additions_of};

use crate::kinds::Few;
use claims::kinds::Claim;
use conditions::kinds::{Condition, Wanted};

// What a measurement map of an addition says, as the claim that is added.
fn claim_of(condition: &Condition) -> Claim
    ensures { result ≡ claim_of condition.now }
{
    let wanted = condition.wanted.unwrap_or(Wanted::NONE);
    Claim {
        environment: condition.environment,
        key: wanted.key,
        values: wanted.values,
    }
}

// What measurement maps of additions say, as claims in their order.
pub fn additions_of(found: &Few<Condition>) -> Few<Claim>
    ensures { result ≡ additions_of found.now }
{
    let mut claims = Few::new(Claim::NONE);
    // A loop, as the fold over the same elements was tried and gave no proof.
    for condition in found.as_slice() {
        claims = claims.with(claim_of(condition));
    }
    claims
}
