// That claims, and the rules and plans that workers share, may cross threads.

use cc_core::claim::Claim;
use cc_core::rules::Rules;
use std::sync::Arc;

fn crosses<T: Send + Sync>(value: &T) {
    let _ = value;
}

pub fn claim_crosses(claim: &Claim) {
    crosses(claim);
}

pub fn rules_cross<R: Rules>(rules: &Arc<R>, plan: &Arc<R::Plan>) {
    crosses(rules);
    crosses(plan);
}
