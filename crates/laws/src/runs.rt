ghost use Rattle.semantics.specs.Policies.{Meaning};
ghost use Rattle.laws.specs.Runs.{NothingLeaks, CertainRowsStand, WiderSharpens, LawsHold};

/// No outcome rests on what the broker who asks may not see.
#[tactic(auto, using(crate::proofs::Promises::nothing_leaks_lem))]
pub fn nothing_leaks()
    ensures { (meaning : Meaning) → NothingLeaks meaning }
{}

/// After any calls, certain rows are rows of the true answer, and it has no row that is neither certain nor possible.
pub fn certain_rows_stand()
    ensures { (meaning : Meaning) → CertainRowsStand meaning }
{}

/// After any calls, a policy that shows more takes back no certain row and adds no row.
pub fn wider_policies_sharpen_runs()
    ensures { (meaning : Meaning) → WiderSharpens meaning }
{}

/// Every policy keeps all three promises.
pub fn every_policy_keeps_the_laws()
    ensures { LawsHold }
{}
