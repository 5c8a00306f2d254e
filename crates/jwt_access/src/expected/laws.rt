//! Laws of the definitions: each function does nothing, and its contract holds of all claims and every list of expectations.

ghost use Rattle.std.specs.Prelude.{◌≡◌, List};
ghost use Rattle.serde_json.specs.Data.{Members};
ghost use Rattle.jwt_mac.specs.declared.algorithm.Alg.{Alg as SpecAlg};
ghost use Rattle.jwt_access.specs.expected.Expected.{AreMet};
ghost use Rattle.jwt_access.specs.expected.Unmet.{IsFirstUnmet};
ghost use Rattle.jwt_access.specs.declared.expected.expected.Expected.{Expected as SpecExpected};
ghost use Rattle.jwt_access.specs.declared.expected.expected.Unmet.{Unmet as SpecUnmet};

use crate::laws::paths_are_spelled;

/// Claims have at most one first expectation that they don't meet, and none where they meet each.
pub fn one_unmet()
    ensures one { (alg : SpecAlg) (ms : Members) (list : List SpecExpected) (a b : SpecUnmet)
        → IsFirstUnmet alg ms list a → IsFirstUnmet alg ms list b → a ≡ b }
    ensures none { (alg : SpecAlg) (ms : Members) (list : List SpecExpected) (a : SpecUnmet)
        → IsFirstUnmet alg ms list a → ¬ AreMet alg ms list }
{
    paths_are_spelled();
}
