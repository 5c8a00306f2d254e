//! Laws of the definitions: each function does nothing, and its contract holds of every history that comes about.
ghost use Rattle.std.specs.Prelude.{◌≡◌, ◌≢◌, ◌+◌, ◌*◌, ◌≤◌, ◌∷◌, ℕ, List, length};
ghost use Rattle.std.specs.List.{AllPairs};
ghost use Rattle.jwt_request.specs.declared.renewal.times.Times.{Times};
ghost use Rattle.jwt_request.specs.renewal.History.{Event, passed, failed, moment, keys_since, keys_ticket, waiting};
ghost use Rattle.jwt_request.specs.renewal.Rules.{IsUnderWay};
ghost use Rattle.jwt_request.specs.renewal.Runs.{IsRun, asked};

/// Whatever strangers send, in a time of so many milliseconds no more fetches begin for tokens than that time has cool-downs, and one.
pub fn fetches_are_few()
    ensures { (times : Times) (h : List Event) → IsRun times h
        → asked h * times.cool_down ≤ moment h + times.cool_down }
{}

/// A fetch that never ends is no longer under way when its time is over.
pub fn fetches_end()
    ensures { (times : Times) (h : List Event) (more : ℕ) → times.timeout ≤ more → ¬ IsUnderWay times (passed more ∷ h) }
{}

/// A fetch that fails leaves the keys as they were.
pub fn failures_change_no_keys()
    ensures named { (h : List Event) → keys_ticket (failed ∷ h) ≡ keys_ticket h }
    ensures old { (h : List Event) → keys_since (failed ∷ h) ≡ keys_since h }
{}

/// At most four tokens wait for one fetch, whatever strangers send, and no two of them under one name.
pub fn few_wait()
    ensures four { (times : Times) (h : List Event) → IsRun times h → length (waiting h) ≤ 4 }
    ensures apart { (times : Times) (h : List Event) → IsRun times h → AllPairs (λ one other. one ≢ other) (waiting h) }
{}
