//! The functions that C calls for when keys by URL are fetched.

ghost use Rattle.std.specs.Prelude.{◌≡◌, ◌-◌, ◌∷◌, ◌↔◌, ◌<◌, ◌≤◌, [], List, ℕ, IsTrue};
ghost use Rattle.jwt_request.specs.renewal.History.{Event, passed, took, failed};
ghost use Rattle.jwt_request.specs.renewal.Rules.{IsKeys, IsUsable, IsFetch, Counts, Wants, MayBegin, MayWait, with_fetch, with_end, with_waiting};
ghost use Rattle.jwt_request.specs.renewal.Standing.{Stands};
ghost use Rattle.jwt_request.specs.declared.renewal.asker.Asker.TheVariants.{Token};
ghost use Rattle.jwt_handles.specs.Renewals.{renewal_of, asker_of, keys_of, fetch_of, times_of};

use jwt_handles::renewal::{self, FowRenewal, FowRenewalAnswer};
use jwt_request::renewal::Times;

/// [`renewal::begin`] by its name in C.
#[unsafe(no_mangle)]
pub extern "C" fn fow_renewal_begin(
    renewal: &mut FowRenewal,
    refresh_after: u64,
    cool_down: u64,
    max_age: u64,
    timeout: u64,
    now: u64,
)
    ensures times { times_of renewal.new
        ≡ record { refresh_after = refresh_after; cool_down = cool_down; max_age = max_age; timeout = timeout } }
    ensures heard { renewal.new.heard ≡ now }
    ensures stands { Stands (renewal_of renewal.new) [] }
{
    let times = Times {
        refresh_after,
        cool_down,
        max_age,
        timeout,
    };
    renewal::begin(renewal, times, now);
}

/// [`renewal::ask`] by its name in C.
#[unsafe(no_mangle)]
pub extern "C" fn fow_renewal_ask(
    renewal: &mut FowRenewal,
    now: u64,
    number: u64,
    keys: u64,
    answer: &mut FowRenewalAnswer,
)
    ensures times { times_of renewal.new ≡ times_of renewal.old }
    ensures heard { renewal.new.heard ≡ now }
    ensures keys { (h : List Event) → Stands (renewal_of renewal.old) h
        → IsKeys (times_of renewal.old) (passed (now - renewal.old.heard) ∷ h) (keys_of answer.new) }
    ensures fetch { (h : List Event) → Stands (renewal_of renewal.old) h
        → IsFetch (times_of renewal.old) (asker_of number keys) (passed (now - renewal.old.heard) ∷ h) (fetch_of answer.new) }
    ensures stands { (h : List Event) → Stands (renewal_of renewal.old) h
        → Stands (renewal_of renewal.new) (with_fetch (asker_of number keys) (fetch_of answer.new) (passed (now - renewal.old.heard) ∷ h)) }
{
    renewal::ask(renewal, now, number, keys, answer);
}

/// [`renewal::took`] by its name in C.
#[unsafe(no_mangle)]
pub extern "C" fn fow_renewal_took(renewal: &mut FowRenewal, now: u64, ticket: u64) -> bool
    ensures times { times_of renewal.new ≡ times_of renewal.old }
    ensures heard { renewal.new.heard ≡ now }
    ensures counts { (h : List Event) → Stands (renewal_of renewal.old) h
        → IsTrue result ↔ Counts (times_of renewal.old) ticket (passed (now - renewal.old.heard) ∷ h) }
    ensures stands { (h : List Event) → Stands (renewal_of renewal.old) h
        → Stands (renewal_of renewal.new) (with_end took result (passed (now - renewal.old.heard) ∷ h)) }
{
    renewal::took(renewal, now, ticket)
}

/// [`renewal::failed`] by its name in C.
#[unsafe(no_mangle)]
pub extern "C" fn fow_renewal_failed(renewal: &mut FowRenewal, now: u64, ticket: u64) -> bool
    ensures times { times_of renewal.new ≡ times_of renewal.old }
    ensures heard { renewal.new.heard ≡ now }
    ensures counts { (h : List Event) → Stands (renewal_of renewal.old) h
        → IsTrue result ↔ Counts (times_of renewal.old) ticket (passed (now - renewal.old.heard) ∷ h) }
    ensures stands { (h : List Event) → Stands (renewal_of renewal.old) h
        → Stands (renewal_of renewal.new) (with_end failed result (passed (now - renewal.old.heard) ∷ h)) }
{
    renewal::failed(renewal, now, ticket)
}

/// [`renewal::wait`] by its name in C.
#[unsafe(no_mangle)]
pub extern "C" fn fow_renewal_wait(
    renewal: &mut FowRenewal,
    now: u64,
    ticket: u64,
    name: u64,
) -> bool
    ensures times { times_of renewal.new ≡ times_of renewal.old }
    ensures heard { renewal.new.heard ≡ now }
    ensures waits { (h : List Event) → Stands (renewal_of renewal.old) h
        → IsTrue result ↔ MayWait (times_of renewal.old) ticket name (passed (now - renewal.old.heard) ∷ h) }
    ensures stands { (h : List Event) → Stands (renewal_of renewal.old) h
        → Stands (renewal_of renewal.new) (with_waiting name result (passed (now - renewal.old.heard) ∷ h)) }
{
    renewal::wait(renewal, now, ticket, name)
}

/// [`renewal::due`] by its name in C.
#[unsafe(no_mangle)]
pub extern "C" fn fow_renewal_due(renewal: &FowRenewal) -> u64
    ensures due { (h : List Event) (more : ℕ) → Stands (renewal_of renewal.now) h
        → (result ≤ more) ↔ (Wants (times_of renewal.now) Token (passed more ∷ h) × MayBegin (times_of renewal.now) Token (passed more ∷ h)) }
{
    renewal::due(renewal)
}

/// [`renewal::quiet_for`] by its name in C.
#[unsafe(no_mangle)]
pub extern "C" fn fow_renewal_quiet_for(renewal: &FowRenewal) -> u64
    ensures quiet { (h : List Event) (more : ℕ) → Stands (renewal_of renewal.now) h
        → (more < result) ↔ (IsUsable (times_of renewal.now) (passed more ∷ h)
        × (¬ (Wants (times_of renewal.now) Token (passed more ∷ h) × MayBegin (times_of renewal.now) Token (passed more ∷ h)))) }
{
    renewal::quiet_for(renewal)
}
