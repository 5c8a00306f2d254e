//! Laws of the definitions: each function does nothing, and its contract holds of every log and history that comes about.
ghost use Rattle.std.specs.Prelude.{◌≡◌, ◌+◌, ◌*◌, ◌≤◌, [], ℕ, List, Option, Some};
ghost use Rattle.jwt_request.specs.renewal.Standing as Standing;
ghost use Rattle.jwt_sources.specs.declared.source.Source.{Source};
ghost use Rattle.jwt_sources.specs.declared.sources.Sources.{Sources};
ghost use Rattle.jwt_sources.specs.declared.step.Keys.{Keys};
ghost use Rattle.jwt_sources.specs.declared.step.Step.TheVariants.{Nothing};
ghost use Rattle.jwt_sources.specs.Places.{Named, named};
ghost use Rattle.jwt_sources.specs.Runs.{Call, AreCalls, log_after, begun_at, passed_at, fetches_at, handed_at};
ghost use Rattle.jwt_sources.specs.Standing.{IsAt, Stands};
ghost use Rattle.jwt_sources.specs.Tickets.{Entry, WasHanded, WasAnswered, IsRun};

use jwt_request::renewal::laws;

/// The keys of a source are what came by a ticket that was handed out for its place, and for no other place.
pub fn keys_are_its_own<K>()
    ensures came { (state : Sources K) (log : List (Entry K)) (at : ℕ) (source : Source K) (it : Keys K) → Stands state log
        → IsAt state at source → source.keys ≡ Some it → WasAnswered (named source.place) it.ticket (Some it.prepared) log }
    ensures handed { (log : List (Entry K)) (place : Named) (ticket : ℕ) (keys : Option K) → IsRun log → WasAnswered place ticket keys log
        → WasHanded place ticket log }
    ensures alone { (log : List (Entry K)) (place other : Named) (ticket : ℕ) → IsRun log → WasHanded place ticket log
        → WasHanded other ticket log → place ≡ other }
{}

/// A ticket is answered once.
pub fn tickets_are_answered_once<K>()
    ensures { (log : List (Entry K)) (place other : Named) (ticket : ℕ) (one two : Option K) → IsRun log → WasAnswered place ticket one log
        → WasAnswered other ticket two log → (place ≡ other) × (one ≡ two) }
{}

/// Whatever calls come, what they lead to stands for the tickets that were handed out and answered: so the laws of keys and tickets hold of it.
pub fn any_calls_stand<K>()
    ensures { (first last : Sources K) (calls : List (Call K)) (log : List (Entry K)) → AreCalls first calls last → Stands first log
        → Stands last (log_after calls log) }
{}

/// Whatever calls come, no more fetches begin for the tokens of a source than the time that passed for it has cool-downs, and one: of a source that has
/// fetched nothing at first.
pub fn any_calls_are_few<K>()
    ensures { (first last : Sources K) (calls : List (Call K)) (place : ℕ) (source new : Source K) → AreCalls first calls last
        → IsAt first place source → IsAt last place new → Standing.Stands source.renewal []
        → begun_at place calls * new.renewal.times.cool_down ≤ passed_at place source.renewal.heard calls + new.renewal.times.cool_down }
{
    laws::fetches_are_few();
}

/// Whatever calls come, a source has at most 18 requests for each fetch that began: of a source that fetches nothing at first. (Six for the metadata of OpenID
/// Connect Discovery, six for those of RFC 8414, and six for the keys: one, and five redirections.)
pub fn any_calls_have_few_requests<K>()
    ensures { (first last : Sources K) (calls : List (Call K)) (place : ℕ) (source new : Source K) → AreCalls first calls last
        → IsAt first place source → IsAt last place new → source.step ≡ Nothing → handed_at place calls ≤ 18 * fetches_at place calls }
{}
