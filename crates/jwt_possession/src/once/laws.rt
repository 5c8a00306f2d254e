//! Laws of the definitions: each function does nothing, and its contract holds of every run.

ghost use Rattle.jwt_possession.specs.once.Laws.{NoTokenTwice, NeverTwice, NeverTwiceFor, InTime, IssuedBefore, NewSince, LateByItself, NotShutOut, RoomForAll};

use jwt_policy::laws::claims_hold;

/// Of two New for one pair of issuer and `jti` the second has the later moment of its own.
pub fn no_token_twice()
    ensures { NoTokenTwice }
{}

/// Nothing is New twice that has one pair of issuer and `jti`, and one moment of its own.
pub fn never_twice()
    ensures { NeverTwice }
{}

/// The same claims are never New twice, under whatever policies.
pub fn never_twice_for()
    ensures { NeverTwiceFor }
{}

/// At a moment at which a policy accepts claims, their own moment and their grace haven't passed.
pub fn in_time()
    ensures { InTime }
{
    claims_hold();
}

/// Claims that were issued no later than they were accepted, the leeway aside, count as issued no later than that moment.
pub fn issued_before()
    ensures { IssuedBefore }
{}

/// Claims that were taken under a policy before a memory was opened are Late in it, asked for under that policy.
pub fn new_since()
    ensures { NewSince }
{
    issued_before();
}

/// Where every call comes with the grace that the memory knows, a call is Late by its own times alone.
pub fn late_by_itself()
    ensures { LateByItself }
{}

/// Where the shares of all the others leave room, another owner isn't shut out.
pub fn not_shut_out()
    ensures { NotShutOut }
{}

/// Where there is room for the shares of all, Full is never said.
pub fn room_for_all()
    ensures { RoomForAll }
{}
