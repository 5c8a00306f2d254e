use crate::asserted::holds;
use crate::read::{claims_of, policy_of};
use jwt_possession::once::{Entry, Lack, Once, Taken, Times, entry_of, owner_of};
use std::alloc::Global;
use std::num::NonZeroUsize;
use std::test::Fail;

/// A memory with so much room, all of which may be one owner's, that is opened at no moment.
fn memory(alloc: Global, room: usize) -> Result<Once, Fail> {
    let room = NonZeroUsize::new(room).ok_or("no room")?;
    Ok(Once::new(alloc, room, 0, room))
}

/// A token that comes: its issuer, its `jti`, whose it is (`s` or `t` of its issuer, or nobody's), its moment, its grace, when it was issued, when it comes, and what is
/// answered.
type Step = (
    &'static str,
    &'static str,
    Option<&'static str>,
    u64,
    u64,
    u64,
    u64,
    Taken,
);

/// The number of the first step that is answered in another way.
fn first_other(once: &mut Once, steps: &[Step]) -> Option<usize> {
    for (number, &(issuer, jti, owner, moment, grace, issued, now, wanted)) in steps
        .iter()
        .enumerate()
    {
        let owner = match owner {
            Some(name) => Some(owner_of(issuer.as_bytes(), name.as_bytes())),
            None => None,
        };
        let times = Times {
            moment,
            grace,
            issued,
        };
        if once.take(issuer.as_bytes(), jti.as_bytes(), owner, times, now) != wanted {
            return Some(number);
        }
    }
    None
}

static TAKEN_ONCE: [Step; 9] = [
    ("i", "a", None, 10, 0, 0, 5, Taken::New),
    ("i", "a", None, 10, 0, 0, 10, Taken::Seen),
    ("j", "a", None, 12, 0, 0, 10, Taken::New),
    ("ia", "", None, 12, 0, 0, 10, Taken::Full),
    ("ia", "", None, 12, 0, 0, 11, Taken::New),
    ("i", "a", None, 10, 0, 0, 9, Taken::Late),
    ("i", "a", None, 11, 0, 0, 11, Taken::Full),
    ("j", "a", None, 12, 0, 0, 0, Taken::Seen),
    ("j", "a", None, 14, 0, 0, 13, Taken::Seen),
];

#[test]
fn a_token_is_taken_once(rt: HostRuntime) -> Result<(), Fail> {
    let mut once = memory(rt.alloc(), 2)?;
    holds(&rt, first_other(&mut once, &TAKEN_ONCE).is_none());
    holds(&rt, once.len() <= 2);
    Ok(())
}

static LET_GO: [Step; 4] = [
    ("i", "a", None, 10, 0, 0, 5, Taken::New),
    ("i", "b", None, 20, 0, 0, 11, Taken::New),
    ("i", "a", None, 10, 300, 0, 11, Taken::Late),
    ("i", "c", None, 10, 300, 0, 11, Taken::Late),
];

static HELD_FOR_LONGER: [Step; 3] = [
    ("i", "a", None, 10, 300, 0, 5, Taken::New),
    ("i", "b", None, 20, 0, 0, 11, Taken::New),
    ("i", "a", None, 10, 300, 0, 310, Taken::Seen),
];

static ISSUED_BEFORE: [Step; 2] = [
    ("i", "a", None, 10, 0, 5, 7, Taken::Late),
    ("i", "a", None, 10, 0, 6, 7, Taken::New),
];

/// What was let go isn't new to who accepts it for longer, and what was issued before the memory was opened isn't new at all.
#[test]
fn what_was_let_go_is_late_to_everybody(rt: HostRuntime) -> Result<(), Fail> {
    let alloc = rt.alloc();
    let mut once = memory(alloc, 2)?;
    holds(&rt, first_other(&mut once, &LET_GO).is_none());
    holds(&rt, once.len() == 1);
    let mut once = memory(alloc, 2)?;
    holds(&rt, first_other(&mut once, &HELD_FOR_LONGER).is_none());
    let room = NonZeroUsize::new(2).ok_or("no room")?;
    let mut once = Once::new(alloc, room, 6, room);
    holds(&rt, first_other(&mut once, &ISSUED_BEFORE).is_none());
    Ok(())
}

static BY_OWNERS: [Step; 7] = [
    ("i", "a", Some("s"), 10, 0, 0, 5, Taken::New),
    ("i", "b", Some("s"), 12, 0, 0, 5, Taken::New),
    ("i", "c", Some("s"), 14, 0, 0, 5, Taken::OwnFull),
    ("i", "d", Some("t"), 14, 0, 0, 5, Taken::New),
    ("i", "e", Some("t"), 14, 0, 0, 5, Taken::Full),
    ("i", "f", None, 14, 0, 0, 5, Taken::Full),
    ("i", "c", Some("s"), 14, 0, 0, 11, Taken::New),
];

/// Who has a share is told so, and nobody else is kept out by it.
#[test]
fn nobody_has_more_than_a_share(rt: HostRuntime) -> Result<(), Fail> {
    let room = NonZeroUsize::new(3).ok_or("no room")?;
    let share = NonZeroUsize::new(2).ok_or("no share")?;
    let mut once = Once::new(rt.alloc(), room, 0, share);
    holds(&rt, first_other(&mut once, &BY_OWNERS).is_none());
    holds(&rt, once.len_of(&owner_of(b"i", b"s")) == 2);
    holds(&rt, once.len_of(&owner_of(b"i", b"t")) == 1);
    Ok(())
}

/// Run with each allocation refused in turn: a token is held where it is New, and is New where it isn't.
#[test]
fn a_refused_growth_takes_no_token(rt: HostRuntime) -> Result<(), Fail> {
    let mut once = memory(rt.alloc(), 3)?;
    let owner = Some(owner_of(b"i", b"s"));
    for jti in [&b"a"[..], b"b", b"c"].iter() {
        let before = once.len();
        let times = Times {
            moment: 10,
            grace: 0,
            issued: 0,
        };
        let taken = once.take(b"i", jti, owner, times, 5);
        let is_held = taken == Taken::New;
        assert!(rt; is_held || taken == Taken::OutOfMemory);
        assert_eq!(rt; once.len() > before, is_held);
    }
    Ok(())
}

/// A policy with a leeway of 60 seconds.
const LENIENT: &str = r#"{"algs":["HS256"],"leeway":60}"#;

/// What the memory answers of a token with these claims, under that policy.
fn taken(
    alloc: Global,
    once: &mut Once,
    claims: &str,
    now: i64,
) -> Result<Result<Taken, Lack>, Fail> {
    let policy = policy_of(alloc, LENIENT)?;
    let claims = claims_of(alloc, claims)?;
    Ok(once.take_accepted(&policy, &claims, now))
}

const FIRST: &str = r#"{"iss":"i","jti":"a","exp":100}"#;

const LONGER: &str = r#"{"iss":"i","jti":"a","exp":9223372036854775807}"#;

/// Claims of tokens that come one after another, when, and what is answered.
static STEPS: [(&str, i64, Result<Taken, Lack>); 11] = [
    (FIRST, 99, Ok(Taken::New)),
    (FIRST, 159, Ok(Taken::Seen)),
    (r#"{"jti":"a","exp":100}"#, 159, Ok(Taken::New)),
    (r#"{"iss":"","jti":"a","exp":100}"#, 159, Ok(Taken::Seen)),
    (r#"{"sub":"s","exp":100}"#, 159, Err(Lack::NoId)),
    (r#"{"sub":"s"}"#, 159, Err(Lack::NoId)),
    (r#"{"jti":"b"}"#, 159, Err(Lack::NoEnd)),
    (r#"{"jti":"b","exp":999,"iat":220}"#, 159, Err(Lack::Ahead)),
    (LONGER, 161, Ok(Taken::Seen)),
    (LONGER, i64::MAX, Ok(Taken::Seen)),
    (FIRST, 100, Ok(Taken::Late)),
];

/// The number of the first of these that is answered in another way.
fn first_unmet(
    alloc: Global,
    once: &mut Once,
    steps: &[(&str, i64, Result<Taken, Lack>)],
) -> Result<Option<usize>, Fail> {
    for (number, &(claims, now, wanted)) in steps.iter().enumerate() {
        if taken(alloc, once, claims, now)? != wanted {
            return Ok(Some(number));
        }
    }
    Ok(None)
}

#[test]
fn an_accepted_token_is_taken_until_its_end(rt: HostRuntime) -> Result<(), Fail> {
    let mut once = memory(rt.alloc(), 9)?;
    let (first, last) = STEPS.split_at(8);
    holds(&rt, first_unmet(rt.alloc(), &mut once, first)?.is_none());
    holds(&rt, once.len() == 2);
    holds(&rt, first_unmet(rt.alloc(), &mut once, last)?.is_none());
    Ok(())
}

const EARLIEST: &str = r#"{"jti":"a","exp":-9223372036854775808}"#;

const ACROSS: &str = r#"{"jti":"b","exp":-20}"#;

static EARLY: [(&str, i64, Result<Taken, Lack>); 5] = [
    (EARLIEST, i64::MIN, Ok(Taken::New)),
    (EARLIEST, -1, Ok(Taken::Seen)),
    (ACROSS, -30, Ok(Taken::New)),
    (ACROSS, 60, Ok(Taken::Seen)),
    (ACROSS, 61, Ok(Taken::Late)),
];

/// Before 1970 each moment is the same one.
#[test]
fn moments_before_1970_are_one(rt: HostRuntime) -> Result<(), Fail> {
    let alloc = rt.alloc();
    let mut once = memory(alloc, 9)?;
    holds(&rt, first_unmet(alloc, &mut once, &EARLY)?.is_none());
    Ok(())
}

/// How the token of these claims is held, under that policy.
fn entry(alloc: Global, claims: &str) -> Result<Result<Entry, Lack>, Fail> {
    let policy = policy_of(alloc, LENIENT)?;
    let claims = claims_of(alloc, claims)?;
    Ok(entry_of(&policy, &claims, 100))
}

/// A store that is asked with entries holds a token as the memory does.
#[test]
fn an_entry_is_that_of_the_memory(rt: HostRuntime) -> Result<(), Fail> {
    let alloc = rt.alloc();
    let Ok(first) = entry(alloc, FIRST)? else {
        return Err(Fail::from("no entry"));
    };
    assert_eq!(rt; first.owner, None);
    assert_eq!(rt;
        first.times,
        Times {
            moment: 100,
            grace: 60,
            issued: 0
        }
    );
    let longer = entry(
        alloc,
        "{\"sub\":\"s\",\"iss\":\"i\",\"jti\":\"a\",\"exp\":-100,\"iat\":100}",
    )?;
    assert_eq!(rt;
        longer,
        Ok(Entry {
            mark: first.mark,
            owner: Some(owner_of(b"i", b"s")),
            times: Times {
                moment: 0,
                grace: 60,
                issued: 40
            }
        })
    );
    let Ok(other) = entry(alloc, "{\"iss\":\"ia\",\"jti\":\"\",\"exp\":100}")? else {
        return Err(Fail::from("no entry"));
    };
    assert!(rt; other.mark != first.mark);
    assert_eq!(rt;
        entry(alloc, "{\"iss\":\"i\",\"exp\":100}")?,
        Err(Lack::NoId)
    );
    assert_eq!(rt; entry(alloc, "{\"jti\":\"a\"}")?, Err(Lack::NoEnd));
    Ok(())
}
