use crate::asserted::holds;
use jwt_request::renewal::{Asker, Fetch, Times};
use jwt_request::urls::Asked;
use jwt_sources::{Came, Failure, Issuer, Outcome, Place, Sources, Why};
use std::alloc::{AllocError, Global};
use std::test::Fail;

/// The keys are numbers here.
type Numbers = Sources<u32>;

type Taken = Result<Outcome, AllocError>;

const TIMES: Times = Times {
    refresh_after: 600_000,
    cool_down: 30_000,
    max_age: 3_600_000,
    timeout: 5_000,
};

const METADATA: &[u8] =
    b"{\"issuer\":\"https://id.example\",\"jwks_uri\":\"https://keys.example/a/set\"}";

/// An issuer whose metadata say where its keys are, and a file.
fn found(alloc: Global) -> Result<Numbers, Fail> {
    let mut sources = Sources::new(alloc);
    let issuer = Issuer::new(alloc, b"https://id.example")?.ok_or("no issuer")?;
    sources.add(Place::Issuer(issuer), TIMES, 1_000)?;
    let file = Vec::from_slice(alloc, b"/etc/keys.json")?;
    sources.add(Place::File(file), TIMES, 1_000)?;
    Ok(sources)
}

/// The ticket of what is fetched next.
fn ticket(it: &mut Numbers, now: u64) -> Result<u64, Fail> {
    Ok(it.next(now).ok_or("no job")?.ticket)
}

/// What a key set of this number comes to.
fn takes(it: &mut Numbers, alloc: Global, of: u64, keys: u32, now: u64) -> Taken {
    it.came(alloc, of, 200, b"", b"{}", Some(keys), now)
}

/// The keys of a source; 0 where it has none.
fn keys(it: &Numbers, at: usize) -> u32 {
    if at < it.sources.len() {
        it.keys(at).map_or(0, |keys| keys.prepared)
    } else {
        0
    }
}

/// The fetch of a source, for who asks.
fn ask(it: &mut Numbers, at: usize, asker: Asker, now: u64) -> Fetch {
    if at < it.sources.len() {
        it.ask(at, asker, now).fetch
    } else {
        Fetch::Nothing
    }
}

/// Whether a source fetches this, from there.
fn fetches(it: &Numbers, asked: Asked, url: &str) -> bool {
    0 < it.sources.len() && it.asked(0) == asked && it.url(0) == url.as_bytes()
}

#[test]
fn the_keys_of_an_issuer_are_found(rt: HostRuntime) -> Result<(), Fail> {
    let alloc = rt.alloc();
    let mut it = found(alloc)?;
    holds(&rt, it.next(1_000).is_none());
    holds(&rt, ask(&mut it, 0, Asker::Token, 1_000) == Fetch::Begin(1));
    let first = it.next(1_100).ok_or("no job")?;
    holds(&rt, first.source == 0 && first.within == 4_900);
    holds(&rt, it.next(1_100).is_none());
    let url = "https://id.example/.well-known/openid-configuration";
    holds(&rt, fetches(&it, Asked::OpenId, url));
    it.came(alloc, 1, 404, b"", b"", None, 1_500)?;
    holds(&rt, ticket(&mut it, 1_500)? == 2);
    let url = "https://id.example/.well-known/oauth-authorization-server";
    holds(&rt, fetches(&it, Asked::OAuth, url));
    // (metadata are no keys, whatever comes with them)
    it.came(alloc, 2, 200, b"", METADATA, Some(6), 1_500)?;
    holds(&rt, ticket(&mut it, 1_500)? == 3);
    holds(&rt, fetches(&it, Asked::Keys, "https://keys.example/a/set"));
    it.came(alloc, 3, 302, b"new", b"", None, 1_500)?;
    holds(&rt, ticket(&mut it, 1_500)? == 4);
    holds(&rt, fetches(&it, Asked::Keys, "https://keys.example/a/new"));
    holds(&rt, takes(&mut it, alloc, 3, 7, 1_500)? == Outcome::Late);
    holds(&rt, keys(&it, 0) == 0);
    takes(&mut it, alloc, 4, 8, 1_500)?;
    holds(&rt, takes(&mut it, alloc, 4, 9, 1_500)? == Outcome::Late);
    holds(&rt, keys(&it, 0) == 8 && keys(&it, 1) == 0);
    Ok(())
}

/// Sources whose file has keys, of a fetch that began at 1,000.
fn with_keys(alloc: Global) -> Result<Numbers, Fail> {
    let mut it = found(alloc)?;
    ask(&mut it, 1, Asker::Token, 1_000);
    let first = ticket(&mut it, 1_000)?;
    takes(&mut it, alloc, first, 7, 2_000)?;
    Ok(it)
}

#[test]
fn keys_that_were_too_old_stay_so_when_the_clock_goes_back(rt: HostRuntime) -> Result<(), Fail> {
    let mut it = with_keys(rt.alloc())?;
    it.tell(3_600_999);
    holds(&rt, keys(&it, 1) == 7);
    it.tell(3_601_000);
    holds(&rt, keys(&it, 1) == 0);
    it.tell(1_000);
    holds(&rt, keys(&it, 1) == 0);
    Ok(())
}

/// A fetch failed.
fn failed(at: usize, why: Failure) -> Outcome {
    Outcome::Ended(at, Came::Failed(why))
}

/// What the answer to the first request for metadata comes to.
fn end_of(alloc: Global, status: u32, location: &[u8], content: &[u8]) -> Result<Outcome, Fail> {
    let mut it = found(alloc)?;
    ask(&mut it, 0, Asker::Token, 1_000);
    let first = ticket(&mut it, 1_000)?;
    Ok(it.came(alloc, first, status, location, content, None, 1_500)?)
}

const NO_METADATA: &str = "
{}
{\"issuer\":\"https://id.example/\",\"jwks_uri\":\"https://a/\"}
{\"issuer\":\"https://id.example\",\"jwks_uri\":\"http://a/\"}
{\"issuer\":\"https://id.example\",\"jwks_uri\":5}";

#[test]
fn what_fails_says_why(rt: HostRuntime) -> Result<(), Fail> {
    let alloc = rt.alloc();
    let end = end_of(alloc, 500, b"", METADATA)?;
    holds(&rt, end == failed(0, Failure::Status));
    let end = end_of(alloc, 302, b"https://evil.example/", METADATA)?;
    holds(&rt, end == failed(0, Failure::Redirection));
    for content in NO_METADATA.lines() {
        let end = end_of(alloc, 200, b"", content.as_bytes())?;
        holds(&rt, end == failed(0, Failure::Metadata));
    }
    Ok(())
}

#[test]
fn what_fails_begins_no_other_within_the_cool_down(rt: HostRuntime) -> Result<(), Fail> {
    let alloc = rt.alloc();
    let mut it = with_keys(alloc)?;
    let refused = Asker::Refused(1);
    holds(&rt, ask(&mut it, 1, refused, 31_000) == Fetch::Begin(2));
    let second = ticket(&mut it, 31_000)?;
    let end = it.came(alloc, second, 200, b"", b"x", None, 31_000)?;
    holds(&rt, end == failed(1, Failure::NoKeys));
    holds(&rt, ask(&mut it, 1, refused, 60_999) == Fetch::Nothing);
    holds(&rt, ask(&mut it, 1, refused, 61_000) == Fetch::Begin(3));
    let third = ticket(&mut it, 61_000)?;
    let end = takes(&mut it, alloc, third, 9, 66_000)?;
    holds(&rt, end == Outcome::Ended(1, Came::Late));
    holds(&rt, keys(&it, 1) == 7);
    holds(&rt, Why::NoKey.asker(1) == Some(refused));
    Ok(())
}

#[test]
fn a_child_asks_for_itself(rt: HostRuntime) -> Result<(), Fail> {
    let alloc = rt.alloc();
    let mut it = found(alloc)?;
    ask(&mut it, 1, Asker::Token, 1_000);
    let parents = ticket(&mut it, 1_000)?;
    it.let_go(1_100);
    holds(&rt, ask(&mut it, 1, Asker::Owner, 1_100) == Fetch::Begin(2));
    let own = ticket(&mut it, 1_100)?;
    takes(&mut it, alloc, parents, 7, 1_200)?;
    takes(&mut it, alloc, own, 8, 1_200)?;
    holds(&rt, keys(&it, 1) == 8);
    Ok(())
}

#[test]
fn a_new_list_takes_over_keys(rt: HostRuntime) -> Result<(), Fail> {
    let alloc = rt.alloc();
    let mut old = with_keys(alloc)?;
    ask(&mut old, 1, Asker::Owner, 2_000);
    let late = ticket(&mut old, 2_000)?;
    let mut it: Numbers = old.to_follow(alloc);
    let file = Vec::from_slice(alloc, b"/etc/keys.json")?;
    it.add(Place::File(file), TIMES, 2_000)?;
    let took = 0 < it.sources.len() && it.take_over(0, &mut old, 2_000);
    holds(&rt, took && keys(&it, 0) == 7 && keys(&old, 1) == 0);
    holds(&rt, takes(&mut it, alloc, late, 9, 2_000)? == Outcome::Late);
    let asked = ask(&mut it, 0, Asker::Refused(1), 31_999);
    holds(&rt, asked == Fetch::Nothing);
    Ok(())
}
