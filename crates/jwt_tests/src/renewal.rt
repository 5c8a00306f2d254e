use crate::asserted::holds;
use jwt_request::renewal::{Answer, Asker, Fetch, Renewal, Times};

const TIMES: Times = Times {
    refresh_after: 600,
    cool_down: 30,
    max_age: 3600,
    timeout: 5,
};

/// A state with keys of the fetch that began at 100, and ended at 103.
fn with_keys() -> Renewal {
    let mut it = Renewal::new(TIMES, 0);
    it.ask(100, Asker::Token);
    it.took(103, 1);
    it
}

/// An answer with these keys, and no fetch.
fn quiet(keys: u64) -> Answer {
    Answer {
        keys: Some(keys),
        fetch: Fetch::Nothing,
    }
}

#[test]
fn a_first_token_begins_a_fetch(rt: HostRuntime) {
    let mut it = Renewal::new(TIMES, 7);
    let first = it.ask(7, Asker::Token);
    holds(&rt, first.keys.is_none());
    holds(&rt, first.fetch == Fetch::Begin(1));
    holds(&rt, it.ask(9, Asker::Token).fetch == Fetch::UnderWay(1, 3));
}

#[test]
fn keys_are_used_until_their_greatest_age(rt: HostRuntime) {
    let mut it = with_keys();
    holds(&rt, it.ask(103, Asker::Token) == quiet(1));
    holds(&rt, it.ask(699, Asker::Token) == quiet(1));
    holds(&rt, it.ask(700, Asker::Token).fetch == Fetch::Begin(2));
    it.failed(701, 2);
    holds(&rt, it.ask(3699, Asker::Waited).keys == Some(1));
    holds(&rt, it.ask(3700, Asker::Waited).keys.is_none());
}

#[test]
fn an_age_counts_from_the_beginning(rt: HostRuntime) {
    let mut it = with_keys();
    holds(&rt, it.keys_age == 3);
    holds(&rt, it.ask(3699, Asker::Waited).keys == Some(1));
    holds(&rt, it.ask(3700, Asker::Waited).keys.is_none());
}

#[test]
fn a_clock_that_goes_back_stands_still(rt: HostRuntime) {
    let mut it = with_keys();
    holds(&rt, it.ask(50, Asker::Token) == quiet(1));
    holds(&rt, it.ask(646, Asker::Token) == quiet(1));
    holds(&rt, it.ask(647, Asker::Token).fetch == Fetch::Begin(2));
}

#[test]
fn refused_tokens_wait_for_the_cool_down(rt: HostRuntime) {
    let mut it = with_keys();
    holds(&rt, it.ask(129, Asker::Refused(1)).fetch == Fetch::Nothing);
    holds(&rt, it.ask(130, Asker::Refused(0)).fetch == Fetch::Nothing);
    holds(&rt, it.ask(130, Asker::Refused(1)).fetch == Fetch::Begin(2));
    it.failed(131, 2);
    holds(&rt, it.ask(132, Asker::Owner).fetch == Fetch::Begin(3));
}

#[test]
fn who_has_waited_begins_none(rt: HostRuntime) {
    let mut it = Renewal::new(TIMES, 0);
    holds(&rt, it.ask(9, Asker::Waited).fetch == Fetch::Nothing);
}

#[test]
fn a_fetch_that_hangs_is_over(rt: HostRuntime) {
    let mut it = Renewal::new(TIMES, 0);
    it.ask(0, Asker::Token);
    holds(&rt, it.ask(4, Asker::Owner).fetch == Fetch::UnderWay(1, 1));
    holds(&rt, it.ask(5, Asker::Owner).fetch == Fetch::Begin(2));
}

#[test]
fn keys_of_another_fetch_are_dropped(rt: HostRuntime) {
    let mut it = Renewal::new(TIMES, 0);
    it.ask(0, Asker::Token);
    holds(&rt, !it.took(4, 2));
    holds(&rt, !it.took(5, 1));
    holds(&rt, it.ask(5, Asker::Waited).keys.is_none());
}

#[test]
fn a_failure_leaves_the_keys(rt: HostRuntime) {
    let mut it = with_keys();
    it.ask(700, Asker::Token);
    holds(&rt, !it.failed(701, 1));
    holds(&rt, it.failed(702, 2));
    holds(&rt, it.ask(703, Asker::Token) == quiet(1));
}

#[test]
fn four_tokens_wait_and_no_fifth(rt: HostRuntime) {
    let mut it = Renewal::new(TIMES, 0);
    holds(&rt, !it.wait(0, 1, 11));
    it.ask(0, Asker::Token);
    holds(&rt, it.wait(0, 1, 11));
    holds(&rt, !it.wait(0, 1, 11));
    holds(&rt, !it.wait(0, 2, 12));
    holds(&rt, it.wait(1, 1, 12));
    holds(&rt, it.wait(2, 1, 13));
    holds(&rt, it.wait(3, 1, 14));
    holds(&rt, !it.wait(3, 1, 15));
    holds(&rt, !it.wait(5, 1, 16));
    it.ask(30, Asker::Token);
    holds(&rt, it.wait(31, 2, 11));
    it.failed(32, 2);
    holds(&rt, !it.wait(33, 2, 12));
}

#[test]
fn a_token_begins_a_fetch_when_it_is_due(rt: HostRuntime) {
    let it = with_keys();
    holds(&rt, it.due() == 597);
    holds(&rt, it.quiet_for() == 597);
    let mut old = with_keys();
    old.ask(700, Asker::Token);
    holds(&rt, old.due() == 30);
    holds(&rt, old.quiet_for() == 30);
    let none = Renewal::new(TIMES, 0);
    holds(&rt, none.due() == 0);
    holds(&rt, none.quiet_for() == 0);
}
