ghost use Rattle.std.specs.Prelude.{◌≡◌, ◌≢◌, ◌↔◌, ◌<◌, ◌++◌, ◌∷◌, [], IsTrue, length};
ghost use Rattle.std.specs.List.{All};
ghost use Rattle.jwt_request.specs.renewal.Standing.{names};

/// The names of the tokens that wait for a fetch: at most four, each once.
#[derive(Clone, Copy, Debug, PartialEq, Eq)]
pub struct Waiters {
    /// How many wait, in the first places. A greater number than four counts as four.
    pub count: u64,
    pub first: u64,
    pub second: u64,
    pub third: u64,
    pub fourth: u64,
}

impl Waiters {
    /// Nobody waits.
    pub fn none() -> Waiters
        ensures { names result ≡ [] }
    {
        Waiters {
            count: 0,
            first: 0,
            second: 0,
            third: 0,
            fourth: 0,
        }
    }

    /// Whether one more may wait, under this name.
    pub fn admits(&self, name: u64) -> bool
        ensures { IsTrue result ↔ ((length (names self.now) < 4) × All (λ other. other ≢ name) (names self.now)) }
    {
        match self.count {
            0 => true,
            1 => self.first != name,
            2 => self.first != name && self.second != name,
            3 => self.first != name && self.second != name && self.third != name,
            _ => false,
        }
    }

    /// One more waits, under this name.
    pub fn with(&self, name: u64) -> Waiters
        requires { length (names self.now) < 4 }
        ensures { names result ≡ names self.now ++ name ∷ [] }
    {
        match self.count {
            0 => Waiters {
                count: 1,
                first: name,
                ..*self
            },
            1 => Waiters {
                count: 2,
                second: name,
                ..*self
            },
            2 => Waiters {
                count: 3,
                third: name,
                ..*self
            },
            _ => Waiters {
                count: 4,
                fourth: name,
                ..*self
            },
        }
    }
}
