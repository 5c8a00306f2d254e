ghost use Rattle.std.specs.Prelude.{◌≡◌, ◌≤◌, length};
ghost use Rattle.std.specs.List.{list_all, suffix_len};
ghost use Rattle.jwt_request.specs.urls.Urls.{is_of, run};

/// The kinds of octets in a URL.
#[derive(Clone, Copy)]
pub enum Kind {
    /// An octet of a host's name.
    Name,
    /// An octet of an address in brackets.
    Literal,
    /// A digit.
    Digit,
    /// An octet of path and query.
    Target,
    /// An octet of the path, which ends before the query.
    Path,
    /// An octet of one segment of the path.
    Segment,
    /// An octet of what stands before the first colon, slash and question mark.
    First,
}

impl Kind {
    fn has(self, octet: u8) -> bool
        ensures { result ≡ is_of self octet }
    {
        match self {
            Kind::Name => octet.is_ascii_alphanumeric() || b"-._".contains(&octet),
            Kind::Literal => octet.is_ascii_hexdigit() || b":.".contains(&octet),
            Kind::Digit => octet.is_ascii_digit(),
            Kind::Target => octet.is_ascii_alphanumeric()
                || b"-._~!$&'()*+,;=:@/?%".contains(&octet),
            Kind::Path => octet != b'?',
            Kind::Segment => octet != b'/',
            Kind::First => octet != b':' && octet != b'/' && octet != b'?',
        }
    }

    /// How many octets of this kind stand at the front.
    pub fn run(self, octets: &[u8]) -> usize
        ensures value { result ≡ run self octets.now }
        ensures within { result ≤ length octets.now }
    {
        octets.iter().take_while(|octet| self.has(**octet)).count()
    }

    /// Whether all octets are of this kind.
    pub fn fills(self, octets: &[u8]) -> bool
        ensures { result ≡ list_all (is_of self) octets.now }
    {
        octets.iter().all(|octet| self.has(*octet))
    }

    /// How many octets of this kind stand at the end.
    pub fn run_at_end(self, octets: &[u8]) -> usize
        ensures value { result ≡ suffix_len (is_of self) octets.now }
        ensures within { result ≤ length octets.now }
    {
        octets
            .iter()
            .rev()
            .take_while(|octet| self.has(**octet))
            .count()
    }
}
