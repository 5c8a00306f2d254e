ghost use Rattle.std.specs.Prelude.{◌≡◌};
ghost use Rattle.jwt_sources.specs.Asking.{number_of};

/// The number of a `kid`, under which a token waits: the same in each program, so that two tokens of one `kid` are one everywhere.
pub fn number_of_kid(kid: &[u8]) -> u64
    ensures { result ≡ number_of kid.now }
{
    let mut number: u64 = 0;
    for octet in kid {
        number = number
            .wrapping_mul(1_099_511_628_211)
            .wrapping_add(u64::from(*octet));
    }
    number
}
