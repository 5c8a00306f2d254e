//! RSA public keys, and RSAVP1 (RFC 8017, sections 3.1 and 5.2.2).

ghost use Rattle.std.specs.Prelude.{◌≡◌, ◌^◌, ◌%◌, ◌<◌, ◌≤◌, ◌↔◌, length, IsTrue, SomeIff};
ghost use Rattle.std.specs.Bool.{OnTrue};
ghost use Rattle.jwt_rsa.specs.powers.Octets.{os2ip, i2osp, without_zeros};
ghost use Rattle.jwt_rsa.specs.PublicKey.{is_key, rsavp1};

use crate::powers::{MOST_OCTETS, Modulus, PreparedModulus, number};

/// The octets of a key, and what was prepared of keys.
#[derive(Clone, Copy)]
pub struct KeyOctets<'a> {
    pub n: &'a [u8],
    pub e: &'a [u8],
    pub prepared: &'a [PreparedModulus],
}

// A public key that is taken: the one test of what a key may be.
#[derive(Drop)]
pub struct PublicKey<'a> {
    // The modulus, which contracts see as its octets without leading zeros.
    pub n: Modulus<'a>,
    // The exponent.
    pub e: u64,
}

impl<'a> PublicKey<'a> {
    /// The key of these octets, which zeros may lead, with what was prepared of its modulus; None exactly where it isn't taken.
    pub fn of(n: &'a [u8], e: &[u8], prepared: &'a [PreparedModulus]) -> Option<PublicKey<'a>>
        ensures { SomeIff result (IsTrue (is_key (os2ip n.now) (os2ip e.now)))
            (record { n = without_zeros n.now; e = os2ip e.now }) }
    {
        let n = Modulus::of(n)?.prepared_by(prepared);
        let e = number(e)?;
        if e >= 3 && e % 2 == 1 {
            Some(PublicKey { n, e })
        } else {
            None
        }
    }

    /// The octets of the modulus.
    pub fn size(&self) -> usize
        ensures is { result ≡ length self.now.n }
        ensures least { 256 ≤ length self.now.n }
        ensures most { length self.now.n ≤ MOST_OCTETS }
        ensures fits { os2ip self.now.n < 256 ^ length self.now.n }
    {
        self.n.size()
    }

    /// OS2IP, RSAVP1 and I2OSP (RFC 8017, section 8.1.2, steps 1 to 2c, and section 8.2.2, steps 1 to 2c), in as many octets as
    /// the modulus: false where the signature hasn't as many, or its number isn't less than the modulus.
    pub fn recover(&self, em: &mut [u8], signature: &[u8]) -> bool
        requires { length em.old ≡ length self.now.n }
        ensures asked { IsTrue result ↔
            ((length signature.now ≡ length self.now.n)
            × (os2ip signature.now < os2ip self.now.n)) }
        ensures number { OnTrue result
            (em.new ≡ i2osp (rsavp1 (os2ip self.now.n) self.now.e (os2ip signature.now))
            (length self.now.n)) }
    {
        signature.len() == self.n.size() && self.n.power(em, signature, self.e)
    }
}
