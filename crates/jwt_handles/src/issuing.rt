//! Issues tokens.

ghost use Rattle.jwt_handles.specs.declared.status.TheConstants.{FOW_ABSENT, FOW_OK, FOW_REFUSED};
ghost use Rattle.std.specs.Prelude.{◌≡◌, ◌≢◌, None, IfSome};
ghost use Rattle.jwt_keys.specs.KeySets.{key_set};
ghost use Rattle.jwt_issue.specs.ClaimSets.{claim_set_of};
ghost use Rattle.jwt_issue.specs.Options.{issued_by};
ghost use Rattle.jwt_issue.specs.Views.{options_parts, optional_text};
ghost use Rattle.jwt_handles.specs.Issuing.{hmac_at, form_at, typ_of, PutsToken, PutsIssued};

use crate::report::FowReport;
use crate::status::{FOW_ABSENT, FOW_OUT_OF_MEMORY, FOW_REFUSED};
use crate::writing::put;
use jwt_issue::{ClaimSet, IssueFault, IssueOptions, issue_by};
use jwt_jws::Form;
use jwt_keys::KeySet;
use jwt_mac::Alg;
use jwt_policy::ClaimFault;
use std::alloc::Global;

/// The HMAC algorithm of a number.
fn hmac_at(number: u32) -> Option<Alg>
    ensures { result ≡ hmac_at number }
{
    if number == 1 {
        Some(Alg::HS256)
    } else if number == 2 {
        Some(Alg::HS384)
    } else if number == 3 {
        Some(Alg::HS512)
    } else {
        None
    }
}

/// The form of a number.
fn form_at(number: u32) -> Option<Form>
    ensures { result ≡ form_at number }
{
    if number == 1 {
        Some(Form::Compact)
    } else if number == 2 {
        Some(Form::General)
    } else if number == 3 {
        Some(Form::Flattened)
    } else {
        None
    }
}

/// The type that is asked for: none where it has no octets.
fn typ_of(typ: &str) -> Option<&str>
    ensures { optional_text result ≡ typ_of typ.now }
{
    if typ.is_empty() { None } else { Some(typ) }
}

/// How a token is to be issued, with the keys that may sign it.
#[derive(Clone, Copy)]
struct Issuing<'a> {
    options: IssueOptions<'a>,
    keys: &'a KeySet,
}

impl Issuing<'_> {
    /// Writes the token of some claims at the front of `out`. `FOW_OK`; `FOW_REFUSED`: it is refused, as the report says;
    /// `FOW_OUT_OF_MEMORY`: memory was refused; `FOW_TOO_SHORT`: `out` is too short.
    fn put_token(
        &self,
        alloc: Global,
        claims: &ClaimSet,
        out: &mut [u8],
        written: &mut usize,
        report: &mut FowReport,
    ) -> u32
        ensures written { PutsToken
            (issued_by (options_parts self.now.options) (key_set self.now.keys.now).keys claims.now)
            result report.new written.new out.old out.new }
        ensures unwritten { result ≢ FOW_OK → (out.new ≡ out.old) × (written.new ≡ written.old) }
        ensures unsaid { result ≢ FOW_REFUSED → report.new ≡ report.old }
    {
        match issue_by(alloc, self.options, self.keys, claims) {
            Ok(token) => put(&token, out, written),
            Err(IssueFault::OutOfMemory) => FOW_OUT_OF_MEMORY,
            Err(fault) => {
                *report = FowReport::of_issue(fault);
                FOW_REFUSED
            }
        }
    }

    /// The same of claims as they stand.
    fn put(
        &self,
        alloc: Global,
        claims: &[u8],
        out: &mut [u8],
        written: &mut usize,
        report: &mut FowReport,
    ) -> u32
        ensures written { PutsIssued (options_parts self.now.options) (key_set self.now.keys.now).keys
            (claim_set_of claims.now) result report.new written.new out.old out.new }
        ensures unwritten { result ≢ FOW_OK → (out.new ≡ out.old) × (written.new ≡ written.old) }
        ensures unsaid { result ≢ FOW_REFUSED → report.new ≡ report.old }
    {
        let Ok(octets) = claims.to_vec(alloc) else {
            return FOW_OUT_OF_MEMORY;
        };
        match ClaimSet::from_octets(alloc, octets) {
            Ok(claims) => self.put_token(alloc, &claims, out, written, report),
            Err(ClaimFault::OutOfMemory) => FOW_OUT_OF_MEMORY,
            Err(fault) => {
                *report = FowReport::of_claims(&fault);
                FOW_REFUSED
            }
        }
    }
}

/// The same in the numbers of the header: the algorithm, the form, the key, and `typ`, which is asked for where it has octets.
#[derive(Clone, Copy)]
pub(crate) struct NumberedIssuing<'a> {
    pub(crate) alg: u32,
    pub(crate) form: u32,
    pub(crate) key: u32,
    pub(crate) typ: &'a str,
    pub(crate) keys: &'a KeySet,
}

impl NumberedIssuing<'_> {
    /// Writes the token of these claims, as they stand, at the front of `out`. `FOW_OK`; `FOW_REFUSED`: it is refused, as the report
    /// says; `FOW_OUT_OF_MEMORY`: memory was refused; `FOW_TOO_SHORT`: `out` is too short; `FOW_ABSENT`: there is no such algorithm or
    /// form.
    pub(crate) fn put(
        &self,
        alloc: Global,
        claims: &[u8],
        out: &mut [u8],
        written: &mut usize,
        report: &mut FowReport,
    ) -> u32
        ensures alg { hmac_at self.now.alg ≡ None → result ≡ FOW_ABSENT }
        ensures form { form_at self.now.form ≡ None → result ≡ FOW_ABSENT }
        ensures token { IfSome (hmac_at self.now.alg)
            (λ a. IfSome (form_at self.now.form) (λ f. PutsIssued
            (record { alg = a; typ = typ_of self.now.typ.now; form = f; key = self.now.key }) (key_set self.now.keys.now).keys
            (claim_set_of claims.now) result report.new written.new out.old out.new)) }
        ensures unwritten { result ≢ FOW_OK → (out.new ≡ out.old) × (written.new ≡ written.old) }
        ensures unsaid { result ≢ FOW_REFUSED → report.new ≡ report.old }
    {
        match hmac_at(self.alg) {
            Some(alg) => match form_at(self.form) {
                Some(form) => {
                    let issuing = Issuing {
                        options: IssueOptions {
                            alg,
                            typ: typ_of(self.typ),
                            form,
                            key: self.key,
                        },
                        keys: self.keys,
                    };
                    issuing.put(alloc, claims, out, written, report)
                }
                None => FOW_ABSENT,
            },
            None => FOW_ABSENT,
        }
    }
}
