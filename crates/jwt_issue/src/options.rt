//! Tokens by the keys of a set.
ghost use Rattle.std.specs.Prelude.{◌≡◌, map, IfOk};
ghost use Rattle.jwt_text.specs.Answers.{Answers};
ghost use Rattle.jwt_keys.specs.KeySets.{key_set};
ghost use Rattle.jwt_issue.specs.Issued.{signing_pair};
ghost use Rattle.jwt_issue.specs.Options.{issued_by};
ghost use Rattle.jwt_issue.specs.Views.{options_parts, pair_parts};

use crate::claim_set::ClaimSet;
use crate::fault::IssueFault;
use crate::general::issue_json;
use crate::single::{issue_compact, issue_flat};
use jwt_jws::Form;
use jwt_keys::{Key, KeySet};
use jwt_mac::{Alg, CountDown};
use std::alloc::{AllocError, Global};

/// The octets that HMAC may be fed for one token.
const BUDGET: u64 = 1_000_000_000_000;

/// How a token is to be issued.
#[derive(Clone, Copy, Debug)]
pub struct IssueOptions<'a> {
    /// The algorithm of each signature.
    pub alg: Alg,

    /// `typ` of each protected header, where it is given.
    pub typ: Option<&'a str>,

    /// The form of the token.
    pub form: Form,

    /// The number of the key that signs in compact and in flattened form. In general form each key signs.
    pub key: u32,
}

/// Each key, for one algorithm.
fn pairs<'k>(alloc: Global, alg: Alg, keys: &'k KeySet) -> Result<Vec<(Alg, &'k Key)>, AllocError>
    ensures { IfOk result (λ v. map pair_parts v.items ≡ map (signing_pair alg) (key_set keys.now).keys) }
{
    let mut pairs = Vec::new(alloc);
    'keys: for j in 0..keys.len() {
        if let Some(key) = keys.key(j) {
            pairs.push((alg, key))?;
        }
    }
    Ok(pairs)
}

/// A signed token by the keys of a set, as [`issue_compact`](crate::issue_compact), [`issue_flat`](crate::issue_flat) and
/// [`issue_json`](crate::issue_json) issue it. In compact and in flattened form the key of the number in `options` signs, in general
/// form each key, in the order of the set. HMAC may be fed 1,000,000,000,000 octets for it.
///
/// # Errors
/// `NoKey` where the set has no key of that number, and in general form no key; else those of the call for the form.
/// `OutOfMemory` comes where an allocation was refused, in place of any other answer. The key set and the claims are as before.
pub fn issue_by(
    alloc: Global,
    options: IssueOptions<'_>,
    keys: &KeySet,
    claims: &ClaimSet,
) -> Result<Vec<u8>, IssueFault>
    ensures { Answers IssueFault.OutOfMemory (λ v. v.items) result
        (issued_by (options_parts options.entry) (key_set keys.now).keys claims.now) }
{
    let mut budget = CountDown::new(BUDGET);
    match options.form {
        Form::Compact => match keys.key(options.key) {
            Some(key) => issue_compact(alloc, &mut budget, options.alg, key, options.typ, claims),
            None => Err(IssueFault::NoKey),
        },
        Form::Flattened => match keys.key(options.key) {
            Some(key) => issue_flat(alloc, &mut budget, options.alg, key, options.typ, claims),
            None => Err(IssueFault::NoKey),
        },
        Form::General => {
            let pairs = match pairs(alloc, options.alg, keys) {
                Ok(pairs) => pairs,
                Err(_) => return Err(IssueFault::OutOfMemory),
            };
            issue_json(alloc, &mut budget, pairs.as_slice(), options.typ, claims)
        }
    }
}
