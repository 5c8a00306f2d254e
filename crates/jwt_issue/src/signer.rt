//! One pair of an algorithm and a key, ready to sign.
ghost use Rattle.std.specs.Prelude.{IsTrue};
ghost use Rattle.jwt_mac.specs.Algorithm.{is_hmac_alg};

use crate::fault::IssueFault;
use crate::fitness::{secret, unfit};
use crate::header::{protected_text, spell};
use jwt_keys::Key;
use jwt_mac::{Alg, Budget, Message, hmac};
use std::alloc::Global;

/// What a pair signs with: its algorithm, the secret, lent by the key, and the text of the protected header.
#[derive(Drop)]
pub(crate) struct Signer<'a> {
    pub(crate) alg: Alg,
    pub(crate) secret: &'a [u8],
    pub(crate) protected: Vec<u8>,
    ghost hmac: { IsTrue (is_hmac_alg alg) },
}

impl<'a> Signer<'a> {
    ghost use Rattle.std.specs.Prelude.{◌≡◌, ◌≢◌, ◌+◌, ◌*◌, ◌<◌, ◌≤◌, ◌^◌, IfOk, IfErr, OnOk, Ok, IsUtf8};
    ghost use Rattle.serde_json.specs.Data.{object};
    ghost use Rattle.serde_json.specs.Written.{compact_text};
    ghost use Rattle.jwt_text.specs.Answers.{Answers, some_or, unless};
    ghost use Rattle.jwt_issue.specs.Issued.{unfit, header, signer_of, signature_text, signing_cost};
    ghost use Rattle.jwt_issue.specs.Paying.{PaysOnce};
    ghost use Rattle.jwt_issue.specs.Views.{pair_of, optional_text, signer_parts};

    /// What pair `i` signs with, or why it may not.
    #[tactic(auto, unfolding(crate::specs::Issued::unfit))]
    pub(crate) fn new(
        alloc: Global,
        i: u32,
        alg: Alg,
        key: &'a Key,
        typ: Option<&str>,
    ) -> Result<Signer<'a>, IssueFault>
        ensures answer { Answers IssueFault.OutOfMemory signer_parts result
            (unless (unfit i (pair_of alg key.entry.now))
            (Ok (signer_of (optional_text typ.entry) (pair_of alg key.entry.now)))) }
        ensures utf8 { OnOk result
            (IsUtf8 (compact_text
            (object (header (optional_text typ.entry) (pair_of alg key.entry.now))))) }
    {
        if let Some(fault) = unfit(i, alg, key) {
            return Err(fault);
        }
        let secret = secret(key).unwrap_or(&[]);
        let protected = protected_text(alloc, alg, key, typ)?;
        Ok(Signer {
            alg,
            secret,
            protected,
        })
    }

    /// The text of signature `i` over this payload text, paid from the budget.
    #[tactic(auto, unfolding(crate::specs::Issued::signature_text))]
    pub(crate) fn sign<B: Budget>(
        &self,
        alloc: Global,
        budget: &mut B,
        i: u32,
        payload: &[u8],
    ) -> Result<Vec<u8>, IssueFault>
        requires { B.calls budget.old + 1 < 2 ^ 32 }
        ensures text { IfOk result
            (λ v. v.items ≡ signature_text payload.now (signer_parts self.now)) }
        ensures fault { IfErr result (λ e. e ≢ IssueFault.OutOfMemory → e ≡ IssueFault.Spent i) }
        ensures afforded { OnOk result
            (B.octets budget.old + signing_cost payload.now (signer_parts self.now) ≤ B.ceiling
            budget.old) }
        ensures spent { IfErr result
            (λ e. e ≢ IssueFault.OutOfMemory
            → B.ceiling budget.old < B.octets budget.old + signing_cost payload.now
            (signer_parts self.now)) }
        ensures unchanged { IfErr result
            (λ e. e ≢ IssueFault.OutOfMemory → budget.new ≡ budget.old) }
        ensures paid { PaysOnce result
            (λ n. (B.octets budget.new
            ≡ B.octets budget.old + n * signing_cost payload.now (signer_parts self.now))
            × (B.calls budget.new ≡ B.calls budget.old + n)) }
        ensures ceiling { B.ceiling budget.new ≡ B.ceiling budget.old }
    {
        let message = Message {
            protected: &self.protected,
            payload,
        };
        let Ok(tag) = hmac(budget, self.alg, self.secret, message.parts()) else {
            return Err(IssueFault::Spent(i));
        };
        spell(alloc, tag.octets())
    }
}
