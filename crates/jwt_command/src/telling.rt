//! What the answer to a token needs beside the verdict.
ghost use Rattle.std.specs.Prelude.{◌≡◌};
ghost use Rattle.jwt_access.specs.Moments.{moment_under};
ghost use Rattle.jwt_command.specs.Views.{demands_of};
ghost use Rattle.jwt_output.specs.verdicts.Views.{demands_view};

use jwt_access::{AccessRule, Moment};
use jwt_output::verdicts::Demands;
use jwt_settings::{Expectation, Printing};
use jwt_verify::Terms;

/// What the answer to a token needs beside the verdict.
#[derive(Clone, Copy)]
pub(crate) struct Telling<'r> {
    /// How the answer is told.
    pub(crate) printing: Printing,
    /// The access rule that the claims of an accepted token are held against, where one is in hand.
    pub(crate) rule: Option<&'r AccessRule>,
    /// What one of its claims has to be, where that is asked.
    pub(crate) expected: Option<Expectation<'r>>,
}

impl<'r> Telling<'r> {
    /// Without an access rule.
    pub(crate) fn of(printing: Printing, expected: Option<Expectation<'r>>) -> Telling<'r>
        ensures printing { result.printing ≡ printing }
        ensures expected { result.expected ≡ expected.entry }
    {
        Telling {
            printing,
            rule: None,
            expected,
        }
    }

    /// What the claims of a token that is accepted under these terms are held against.
    pub(crate) fn demands(&self, terms: &Terms<'_, '_, '_>) -> Demands<'r>
        ensures asked { demands_view result ≡ demands_of self.now }
        ensures moment { result.moment ≡ moment_under terms.now.policy.now terms.now.moment }
    {
        Demands {
            rule: self.rule,
            expected: self.expected,
            moment: Moment::under(terms.policy, terms.moment),
        }
    }
}
