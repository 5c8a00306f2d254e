//! Claims, added one by one.
ghost use Rattle.std.specs.Prelude.{◌≡◌, map, codes, IsErrOf, OnOk, OnErr};
ghost use Rattle.serde_json.specs.Data.{no_members, put, string, number, boolean, object};
ghost use Rattle.serde_json.specs.Find.{of_integer};
ghost use Rattle.serde_json.specs.Written.{compact_text};
ghost use Rattle.jwt_text.specs.Answers.{Answers};
ghost use Rattle.jwt_text.specs.Members.{member_names, AreInOrder};
ghost use Rattle.jwt_text.specs.Writing.{list_of_texts};
ghost use Rattle.jwt_text.specs.Writing.{adding};
ghost use Rattle.jwt_issue.specs.ClaimSets.{added_as, claim_set_of};

use crate::claim_set::ClaimSet;
use crate::fault::BuildFault;
use jwt_policy::ClaimFault;
use jwt_text::{ObjectOut, TextFault};
use std::alloc::Global;
use std::marker::Model;

/// Claims that are being gathered (RFC 7519, section 4). Contracts see the members so far.
///
/// ```rust
/// let mut builder = Builder::new(alloc);
/// builder.text("sub", "alice")?;
/// builder.audience(&["api"])?;
/// builder.whole("exp", 1_300_819_380)?;
/// let claims = builder.finish()?;
/// ```
///
/// Each addition answers `NameTwice` exactly where a claim of the name is there, and `OutOfMemory` where an allocation was refused,
/// and then leaves the builder as it was. The kinds of the registered claims are looked at by [`Builder::finish`].
#[derive(Drop)]
pub struct Builder {
    alloc: Global,
    members: ObjectOut,
}

impl Model for Builder {
    ghost use Rattle.serde_json.specs.Data.{Members};
    ghost use Rattle.jwt_text.specs.Stored.{members_code};

    ghost Value = { Members };

    ghost coded = { members_code };

    ghost view = { λ b. b.members };
}

impl Builder {
    /// A builder with no claims. It takes no memory.
    pub fn new(alloc: Global) -> Builder
        ensures { result ≡ no_members }
    {
        Builder {
            alloc,
            members: ObjectOut::new(alloc),
        }
    }

    /// Adds a text.
    pub fn text(&mut self, name: &str, value: &str) -> Result<(), BuildFault>
        ensures answer { ¬ IsErrOf result BuildFault.OutOfMemory
            → result ≡ added_as (adding name.now self.old) }
        ensures ok { OnOk result (self.new ≡ put name.now (string value.now) self.old) }
        ensures err { OnErr result (self.new ≡ self.old) }
    {
        added(self.members.text(name, value))
    }

    /// Adds a whole number, as a date in seconds since 1970-01-01T00:00:00Z.
    pub fn whole(&mut self, name: &str, value: i64) -> Result<(), BuildFault>
        ensures answer { ¬ IsErrOf result BuildFault.OutOfMemory
            → result ≡ added_as (adding name.now self.old) }
        ensures ok { OnOk result (self.new ≡ put name.now (number (of_integer value)) self.old) }
        ensures err { OnErr result (self.new ≡ self.old) }
    {
        added(self.members.whole(name, value))
    }

    /// Adds a truth value.
    pub fn flag(&mut self, name: &str, value: bool) -> Result<(), BuildFault>
        ensures answer { ¬ IsErrOf result BuildFault.OutOfMemory
            → result ≡ added_as (adding name.now self.old) }
        ensures ok { OnOk result (self.new ≡ put name.now (boolean value) self.old) }
        ensures err { OnErr result (self.new ≡ self.old) }
    {
        added(self.members.flag(name, value))
    }

    /// Adds `aud` as a list of texts (RFC 7519, section 4.1.3).
    pub fn audience(&mut self, values: &[&str]) -> Result<(), BuildFault>
        ensures answer { ¬ IsErrOf result BuildFault.OutOfMemory
            → result ≡ added_as (adding (codes "aud") self.old) }
        ensures ok { OnOk result
            (self.new ≡ put (codes "aud") (list_of_texts (map (λ s. s.now) values.now)) self.old) }
        ensures err { OnErr result (self.new ≡ self.old) }
    {
        added(self.members.texts("aud", values))
    }

    /// The claims: the compact JSON text of the members, with no white space and the names in ascending byte order.
    ///
    /// # Errors
    /// Those of [`ClaimSet::from_octets`] on that text: `ClaimKind` where a registered claim has another kind. `OutOfMemory`
    /// comes where an allocation was refused, in place of any other answer.
    pub fn finish(self) -> Result<ClaimSet, ClaimFault<'static>>
        ensures answer { Answers ClaimFault.OutOfMemory (λ c. c) result
            (claim_set_of (compact_text (object self))) }
        ensures order { AreInOrder (member_names self) }
    {
        let Builder { alloc, members } = self;
        match members.finish() {
            Ok(octets) => ClaimSet::from_octets(alloc, octets),
            Err(_) => Err(ClaimFault::OutOfMemory),
        }
    }
}

/// What an addition answered.
fn added(answer: Result<(), TextFault>) -> Result<(), BuildFault>
    ensures { result ≡ added_as answer }
{
    match answer {
        Ok(()) => Ok(()),
        Err(TextFault::OutOfMemory) => Err(BuildFault::OutOfMemory),
        Err(_) => Err(BuildFault::NameTwice),
    }
}
