//! The members of a document, with their values, and those of a policy.

use crate::JsonOut;
use crate::fields::{FieldName, FieldValue, Fields, Listing};
use jwt_policy::{Mode, Policy};
use jwt_settings::Printing;
use jwt_text::ObjectRef;
use std::alloc::{AllocError, Global};
use std::str;

/// The members of an object of a document as they are printed, one by one.
#[derive(Drop)]
pub(crate) struct Members<'m, 'd> {
    pub(crate) alloc: Global,
    /// What stands before each name.
    pub(crate) head: &'m str,
    pub(crate) document: &'m ObjectRef<'d>,
    pub(crate) out: &'m mut Listing,
}

impl<'d> Members<'_, 'd> {
    /// Those of an object in it.
    pub(crate) fn within<'n>(
        &'n mut self,
        head: &'n str,
        document: &'n ObjectRef<'d>,
    ) -> Members<'n, 'd> {
        Members {
            alloc: self.alloc,
            head,
            document,
            out: &mut *self.out,
        }
    }

    /// A member with its value, and whether it stands in the document. A value of which nothing is written isn't printed.
    fn put(&mut self, name: &str, value: JsonOut) -> Result<(), AllocError> {
        let value = value.into_text();
        let is_given = self.document.has(name);
        let mut fields = Fields::none(self.alloc);
        match self.out.printing() {
            Printing::Json => {
                let given: &[u8] = if is_given { b"true" } else { b"false" };
                fields.put(FieldName::Given, FieldValue::Json(given))?;
                if !value.is_empty() {
                    fields.put(FieldName::Value, FieldValue::Json(value.as_slice()))?;
                }
            }
            Printing::Lines => {
                let given = if is_given { "given" } else { "default" };
                fields.word(FieldName::Given, given)?;
                if !value.is_empty() {
                    let value = str::from_utf8(value.as_slice()).unwrap_or("");
                    fields.put(FieldName::Value, FieldValue::Word(value))?;
                }
            }
        }
        let head = self.head;
        let name = format!(in self.alloc; "{head}{name}")?;
        self.out.begin_object(name.as_str())?;
        self.out.members(self.alloc, name.as_str(), &fields)?;
        self.out.end_object()
    }

    /// A member whose value isn't printed, since it is a secret or keys.
    pub(crate) fn hidden(&mut self, name: &str) -> Result<(), AllocError> {
        self.put(name, JsonOut::bare(self.alloc))
    }

    /// A whole number, and null for none.
    pub(crate) fn number(&mut self, name: &str, number: Option<u64>) -> Result<(), AllocError> {
        let mut value = JsonOut::bare(self.alloc);
        match number {
            Some(number) => value.number(number)?,
            None => value.null()?,
        }
        self.put(name, value)
    }

    /// A truth value.
    pub(crate) fn flag(&mut self, name: &str, flag: bool) -> Result<(), AllocError> {
        let mut value = JsonOut::bare(self.alloc);
        value.boolean(flag)?;
        self.put(name, value)
    }

    /// A text, and null for none.
    pub(crate) fn text(&mut self, name: &str, text: Option<&str>) -> Result<(), AllocError> {
        let mut value = JsonOut::bare(self.alloc);
        match text {
            Some(text) => value.string(text)?,
            None => value.null()?,
        }
        self.put(name, value)
    }

    /// A list of texts.
    pub(crate) fn texts(&mut self, name: &str, texts: &[&str]) -> Result<(), AllocError> {
        let mut value = JsonOut::bare(self.alloc);
        value.begin_array()?;
        for text in texts {
            value.string(*text)?;
        }
        value.end_list()?;
        self.put(name, value)
    }

    /// The same of owned texts.
    fn owned(&mut self, name: &str, texts: &[String]) -> Result<(), AllocError> {
        let texts: Vec<&str> = texts.iter().map(|text| text.as_str()).collect(self.alloc)?;
        self.texts(name, texts.as_slice())
    }

    /// The algorithms, by their names.
    fn algs(&mut self, policy: &Policy) -> Result<(), AllocError> {
        let names: Vec<&str> = policy
            .algs()
            .iter()
            .map(|alg| alg.text())
            .collect(self.alloc)?;
        self.texts("algs", names.as_slice())
    }
}

/// The name of a mode.
fn mode_name(mode: Mode) -> &'static str {
    match mode {
        Mode::Any => "any",
        Mode::All => "all",
    }
}

/// Each member, in the order of the documents of policies, with its value in force, which is the default where the document lacks it.
pub(crate) fn put_members(
    alloc: Global,
    out: &mut Listing,
    head: &str,
    document: &ObjectRef<'_>,
    policy: &Policy,
) -> Result<(), AllocError> {
    let mut members = Members {
        alloc,
        head,
        document,
        out,
    };
    members.number("version", Some(u64::from(policy.version())))?;
    members.algs(policy)?;
    members.text("mode", Some(mode_name(policy.mode())))?;
    members.number("limit", Some(u64::from(policy.limit())))?;
    members.number("work", Some(policy.work()))?;
    members.number("max_signatures", Some(u64::from(policy.max_signatures())))?;
    members.flag("line_feed", policy.line_feed())?;
    members.text("typ", policy.typ())?;
    members.flag("need_kid", policy.need_kid())?;
    members.flag("thumb_kid", policy.thumb_kid())?;
    members.owned("understood", policy.understood())?;
    members.owned("issuers", policy.issuers())?;
    members.owned("audiences", policy.audiences())?;
    members.owned("required", policy.required())?;
    members.number("leeway", Some(u64::from(policy.leeway())))?;
    members.number("max_age", policy.max_age().map(u64::from))?;
    members.number("max_calls", policy.max_calls().map(u64::from))
}
