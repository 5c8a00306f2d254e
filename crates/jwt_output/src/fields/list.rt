//! A list of fields.
ghost use Rattle.std.specs.Prelude.{◌≡◌, ◌++◌, ◌∷◌, [], IfOk, OnOk};
ghost use Rattle.jwt_output.specs.fields.Fields.{count, field, printed, value_view, word};
ghost use Rattle.jwt_output.specs.Views.{reply_view};

use crate::fields::field::{Field, FieldName, FieldValue};
use crate::fields::line::fields_line;
use crate::fields::object::{fields_json, put_fields};
use crate::reasons::Cause;
use crate::{JsonOut, Reply};
use jwt_settings::Printing;
use std::alloc::{AllocError, Global};
use std::marker::Model;

/// The fields of an answer. Contracts see their list.
#[derive(Drop)]
pub struct Fields<'a> {
    fields: Vec<Field<'a>>,
}

impl<'a> Model for Fields<'a> {
    ghost use Rattle.std.specs.Prelude.{List, map};
    ghost use Rattle.jwt_output.specs.fields.Fields.{Field as Meant, field_view};

    ghost Value = { List Meant };

    ghost view = { λ f. map field_view f.fields.items };
}

impl<'a> Fields<'a> {
    /// None yet.
    pub fn none(alloc: Global) -> Fields<'a>
        ensures { result ≡ [] }
    {
        Fields {
            fields: Vec::new(alloc),
        }
    }

    /// One more.
    pub fn put(&mut self, name: FieldName, value: FieldValue<'a>) -> Result<(), AllocError>
        ensures { OnOk result (self.new ≡ self.old ++ field name (value_view value.entry) ∷ []) }
    {
        self.fields.push(Field { name, value })?;
        Ok(())
    }

    /// A word of this program's.
    pub fn word(&mut self, name: FieldName, text: &'static str) -> Result<(), AllocError>
        ensures { OnOk result (self.new ≡ self.old ++ word name text.now ∷ []) }
    {
        self.put(name, FieldValue::Word(text))
    }

    /// A whole number.
    pub fn count(&mut self, name: FieldName, number: u64) -> Result<(), AllocError>
        ensures { OnOk result (self.new ≡ self.old ++ count name number ∷ []) }
    {
        self.put(name, FieldValue::Count(number))
    }

    /// A text, where there is one; a line has a dash for none.
    pub(crate) fn maybe(
        &mut self,
        printing: Printing,
        name: FieldName,
        text: Option<&'a str>,
    ) -> Result<(), AllocError> {
        match (text, printing) {
            (Some(text), _) => self.put(name, FieldValue::Text(text)),
            (None, Printing::Lines) => self.word(name, "-"),
            (None, Printing::Json) => Ok(()),
        }
    }

    /// The line.
    pub(crate) fn line(&self, alloc: Global) -> Result<Vec<u8>, AllocError> {
        fields_line(alloc, self.fields.as_slice())
    }

    /// The members of a JSON object that is being written.
    pub(crate) fn members(&self, alloc: Global, out: &mut JsonOut) -> Result<(), AllocError> {
        put_fields(alloc, out, self.fields.as_slice())
    }

    /// A JSON object without a name.
    pub(crate) fn object(&self, alloc: Global, out: &mut JsonOut) -> Result<(), AllocError> {
        out.begin_object()?;
        self.members(alloc, out)?;
        out.end_object()
    }

    /// What it refuses or denies something for.
    fn cause(&self) -> Cause {
        let mut verdict = "";
        let mut name = "";
        for field in self.fields.as_slice() {
            match (field.name, field.value) {
                (FieldName::Verdict, FieldValue::Word(word)) => verdict = word,
                (FieldName::Fault, FieldValue::Word(word)) => name = word,
                (FieldName::Denial, FieldValue::Word(word)) => name = word,
                (FieldName::Remedy, _) => return Cause::Remedied,
                _ => {}
            }
        }
        Cause::of(verdict, name)
    }

    /// The answer: a line, or a JSON object.
    pub fn printed(
        &self,
        alloc: Global,
        printing: Printing,
        status: u8,
    ) -> Result<Reply, AllocError>
        ensures { IfOk result (λ a. reply_view a ≡ printed printing self.now status) }
    {
        let cause = self.cause();
        let text = match printing {
            Printing::Json => fields_json(alloc, self.fields.as_slice())?,
            Printing::Lines => fields_line(alloc, self.fields.as_slice())?,
        };
        Ok(Reply {
            text,
            status,
            cause,
        })
    }
}
