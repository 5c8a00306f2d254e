//! One line of JSON, written by the kit's writer.
ghost use Rattle.std.specs.Prelude.{◌≡◌, ◌++◌, ◌∷◌, [], IfOk, OnOk};
ghost use Rattle.std.specs.Fmt.{decimal};
ghost use Rattle.json.specs.Json.{boolean, null, number, string};
ghost use Rattle.json.specs.Print.{print};
ghost use Rattle.json.specs.Token.{begin_array, begin_object, end_array, end_object, key};
ghost use Rattle.json.specs.Tree.{HasNumbers, json_tokens};
ghost use Rattle.json.specs.Value.{value_view};
ghost use Rattle.jwt_output.specs.Json.{count, text, json_value};
ghost use Rattle.jwt_output.specs.JsonTokens.{named_tokens};

use json::{Error, Scratch, Value, Writer};
use std::alloc::{AllocError, Global};
use std::marker::Model;

/// A line of JSON that is being written. Contracts see its tokens so far.
#[derive(Drop)]
pub struct JsonOut {
    writer: Writer,
}

impl Model for JsonOut {
    ghost use Rattle.std.specs.Prelude.{List, ◌≡◌, []};
    ghost use Rattle.json.specs.Token.{Token, tokens_code};

    ghost Value = { List Token };

    ghost coded = { tokens_code };

    ghost view = { λ o. o.writer.tokens };

    ghost invariant = { λ o. o.writer.before ≡ [] };
}

impl JsonOut {
    /// The start of an object.
    pub fn object(alloc: Global) -> Result<JsonOut, AllocError>
        ensures { IfOk result (λ o. o ≡ begin_object ∷ []) }
    {
        let mut writer = Writer::new(Vec::new(alloc));
        writer.begin_object()?;
        Ok(JsonOut { writer })
    }

    /// Nothing yet: a value is to stand alone.
    pub fn bare(alloc: Global) -> JsonOut
        ensures { result ≡ [] }
    {
        JsonOut {
            writer: Writer::new(Vec::new(alloc)),
        }
    }

    /// The text of what was written.
    pub fn into_text(self) -> Vec<u8>
        ensures { result.items ≡ print self }
    {
        let JsonOut { writer } = self;
        writer.into_inner()
    }
    /// Opens an object.
    pub fn begin_object(&mut self) -> Result<(), AllocError>
        ensures { OnOk result (self.new ≡ self.old ++ begin_object ∷ []) }
    {
        self.writer.begin_object()
    }

    /// Closes an object.
    pub fn end_object(&mut self) -> Result<(), AllocError>
        ensures { OnOk result (self.new ≡ self.old ++ end_object ∷ []) }
    {
        self.writer.end_object()
    }

    /// A name, and the start of the list that it has.
    pub fn begin_list(&mut self, name: &str) -> Result<(), AllocError>
        ensures { OnOk result (self.new ≡ self.old ++ key name.now ∷ begin_array ∷ []) }
    {
        self.writer.key(name)?;
        self.writer.begin_array()
    }

    /// The start of a list without a name.
    pub fn begin_array(&mut self) -> Result<(), AllocError>
        ensures { OnOk result (self.new ≡ self.old ++ begin_array ∷ []) }
    {
        self.writer.begin_array()
    }
    /// Closes a list.
    pub fn end_list(&mut self) -> Result<(), AllocError>
        ensures { OnOk result (self.new ≡ self.old ++ end_array ∷ []) }
    {
        self.writer.end_array()
    }

    /// A name, whose value is to come.
    pub fn key(&mut self, name: &str) -> Result<(), AllocError>
        ensures { OnOk result (self.new ≡ self.old ++ key name.now ∷ []) }
    {
        self.writer.key(name)
    }

    /// A text without a name.
    pub fn string(&mut self, value: &str) -> Result<(), AllocError>
        ensures { OnOk result (self.new ≡ self.old ++ json_tokens (string value.now)) }
    {
        self.writer.string(value)
    }

    /// A whole number without a name.
    pub fn number(&mut self, value: u64) -> Result<(), AllocError>
        ensures { OnOk result (self.new ≡ self.old ++ json_tokens (number (decimal value))) }
    {
        self.writer.u64(value)
    }

    /// A truth value without a name.
    pub fn boolean(&mut self, value: bool) -> Result<(), AllocError>
        ensures { OnOk result (self.new ≡ self.old ++ json_tokens (boolean value)) }
    {
        self.writer.boolean(value)
    }

    /// Puts null.
    pub fn null(&mut self) -> Result<(), AllocError>
        ensures { OnOk result (self.new ≡ self.old ++ json_tokens null) }
    {
        self.writer.null()
    }

    /// A name with a text.
    pub fn text(&mut self, name: &str, value: &str) -> Result<(), AllocError>
        ensures { OnOk result (self.new ≡ self.old ++ named_tokens (text name.now value.now ∷ [])) }
    {
        self.writer.key(name)?;
        self.writer.string(value)
    }

    /// A name with a whole number.
    pub fn count(&mut self, name: &str, value: u64) -> Result<(), AllocError>
        ensures { OnOk result (self.new ≡ self.old ++ named_tokens (count name.now value ∷ [])) }
    {
        self.writer.key(name)?;
        self.writer.u64(value)
    }

    /// A name, and the start of the object that it has.
    pub fn begin_named(&mut self, name: &str) -> Result<(), AllocError>
        ensures { OnOk result (self.new ≡ self.old ++ key name.now ∷ begin_object ∷ []) }
    {
        self.writer.key(name)?;
        self.writer.begin_object()
    }

    /// A name with a value: member by member, and digit by digit.
    fn tree(&mut self, name: &str, value: &Value<'_>) -> Result<(), AllocError>
        requires { HasNumbers (value_view value.now) }
        ensures { OnOk result (self.new
            ≡ self.old ++ named_tokens ((name.now, value_view value.now) ∷ [])) }
    {
        self.writer.key(name)?;
        self.writer.value(value)
    }

    /// A name with the JSON value that a text is; null where it is none.
    pub fn value(&mut self, alloc: Global, name: &str, text: &[u8]) -> Result<(), AllocError>
        ensures { OnOk result
            (self.new ≡ self.old ++ named_tokens ((name.now, json_value text.now) ∷ [])) }
    {
        let mut scratch = Scratch::new(alloc);
        let value = value_in(alloc, text, &mut scratch)?;
        self.tree(name, &value)
    }

    /// The object's end, and the line feed behind it.
    pub fn line(mut self) -> Result<Vec<u8>, AllocError>
        ensures { IfOk result (λ v. v.items ≡ print (self ++ end_object ∷ []) ++ 10 ∷ []) }
    {
        self.writer.end_object()?;
        let JsonOut { writer } = self;
        let mut text = writer.into_inner();
        text.push(b'\n')?;
        Ok(text)
    }
}

/// The JSON value that a text is; null where it is none.
pub(crate) fn value_in<'a>(
    alloc: Global,
    text: &'a [u8],
    scratch: &'a mut Scratch,
) -> Result<Value<'a>, AllocError>
    ensures value { IfOk result (λ v. value_view v ≡ json_value text.now) }
    ensures writable { IfOk result (λ v. HasNumbers (value_view v)) }
{
    match Value::from_slice(alloc, text, scratch) {
        Ok(value) => Ok(value),
        Err(Error::Invalid) => Ok(Value::Null),
        Err(_) => Err(AllocError),
    }
}
