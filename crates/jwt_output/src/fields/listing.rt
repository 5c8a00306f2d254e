//! An answer of several rows, in lines or in JSON. Its text is held by rows alone.

use crate::JsonOut;
use crate::fields::list::Fields;
use jwt_settings::Printing;
use std::alloc::{AllocError, Global};

/// An answer of several rows that is being printed: each is a line, or stands in one JSON object.
#[derive(Drop)]
pub(crate) struct Listing {
    printing: Printing,
    /// What each line begins with.
    mark: String,
    lines: Vec<u8>,
    object: JsonOut,
}

impl Listing {
    /// No row yet.
    pub(crate) fn new(alloc: Global, printing: Printing) -> Result<Listing, AllocError> {
        let object = JsonOut::object(alloc)?;
        Ok(Listing {
            printing,
            mark: String::new(alloc),
            lines: Vec::new(alloc),
            object,
        })
    }

    /// From here on each line begins with this.
    pub(crate) fn begin_lines(&mut self, mark: String) {
        self.mark = mark;
    }

    /// How it is printed.
    pub(crate) fn printing(&self) -> Printing {
        self.printing
    }

    /// A list begins, which has a name in JSON.
    pub(crate) fn begin_list(&mut self, name: &str) -> Result<(), AllocError> {
        match self.printing {
            Printing::Json => self.object.begin_list(name),
            Printing::Lines => Ok(()),
        }
    }

    /// The list ends.
    pub(crate) fn end_list(&mut self) -> Result<(), AllocError> {
        match self.printing {
            Printing::Json => self.object.end_list(),
            Printing::Lines => Ok(()),
        }
    }

    /// An object begins, which has a name in JSON.
    pub(crate) fn begin_object(&mut self, name: &str) -> Result<(), AllocError> {
        match self.printing {
            Printing::Json => self.object.begin_named(name),
            Printing::Lines => Ok(()),
        }
    }

    /// An object of the list that has begun begins.
    pub(crate) fn begin_item(&mut self) -> Result<(), AllocError> {
        match self.printing {
            Printing::Json => self.object.begin_object(),
            Printing::Lines => Ok(()),
        }
    }

    /// The object ends.
    pub(crate) fn end_object(&mut self) -> Result<(), AllocError> {
        match self.printing {
            Printing::Json => self.object.end_object(),
            Printing::Lines => Ok(()),
        }
    }

    /// A line of fields behind its head, or these members of the object that has begun.
    pub(crate) fn members(
        &mut self,
        alloc: Global,
        head: &str,
        fields: &Fields<'_>,
    ) -> Result<(), AllocError> {
        match self.printing {
            Printing::Json => fields.members(alloc, &mut self.object),
            Printing::Lines => {
                self.lines.extend_from_slice(self.mark.as_bytes())?;
                self.lines.extend_from_slice(head.as_bytes())?;
                self.lines.extend_from_slice(fields.line(alloc)?.as_slice())
            }
        }
    }

    /// A line of fields behind its head, or an object of the list that has begun.
    pub(crate) fn row(
        &mut self,
        alloc: Global,
        head: &str,
        fields: &Fields<'_>,
    ) -> Result<(), AllocError> {
        match self.printing {
            Printing::Json => fields.object(alloc, &mut self.object),
            Printing::Lines => self.members(alloc, head, fields),
        }
    }

    /// A line of a number behind its head, or the number in the list that has begun.
    pub(crate) fn number(
        &mut self,
        alloc: Global,
        head: &str,
        number: u32,
    ) -> Result<(), AllocError> {
        match self.printing {
            Printing::Json => self.object.number(u64::from(number)),
            Printing::Lines => {
                let mark = self.mark.as_str();
                let line = format!(in alloc; "{mark}{head}{number}\n")?;
                self.lines.extend_from_slice(line.as_bytes())
            }
        }
    }

    /// The whole text.
    pub(crate) fn text(self) -> Result<Vec<u8>, AllocError> {
        let Listing {
            printing,
            lines,
            object,
            ..
        } = self;
        match printing {
            Printing::Json => object.line(),
            Printing::Lines => Ok(lines),
        }
    }
}
