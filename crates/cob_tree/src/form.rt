//! The forms of items.
ghost use Rattle.std.specs.Prelude.{◌≡◌, IfOk};

use crate::bytes::Bytes;
use std::alloc::{AllocError, Global};

/// How an item's number is kept (ISO 1989:1985, USAGE and SIGN). `Leading` and `Trailing` are DISPLAY with a
/// separate sign byte.
#[derive(Clone, Copy, PartialEq, Eq)]
pub enum Usage {
    Display,
    Leading,
    Trailing,
    Binary,
    Packed,
}

/// The form of an item, from its picture and usage. `digits` counts all digit places, 1 to 18, and `scale`
/// those behind the decimal point.
#[derive(Drop)]
pub enum Form {
    Group,
    /// An alphanumeric item of so many bytes.
    Text {
        length: u32,
    },
    Number {
        digits: u32,
        scale: u32,
        signed: bool,
        usage: Usage,
    },
    /// An edited item; the picture has its repetitions written out, in capitals.
    Edited {
        picture: Bytes,
        digits: u32,
        scale: u32,
    },
}

impl Form {
    /// Copies the form.
    pub fn copied(&self, alloc: Global) -> Result<Form, AllocError>
        ensures { IfOk result (λ copy. copy ≡ self.now) }
    {
        match self {
            Form::Group => Ok(Form::Group),
            Form::Text { length } => Ok(Form::Text { length: *length }),
            Form::Number {
                digits,
                scale,
                signed,
                usage,
            } => Ok(Form::Number {
                digits: *digits,
                scale: *scale,
                signed: *signed,
                usage: *usage,
            }),
            Form::Edited {
                picture,
                digits,
                scale,
            } => Ok(Form::Edited {
                picture: Bytes::of(alloc, picture.get())?,
                digits: *digits,
                scale: *scale,
            }),
        }
    }
}
