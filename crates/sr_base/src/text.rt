ghost use Rattle.std.specs.Prelude.{◌≡◌, IfOk};
ghost use Rattle.std.specs.Str.{IsUtf8};
ghost use Rattle.std.specs.String.{string_bytes};

use crate::copied::{Copied, NoMemory};
use std::alloc::Global;
use std::marker::Model;
use std::rc::RcStr;

/// A text in UTF-8: contracts see its bytes. The copies of a text share its memory.
#[derive(Drop)]
pub struct Text {
    shared: RcStr,
}

impl Model for Text {
    ghost use Rattle.std.specs.Prelude.{ℕ, List};
    ghost use Rattle.std.specs.Rc.{rc_str_bytes};

    ghost Value = { List ℕ };

    ghost view = { λ t. rc_str_bytes t.shared };
}

impl Text {
    /// The text of a string.
    pub fn from_string(text: String) -> Result<Text, NoMemory>
        ensures bytes { IfOk result (λ t. t ≡ string_bytes text) }
    {
        Ok(Text {
            shared: RcStr::from_string(text)?,
        })
    }

    /// The bytes of `text`.
    pub fn from_str(alloc: Global, text: &str) -> Result<Text, NoMemory>
        ensures bytes { IfOk result (λ t. t ≡ text.now) }
        ensures utf8 { IfOk result IsUtf8 }
    {
        Ok(Text {
            shared: RcStr::from_str(alloc, text)?,
        })
    }

    /// The bytes, which are UTF-8.
    pub fn bytes(&self) -> &[u8]
        ensures bytes { result.now ≡ self.now }
        ensures utf8 { IsUtf8 result.now }
    {
        self.as_str().as_bytes()
    }

    /// The text as std sees it.
    pub fn as_str(&self) -> &str
        ensures bytes { result.now ≡ self.now }
    {
        self.shared.as_str()
    }
}

impl Copied for Text {
    fn copy(&self, _alloc: Global) -> Result<Text, NoMemory> {
        Ok(Text {
            shared: self.shared.clone()?,
        })
    }
}
