ghost use Rattle.std.specs.Prelude.{◌≡◌, ◌≤◌, length, IfOk, IsTrue};
ghost use Rattle.sr_base.specs.Names.{is_lower_name};

use crate::copied::{Copied, NoMemory};
use crate::name_bytes::Letters;
use std::alloc::{AllocError, Global};
use std::marker::Model;
use std::rc::Rc;

/// The name of a table, column, publication, trigger, user or database: 1 to 64 bytes, a letter or `_`, then letters, digits
/// and `_`, kept in lower case. Contracts see its bytes. The copies of a name share its memory.
#[derive(Drop)]
pub struct Name {
    shared: Rc<Letters>,
}

impl Model for Name {
    ghost use Rattle.std.specs.Prelude.{ℕ, List, IsTrue};
    ghost use Rattle.sr_base.specs.Names.{is_lower_name};

    ghost Value = { List ℕ };

    ghost view = { λ n. n.shared.value.items };

    ghost invariant = { λ n. IsTrue (is_lower_name n.shared.value.items) };
}

impl Name {
    /// The bytes, all ASCII.
    pub fn bytes(&self) -> &[u8]
        ensures bytes { result.now ≡ self.now }
        ensures name { IsTrue (is_lower_name result.now) }
        ensures short { length result.now ≤ 64 }
    {
        self.shared.as_ref().as_slice()
    }
}

impl Name {
    /// The name of bytes that are known to be one.
    pub(crate) fn from_lower(alloc: Global, bytes: &[u8]) -> Result<Name, NoMemory>
        requires { IsTrue (is_lower_name bytes.now) }
        ensures { IfOk result (λ name. name ≡ bytes.now) }
    {
        let mut letters = Letters::new();
        if letters.try_extend_from_slice(bytes).is_err() {
            return Err(AllocError);
        }
        Name::from_letters(alloc, letters)
    }

    /// The name of these letters.
    pub(crate) fn from_letters(alloc: Global, letters: Letters) -> Result<Name, NoMemory>
        requires { IsTrue (is_lower_name letters.items) }
        ensures { IfOk result (λ name. name ≡ letters.items) }
    {
        match Rc::new(alloc, letters) {
            Ok(shared) => Ok(Name { shared }),
            Err(_) => Err(AllocError),
        }
    }
}

impl Copied for Name {
    #[inline(always)]
    fn copy(&self, _alloc: Global) -> Result<Name, NoMemory> {
        Ok(Name {
            shared: self.shared.clone()?,
        })
    }
}
