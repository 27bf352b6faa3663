ghost use Rattle.std.specs.Prelude.{◌≡◌, true, false};
ghost use Rattle.sr_memsite_mail.specs.Folders.{laid, shown};
ghost use Rattle.sr_memsite_mail.specs.Inner.Folders.{let_go};
ghost use Rattle.std.specs.Option.{option_copied};

use std::marker::Model;

/// A message file: its bytes, and whether it is held back.
#[derive(Drop)]
pub struct MailFile {
    bytes: Vec<u8>,
    held: bool,
}

impl Model for MailFile {
    ghost use Rattle.sr_memsite_mail.specs.StoredFile.{StoredFile};

    ghost Value = { StoredFile };

    ghost view = { λ f. record { bytes = f.bytes.items; held = f.held } };
}

impl MailFile {
    /// A file of these bytes, not held back.
    pub fn of(bytes: Vec<u8>) -> MailFile
        ensures laid { result ≡ laid bytes.items }
    {
        MailFile { bytes, held: false }
    }

    /// Its bytes, held back or not.
    pub fn bytes(&self) -> &[u8]
        ensures bytes { result.now ≡ self.now.bytes }
    {
        self.bytes.as_slice()
    }

    /// Whether it is held back.
    pub fn held(&self) -> bool
        ensures held { result ≡ self.now.held }
    {
        self.held
    }

    /// Holds it back.
    pub fn hold(&mut self)
        ensures held { self.new ≡ record self.old { held = true } }
    {
        self.held = true;
    }

    /// Holds it back no more.
    pub fn let_go(&mut self)
        ensures free { self.new ≡ let_go self.old }
    {
        self.held = false;
    }
}
