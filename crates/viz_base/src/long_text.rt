//! A text in parts, which is never joined to be written.

ghost use Rattle.std.specs.Prelude.{◌≡◌, ◌++◌, [], IfOk, OnOk};
ghost use Rattle.viz_base.specs.Texts.{joined};

use crate::bytes::Bytes;
use crate::shared::Shared;
use std::alloc::{AllocError, Global};
use std::marker::Model;

/// The text of a file in parts, one after the other; contracts see the whole text. A part may have
/// other owners.
#[derive(Debug, Drop)]
pub struct LongText {
    parts: Vec<Shared<Bytes>>,
}

impl Model for LongText {
    ghost use Rattle.std.specs.Prelude.{ℕ, List};
    ghost use Rattle.viz_base.specs.Texts.{joined};

    ghost Value = { List ℕ };

    ghost view = { λ text. joined text.parts.items };
}

impl LongText {
    /// A text without a part.
    pub fn new(alloc: Global) -> LongText
        ensures value { result ≡ [] }
    {
        LongText {
            parts: Vec::new(alloc),
        }
    }

    /// A text of one part.
    pub fn of(alloc: Global, part: Bytes) -> Result<LongText, AllocError>
        ensures value { IfOk result (λ text. text ≡ part) }
    {
        LongText::of_shared(alloc, Shared::new(alloc, part)?)
    }

    /// A text of one part, which may have other owners.
    pub fn of_shared(alloc: Global, part: Shared<Bytes>) -> Result<LongText, AllocError>
        ensures value { IfOk result (λ text. text ≡ part) }
    {
        let mut text = LongText::new(alloc);
        text.push(part)?;
        Ok(text)
    }

    /// Puts a part behind the others.
    pub fn push(&mut self, part: Shared<Bytes>) -> Result<(), AllocError>
        ensures pushed { OnOk result (self.new ≡ self.old ++ part) }
    {
        self.parts.push(part)?;
        Ok(())
    }

    /// The parts, in order.
    pub fn parts(&self) -> &[Shared<Bytes>]
        ensures value { joined result.now ≡ self.now }
    {
        &self.parts
    }

    /// A copy of the whole text.
    pub fn to_bytes(&self, alloc: Global) -> Result<Bytes, AllocError>
        ensures value { IfOk result (λ bytes. bytes ≡ self.now) }
    {
        let mut bytes = Vec::with_capacity(alloc, self.len())?;
        for part in &self.parts {
            bytes.extend_from_slice(part.get().list())?;
        }
        Ok(Bytes::new(bytes))
    }

    // How many bytes the parts have, or the greatest number where that is less.
    fn len(&self) -> usize {
        let mut len: usize = 0;
        for part in &self.parts {
            len = len.saturating_add(part.get().list().len());
        }
        len
    }
}
