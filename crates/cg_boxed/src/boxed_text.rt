//! A text in one allocation.
ghost use Rattle.std.specs.Prelude.{◌≡◌, IfOk, nat_eq};
ghost use Rattle.std.proofs.Common.{rules};
ghost use Rattle.std.specs.Cmp.Lexicographic.{pointwise};
ghost use Rattle.std.specs.Cmp.Rules.{comparing};

use smallvec::SmallVec;
use std::alloc::{AllocError, Global};
use std::marker::Model;
use std::sync::Arc;

/// The bytes of a text, in an allocation that its copies share. What holds one has room for 8 bytes alone.
pub struct BoxedText {
    // Most texts of interface files lie in the one allocation.
    bytes: Arc<SmallVec<u8, 24>, Global>,
}

// Else an answer that is no text would be larger, too.
const _: () = prove!(size_of::<BoxedText>() == 8);

// By hand, so that whoever drops one calls this, and doesn't drop each thing in it: that makes proofs shorter.
impl Drop for BoxedText {
    fn drop(self) {
        let BoxedText { bytes: _ } = self;
    }
}

impl Model for BoxedText {
    ghost use Rattle.std.specs.Prelude.{List, ℕ};

    ghost Value = { List ℕ };

    ghost view = { λ t. t.bytes.value.items };
}

impl PartialEq for BoxedText {
    ghost eq = { λ s t. pointwise nat_eq s t };

    ghost laws = { Prim.search (comparing, rules) };

    fn eq(&self, other: &BoxedText) -> bool {
        self.as_slice() == other.as_slice()
    }
}

impl Eq for BoxedText {
    ghost laws = { Prim.search (comparing, rules) };
}

impl BoxedText {
    /// The text of these bytes; an error where there is no memory for it.
    pub fn new(alloc: Global, bytes: &[u8]) -> Result<BoxedText, AllocError>
        ensures { IfOk result (λ t. t ≡ bytes.now) }
    {
        let bytes = SmallVec::from_slice(alloc, bytes)?;
        Ok(BoxedText {
            bytes: Arc::new(alloc, bytes)?,
        })
    }

    /// Its bytes.
    pub fn as_slice(&self) -> &[u8]
        ensures { result.now ≡ self.now }
    {
        self.bytes.as_slice()
    }

    /// An equal text, which takes no memory; an error where too many share it.
    pub fn copy(&self, _alloc: Global) -> Result<BoxedText, AllocError>
        ensures { IfOk result (λ t. t ≡ self.now) }
    {
        Ok(BoxedText {
            bytes: self.bytes.clone()?,
        })
    }
}
