//! Settings of a group in memory of their own.
ghost use Rattle.std.specs.Prelude.{◌≡◌, IfErr, IfOk};

use crate::compact::CompactSettings;
use std::alloc::{AllocFailed, Global};
use std::marker::Model;

/// What the interface files of one group hold.
pub struct BoxedSettings {
    settings: Box<CompactSettings>,
}

// By hand, so that whoever drops one calls this, and doesn't drop each thing in it: that makes proofs shorter.
impl Drop for BoxedSettings {
    fn drop(self) {
        let BoxedSettings { settings: _ } = self;
    }
}

impl Model for BoxedSettings {
    ghost use Rattle.cg_text.specs.declared.settings.Settings.{Settings};

    ghost Value = { Settings };

    ghost view = { λ b. b.settings.value };
}

impl BoxedSettings {
    /// These settings. Where there is no memory for them they are handed back.
    pub fn new(
        alloc: Global,
        settings: CompactSettings,
    ) -> Result<BoxedSettings, AllocFailed<CompactSettings>>
        ensures ok { IfOk result (λ b. b ≡ settings) }
        ensures value_returned { IfErr result (λ failed. failed.value ≡ settings) }
    {
        Ok(BoxedSettings {
            settings: Box::new(alloc, settings)?,
        })
    }

    /// The settings, out of the box. Takes no memory.
    pub fn into_settings(self) -> CompactSettings
        ensures { result ≡ self }
    {
        let BoxedSettings { settings } = self;
        Box::into_inner(settings)
    }
}
