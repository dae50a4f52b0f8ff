//! Values that are seldom there, or seldom large, in memory of their own: so what holds one is small, and is cheap to move.
#![tactic(auto)]

mod boxed_text;
mod compact;
mod cpus;
mod limit;
mod low;
mod recent_texts;
mod settings;

pub use boxed_text::BoxedText;
pub use compact::CompactSettings;
pub use cpus::BoxedCpus;
pub use low::LowCpus;
pub use recent_texts::RecentTexts;
pub use settings::BoxedSettings;
