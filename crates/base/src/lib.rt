// What every layer speaks of: refusals, and the texts of names and versions.
#![tactic(auto)]

mod equality;
mod files;
mod kinds;
mod laws;
mod layers;
mod making;
mod names;
mod reasons;
mod refusals;
mod rules;
mod short_texts;
mod text;
mod texts;

pub use files::FileKind;
pub use kinds::{Kind, NameKind, VersionKind};
pub use laws::{equality_decides, told_by_text};
pub use names::{Name, Version};
pub use reasons::{Layer, Reason, Refusal};
pub use text::Text;
pub use texts::{ShortText, TextKind};
