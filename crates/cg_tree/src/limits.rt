// Which groups have limits.
ghost use Rattle.std.specs.Prelude.{◌≡◌, false, IfSome};
ghost use Rattle.cg_maps.specs.FiniteMap.{from_entries};
ghost use Rattle.cg_name.specs.Path.{path_cmp};
ghost use Rattle.cg_text.specs.declared.limit.Limit.TheVariants.{Max};
ghost use Rattle.cg_tree.specs.Unlimited.{AreUnlimited, IsUnlimited};

use cg_boxed::CompactSettings;
use cg_name::Path;
use cg_text::Limit;
use std::collections::BTreeMap;

// Whether one of a group's limits isn't `max`.
pub(crate) fn is_limited(max_descendants: Limit, max_depth: Limit) -> bool
    ensures descendants { result ≡ false → max_descendants ≡ Max }
    ensures depth { result ≡ false → max_depth ≡ Max }
{
    match max_descendants {
        Limit::Max => match max_depth {
            Limit::Max => false,
            Limit::UpTo(_) => true,
        },
        Limit::UpTo(_) => true,
    }
}

// The same of settings that may be missing.
pub(crate) fn has_limit(settings: &Option<CompactSettings>) -> bool
    ensures { result ≡ false → IfSome settings.now IsUnlimited }
{
    match settings {
        Some(settings) => is_limited(settings.max_descendants(), settings.max_depth()),
        None => false,
    }
}

// Whether one of these groups has such a limit.
pub(crate) fn have_limit(listed: &BTreeMap<Path, CompactSettings>) -> bool
    ensures { result ≡ false → AreUnlimited (from_entries path_cmp listed.now.entries) }
{
    for (_, settings) in listed {
        if is_limited(settings.max_descendants(), settings.max_depth()) {
            return true;
        }
    }
    false
}
