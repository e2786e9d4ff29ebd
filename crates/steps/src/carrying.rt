ghost use Rattle.std.specs.Prelude.{◌≡◌, ℕ, is_some};
ghost use Rattle.steps.specs.Goods.{goods_in, carried_at};
ghost use Rattle.steps.specs.Owners.{member};

use crate::path_set::PathSet;
use package::Package;

// The paths that a package carries a file for.
pub fn carried_paths(new: &Package<'_>) -> PathSet
    ensures { (q : ℕ) → member result q ≡ is_some (carried_at q (goods_in new.now.words.now).files) }
{
    let mut paths = PathSet::none();
    for file in new.files() {
        paths.add(file.path);
    }
    paths
}
