//! What has a name of its own.
ghost use Rattle.std.specs.Prelude.{◌≡◌, true, refl};
ghost use Rattle.std.proofs.Common.{ap};
ghost use Rattle.zed_types.specs.declared.names.Name.{Name};
ghost use Rattle.zed_types.proofs.StampOrder.{same_board-true, same_name-true, same_text-true};
ghost use Rattle.zed_stats.specs.ByName.{key_cmp, same};

use std::hash::Hash;
use zed_types::{BoardId, StatId, TextId};

/// A key that is known by its name: equal keys have the same name, and keys have the order of their
/// names.
pub trait Named: Copy + Drop + Hash + Ord {
    // The name.
    ghost name: { Self → Name };

    // Keys are equal where they have one name.
    ghost equal: { Self.eq ≡ same name };

    // Keys are compared by their names.
    ghost order: { Self.cmp ≡ key_cmp name };

    // Equal keys are one.
    ghost one: { (a b : Self) → Self.eq a b ≡ true → a ≡ b };
}

impl Named for BoardId {
    ghost name = { λ b. b.name };

    ghost equal = { refl };

    ghost order = { refl };

    ghost one = { same_board-true };
}

impl Named for StatId {
    ghost name = { λ x. x.name };

    ghost equal = { refl };

    ghost order = { refl };

    ghost one = { λ a b e. ap (λ n. record { name = n }) (same_name-true a.name b.name e) };
}

impl Named for TextId {
    ghost name = { λ t. t.name };

    ghost equal = { refl };

    ghost order = { refl };

    ghost one = { same_text-true };
}
