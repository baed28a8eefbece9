//! A push reaches as far as it has to, and numbers name the same stats after others are removed.
ghost use Rattle.std.specs.Prelude.{◌≡◌, false};
ghost use Rattle.zed_types.specs.declared.tile.Place.{Place};
ghost use Rattle.zed_scene.specs.declared.step.Step.{Step};
ghost use Rattle.zed_scene.specs.Moving.{pushed};
ghost use Rattle.zed_scene.specs.Removing.{OthersAreFollowed};
ghost use Rattle.zed_scene.specs.Scene.{Scene};
ghost use Rattle.zed_scene.specs.Trying.{is_nowhere, push_rule};

/// A push moves the whole row, however long it is: the bound in the code is never met.
pub fn reach_suffices()
    ensures result { (p : Place) (d : Step) (s : Scene) → is_nowhere d ≡ false
        → pushed p d s ≡ push_rule p d s }
{}

/// A number that is followed, as that of a scroll's speaker, names the same stat after another one is
/// removed.
pub fn others_are_followed()
    ensures result { OthersAreFollowed }
{}
