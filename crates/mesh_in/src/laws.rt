//! What holds of every mesh text. Each law is the contract of a function that does nothing, for provers to call or cite.

ghost use Rattle.std.specs.Prelude.{◌≡◌, ℕ, List};
ghost use Rattle.std.specs.List.{AllByRecursion};
ghost use Rattle.algebra.specs.Fraction.{Fraction};
ghost use Rattle.mesh_in.specs.MeshData.{MeshData};
ghost use Rattle.mesh_in.specs.MeshGrammar.{IsMeshText};
ghost use Rattle.mesh_in.specs.declared.header.Version.TheVariants.{Plain};

/// Each cell of a text of version 1 has the marker 0.
pub fn plain_markers()
    ensures { (text : List ℕ) (m : MeshData Fraction) (is : IsMeshText text m) → is.version ≡ Plain → AllByRecursion (λ marker. marker ≡ 0) m.markers }
{}
