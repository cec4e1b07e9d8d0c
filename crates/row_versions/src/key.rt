// What stores keep versions by.
ghost use Rattle.std.specs.Prelude.{◌≡◌, ℕ};
ghost use Rattle.std.specs.declared.cmp.Ordering.TheVariants.{Equal};
ghost use Rattle.std.proofs.lemmas.Map.Lookups.{exact_unsigned};

/// What versions are kept by. Keys that compare as equal are one key, so that the versions of a key stand together.
pub trait Key: Ord + Copy {
    ghost exact: { (a b : Self) → Self.cmp a b ≡ Equal → a ≡ b };
}

impl Key for u32 {
    ghost exact = { exact_unsigned };
}

impl Key for u64 {
    ghost exact = { exact_unsigned };
}
