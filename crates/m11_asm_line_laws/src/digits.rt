//! Numbers written as arguments. (MACRO-11 Language Reference Manual, "Numeric arguments passed as symbols" and "Numbers".)

ghost use Rattle.std.specs.Prelude.{◌≡◌, ◌≢◌, ◌<◌, ◌∷◌, ℕ, [], Some, slice_index};
ghost use Rattle.m11_unfold_rules.specs.Digits.{digits_of};
ghost use Rattle.m11_scan.specs.Cuts.{form_of};
ghost use Rattle.m11_scan.specs.Numbers.{base_of, number_flags, number_of};
ghost use Rattle.m11_scan.specs.declared.radix.Radix.{Radix};
ghost use Rattle.m11_scan.specs.declared.sort.Form.TheVariants.{Cut};
ghost use Rattle.m11_scan.specs.declared.sort.Sort.TheVariants.{Number};

/// The digits that `\e` or a created symbol writes for a word are read back, in the same radix, as a single number: that word, without a
/// flag.
pub fn written_numbers_are_read_back()
    ensures token { (radix : Radix) (number : ℕ) → number < 65536
        → form_of (digits_of (base_of radix) number) ≡ Some (Cut Number) }
    ensures value { (radix : Radix) (number : ℕ) → number < 65536
        → number_of radix (digits_of (base_of radix) number) ≡ number }
    ensures flags { (radix : Radix) (number : ℕ) → number < 65536
        → number_flags radix (digits_of (base_of radix) number) ≡ 0 }
{}

/// The digits of a word have no leading zero: 0 is one digit, and any other word begins with a digit that isn't 0.
pub fn written_numbers_begin_without_a_zero()
    ensures zero { (radix : Radix) → digits_of (base_of radix) 0 ≡ 0o60 ∷ [] }
    ensures first { (radix : Radix) (number : ℕ) → 0 < number → number < 65536
        → slice_index (digits_of (base_of radix) number) 0 ≢ 0o60 }
{}
