//! Laws of the arguments of macro calls. Each is the contract of a function with an empty body.

ghost use Rattle.std.specs.Prelude.{◌≡◌, ◌≢◌, ◌+◌, ◌<◌, ◌≤◌, ℕ, AllPairs, List, length, map};
ghost use Rattle.m11_unfold_rules.specs.Filling.{created_text};
ghost use Rattle.m11_unfold_rules.specs.ArgumentLaws.{Call, created_in, numbers_from};

/// The local symbols created in one call, or in successive calls, have consecutive numbers, where 30000 follows 65535. Symbols
/// with different numbers differ, so all of them differ unless their numbers pass 65535.
pub fn created_symbols_differ()
    ensures numbers { (calls : List Call) (number : ℕ)
        → created_in calls number ≡ map created_text (numbers_from number (length (created_in calls number))) }
    ensures texts { (one other : ℕ) → one < 65536 → other < 65536 → created_text one ≡ created_text other → one ≡ other }
    ensures differ { (calls : List Call) (number : ℕ) → number + length (created_in calls number) ≤ 65536
        → AllPairs (λ one other. one ≢ other) (created_in calls number) }
{}
