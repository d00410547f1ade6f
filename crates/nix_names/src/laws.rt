//! Laws over the definitions that contracts cite, each on the contract of a function that does
//! nothing.
ghost use Rattle.std.specs.Prelude.{◌≡◌, ◌↔◌, ◌<◌, ℕ, List, length, Contains};
ghost use Rattle.std.specs.List.{All};
ghost use Rattle.nix_names.specs.Base32.{StandsFor, base32, base32_fault};
ghost use Rattle.nix_names.specs.Digests.{DigitsAreOfOneDigest, TextIsOfOneDigest};
ghost use Rattle.nix_names.specs.Methods.{TextIsOfOneMethodDigest};
ghost use Rattle.nix_names.specs.Rising.{IsRising};

/// A text stands for some bytes exactly where it is their base-32 text.
pub fn base32_is_the_text()
    ensures { (text bytes : List ℕ) → All (λ b. b < 256) bytes
        → (StandsFor text bytes ↔ (text ≡ base32 bytes)) }
{}

/// A text stands for at most one list of each length.
pub fn text_stands_for_one()
    ensures { (text a b : List ℕ) → length a ≡ length b
        → All (λ x. x < 256) a → All (λ x. x < 256) b
        → StandsFor text a → StandsFor text b → a ≡ b }
{}

/// Nothing is wrong with a text as that of n bytes exactly where it stands for some n bytes.
pub fn base32_fault_is_exact()
    ensures { (text : List ℕ) (n : ℕ) → ((base32_fault text n ≡ None)
        ↔ ((bytes : List ℕ) × (length bytes ≡ n) × All (λ b. b < 256) bytes
        × StandsFor text bytes)) }
{}

/// Two rising lists with the same members are equal.
pub fn members_tell_a_rising_list()
    ensures { (a b : List (List ℕ)) → IsRising a → IsRising b
        → ((text : List ℕ) → (Contains a text ↔ Contains b text)) → a ≡ b }
{}

/// A text of an algorithm's name, a colon and digits is that of one digest.
pub fn text_is_of_one_digest()
    ensures { TextIsOfOneDigest }
{}

/// Digits are those of one digest of an algorithm.
pub fn digits_are_of_one_digest()
    ensures { DigitsAreOfOneDigest }
{}

/// A text with or without `r:` before it is that of one digest by one method.
pub fn text_is_of_one_method_digest()
    ensures { TextIsOfOneMethodDigest }
{}
