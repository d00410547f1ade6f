//! Laws of texts, answers and own paths, proved from the definitions that contracts use.

ghost use Rattle.nix_drv.specs.Grammar.{Grammar, IsClear};
ghost use Rattle.nix_drv.specs.Laws.{HasOneTextEach, HasOneValueEach, HasNoTextWithin, OrderMeansRising, PrefixesBeginTexts, HasOneDerivationEach, HasNoDerivationWithin, HasOneReading, HasOneCheck};
ghost use Rattle.nix_drv.specs.Derivation.{derivation_form};
ghost use Rattle.nix_drv.specs.Equality.{EqualDerivationsAreSame};
ghost use Rattle.nix_drv.specs.Outcome.{ReadsBack};
ghost use Rattle.nix_drv.specs.OwnPath.{HasOneOwnPath};

/// In every clear grammar, each value has one text, each text has one value, and no text begins
/// another. The grammar of derivations is clear.
pub fn texts_tell_values()
    ensures one_text { (g : Grammar) → HasOneTextEach g }
    ensures one_value { (g : Grammar) → IsClear g → HasOneValueEach g }
    ensures none_within { (g : Grammar) → IsClear g → HasNoTextWithin g }
    ensures derivations { IsClear derivation_form }
{}

/// Some bytes are a prefix by a grammar exactly where the text of some value begins with them. So
/// the longest prefix of an input is its longest beginning with which a text begins.
pub fn prefixes_begin_texts()
    ensures { (g : Grammar) → PrefixesBeginTexts g }
{}

/// No two derivations have the same text, and no derivation's text begins another's, whether or not
/// they keep the order rules.
pub fn texts_tell_derivations()
    ensures one_derivation { HasOneDerivationEach }
    ensures none_within { HasNoDerivationWithin }
{}

/// Two answers that the contract of `read` allows for one input are the same. Two answers that the
/// contract of `check_text` allows for the same bytes at a path say the same. Want of memory is
/// excepted in both.
pub fn inputs_have_one_answer()
    ensures reading { HasOneReading }
    ensures check { HasOneCheck }
{}

/// A value keeps the order rules exactly where, in each of its lists that must rise, each key is
/// less by bytes than the next one.
pub fn order_means_rising()
    ensures { (g : Grammar) → OrderMeansRising g }
{}

/// For a derivation's text within the limit, the contract of `read` allows no answer but that
/// derivation and want of memory.
pub fn written_texts_are_read_back()
    ensures { ReadsBack }
{}

/// A derivation's text has at most one own path in a folder, under a name.
pub fn text_has_one_own_path()
    ensures { HasOneOwnPath }
{}

/// Two derivations are equal by `==` exactly where they are the same.
pub fn equal_derivations_are_same()
    ensures { EqualDerivationsAreSame }
{}
