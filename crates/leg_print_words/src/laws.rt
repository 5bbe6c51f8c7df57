//! What lines of words and numbers are read as. No function does anything: its contract is the law.

ghost use Rattle.std.specs.Prelude.{◌≡◌, List, ℤ, Ok, IsTrue};
ghost use Rattle.std.specs.Fmt.{signed_decimal};
ghost use Rattle.std.specs.List.{list_all};
ghost use Rattle.leg_lex.specs.Word.{Word, texts};
ghost use Rattle.leg_lex.specs.Words.{Words, is_name};
ghost use Rattle.leg_lex.specs.Number.{IsNumber, whole_of};
ghost use Rattle.leg_lex.specs.Tokens.{AreTokens};
ghost use Rattle.leg_output.specs.Words.{is_printable, text_of, words_in_lines};

/// The bytes of lines of printable words have tokens, and these are exactly the words of the lines, in their order.
pub fn lines_have_their_words()
    ensures there { (lines : List Words) → IsTrue (list_all is_printable (words_in_lines lines))
        → (tokens : List Word) × AreTokens (text_of lines) tokens × (texts tokens ≡ words_in_lines lines) }
    ensures only { (lines : List Words) → IsTrue (list_all is_printable (words_in_lines lines))
        → (tokens : List Word) → AreTokens (text_of lines) tokens → texts tokens ≡ words_in_lines lines }
{
    leg_lex::laws::one_cut();
}

/// A whole number within the limit, written in decimals, is a name among words, stays one word in a text, and is read back.
pub fn numbers_are_read_back()
    ensures name { (z : ℤ) → IsNumber z → IsTrue (is_name (signed_decimal z)) }
    ensures printable { (z : ℤ) → IsNumber z → IsTrue (is_printable (signed_decimal z)) }
    ensures back { (z : ℤ) → IsNumber z → whole_of (signed_decimal z) ≡ Ok z }
{}
