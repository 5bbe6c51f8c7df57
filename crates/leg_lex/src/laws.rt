//! Laws of the definitions that contracts cite. Each function does nothing: its contract is the law.

ghost use Rattle.std.specs.Prelude.{◌≡◌, ◌↔◌, ℕ, ◌||◌, ◌*◌, ◌^◌, ◌++◌, List, [], ◌∷◌, All, length, ℤ, Result, IsTrue};
ghost use Rattle.std.specs.Str.Parse.{digits_value};
ghost use Rattle.leg_lex.specs.Word.{Word};
ghost use Rattle.leg_lex.specs.Cut.{Plain, Quoted, kind_of, IsPiece, Cut};
ghost use Rattle.leg_lex.specs.Tokens.{AreTokens};
ghost use Rattle.leg_lex.specs.Words.{is_mark, is_plain, is_closed, is_word};
ghost use Rattle.leg_lex.specs.Number.{is_length, millionths_in, microns_part, decimals, AreUnits};
ghost use Rattle.leg_lex.specs.declared.fault.NumFault.{NumFault};

/// A text is cut into pieces in one way at most, so it has one list of words at most.
pub fn one_cut()
    ensures { (text : List ℕ) (p q : List (List ℕ)) → Cut p text → Cut q text → p ≡ q }
{}

/// Each word of a text is a mark, a name or a quoted word.
pub fn texts_have_words()
    ensures { (text : List ℕ) (words : List Word) → AreTokens text words
        → All (λ word. IsTrue (is_mark word.text || is_word word.text)) words }
{}

/// The plain words are exactly the plain pieces of texts, and the quoted words the quoted ones.
pub fn words_are_pieces()
    ensures plain { (b : ℕ) (bytes : List ℕ) → IsTrue (is_plain (b ∷ bytes)) ↔ ((kind_of b ≡ Plain) × IsPiece (b ∷ bytes) []) }
    ensures quoted { (b : ℕ) (bytes : List ℕ) → IsTrue (is_closed (b ∷ bytes)) ↔ ((kind_of b ≡ Quoted) × IsPiece (b ∷ bytes) []) }
{}

/// The millionths of a length denote it exactly: its digits, read as one number without the point, are
/// that many millionths times ten to the number of its decimals.
#[tactic(auto, using(crate::proofs::Exact::millionths_exact))]
pub fn millionths_are_exact()
    ensures { (word : List ℕ) → IsTrue (is_length word) → millionths_in word * 10 ^ length (decimals word)
        ≡ digits_value 10 (microns_part word ++ decimals word) * 10 ^ 6 }
{}

/// A length has one answer in database units.
pub fn units_have_one_answer()
    ensures { (m : ℤ) (n : ℕ) (r s : Result ℤ NumFault) → AreUnits m n r → AreUnits m n s → r ≡ s }
{}
