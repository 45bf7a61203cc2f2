//! Laws of the tokens of a text. Their contracts are the laws, and their bodies are empty.

ghost use Rattle.std.specs.Prelude.{◌≡◌, ◌<◌, ◌≤◌, ◌^◌, ◌++◌, ℕ, List, [], length};
ghost use Rattle.rx_lex.specs.Tokens.{AreTokensBelow, AreTokensOf, IsFirstUncovered, IsFirstUncoveredBelow, IsPiece, Piece, StandsFirst, piece_text};
ghost use Rattle.rx_lex.specs.declared.token.Token.{Token};

/// The tokens of a text are one list: no two ways to cover it differ, whatever the greatest number is, and also if the tokens tell it.
pub fn tokens_are_one_list()
    ensures of_text { (text : List ℕ) (ts us : List Token) → AreTokensOf ts text → AreTokensOf us text → ts ≡ us }
    ensures below { (greatest : ℕ) (text : List ℕ) (ts us : List Token) → greatest < 2 ^ 64 → AreTokensBelow greatest ts text → AreTokensBelow greatest us text → ts ≡ us }
{}

/// The first place that no token covers is one place, and a text that has it has no tokens.
pub fn uncovered_place_is_one()
    ensures of_text { (at other : ℕ) (text : List ℕ) → IsFirstUncovered at text → IsFirstUncovered other text → at ≡ other }
    ensures of_text_apart { (at : ℕ) (text : List ℕ) (ts : List Token) → IsFirstUncovered at text → AreTokensOf ts text → ⊥ }
    ensures one { (greatest at other : ℕ) (text : List ℕ) → greatest < 2 ^ 64 → IsFirstUncoveredBelow greatest at text → IsFirstUncoveredBelow greatest other text → at ≡ other }
    ensures apart { (greatest at : ℕ) (text : List ℕ) (ts : List Token) → greatest < 2 ^ 64 → IsFirstUncoveredBelow greatest at text → AreTokensBelow greatest ts text → ⊥ }
{}

/// The longest piece is taken: if one stands first, no other that the text begins with, and that is one by itself, is longer.
pub fn longest_piece_is_taken()
    ensures { (greatest : ℕ) (p q : Piece) (text rest after : List ℕ) → greatest < 2 ^ 64 → StandsFirst greatest p text rest → IsPiece greatest q [] → text ≡ piece_text q ++ after → length (piece_text q) ≤ length (piece_text p) }
{}
