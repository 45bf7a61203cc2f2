//! Laws of reading a program. Their contracts are the laws, and their bodies are empty.

ghost use Rattle.std.specs.Prelude.{◌≡◌, ◌≢◌, ◌++◌, ◌∷◌, [], List, ℕ, All, Ok, Err};
ghost use Rattle.rx_lex.specs.declared.token.Kind.{Kind};
ghost use Rattle.rx_lex.specs.declared.token.Kind.TheVariants.{End};
ghost use Rattle.rx_ast.specs.Syntax.{Program};
ghost use Rattle.rx_print.specs.Levels.{HasTokens, level_limit};
ghost use Rattle.rx_grammar.specs.Reading.{program_at};
ghost use Rattle.rx_grammar.specs.Stops.{StopsFirst};

/// The grammar has at most one program with given tokens.
pub fn tokens_have_one_program()
    ensures { (p q : Program) (ks : List Kind) → HasTokens p ks → HasTokens q ks → p ≡ q }
{}

/// What is read is the program that the tokens have, and nothing is read exactly if no program has them: then reading stops at the first token with which none goes on.
pub fn program_is_read()
    // What is read has the tokens, up to the end mark.
    ensures sound { (p : Program) (ks rest : List Kind) → program_at level_limit ks ≡ Ok (p, rest) → (front : List Kind) × HasTokens p front × (ks ≡ front ++ rest) }

    // Each program is read from its tokens.
    ensures complete { (p : Program) (ks : List Kind) → HasTokens p ks → program_at level_limit ks ≡ Ok (p, []) }

    // The tokens before the one at which reading stops begin a program, and those up to and with it begin none.
    ensures fault { (front : List Kind) (left : ℕ) → All (λ k. k ≢ End) front → program_at level_limit (front ++ End ∷ []) ≡ Err left → StopsFirst (front ++ End ∷ []) left }
{}
