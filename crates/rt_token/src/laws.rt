//! What the definitions of tokens say, in the grammar's own words.

ghost use Rattle.std.specs.Prelude.{ℕ, ◌≡◌, ◌↔◌, List, Some};
ghost use Rattle.rt_token.specs.Grammar.{AreTokens};
ghost use Rattle.rt_token.specs.Tokens.{tokens};
ghost use Rattle.rt_token.specs.declared.tokens.Token.{Token};

/// The tokens that a line is read as are those that the grammar gives it, and it has one such list
/// at most: each token is the slice that begins where it says, and spans rise.
pub fn tokens_are_those_of_the_grammar()
    ensures { (place : ℕ) (line : List ℕ) (ts : List Token) → (tokens place 0 line ≡ Some ts) ↔ AreTokens place line ts }
{}
