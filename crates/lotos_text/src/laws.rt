//! Laws of the definitions, each as the contract of an empty function.
ghost use Rattle.std.specs.Prelude.{◌≡◌, ℕ, List};
ghost use Rattle.lotos_text.specs.AstView.{DefinitionView};
ghost use Rattle.lotos_text.specs.Grammar.{SpellsSpecification};
ghost use Rattle.lotos_text.specs.Lexing.{Lexes, LexingFailsAt};
ghost use Rattle.lotos_text.specs.declared.token.Token.{Token};

/// A text lexes to at most one list of tokens, or fails at one offset at most, and never both.
pub fn tokens_are_unique()
    ensures lexes { (text : List ℕ) (ts us : List Token) → Lexes text ts → Lexes text us → ts ≡ us }
    ensures offset { (text : List ℕ) (at other : ℕ) → LexingFailsAt text at → LexingFailsAt text other →
        at ≡ other }
    ensures whole { (text : List ℕ) (ts : List Token) (at : ℕ) → Lexes text ts → LexingFailsAt text at → ⊥ }
{}

/// A list of tokens spells at most one specification, with one nesting.
pub fn specification_is_unique()
    ensures { (text : List ℕ) (ts : List Token) (n m : ℕ) (x y : DefinitionView) →
        SpellsSpecification text n ts x →
        SpellsSpecification text m ts y → (x ≡ y) × (n ≡ m) }
{}
