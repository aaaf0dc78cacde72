//! Laws of tokens, of the grammar and of what is printed, each the contract of a function that does
//! nothing.
ghost use Rattle.std.specs.Prelude.{◌≡◌, ◌↔◌, ◌≤◌, ◌++◌, ◌∷◌, ℕ, List, Some, length};
ghost use Rattle.std.specs.List.{All};
ghost use Rattle.std.specs.Str.{IsUtf8};
ghost use Rattle.blz_value.specs.Text.{escaped};
ghost use Rattle.bloom_forms.specs.Form.{Form};
ghost use Rattle.bloom_parse.specs.declared.lexing.terminal.Terminal.{Terminal};
ghost use Rattle.bloom_parse.specs.declared.lexing.terminal.Terminal.TheVariants as terminals;
ghost use Rattle.bloom_parse.specs.declared.lexing.token.Token.{Token};
ghost use Rattle.bloom_parse.specs.Laws.{ReadsTexts, ReadsFaults, BoundsLaw};
ghost use Rattle.bloom_parse.specs.Layout.{printed};
ghost use Rattle.bloom_parse.specs.Parsing.{IsTextOf};
ghost use Rattle.bloom_parse.specs.Places.{IsModuleText, Begins};
ghost use Rattle.bloom_parse.specs.Plain.{IsPlain};
ghost use Rattle.bloom_parse.specs.Printable.{IsPrintable};
ghost use Rattle.bloom_parse.specs.Tokens.{front, HasTokens};

/// What a text is read as is what the grammar says of it: the module whose text it is, or the place
/// of the first token that no module text has there.
pub fn reading_law()
    ensures texts { ReadsTexts }
    ensures faults { ReadsFaults }
{}

/// A rule passes the bounds exactly where its printed text does: where more than 32 levels are open
/// in it at once, a select has more than 32 comparisons, or a text literal more than 64 bytes.
pub fn bounds_law()
    ensures { BoundsLaw }
{}

/// A text has one list of tokens and terminals.
pub fn token_law()
    ensures { (text : List ℕ) (ks ls : List Token) (ts us : List Terminal) (rest more : List ℕ) → HasTokens text ks ts rest → HasTokens text ls us more → (ks ≡ ls) × (ts ≡ us) × (rest ≡ more) }
{}

/// No two modules have one text.
pub fn one_module_law()
    ensures one { (ts : List Terminal) (a b : Form) → IsModuleText ts a → IsModuleText ts b → a ≡ b }
{}

/// What begins a module text is completed by plain terminals, which all can be spelled.
pub fn plain_end_law()
    ensures completed { (front : List Terminal) → Begins front → (more : List Terminal) × All IsPlain more × ((m : Form) × IsModuleText (front ++ more) m) }
{}

/// What is printed of a module is a text of it.
pub fn print_law()
    ensures { (m : Form) → IsPrintable m → IsTextOf (printed m) m }
{}

/// Behind an opening quote the token is a text literal exactly where the text stands there with its
/// escapes, with the closing quote behind it, has at most 64 bytes and is in UTF-8.
pub fn literal_law()
    ensures { (text t rest : List ℕ) → (front (34 ∷ text) ≡ Some (terminals.Text t, rest)) ↔ ((text ≡ escaped t ++ 34 ∷ rest) × (length t ≤ 64) × IsUtf8 t) }
{}
