//! Laws of tokens and of patched texts.

ghost use Rattle.std.specs.Prelude.{◌≡◌, ℕ, List, ◌≤◌, ◌<◌, ◌^◌, Bool, true, false, All};
ghost use Rattle.rr_syntax.specs.declared.token.Token.{Token};
ghost use Rattle.rr_syntax.specs.Words.{words};
ghost use Rattle.rr_lex.specs.declared.piece.Wrong.{Wrong};
ghost use Rattle.rr_lex.specs.Tokens.{Lexeme, lexemes, words_of, AreTokens, IsFirstFault, IsSound};
ghost use Rattle.rr_lex.specs.Numbers.{IsDecimal, number, digit};
ghost use Rattle.rr_lex.specs.Patch.{Edit, PatchReads, IsNew, IsNewUnquoted, IsNameText, new_decimal, new_literal, new_name, new_keyword, new_mark};

/// No bytes have two token lists.
pub fn one_token_list()
    ensures { (bytes : List ℕ) (ts us : List Lexeme) → AreTokens bytes ts → AreTokens bytes us → ts ≡ us }
{}

/// No bytes have both a token list and a first fault.
pub fn tokens_or_fault()
    ensures { (bytes : List ℕ) (ts : List Lexeme) (wrong : Wrong) (at : ℕ) → AreTokens bytes ts → IsFirstFault bytes wrong at → ⊥ }
{}

/// Two first faults are equal.
pub fn one_first_fault()
    ensures { (bytes : List ℕ) (wrong other : Wrong) (at place : ℕ) → IsFirstFault bytes wrong at → IsFirstFault bytes other place → (wrong ≡ other) × (at ≡ place) }
{}

/// The words of tokens are those of the tokens with their places.
pub fn words_of_tokens()
    ensures { (tokens : List Token) → words_of (lexemes tokens) ≡ words tokens }
{}

/// Each token of a text has a name, a literal or a place that a token may have.
pub fn words_are_sound()
    ensures { (bytes : List ℕ) (ts : List Lexeme) → AreTokens bytes ts → All IsSound (words_of ts) }
{}

/// The patched text has the source's words with some replaced and runs of new ones put in.
pub fn patched_text_reads()
    ensures { (bytes : List ℕ) (ts : List Lexeme) (es : List Edit) → PatchReads bytes ts es }
{}

/// The text of a literal is that literal wherever a blank follows.
pub fn literal_is_new()
    ensures { (width : ℕ) (signed : Bool) (value : ℕ) → 1 ≤ width → width ≤ 128 → value < 2 ^ width → IsNew (new_literal width signed value) }
{}

/// A plain decimal is that literal wherever a blank and then no apostrophe follows.
pub fn decimal_is_new()
    ensures { (text : List ℕ) → IsDecimal text → number 10 digit text < 2 ^ 32 → IsNewUnquoted (new_decimal text) }
{}

/// The text of a name is that name wherever a blank follows.
pub fn name_is_new()
    ensures { (name : List ℕ) → IsNameText name → IsNew (new_name name) }
{}

/// A reserved word is that word wherever a blank follows.
pub fn keyword_is_new()
    ensures { (k : ℕ) → k < 124 → IsNew (new_keyword k) }
{}

/// A mark is that mark wherever a blank follows.
pub fn mark_is_new()
    ensures { (m : ℕ) → m < 45 → IsNew (new_mark m) }
{}
