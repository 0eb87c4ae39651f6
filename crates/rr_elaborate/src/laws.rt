//! The law of flat designs and refusals.

ghost use Rattle.std.specs.Prelude.{◌≡◌, ℕ, List, Option};
ghost use Rattle.rr_lex.specs.Tokens.{Lexeme};
ghost use Rattle.rr_flat.specs.Signals.{Text};
ghost use Rattle.rr_flat.specs.Plain.{Flat};
ghost use Rattle.rr_elaborate.specs.Designs.{IsDesign, IsSameRefusal, Refuses};
ghost use Rattle.rr_elaborate.specs.declared.design.DesignFault.{DesignFault};
ghost use Rattle.rr_elaborate.specs.declared.design.DesignFault.TheVariants.{Memory};

/// Bytes have one flat design with a top, its tokens with their numbers included. Where they have one,
/// nothing but want of memory refuses it; and two refusals are the same, but for want of memory and for
/// the byte that is told of tokens that spell no source text.
pub fn one_design()
    ensures one { (bytes : List ℕ) (top : Option Text) (ts us : List Lexeme) (f g : Flat) → IsDesign bytes ts top f → IsDesign bytes us top g → (ts ≡ us) × (f ≡ g) }
    ensures design_or_refusal { (bytes : List ℕ) (top : Option Text) (ts : List Lexeme) (f : Flat) (fault : DesignFault) → IsDesign bytes ts top f → Refuses bytes top fault → fault ≡ Memory }
    ensures one_refusal { (bytes : List ℕ) (top : Option Text) (e f : DesignFault) → Refuses bytes top e → Refuses bytes top f → IsSameRefusal e f }
{}
