//! Laws of the definitions that the contracts cite. Each is a function with an empty body, which is
//! proved and never needs a call.

ghost use Rattle.std.specs.Prelude.{◌≡◌, ◌≢◌, ◌≤◌, ◌<◌, ◌≤ℤ◌, ◌<ℤ◌, ◌+ℤ◌, ◌*ℤ◌, ℕ, ℤ, pos, List, Bool, Ok, Err, IsTrue};
ghost use Rattle.std.specs.Prelude.{unsigned_abs};
ghost use Rattle.fixed_num.specs.Decimal.{read_text, value_of};
ghost use Rattle.fixed_num.specs.Number.{bound, remainder, floor_of};
ghost use Rattle.fixed_num.specs.NumberGrammar.{IsNumberText, HasNumberParts};
ghost use Rattle.fixed_num.specs.NumberText.{number_text};
ghost use Rattle.json_tokens.specs.Number.{is_number};
ghost use Rattle.fixed_num.specs.declared.decimal.NumFault.TheVariants.{NotNumber};

/// The texts that are read are those of the grammar of RFC 8259 §6, each as the number of
/// its parts.
pub fn number_texts_are_the_grammar()
    ensures read { (bs : List ℕ) (negative : Bool) (whole fraction : List ℕ)
        (is_down : Bool) (exponent : List ℕ) →
        IsNumberText bs negative whole fraction is_down exponent →
        read_text bs ≡ value_of negative whole fraction is_down exponent }
    ensures accepted { (bs : List ℕ) (negative : Bool) (whole fraction : List ℕ)
        (is_down : Bool) (exponent : List ℕ) →
        IsNumberText bs negative whole fraction is_down exponent → read_text bs ≢ Err NotNumber }
    ensures only { (bs : List ℕ) → read_text bs ≢ Err NotNumber → HasNumberParts bs }
{}

/// The texts that are read are the JSON numbers of `json_tokens`: of one of these, the only fault is
/// `Range`.
pub fn json_numbers_are_read()
    ensures read { (bs : List ℕ) → IsTrue (is_number bs) → read_text bs ≢ Err NotNumber }
    ensures only { (bs : List ℕ) → read_text bs ≢ Err NotNumber → IsTrue (is_number bs) }
{}

/// Reading the text of a number gives the number back.
pub fn written_numbers_are_read()
    ensures { (z : ℤ) → unsigned_abs z ≤ bound → read_text (number_text z) ≡ Ok z }
{}

/// What the quotient leaves is nearer to zero than the divisor, and not on the other side of zero
/// than the dividend.
pub fn remainder_is_left()
    ensures below { (x y r : ℤ) → remainder x y ≡ Ok r → unsigned_abs r < unsigned_abs y }
    ensures not_below_zero { (x y r : ℤ) → remainder x y ≡ Ok r → pos 0 ≤ℤ x → pos 0 ≤ℤ r }
    ensures not_above_zero { (x y r : ℤ) → remainder x y ≡ Ok r → x ≤ℤ pos 0 → r ≤ℤ pos 0 }
{}

/// The floor is whole, not above the number, and less than a unit below it.
pub fn floor_is_just_below()
    ensures whole { (z : ℤ) → (units : ℤ) × (floor_of z ≡ units *ℤ pos 1000000) }
    ensures not_above { (z : ℤ) → floor_of z ≤ℤ z }
    ensures near { (z : ℤ) → z <ℤ (floor_of z +ℤ pos 1000000) }
{}
