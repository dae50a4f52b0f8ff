//! Numbers in decimal digits.
ghost use Rattle.std.specs.Prelude.{◌≡◌, ◌<◌, ◌^◌, IfOk, IfErr, OnErr};
ghost use Rattle.std.specs.Str.Parse.{IsNumeral, digits_value};
ghost use Rattle.cg_name.specs.declared.refusal.Refusal.TheVariants.{Syntax};

use cg_name::Refusal;

/// The number below 2^32 that decimal digits alone spell, with leading zeros allowed; `Syntax` where the text is anything
/// else, such as one with a sign.
pub fn read_digits(text: &str) -> Result<u32, Refusal>
    ensures value { IfOk result (λ n. IsNumeral 10 text.now × (digits_value 10 text.now ≡ n)) }
    ensures syntax { OnErr result (IsNumeral 10 text.now → digits_value 10 text.now < 2 ^ 32 → ⊥) }
    ensures refusals { IfErr result (λ e. e ≡ Syntax) }
{
    if text.starts_with('+') {
        return Err(Refusal::Syntax);
    }
    match text.parse::<u32>() {
        Ok(number) => Ok(number),
        Err(_) => Err(Refusal::Syntax),
    }
}
