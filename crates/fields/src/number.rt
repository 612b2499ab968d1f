// A number field: decimal digits, any number of leading zeros, at most a limit.
ghost use Rattle.std.specs.Prelude.{◌≡◌, ℕ, ◌≤◌, true, IfOk, Ok};
ghost use Rattle.std.specs.Str.{all_ascii_digits};
ghost use Rattle.fields.specs.Numbers.{Numeral, within, read_field};

use crate::fault::FieldFault;

fn all_digits(bytes: &[u8]) -> bool
    ensures { result ≡ all_ascii_digits bytes.now }
{
    bytes.iter().all(u8::is_ascii_digit)
}

// The number that the digits stand for, or none where it is above the limit.
#[tactic(auto, using(crate::proofs::Digits::step))]
fn number_within(digits: &[u8], limit: u32) -> Option<u32>
    requires { all_ascii_digits digits.now ≡ true }
    ensures { result ≡ within limit digits.now }
{
    // A `for`: tried as a `try_fold`, it stayed open that the closure meets digits alone, which its subtraction has to know.
    let mut number: u32 = 0;
    for byte in digits {
        let digit = u32::from(*byte - b'0');
        number = number.checked_mul(10)?.checked_add(digit)?;
    }
    (number <= limit).then_some(number)
}

// The number in a field; `field` says which field of its line it is.
pub fn read_field(bytes: &[u8], field: usize, limit: u32) -> Result<u32, FieldFault>
    ensures value { result ≡ read_field field limit bytes.now }
    ensures exact { (n : ℕ) → (result ≡ Ok n → Numeral limit bytes.now n) × (Numeral limit bytes.now n → result ≡ Ok n) }
    ensures bound { IfOk result (λ n. n ≤ limit) }
{
    if bytes.is_empty() {
        return Err(FieldFault::Empty { field });
    }
    if !all_digits(bytes) {
        return Err(FieldFault::NotDigit { field });
    }
    number_within(bytes, limit).ok_or(FieldFault::AboveLimit { field })
}
