ghost use Rattle.std.specs.Prelude.{◌≡◌, ◌==◌, ◌<◌, Some, false, true, IfSome, IsTrue, length, slice_index, option_and_then};
ghost use Rattle.serde_json.specs.Find.{as_i64};
ghost use Rattle.serde_json.specs.Read.{number_of, number_from};

use fast_float::Numeral;

/// The whole number of 64 bits with sign that a number of JSON writes without a point or an exponent. None is found
/// for `-0`, which `serde_json` reads as a float. Takes no memory.
pub(crate) fn whole(text: &str) -> Option<i64>
    ensures { IfSome result (λ n. option_and_then as_i64 (number_of text.now) ≡ Some n) }
{
    let bytes = text.as_bytes();
    if has_minus(bytes) {
        below_zero(&Numeral::scan(&bytes[1..]))
    } else {
        from_zero(&Numeral::scan(bytes))
    }
}

fn has_minus(bytes: &[u8]) -> bool
    ensures value { result ≡ (slice_index bytes.now 0 == 45) }
    ensures some { IsTrue result → 0 < length bytes.now }
{
    !bytes.is_empty() && bytes[0] == b'-'
}

fn below_zero(numeral: &Numeral<'_>) -> Option<i64>
    ensures { IfSome result (λ n. option_and_then as_i64 (number_from true numeral.now) ≡ Some n) }
{
    match numeral.to_i64(true) {
        Some(n @ ..=-1) => Some(n),
        _ => None,
    }
}

fn from_zero(numeral: &Numeral<'_>) -> Option<i64>
    ensures { IfSome result (λ n. option_and_then as_i64 (number_from false numeral.now) ≡ Some n) }
{
    numeral.to_i64(false)
}
