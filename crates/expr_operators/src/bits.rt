//! Operators on the bits of numbers. ECMA-262, 6.1.6.1.9 to 6.1.6.1.16 and 7.1.6.
ghost use Rattle.std.specs.Prelude.{◌≡◌, ◌<◌, ◌-◌, ◌^◌, Some, bit_and, bit_or, bit_xor};
ghost use Rattle.swc_ast.specs.Operators as operators;
ghost use Rattle.swc_utils.specs.Sound.{numeric};

/// A number modulo 2^32; NaN is 0.
pub(crate) fn to_u32(number: Option<i64>) -> u32
    ensures { result ≡ operators.to_u32 (numeric number) }
{
    match number {
        None => 0,
        Some(n) => {
            if n < 0 {
                let below = n.unsigned_abs() - 1;
                return (4294967295 - below % 4294967296) as u32;
            }
            (n.unsigned_abs() % 4294967296) as u32
        }
    }
}

/// 32 bits as a signed number.
pub(crate) fn as_i32(bits: u32) -> i64
    ensures { result ≡ operators.as_i32 bits }
{
    if bits < 2147483648 {
        return i64::from(bits);
    }
    -1 - i64::from(4294967295 - bits)
}

/// `~a`
pub(crate) fn complement(a: Option<i64>) -> i64
    ensures { result ≡ operators.as_i32 (2 ^ 32 - 1 - operators.to_u32 (numeric a)) }
{
    as_i32(4294967295 - to_u32(a))
}

pub(crate) fn and(a: Option<i64>, b: Option<i64>) -> i64
    ensures { result ≡ operators.as_i32 (bit_and (operators.to_u32 (numeric a)) (operators.to_u32 (numeric b))) }
{
    as_i32(to_u32(a) & to_u32(b))
}

pub(crate) fn or(a: Option<i64>, b: Option<i64>) -> i64
    ensures { result ≡ operators.as_i32 (bit_or (operators.to_u32 (numeric a)) (operators.to_u32 (numeric b))) }
{
    as_i32(to_u32(a) | to_u32(b))
}

pub(crate) fn xor(a: Option<i64>, b: Option<i64>) -> i64
    ensures { result ≡ operators.as_i32 (bit_xor (operators.to_u32 (numeric a)) (operators.to_u32 (numeric b))) }
{
    as_i32(to_u32(a) ^ to_u32(b))
}

/// `a << b`: by the count modulo 32.
pub(crate) fn shift_left(a: Option<i64>, b: Option<i64>) -> i64
    ensures { result ≡ operators.as_i32 (operators.shift_left (operators.to_u32 (numeric a)) (operators.to_u32 (numeric b))) }
{
    as_i32(to_u32(a) << (to_u32(b) % 32))
}

/// `a >> b`: the sign stays.
pub(crate) fn shift_right(a: Option<i64>, b: Option<i64>) -> i64
    ensures { result ≡ operators.shift_right (numeric a) (numeric b) }
{
    halve(as_i32(to_u32(a)), to_u32(b) % 32)
}

/// Halves a number so often, rounding down.
fn halve(n: i64, times: u32) -> i64
    requires { times < 32 }
    ensures { result ≡ operators.halved n times }
{
    if n < 0 {
        let size = (n.unsigned_abs() - 1) >> times;
        return -1 - size as i64;
    }
    (n.unsigned_abs() >> times) as i64
}

/// `a >>> b`
pub(crate) fn shift_right_zeros(a: Option<i64>, b: Option<i64>) -> i64
    ensures { result ≡ operators.shift_right_zeros (operators.to_u32 (numeric a)) (operators.to_u32 (numeric b)) }
{
    i64::from(to_u32(a) >> (to_u32(b) % 32))
}
