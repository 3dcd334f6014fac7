//! Operators on numbers, with the results that the language gives exactly: a double holds each whole number of at most
//! 2^53 - 1 in size, and -0 is none of them. NaN is None. ECMA-262, section 6.1.6.1.
ghost use Rattle.std.specs.Prelude.{◌≡◌, ◌<◌, ◌^◌, Some, SomeIff, ◌-ℤ◌};
ghost use Rattle.swc_ast.specs.Operators as operators;
ghost use Rattle.swc_ast.specs.Operators.{arith, core_number, nonzero_sign, times, quotient, remainder, power_of, xor};
ghost use Rattle.swc_utils.specs.Known.{minus, of_value};
ghost use Rattle.swc_utils.specs.Sound.{known_number, numeric};
ghost use Rattle.expr_rules.specs.Arithmetic as rules;
ghost use Rattle.expr_rules.specs.Arithmetic.{as_numeric, computed, summed};

use crate::bits;
use swc_ast::BinaryOp;
use swc_utils::Value;

/// 2^53 - 1
const GREATEST: u64 = 9007199254740991;

fn is_negative(n: i64) -> bool
    ensures { result ≡ operators.is_negative n }
{
    n < 0
}

/// Whether a product or a quotient of numbers is negative.
fn differ_in_sign(a: i64, b: i64) -> bool
    ensures { result ≡ xor (operators.is_negative a) (operators.is_negative b) }
{
    is_negative(a) != is_negative(b)
}

/// A number, if doubles hold it exactly.
fn exact(value: i64) -> Value<Option<i64>>
    ensures { known_number result ≡ of_value as_numeric (core_number value) }
{
    if value.unsigned_abs() <= GREATEST {
        return Value::Known(Some(value));
    }
    Value::Unknown
}

/// The number of a sign and a size, if doubles hold it exactly and it isn't -0.
fn signed(negative: bool, size: u64) -> Value<Option<i64>>
    ensures { known_number result ≡ of_value as_numeric (nonzero_sign negative size) }
{
    if GREATEST < size {
        return Value::Unknown;
    }
    let value = size as i64;
    if !negative {
        return Value::Known(Some(value));
    }
    if size == 0 {
        return Value::Unknown;
    }
    Value::Known(Some(-value))
}

/// `-a`
pub(crate) fn negate(a: Option<i64>) -> Value<Option<i64>>
    ensures { known_number result ≡ minus (Some (numeric a)) }
{
    match a {
        None => Value::Known(None),
        Some(n) => {
            if n == 0 || GREATEST < n.unsigned_abs() {
                return Value::Unknown;
            }
            Value::Known(Some(-n))
        }
    }
}

/// `a + b`
pub(crate) fn add(a: Option<i64>, b: Option<i64>) -> Value<Option<i64>>
    ensures { known_number result ≡ summed (Some (numeric a)) (Some (numeric b)) }
{
    match (a, b) {
        (Some(a), Some(b)) => match a.checked_add(b) {
            Some(sum) => exact(sum),
            None => Value::Unknown,
        },
        _ => Value::Known(None),
    }
}

fn subtract(a: Option<i64>, b: Option<i64>) -> Value<Option<i64>>
    ensures { known_number result ≡ of_value as_numeric (arith (λ m n. core_number (m -ℤ n)) (numeric a) (numeric b)) }
{
    match (a, b) {
        (Some(a), Some(b)) => match a.checked_sub(b) {
            Some(difference) => exact(difference),
            None => Value::Unknown,
        },
        _ => Value::Known(None),
    }
}

fn multiply(a: Option<i64>, b: Option<i64>) -> Value<Option<i64>>
    ensures { known_number result ≡ of_value as_numeric (arith times (numeric a) (numeric b)) }
{
    match (a, b) {
        (Some(a), Some(b)) => match a.unsigned_abs().checked_mul(b.unsigned_abs()) {
            Some(size) => signed(differ_in_sign(a, b), size),
            None => Value::Unknown,
        },
        _ => Value::Known(None),
    }
}

/// A quotient that is a whole number. That of 0 and 0 is NaN.
fn divide(a: Option<i64>, b: Option<i64>) -> Value<Option<i64>>
    ensures { known_number result ≡ of_value as_numeric (arith quotient (numeric a) (numeric b)) }
{
    match (a, b) {
        (Some(a), Some(b)) => {
            let size = a.unsigned_abs();
            let by = b.unsigned_abs();
            if by == 0 {
                return if size == 0 {
                    Value::Known(None)
                } else {
                    Value::Unknown
                };
            }
            if size % by != 0 {
                return Value::Unknown;
            }
            signed(differ_in_sign(a, b), size / by)
        }
        _ => Value::Known(None),
    }
}

/// A remainder, which has the dividend's sign. That by 0 is NaN.
fn remain(a: Option<i64>, b: Option<i64>) -> Value<Option<i64>>
    ensures { known_number result ≡ of_value as_numeric (arith remainder (numeric a) (numeric b)) }
{
    match (a, b) {
        (Some(a), Some(b)) => {
            let by = b.unsigned_abs();
            if by == 0 {
                return Value::Known(None);
            }
            signed(is_negative(a), a.unsigned_abs() % by)
        }
        _ => Value::Known(None),
    }
}

/// A power, if it is below 2^64.
fn power_size(base: u64, exponent: u64) -> Option<u64>
    ensures { SomeIff result (base ^ exponent < 2 ^ 64) (base ^ exponent) }
{
    if base < 2 && 0 < exponent {
        return Some(base);
    }
    match u32::try_from(exponent) {
        Ok(small) => base.checked_pow(small),
        Err(_) => None,
    }
}

/// A power of numbers. One of a negative exponent is a whole number for the bases 1 and -1 alone.
fn power_of_wholes(a: i64, b: i64) -> Value<Option<i64>>
    ensures { known_number result ≡ of_value as_numeric (operators.power a b) }
{
    let size = a.unsigned_abs();
    let exponent = b.unsigned_abs();
    let negative = is_negative(a) && exponent % 2 == 1;
    if is_negative(b) {
        return if size == 1 {
            signed(negative, 1)
        } else {
            Value::Unknown
        };
    }
    match power_size(size, exponent) {
        Some(size) => signed(negative, size),
        None => Value::Unknown,
    }
}

/// A power. One of the exponent 0 is 1, of NaN too.
fn power(a: Option<i64>, b: Option<i64>) -> Value<Option<i64>>
    ensures { known_number result ≡ of_value as_numeric (power_of (numeric a) (numeric b)) }
{
    match b {
        None => Value::Known(None),
        Some(exponent) => {
            if exponent == 0 {
                return Value::Known(Some(1));
            }
            match a {
                None => Value::Known(None),
                Some(base) => power_of_wholes(base, exponent),
            }
        }
    }
}

/// `/` and `%`
fn divides(op: BinaryOp) -> bool
    ensures { result ≡ rules.divides op }
{
    match op {
        BinaryOp::Div | BinaryOp::Mod => true,
        _ => false,
    }
}

pub(crate) fn is_zero(number: Option<i64>) -> bool
    ensures { result ≡ rules.is_zero (numeric number) }
{
    match number {
        Some(n) => n == 0,
        None => false,
    }
}

/// What `- * / % ** & | ^ << >> >>>` give on two numbers, if doubles hold it exactly and it isn't -0. Not known: a
/// division by 0, and other operators.
#[tactic(auto, unfolding(swc_ast::specs::Operators::binary_prim))]
pub(crate) fn compute(op: BinaryOp, a: Option<i64>, b: Option<i64>) -> Value<Option<i64>>
    ensures { known_number result ≡ computed op (Some (numeric a)) (Some (numeric b)) }
{
    if divides(op) && is_zero(b) {
        return Value::Unknown;
    }
    match op {
        BinaryOp::Sub => subtract(a, b),
        BinaryOp::Mul => multiply(a, b),
        BinaryOp::Div => divide(a, b),
        BinaryOp::Mod => remain(a, b),
        BinaryOp::Exp => power(a, b),
        BinaryOp::BitAnd => Value::Known(Some(bits::and(a, b))),
        BinaryOp::BitOr => Value::Known(Some(bits::or(a, b))),
        BinaryOp::BitXor => Value::Known(Some(bits::xor(a, b))),
        BinaryOp::LShift => Value::Known(Some(bits::shift_left(a, b))),
        BinaryOp::RShift => Value::Known(Some(bits::shift_right(a, b))),
        BinaryOp::ZeroFillRShift => Value::Known(Some(bits::shift_right_zeros(a, b))),
        BinaryOp::Add
        | BinaryOp::EqEq
        | BinaryOp::NotEq
        | BinaryOp::EqEqEq
        | BinaryOp::NotEqEq
        | BinaryOp::Lt
        | BinaryOp::LtEq
        | BinaryOp::Gt
        | BinaryOp::GtEq
        | BinaryOp::LogicalOr
        | BinaryOp::LogicalAnd
        | BinaryOp::In
        | BinaryOp::InstanceOf
        | BinaryOp::NullishCoalescing => Value::Unknown,
    }
}
