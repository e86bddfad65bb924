// A field of polynomials over two elements, modulo a primitive polynomial.
ghost use Rattle.std.specs.Prelude.{◌≡◌, ◌<◌, ◌≤◌, ◌+◌, ◌-◌, ◌*◌, ◌^◌, ℕ};
ghost use Rattle.code_model.specs.Binary.{reduced, times, power, IsPrimitive};

/// A field of at most 2^14 elements: polynomials over two elements of degree below `DEGREE`, modulo
/// a primitive polynomial of that degree. Bit k of a number is the coefficient of x^k.
pub trait BinaryField {
    ghost DEGREE: { ℕ };

    ghost MODULUS: { ℕ };

    const DEGREE: u32;

    const MODULUS: u16;

    ghost primitive: { IsPrimitive DEGREE MODULUS };

    ghost small: { DEGREE ≤ 14 };
}

/// A field with a product and an inverse of its own, for code that is written once over both: by
/// bits, as `product` and `inverse` are, or by tables.
pub trait FieldProducts: BinaryField {
    /// The product of two elements, of degree below `DEGREE` each.
    fn product(a: u16, b: u16) -> u16
        requires left { a < 2 ^ Self.DEGREE }
        requires right { b < 2 ^ Self.DEGREE }
        ensures value { result ≡ times Self.DEGREE Self.MODULUS a b }
        ensures small { result < 2 ^ Self.DEGREE };

    /// The inverse of an element other than 0.
    fn inverse(a: u16) -> u16
        requires not_zero { 0 < a }
        requires small { a < 2 ^ Self.DEGREE }
        ensures value { times Self.DEGREE Self.MODULUS a result ≡ 1 }
        ensures small { result < 2 ^ Self.DEGREE };
}

/// The product by x of an element, of degree below `F::DEGREE`.
pub fn doubled<F: BinaryField>(a: u16) -> u16
    requires { a < 2 ^ F.DEGREE }
    ensures value { result ≡ reduced F.DEGREE F.MODULUS (2 * a) }
    ensures small { result < 2 ^ F.DEGREE }
{
    let twice = a * 2;
    if twice >> F::DEGREE == 1 {
        twice ^ F::MODULUS
    } else {
        twice
    }
}

/// The product of two elements, of degree below `F::DEGREE` each.
pub fn product<F: BinaryField>(a: u16, b: u16) -> u16
    requires left { a < 2 ^ F.DEGREE }
    requires right { b < 2 ^ F.DEGREE }
    ensures value { result ≡ times F.DEGREE F.MODULUS a b }
    ensures small { result < 2 ^ F.DEGREE }
{
    let mut sum = 0u16;
    for i in 0u32..F::DEGREE {
        sum = doubled::<F>(sum);
        if (a >> (F::DEGREE - 1 - i)) & 1 == 1 {
            sum ^= b;
        }
    }
    sum
}

/// The inverse of an element other than 0: its power 2^m - 2, where m is `F::DEGREE`.
pub fn inverse<F: BinaryField>(a: u16) -> u16
    requires not_zero { 0 < a }
    requires small { a < 2 ^ F.DEGREE }
    ensures value { times F.DEGREE F.MODULUS a result ≡ 1 }
    ensures small { result < 2 ^ F.DEGREE }
{
    let mut square = a;
    let mut all = 1u16;
    for i in 1u32..F::DEGREE {
        square = product::<F>(square, square);
        all = product::<F>(all, square);
    }
    all
}

/// The n-th power of x, by squaring.
pub fn power_of_x<F: BinaryField>(n: u32) -> u16
    ensures value { result ≡ power F.DEGREE F.MODULUS 2 n }
    ensures small { result < 2 ^ F.DEGREE }
{
    let mut power = 1u16;
    for i in 0u32..32u32 {
        power = product::<F>(power, power);
        if (n >> (31 - i)) & 1 == 1 {
            power = doubled::<F>(power);
        }
    }
    power
}

/// The logarithm of an element other than 0 to the base x, by trying the powers one after another.
pub fn logarithm<F: BinaryField>(a: u16) -> u32
    requires not_zero { 0 < a }
    requires small { a < 2 ^ F.DEGREE }
    ensures value { power F.DEGREE F.MODULUS 2 result ≡ a }
    ensures small { result < 2 ^ F.DEGREE - 1 }
{
    let mut power = 1u16;
    for n in 0u32..(1 << F::DEGREE) - 1 {
        if power == a {
            return n;
        }
        power = doubled::<F>(power);
    }
    0
}
