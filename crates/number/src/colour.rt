// A colour's component and its byte.
ghost use Rattle.std.specs.Prelude.{◌≡◌};
ghost use Rattle.number.specs.Colour.{component_of, byte_of};

// Held to 0 to 1: 0 for what is below 0 or NaN, 1 for what is above 1.
pub fn component(x: f64) -> f64
    ensures { result ≡ component_of x }
{
    if x < 0.0 {
        0.0
    } else if 1.0 < x {
        1.0
    } else if x.is_nan() {
        0.0
    } else {
        x
    }
}

// The greatest whole number up to 255 that is not above 255 times c plus a half, reckoned exactly.
// Up to 2^-9 that is 0, and from 1 on 255. Between them 2^61 times c is a whole number n below 2^61,
// and the byte is (510 n + 2^61) / 2^62, worked out in two halves of 32 bits.
pub fn byte(c: f64) -> u8
    ensures { result ≡ byte_of c }
{
    if 0.001953125 < c {
        if c < 1.0 {
            let n = std::num::truncating_f64_to_u64(c * 2305843009213693952.0);
            let high = 510 * (n / 4294967296) + 536870912 + 510 * (n % 4294967296) / 4294967296;
            (high / 1073741824) as u8
        } else {
            255
        }
    } else {
        0
    }
}
