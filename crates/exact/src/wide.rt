ghost use Rattle.std.specs.Prelude.{◌≡◌, ◌+◌, ◌*◌, ◌^◌, ◌<◌, ◌≤◌, nat_le};

const HALF: u128 = 0x1_0000_0000_0000_0000;

// A product of 256 bits: high × 2^128 + low. The order is that of the fields.
#[derive(Clone, Copy, PartialEq, Eq, PartialOrd, Ord)]
struct Wide {
    high: u128,
    low: u128,
}

// The product of two numbers of 64 bits.
fn half_product(a: u128, b: u128) -> u128
    requires { (a < 2 ^ 64) × (b < 2 ^ 64) }
    ensures value { result ≡ a * b }
    ensures bound { result + 2 ^ 65 ≤ 2 ^ 128 + 1 }
{
    a * b
}

// The whole product of two numbers of 128 bits.
fn wide_product(a: u128, b: u128) -> Wide
    ensures { result.high * 2 ^ 128 + result.low ≡ a * b }
{
    let a1 = a / HALF;
    let a0 = a % HALF;
    let b1 = b / HALF;
    let b0 = b % HALF;
    let low = half_product(a0, b0);
    let left = half_product(a1, b0);
    let right = half_product(a0, b1);
    let high = half_product(a1, b1);
    let middle = low / HALF + left % HALF + right % HALF;
    Wide {
        high: high + left / HALF + right / HALF + middle / HALF,
        low: middle % HALF * HALF + low % HALF,
    }
}

// Whether a × b is at most c × d, with no bound on the products.
pub fn product_le(a: u128, b: u128, c: u128, d: u128) -> bool
    ensures { result ≡ nat_le (a * b) (c * d) }
{
    let left = wide_product(a, b);
    let right = wide_product(c, d);
    left <= right
}

#[cfg(test)]
mod tests {
    use super::*;

    #[test]
    fn products_past_128_bits_are_compared_exactly(rt: HostRuntime) {
        let most = u128::MAX;
        assert!(rt; product_le(most, most - 1, most - 1, most));
        assert!(rt; product_le(most - 2, most, most - 1, most - 1));
        assert!(rt; !product_le(most - 1, most - 1, most - 2, most));
    }
}
