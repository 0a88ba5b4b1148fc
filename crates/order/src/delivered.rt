ghost use Rattle.std.specs.Prelude.{◌≡◌, length, MatchResult, ◌≢◌};
ghost use Rattle.order.specs.Orders.{delivered};

use crate::interface::Order;
use plan::refusal::Refusal;

/// An order that is delivered as 512 bytes: 64 rows of eight bytes, the lowest byte first, where bit `r` of row `p`
/// says whether `p` is below `r`.
#[derive(Clone, Copy, Debug, PartialEq, Eq)]
pub struct Delivered<'a> {
    bytes: &'a [u8; 512],
}

impl<'a> Delivered<'a> {
    /// The order that the bytes hold. Refused with number 14 where they are not 512.
    pub fn new(bytes: &'a [u8]) -> Result<Delivered<'a>, Refusal>
        ensures { MatchResult result (λ d. (length bytes.now ≡ 512) × (d.bytes.now ≡ bytes.now)) (λ e. (e ≡ Refusal.OrderLength) × (length bytes.now ≢ 512)) }
    {
        // Stays: `new` is a public name, and `TryFrom` no plainer: its promise would move to a ghost member.
        match <&[u8; 512]>::try_from(bytes) {
            Ok(bytes) => Ok(Delivered { bytes }),
            Err(_) => Err(Refusal::OrderLength),
        }
    }
}

impl<'a> Order for Delivered<'a> {
    ghost below = { λ d p r. delivered d.bytes.now p r };

    fn is_below(&self, p: u8, r: u8) -> bool {
        p < 64 && r < 64 && (self.bytes[p as usize * 8 + r as usize / 8] >> (r % 8)) % 2 == 1
    }
}
