// The order of names.
#![tactic(auto)]

ghost use Rattle.std.specs.Prelude.{◌≡◌};
ghost use Rattle.name_order.specs.Order.{order_of, rises};

use std::cmp::Ordering;

// How two byte strings stand to each other, compared byte by byte, a proper prefix first.
#[tactic(auto, using(crate::proofs::Ordering::order_slices))]
pub fn compare(a: &[u8], b: &[u8]) -> Ordering
    ensures { result ≡ order_of a.now b.now }
{
    a.cmp(&b)
}

// Whether b comes after a, strictly.
#[tactic(auto, unfolding(crate::specs::Order::rises))]
pub fn rises(a: &[u8], b: &[u8]) -> bool
    ensures { result ≡ rises a.now b.now }
{
    compare(a, b).is_lt()
}
