// What an order remembers as plain numbers, which can be lent.
ghost use Rattle.sight.specs.Sights.{Remembers};

use order::Order;

// The parts that an order's closings are remembered for.
#[tactic(auto, using(crate::proofs::Sets::parts_of))]
pub fn parts_of(order: Order) -> [u8; 32]
    ensures { Remembers order result }
{
    let closings = order.remembered;
    let mut out = [0; 32];
    for i in 0..32 {
        out[i] = closings[i].part;
    }
    out
}
