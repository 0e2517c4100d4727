// What a line's first word asks for.
ghost use Rattle.std.specs.Prelude.{◌≡◌};
ghost use Rattle.commands.specs.Commands.{verb_of};

use super::{Alone, Listed, Numbered, Verb, Worded};

// What a line's first word asks for.
#[tactic(auto, unfolding(crate::specs::Commands::verb_of, crate::specs::Commands::alone_of, crate::specs::Commands::on_plan_of, crate::specs::Commands::worded_of, crate::specs::Commands::numbered_of, crate::specs::Commands::listed_of))]
pub(crate) fn verb_of(w: &[u8]) -> Verb
    ensures { result ≡ verb_of w.now }
{
    match w {
        [] | [b'#', ..] => Verb::Nothing,
        b"draw" => Verb::Alone { what: Alone::Draw },
        b"offer" => Verb::Alone { what: Alone::Offer },
        b"collect" => Verb::Alone {
            what: Alone::Collect,
        },
        b"waiting" => Verb::Alone {
            what: Alone::Waiting,
        },
        b"tally" => Verb::Alone { what: Alone::Tally },
        b"orders" => Verb::Alone {
            what: Alone::Orders,
        },
        b"offers" => Verb::Alone {
            what: Alone::Offers,
        },
        b"names" => Verb::Alone { what: Alone::Names },
        b"check" => Verb::Alone { what: Alone::Check },
        b"write" => Verb::Alone { what: Alone::Write },
        b"plan" => Verb::Worded { what: Worded::Plan },
        b"save" => Verb::Worded { what: Worded::Save },
        b"open" => Verb::Worded { what: Worded::Open },
        b"mend" => Verb::Worded { what: Worded::Mend },
        b"show" => Verb::Numbered {
            what: Numbered::Show,
        },
        b"step" => Verb::Numbered {
            what: Numbered::Step,
        },
        b"order" => Verb::Numbered {
            what: Numbered::Order,
        },
        b"post" => Verb::Listed { what: Listed::Post },
        b"run" => Verb::Listed { what: Listed::Run },
        _ => Verb::Unknown,
    }
}
