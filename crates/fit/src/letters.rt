// The messages as plain numbers, eight for each, which can be lent.
ghost use Rattle.fit.specs.Answering.{Numbers, Letters};

use machine::Message;

// One of the eight numbers of a message: its partner, its operation, its count, its four values, its reply partner.
#[tactic(auto, using(crate::proofs::Sets::number_of))]
fn number_of(message: Message, i: usize) -> u32
    ensures { Numbers message i result }
{
    match i {
        0 => message.partner,
        1 => message.operation,
        2 => message.count,
        3..=6 => message.values[i - 3],
        7 => message.reply,
        _ => 0,
    }
}

// The numbers of the messages that wait.
#[tactic(auto, using(crate::proofs::Sets::letters_of))]
pub fn letters_of(messages: [Message; 64], waiting: usize) -> [u32; 512]
    ensures { Letters messages waiting result }
{
    let mut out = [0; 512];
    if 64 < waiting {
        return out;
    }
    for i in 0..waiting * 8 {
        out[i] = number_of(messages[i / 8], i % 8);
    }
    out
}
